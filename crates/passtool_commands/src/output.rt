//! Writes a pass as a command's answer.

ghost use Rattle.pass_forms.specs.Reading.{UnlessMemory};
ghost use Rattle.passtool_commands.specs.Answer as spec;

use crate::answer::{Answer, Outcome};
use pass_forms::{Form, FormFault, Pass};
use pass_json::write_any;
use std::alloc::Global;

/// Returns an answer with the text of the pass in this form, followed by a line feed.
pub fn written(alloc: Global, form: Form, pass: &Pass) -> Result<Answer, FormFault>
    ensures { UnlessMemory (spec.WritesPass form pass.now) result }
{
    let mut text = write_any(alloc, form, pass)?;
    text.push('\n')?;
    Ok(Answer::new(Outcome::Done, text))
}
