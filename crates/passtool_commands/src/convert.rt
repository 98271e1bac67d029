//! The command `convert`, which writes a pass in another form.

ghost use Rattle.pass_forms.specs.Reading.{UnlessMemory};
ghost use Rattle.passtool_commands.specs.Answer as spec;

use crate::answer::Answer;
use crate::input::read_pass;
use crate::output::written;
use pass_forms::{Form, FormFault};
use std::alloc::Global;

/// Reads a pass from the input, and returns the pass in this form.
pub fn convert(alloc: Global, form: Form, bytes: &[u8]) -> Result<Answer, FormFault>
    ensures { UnlessMemory (spec.ConvertsPass form bytes.now) result }
{
    let (_, pass) = read_pass(alloc, bytes)?;
    written(alloc, form, &pass)
}
