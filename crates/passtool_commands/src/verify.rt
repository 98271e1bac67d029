//! The command `verify`, which checks if the input's pass is signed under a root.

ghost use Rattle.std.specs.Prelude.{IfOk, Ok};
ghost use Rattle.pass_forms.specs.Reading.{UnlessMemory};
ghost use Rattle.passtool_commands.specs.Answer as spec;

use crate::answer::{Answer, Outcome};
use crate::input::read_pass;
use command_line::Root;
use pass_forms::{FormFault, Pass};
use std::alloc::{AllocError, Global};

/// Checks if the input's pass is signed under the root.
pub fn verify(alloc: Global, root: &Root, bytes: &[u8]) -> Result<Answer, FormFault>
    ensures { UnlessMemory (spec.VerifiesPass root.now bytes.now) result }
{
    let (_, pass) = read_pass(alloc, bytes)?;
    let answer = verdict(alloc, root, &pass)?;
    Ok(answer)
}

fn verdict(alloc: Global, root: &Root, pass: &Pass) -> Result<Answer, AllocError>
    ensures { IfOk result (λ answer. spec.IsVerdict root.now pass.now (Ok answer)) }
{
    let signed = pass.is_signed(root.as_slice());
    let (outcome, line) = if signed {
        (Outcome::Done, "signed\n")
    } else {
        (Outcome::NotSigned, "not signed\n")
    };
    Ok(Answer::new(outcome, String::from_str(alloc, line)?))
}
