//! The command `narrow`, which adds caveats to a pass.

ghost use Rattle.std.specs.Prelude.{◌≡◌, ◌≤◌, length, map};
ghost use Rattle.pass_forms.specs.Reading.{UnlessMemory, max_caveats};
ghost use Rattle.passtool_commands.specs.Answer as spec;

use crate::answer::Answer;
use crate::caveats::Caveats;
use crate::input::read_pass;
use crate::output::written;
use pass_forms::{FormFault, Pass};
use std::alloc::Global;

/// Reads a pass from the input, and adds the caveats in order. Returns the new pass in the form of
/// the input.
pub fn narrow(alloc: Global, caveats: &Caveats<'_>, bytes: &[u8]) -> Result<Answer, FormFault>
    ensures { UnlessMemory (spec.NarrowsPass caveats.now bytes.now) result }
{
    let (form, pass) = read_pass(alloc, bytes)?;
    let pass = narrowed_pass(alloc, pass, caveats.as_slice())?;
    written(alloc, form, &pass)
}

/// Adds caveats to a pass one by one. The given pass must have at most 64 caveats. Each pass from
/// `mint` or from the input meets this limit.
pub fn narrowed_pass(alloc: Global, mut pass: Pass, caveats: &[&str]) -> Result<Pass, FormFault>
    requires { length pass.caveats ≤ max_caveats }
    ensures { UnlessMemory
        (λ answer. spec.narrowing (map (λ caveat. caveat.now) caveats.now) pass ≡ answer) result }
{
    for caveat in caveats {
        pass_forms::narrow(alloc, &mut pass, caveat.as_bytes())?;
    }
    Ok(pass)
}
