//! Reads and writes pass texts in any of the three forms.

ghost use Rattle.std.specs.Prelude.{◌≡◌, ◌⊎◌, Err, IfErr, IfOk, MatchResult, Ok, length};
ghost use Rattle.std.specs.String.{string_bytes};
ghost use Rattle.pass_forms.specs.{Reading.{IsReadAs, UnlessMemory}, Writing.IsWritableText};
ghost use Rattle.pass_forms.specs.{declared.fault.FormFault.TheVariants.Memory, Pass.Plain};
ghost use Rattle.pass_forms.specs.declared.form.Form.TheVariants.{Json};
ghost use Rattle.pass_json.specs.AnyForm.{IsAnyReading, IsRefusedIn, IsTextIn, MayRunOut};
ghost use Rattle.pass_json.specs.{AnyForm.SpellsForm, JsonWriting.MayFailAs};
ghost use Rattle.pass_json.specs.computed.AnyForm.{reading, writing};

use crate::laws::{reads_any_form_exactly, reads_what_is_wrapped, refuses_what_wraps_nothing};
use crate::{read_json, write_json};
use pass_forms::{
    Form, FormFault, MAX_BYTES, Pass, read_v1, read_v2, unwrap_text, write_v1, write_v2,
};
use std::alloc::Global;

/// Reads a pass text in any form. The text is plain JSON, or base64 of a pass in JSON, V1 or V2.
/// The call `unwrap_text` determines the form.
///
/// # Errors
///
/// Fails with the first fault that applies:
///
/// - `TooLong` for more than 8,192 bytes,
/// - `Malformed` if the text isn't a pass,
/// - `ThirdParty` for a third-party caveat,
/// - `TooMany` for more than 64 caveats.
///
/// Fails with `Memory` only if an allocation fails. In V1 and V2, an allocation can fail only after
/// all checks succeed.
pub fn read_any(alloc: Global, text: &[u8]) -> Result<(Form, Pass), FormFault>
    // The result is the pass that the text encodes, or the first fault that applies.
    ensures spelling { UnlessMemory (IsAnyReading text.now) result }
    // If memory doesn't run out, the result equals the result of `reading` for the text.
    ensures computed { UnlessMemory (λ answer. reading text.now ≡ answer) result }
    ensures memory { result ≡ Err Memory → MayRunOut text.now }
{
    reads_any_form_exactly();
    unwrapping(alloc, text)
}

// Unwraps a text and reads the unwrapped bytes. Returns the form and the pass.
fn unwrapping(alloc: Global, text: &[u8]) -> Result<(Form, Pass), FormFault>
    ensures spelling { UnlessMemory (IsAnyReading text.now) result }
    ensures memory { result ≡ Err Memory → MayRunOut text.now }
{
    reads_what_is_wrapped();
    refuses_what_wraps_nothing();
    let mut buffer = [0; MAX_BYTES];
    let unwrapping = unwrap_text(text, &mut buffer)?;
    let pass = in_form(alloc, unwrapping.form, unwrapping.bytes(text, &buffer))?;
    Ok((unwrapping.form, pass))
}

// Returns the pass that the bytes encode in the given form.
fn in_form(alloc: Global, form: Form, bytes: &[u8]) -> Result<Pass, FormFault>
    ensures spelling { UnlessMemory (IsReadAs (length bytes.now) (SpellsForm form bytes.now))
        result }
    ensures memory { result ≡ Err Memory
        → ((pass : Plain) × IsReadAs (length bytes.now) (SpellsForm form bytes.now) (Ok pass))
        ⊎ (form ≡ Json) }
{
    match form {
        Form::V1 => read_v1(alloc, bytes),
        Form::V2 => read_v2(alloc, bytes),
        Form::Json => read_json(alloc, bytes),
    }
}

/// Returns the text of a pass in the given form. A JSON text is plain JSON. A V1 or V2 text is
/// base64.
///
/// # Errors
///
/// Fails with `TooMany` if the pass has more than 64 caveats. Otherwise fails with `TooLong` if the
/// text would have more than 8,192 bytes. Fails with `Memory` only if an allocation fails. In JSON,
/// an allocation can fail even for a text that is too long.
#[tactic(auto, using(crate::proofs::ExactLemmas::may_fail), unfolding(crate::specs::computed::AnyForm::writing))]
pub fn write_any(alloc: Global, form: Form, pass: &Pass) -> Result<String, FormFault>
    ensures ok { IfOk result (λ text. IsWritableText (IsTextIn form) pass.now (string_bytes text)) }
    ensures err { IfErr result (IsRefusedIn form pass.now) }
    ensures read_back { IfOk result
        (λ text. IsAnyReading (string_bytes text) (Ok (form, pass.now))) }
    // If memory doesn't run out, the result equals the result of `writing` for the pass.
    ensures computed { MatchResult result (λ text. writing form pass.now ≡ Ok (string_bytes text))
        (MayFailAs (writing form pass.now)) }
{
    match form {
        Form::V1 => write_v1(alloc, pass),
        Form::V2 => write_v2(alloc, pass),
        Form::Json => write_json(alloc, pass),
    }
}
