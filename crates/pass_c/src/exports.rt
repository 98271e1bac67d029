//! The functions that C code can call. C code passes a slice as a pointer and a length. The
//! allocator `Global` isn't an argument in C.

ghost use Rattle.std.specs.Prelude.{◌≡◌, ◌≢◌, ◌↔◌, ◌+◌, ◌<◌, ◌≤◌, ◌⊎◌, ℕ, List, Err, IfOk, IsTrue};
ghost use Rattle.std.specs.Prelude.{MatchOption, length, slice_get};
ghost use Rattle.pass_calls.specs.{Ask.Answers, Code.{code_of, memory_code, no_caveat_code}};
ghost use Rattle.pass_calls.specs.Code.{number_of_form, ok_code, result_of, too_many_code};
ghost use Rattle.pass_calls.specs.Object.{IsEmpty, fields_len, filled, form_in, held, room};
ghost use Rattle.pass_calls.specs.Object.{room_code, taken};
ghost use Rattle.pass_calls.specs.Output.{IsCopied, IsLeft, IsTextCopied, WritesForm};
ghost use Rattle.pass_caveats.specs.{Caveat.Understood, Fault.IsFirstFault};
ghost use Rattle.pass_caveats.specs.declared.caveat.Caveat.{Caveat};
ghost use Rattle.pass_forms.specs.declared.fault.FormFault.TheVariants.{Memory, TooMany};
ghost use Rattle.pass_forms.specs.{Reading.{UnlessMemory, max_caveats}, computed.Reading.is_signed};
ghost use Rattle.pass_forms.specs.{Pass.{IsSigned, minted_pass}, declared.form.Form.TheVariants.V2};
ghost use Rattle.pass_forms.specs.Writing.{with_caveat};
ghost use Rattle.pass_json.specs.{AnyForm.{IsAnyReading, MayRunOut}, computed.AnyForm.reading};

use pass_calls::{
    AskObject, BAD_ASK, MEMORY, NO_CAVEAT, NO_FORM, OK, PassObject, code_of, fault_code, form_of,
    put, verdict_of,
};
use pass_caveats::laws::reads_what_is_understood;
use pass_forms::Form;
use std::alloc::Global;

/// Reads a pass from a text in any form. If the call fails, it empties the object.
#[unsafe(no_mangle)]
pub extern "C" fn clubpass_read(alloc: Global, text: &[u8], pass: &mut PassObject) -> u32
    ensures spelling { UnlessMemory (IsAnyReading text.now) (filled (result_of result) pass.new) }
    ensures computed { UnlessMemory (λ answer. reading text.now ≡ answer)
        (filled (result_of result) pass.new) }
    ensures memory { result_of result ≡ Err Memory → MayRunOut text.now }
    ensures code { result ≡ code_of (result_of result) }
    ensures taken { result ≡ ok_code → taken pass.new ≡ fields_len (held pass.new) }
    ensures form { result ≡ ok_code → pass.new.form ≡ number_of_form (form_in pass.new) }
    ensures empty { result ≢ ok_code → IsEmpty pass.new }
{
    code_of(pass.read(alloc, text))
}

/// Returns the number of the form from which the pass was read: 1 for V1, 2 for V2, 3 for JSON. The
/// number is 2 for a minted pass, and 0 for an empty object.
#[unsafe(no_mangle)]
pub extern "C" fn clubpass_form(pass: &PassObject) -> u32
    ensures { result ≡ pass.now.form }
{
    pass.form
}

/// Writes the location to the buffer.
#[unsafe(no_mangle)]
pub extern "C" fn clubpass_location(pass: &PassObject, out: &mut [u8], len: &mut usize) -> u32
    ensures { IsCopied (held pass.now).location out.old out.new len.new result }
{
    put(pass.location(), out, len)
}

/// Writes the identifier to the buffer.
#[unsafe(no_mangle)]
pub extern "C" fn clubpass_identifier(pass: &PassObject, out: &mut [u8], len: &mut usize) -> u32
    ensures { IsCopied (held pass.now).identifier out.old out.new len.new result }
{
    put(pass.identifier(), out, len)
}

/// Returns the number of caveats.
#[unsafe(no_mangle)]
pub extern "C" fn clubpass_caveat_count(pass: &PassObject) -> usize
    ensures { result ≡ length (held pass.now).caveats }
{
    pass.caveat_count()
}

/// Writes the caveat with this index, counted from 0, to the buffer.
#[unsafe(no_mangle)]
pub extern "C" fn clubpass_caveat(
    pass: &PassObject,
    index: usize,
    out: &mut [u8],
    len: &mut usize,
) -> u32
    ensures { MatchOption (slice_get (held pass.now).caveats index)
        (IsLeft no_caveat_code out.old out.new len.new result)
        (λ caveat. IsCopied caveat out.old out.new len.new result) }
{
    match pass.caveat(index) {
        Some(caveat) => put(caveat, out, len),
        None => {
            *len = 0;
            NO_CAVEAT
        }
    }
}

/// Writes the signature to the buffer.
#[unsafe(no_mangle)]
pub extern "C" fn clubpass_signature(pass: &PassObject, out: &mut [u8; 32])
    ensures { out.new ≡ (held pass.now).signature }
{
    *out = pass.signature;
}

/// Writes the text of a pass to the buffer. `form` is the number of the text's form.
#[unsafe(no_mangle)]
pub extern "C" fn clubpass_write(
    alloc: Global,
    pass: &PassObject,
    form: u32,
    out: &mut [u8],
    len: &mut usize,
) -> u32
    ensures { WritesForm form (held pass.now) out.old out.new len.new result }
{
    match form_of(form) {
        Some(form) => write_in(alloc, pass, form, out, len),
        None => {
            *len = 0;
            NO_FORM
        }
    }
}

// Writes the text of a pass to the buffer, in this form.
fn write_in(alloc: Global, pass: &PassObject, form: Form, out: &mut [u8], len: &mut usize) -> u32
    ensures { IsTextCopied form (held pass.now) out.old out.new len.new result }
{
    *len = 0;
    match pass.write(alloc, form) {
        Ok(text) => put(text.as_bytes(), out, len),
        Err(fault) => fault_code(fault),
    }
}

/// Makes a new pass without caveats, signed under a root.
#[unsafe(no_mangle)]
pub extern "C" fn clubpass_mint(
    root: &[u8],
    location: &[u8],
    identifier: &[u8],
    pass: &mut PassObject,
) -> u32
    ensures code { result ≡ room_code (length location.now + length identifier.now) }
    ensures value { result ≡ ok_code
        → held pass.new ≡ minted_pass root.now location.now identifier.now }
    ensures signed { result ≡ ok_code → IsSigned root.now (held pass.new) }
    ensures taken { result ≡ ok_code
        → taken pass.new ≡ length location.now + length identifier.now }
    ensures form { result ≡ ok_code → pass.new.form ≡ number_of_form V2 }
    ensures empty { result ≢ ok_code → IsEmpty pass.new }
{
    if pass.mint(root, location, identifier) {
        OK
    } else {
        MEMORY
    }
}

/// Adds a caveat to a pass. The call computes the new signature from the old signature and the
/// caveat, without the root. If the call fails, the pass is unchanged.
#[unsafe(no_mangle)]
pub extern "C" fn clubpass_narrow(pass: &mut PassObject, caveat: &[u8]) -> u32
    ensures value { result ≡ ok_code → held pass.new ≡ with_caveat caveat.now (held pass.old) }
    ensures signed { result ≡ ok_code
        → (root : List ℕ) → IsSigned root (held pass.old) → IsSigned root (held pass.new) }
    ensures taken { result ≡ ok_code → taken pass.new ≡ taken pass.old + length caveat.now }
    ensures unchanged { result ≢ ok_code → pass.new ≡ pass.old }
    ensures form { pass.new.form ≡ pass.old.form }
    ensures too_many { (result ≡ too_many_code) ↔ (max_caveats ≤ length (held pass.old).caveats) }
    ensures memory { (result ≡ memory_code) ↔ ((length (held pass.old).caveats < max_caveats)
        × (room < taken pass.old + length caveat.now)) }
    ensures code { (result ≡ ok_code) ⊎ ((result ≡ too_many_code) ⊎ (result ≡ memory_code)) }
{
    code_of(pass.narrow(caveat))
}

/// Returns true if a pass is signed under a root.
#[unsafe(no_mangle)]
pub extern "C" fn clubpass_is_signed(pass: &PassObject, root: &[u8]) -> bool
    ensures signed { IsTrue result ↔ IsSigned root.now (held pass.now) }
    ensures computed { result ≡ is_signed root.now (held pass.now) }
{
    pass.is_signed(root)
}

/// Finds the first caveat that isn't understood or that denies the ask. Sets `number` to the
/// position of this caveat, counted from 1. If no caveat has a fault or the ask is invalid, sets
/// `number` to 0.
#[unsafe(no_mangle)]
pub extern "C" fn clubpass_first_fault(
    pass: &PassObject,
    ask: &AskObject,
    number: &mut usize,
) -> u32
    ensures { Answers (held pass.now).caveats ask.now result number.new }
{
    *number = 0;
    let Some(ask) = ask.to_ask() else {
        return BAD_ASK;
    };
    let (code, place) = verdict_of(pass.first_fault(&ask));
    *number = place;
    code
}

/// Returns true if a text is a caveat of the caveat language.
#[unsafe(no_mangle)]
pub extern "C" fn clubpass_is_caveat(text: &[u8]) -> bool
    ensures { IsTrue result ↔ ((caveat : Caveat) × Understood text.now caveat) }
{
    pass_caveats::read(text).is_some()
}
