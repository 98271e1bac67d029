//! Reads passes from JSON.

ghost use Rattle.std.specs.Prelude.{◌≡◌, ◌≤◌, length, Err, IfErr, IfOk, Some};
ghost use Rattle.pass_forms.specs.Reading.{IsReadAs, UnlessMemory, max_text_len};
ghost use Rattle.pass_forms.specs.declared.fault.FormFault.TheVariants.{Memory};
ghost use Rattle.serde_json.specs.View.{view};
ghost use Rattle.pass_json.specs.{Json.SpellsJson, computed.JsonReading.RefusesPart};
ghost use Rattle.pass_json.specs.computed.JsonReading as reading;

use crate::laws::reads_json_exactly;
use crate::object;
use pass_forms::{FormFault, MAX_CAVEATS, MAX_TEXT, Pass};
use serde_json::Value;
use std::alloc::Global;

/// Reads a pass from JSON. The JSON is one object in the style of libmacaroons' V2 JSON. The crate
/// `serde_json` parses the JSON. The names may be in any order, and white space is allowed.
///
/// # Errors
///
/// Fails with the first fault that applies:
///
/// - `TooLong` for more than 8,192 bytes,
/// - `Malformed` if the bytes aren't a pass,
/// - `ThirdParty` for a third-party caveat,
/// - `TooMany` for more than 64 caveats.
///
/// Fails with `Memory` only if an allocation fails. The fault `Memory` is possible only if `bytes`
/// has at most 8,192 bytes.
pub fn read_json(alloc: Global, bytes: &[u8]) -> Result<Pass, FormFault>
    // The result is the pass that the bytes encode, or the first fault that applies.
    ensures spelling { UnlessMemory (IsReadAs (length bytes.now) (SpellsJson bytes.now)) result }
    // If memory doesn't run out, the result equals the result of `reading_json` for the bytes.
    ensures computed { UnlessMemory (λ answer. reading.reading_json bytes.now ≡ answer) result }
    ensures memory { result ≡ Err Memory → length bytes.now ≤ max_text_len }
{
    reads_json_exactly();
    read_object(alloc, bytes)
}

// Returns the pass that the bytes encode, or the first fault that applies.
#[tactic(auto, unfolding(crate::specs::computed::JsonReading::reading_json, crate::specs::computed::JsonReading::wide_json))]
fn read_object(alloc: Global, bytes: &[u8]) -> Result<Pass, FormFault>
    ensures answer { UnlessMemory (λ answer. reading.reading_json bytes.now ≡ answer) result }
    ensures memory { result ≡ Err Memory → length bytes.now ≤ max_text_len }
{
    if bytes.len() > MAX_TEXT {
        return Err(FormFault::TooLong);
    }
    let read = object::pass_from(alloc, &value_of(alloc, bytes)?)?;
    if read.third_party {
        return Err(FormFault::ThirdParty);
    }
    if read.caveat_count > MAX_CAVEATS {
        return Err(FormFault::TooMany);
    }
    Ok(read.pass)
}

// Parses bytes as a JSON value with `serde_json`.
fn value_of(alloc: Global, bytes: &[u8]) -> Result<Value, FormFault>
    ensures ok { IfOk result (λ value. reading.value_of bytes.now ≡ Some (view value)) }
    ensures err { IfErr result (RefusesPart (reading.value_of bytes.now)) }
{
    match Value::from_slice(alloc, bytes) {
        Ok(value) => Ok(value),
        Err(error) => {
            if error.is_memory() {
                return Err(FormFault::Memory);
            }
            Err(FormFault::Malformed)
        }
    }
}
