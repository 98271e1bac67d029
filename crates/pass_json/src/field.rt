//! Reads one field of a JSON object. A field is either a string under a plain name such as `i`, or
//! base64 under a base64 name such as `i64`.

ghost use Rattle.std.specs.Prelude.{◌≡◌, Some, option_map, IfErr, IfOk};
ghost use Rattle.serde_json.specs.{Find.as_str, View.view};
ghost use Rattle.pass_json.specs.computed.JsonReading.{decoded_text, field_from, RefusesPart};

use pass_forms::{FormFault, decode_base64};
use serde_json::Value;
use std::alloc::Global;

/// Returns the bytes of a field, or `None` if the object has neither the name `plain` nor the name
/// `base64`.
#[tactic(auto, unfolding(crate::specs::computed::JsonReading::field_from))]
pub fn field(
    alloc: Global,
    object: &Value,
    plain: &str,
    base64: &str,
) -> Result<Option<Vec<u8>>, FormFault>
    ensures ok { IfOk result (λ bytes. field_from plain.now base64.now (view object.now)
        ≡ Some (option_map (λ b. b.items) bytes)) }
    ensures err { IfErr result (RefusesPart (field_from plain.now base64.now (view object.now))) }
{
    match (object.get(plain), object.get(base64)) {
        (None, None) => Ok(None),
        (Some(text), None) => Ok(Some(plain_bytes(alloc, text)?)),
        (None, Some(text)) => Ok(Some(decode_text(alloc, text)?)),
        (Some(_), Some(_)) => Err(FormFault::Malformed),
    }
}

// Returns the bytes of a JSON string.
fn plain_bytes(alloc: Global, value: &Value) -> Result<Vec<u8>, FormFault>
    ensures ok { IfOk result (λ bytes. as_str (view value.now) ≡ Some bytes.items) }
    ensures err { IfErr result (RefusesPart (as_str (view value.now))) }
{
    let Some(text) = value.as_str() else {
        return Err(FormFault::Malformed);
    };
    Ok(Vec::from_slice(alloc, text.as_bytes())?)
}

// Decodes the base64 in a JSON string.
fn decode_text(alloc: Global, value: &Value) -> Result<Vec<u8>, FormFault>
    ensures ok { IfOk result (λ bytes. decoded_text (view value.now) ≡ Some bytes.items) }
    ensures err { IfErr result (RefusesPart (decoded_text (view value.now))) }
{
    let Some(text) = value.as_str() else {
        return Err(FormFault::Malformed);
    };
    decode_base64(alloc, text.as_bytes())?.ok_or(FormFault::Malformed)
}
