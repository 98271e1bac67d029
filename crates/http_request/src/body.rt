//! The body of a request.

ghost use Rattle.std.specs.{BTreeMap.keys, List.list_all, Prelude.{◌≡◌, ◌<◌, length, Some, codes}};
ghost use Rattle.std.specs.{Prelude.{MatchResult, IfOk, IfErr}, Str.bytes_eq, String.string_bytes};
ghost use Rattle.http_request.specs.Routes.{Refuses};
ghost use Rattle.serde_json.specs.{Find.get, View.view};
ghost use Rattle.http_request.specs.Body as spec;

use club_core::Refusal;
use club_rows::Guests;
use club_values::MAX_GUESTS;
use serde_json::{Map, Value};
use std::alloc::Global;

/// Returns true if the value is an object with no name other than `guests`.
fn has_only_guests(value: &Value) -> bool
    ensures { result ≡ spec.has_only_name (codes "guests") (view value.now) }
{
    match value.as_object() {
        Some(members) => are_guests(members),
        None => false,
    }
}

fn are_guests(members: &Map<String, Value>) -> bool
    ensures { result
        ≡ list_all (λ key. bytes_eq (string_bytes key) (codes "guests")) (keys members.now) }
{
    members.keys().all(|key| key.as_str() == "guests")
}

fn whole_number(value: &Value) -> Option<u64>
    ensures { result ≡ spec.whole_number (get (codes "guests") (view value.now)) }
{
    value.get("guests").and_then(Value::as_u64)
}

fn few_guests(number: Option<u64>) -> Option<Guests>
    ensures { result ≡ spec.few_guests number }
{
    match number {
        Some(number) if number <= u64::from(MAX_GUESTS) => Guests::new(number as u8),
        _ => None,
    }
}

#[tactic(auto, unfolding(crate::specs::Body::guests_of_value))]
fn guests_of_value(value: &Value) -> Option<Guests>
    ensures { result ≡ spec.guests_of_value (view value.now) }
{
    if !has_only_guests(value) {
        return None;
    }
    few_guests(whole_number(value))
}

/// Parses the bytes as JSON. Fails with `Unavailable` if memory runs out.
fn json_value_of(alloc: Global, bytes: &[u8]) -> Result<Value, Refusal>
    ensures ok { IfOk result (λ value. spec.json_value_of bytes.now ≡ Some (view value)) }
    ensures err { IfErr result (Refuses (0 < length bytes.now) (spec.json_value_of bytes.now)) }
{
    match Value::from_slice(alloc, bytes) {
        Ok(value) => Ok(value),
        Err(error) => {
            if error.is_memory() {
                return Err(Refusal::Unavailable);
            }
            Err(Refusal::BadRequest)
        }
    }
}

/// Returns the number of guests in a body.
pub(crate) fn guests_in(alloc: Global, body: &[u8]) -> Result<Guests, Refusal>
    ensures { MatchResult result (λ guests. spec.guests_in body.now ≡ Some guests)
        (Refuses (0 < length body.now) (spec.guests_in body.now)) }
{
    match json_value_of(alloc, body) {
        Ok(value) => guests_of_value(&value).ok_or(Refusal::BadRequest),
        Err(refusal) => Err(refusal),
    }
}
