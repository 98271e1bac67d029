//! Checks the names in a JSON object.

ghost use Rattle.std.specs.{BTreeMap.keys, List.{list_all, list_any}, Prelude.{◌≡◌, map}};
ghost use Rattle.std.specs.{Str.bytes_eq, String.string_bytes};
ghost use Rattle.serde_json.specs.View.{view};
ghost use Rattle.pass_json.specs.computed.JsonReading as reading;

use serde_json::{Map, Value};

/// Returns whether the JSON value is an object and all of its names are in the list.
pub fn has_only_names(value: &Value, names: &[&str]) -> bool
    ensures { result ≡ reading.has_only_names (map (λ name. name.now) names.now) (view value.now) }
{
    match value.as_object() {
        Some(members) => are_among(members, names),
        None => false,
    }
}

fn are_among(members: &Map<String, Value>, names: &[&str]) -> bool
    ensures { result ≡ list_all
        (λ key. list_any (λ name. bytes_eq (string_bytes key) name.now) names.now)
        (keys members.now) }
{
    members.keys().all(|key| is_among(key.as_str(), names))
}

fn is_among(key: &str, names: &[&str]) -> bool
    ensures { result ≡ list_any (λ name. bytes_eq key.now name.now) names.now }
{
    names.iter().any(|name| key == *name)
}
