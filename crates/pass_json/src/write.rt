//! Writes passes as JSON.

ghost use Rattle.std.specs.{List.AllByRecursion, Prelude.{◌≡◌, Ok, length, map, IfErr, IfOk}};
ghost use Rattle.std.specs.{Prelude.{MatchResult, OnOk}, String.string_bytes};
ghost use Rattle.base64.specs.GeneralPurpose.{IsBytes};
ghost use Rattle.pass_forms.specs.Writing.{HasBytes, IsReadBack, IsWritableText};
ghost use Rattle.pass_forms.specs.declared.form.Form.TheVariants.{Json};
ghost use Rattle.pass_json.specs.{Json.SpellsJson, JsonWriting.{MayFailAs, IsJsonText}};
ghost use Rattle.pass_json.specs.JsonWriting.{IsRefusedJson, base64_text, put_member};
ghost use Rattle.pass_json.specs.{JsonWriting.with_location, computed.AnyForm.writing_json};
ghost use Rattle.serde_json.specs.{Data.array, View.{members_view, view}};
ghost use Rattle.pass_json.specs.JsonWriting as spec;

use crate::laws::{json_reads_back, writes_json_exactly};
use base64::engine::general_purpose::URL_SAFE_NO_PAD;
use pass_forms::{FormFault, MAX_CAVEATS, MAX_TEXT, Pass};
use serde_json::{Map, Value, put};
use std::alloc::{AllocError, Global};

/// Returns the text of a pass in JSON. The text has no white space between tokens. The names in
/// each object are sorted by their bytes. The names of base64 fields end in `64`. Only the
/// signature and bytes that aren't UTF-8 are in base64.
///
/// # Errors
///
/// Fails with `TooMany` if the pass has more than 64 caveats. Otherwise fails with `TooLong` if the
/// text would have more than 8,192 bytes. Fails with `Memory` only if an allocation fails.
pub fn write_json(alloc: Global, pass: &Pass) -> Result<String, FormFault>
    ensures ok { IfOk result (λ text. IsWritableText IsJsonText pass.now (string_bytes text)) }
    ensures err { IfErr result (IsRefusedJson pass.now) }
    ensures read_back { IfOk result
        (λ text. IsReadBack SpellsJson Json (string_bytes text) pass.now (string_bytes text)) }
    // If memory doesn't run out, the result equals the result of `writing_json` for the pass.
    ensures computed { MatchResult result (λ text. writing_json pass.now ≡ Ok (string_bytes text))
        (MayFailAs (writing_json pass.now)) }
{
    json_reads_back();
    writes_json_exactly();
    short_text(alloc, pass)
}

// Returns the JSON text of a pass, or the first fault that applies.
#[tactic(auto, unfolding(crate::specs::computed::AnyForm::writing_json, crate::specs::JsonWriting::json_text))]
fn short_text(alloc: Global, pass: &Pass) -> Result<String, FormFault>
    ensures bytes { OnOk result (HasBytes pass.now) }
    ensures signature { OnOk result (length pass.now.signature ≡ 32) }
    ensures computed { MatchResult result (λ text. writing_json pass.now ≡ Ok (string_bytes text))
        (MayFailAs (writing_json pass.now)) }
{
    if pass.caveats().len() > MAX_CAVEATS {
        return Err(FormFault::TooMany);
    }
    let text = text_of(alloc, pass)?;
    if text.len() > MAX_TEXT {
        return Err(FormFault::TooLong);
    }
    Ok(text)
}

// Returns the JSON text of a pass. The text may have any length.
#[tactic(auto, unfolding(crate::specs::JsonWriting::json_text))]
fn text_of(alloc: Global, pass: &Pass) -> Result<String, AllocError>
    ensures bytes { OnOk result (HasBytes pass.now) }
    ensures signature { OnOk result (length pass.now.signature ≡ 32) }
    ensures text { IfOk result (λ text. string_bytes text ≡ spec.json_text pass.now) }
{
    object_of(alloc, pass)?.to_string(alloc)
}

#[tactic(auto, unfolding(crate::specs::JsonWriting::object_of))]
fn object_of(alloc: Global, pass: &Pass) -> Result<Value, AllocError>
    ensures bytes { OnOk result (HasBytes pass.now) }
    ensures signature { OnOk result (length pass.now.signature ≡ 32) }
    ensures value { IfOk result (λ value. view value ≡ spec.object_of pass.now) }
{
    let mut members = Map::new(alloc);
    put_location(alloc, &mut members, pass.location())?;
    put_field(alloc, &mut members, "i", "i64", pass.identifier())?;
    put(
        &mut members,
        alloc,
        "c",
        caveat_objects(alloc, pass.caveats())?,
    )?;
    put(
        &mut members,
        alloc,
        "s64",
        base64_of(alloc, pass.signature())?,
    )?;
    put(&mut members, alloc, "v", Value::from(2u64))?;
    Ok(Value::Object(members))
}

// Adds a location to the members of an object, unless the location is empty.
fn put_location(
    alloc: Global,
    members: &mut Map<String, Value>,
    location: &[u8],
) -> Result<(), AllocError>
    ensures bytes { IsBytes location.now }
    ensures members { OnOk result (members_view members.new.entries
        ≡ with_location location.now (members_view members.old.entries)) }
{
    if location.is_empty() {
        return Ok(());
    }
    put_field(alloc, members, "l", "l64", location)
}

fn caveat_objects(alloc: Global, caveats: &[Vec<u8>]) -> Result<Value, AllocError>
    ensures bytes { OnOk result
        (AllByRecursion IsBytes (map (λ caveat. caveat.items) caveats.now)) }
    ensures value { IfOk result
        (λ value. view value ≡ array
        (spec.caveat_objects (map (λ caveat. caveat.items) caveats.now))) }
{
    let mut objects = Vec::new(alloc);
    for caveat in caveats {
        objects.push(caveat_object(alloc, caveat)?)?;
    }
    Ok(Value::Array(objects))
}

fn caveat_object(alloc: Global, caveat: &[u8]) -> Result<Value, AllocError>
    ensures bytes { IsBytes caveat.now }
    ensures value { IfOk result (λ value. view value ≡ spec.caveat_object caveat.now) }
{
    let mut members = Map::new(alloc);
    put_field(alloc, &mut members, "i", "i64", caveat)?;
    Ok(Value::Object(members))
}

// Adds a member with these bytes to an object. If the bytes are UTF-8, the member has the name
// `plain`. Otherwise the member has the name `base64`, and the value is base64 of the bytes.
#[tactic(auto, unfolding(crate::specs::JsonWriting::put_member))]
fn put_field(
    alloc: Global,
    members: &mut Map<String, Value>,
    plain: &str,
    base64: &str,
    bytes: &[u8],
) -> Result<(), AllocError>
    ensures bytes { IsBytes bytes.now }
    ensures members { OnOk result (members_view members.new.entries
        ≡ put_member plain.now base64.now bytes.now (members_view members.old.entries)) }
{
    match str::from_utf8(bytes) {
        Ok(text) => put(members, alloc, plain, Value::try_from_str(alloc, text)?),
        Err(_) => put(members, alloc, base64, base64_of(alloc, bytes)?),
    }
}

// Returns a JSON string with the bytes in URL-safe base64, without padding.
fn base64_of(alloc: Global, bytes: &[u8]) -> Result<Value, AllocError>
    ensures bytes { IsBytes bytes.now }
    ensures value { IfOk result (λ value. view value ≡ base64_text bytes.now) }
{
    Ok(Value::String(URL_SAFE_NO_PAD.encode(alloc, bytes)?))
}
