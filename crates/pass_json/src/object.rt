//! Reads the JSON object of a pass, and the JSON objects of its caveats.

ghost use Rattle.std.specs.Prelude.{◌≡◌, Some, codes, option_map, map, IfErr, IfOk};
ghost use Rattle.pass_forms.specs.computed.Reading.{pass_summary};
ghost use Rattle.serde_json.specs.{Find.get, View.{items_view, view}};
ghost use Rattle.pass_json.specs.computed.JsonReading as reading;
ghost use Rattle.pass_json.specs.computed.JsonReading.{RefusesPart, kept_caveat, kept_caveats};

use crate::field::field;
use crate::names::has_only_names;
use pass_forms::{FormFault, Pass};
use serde_json::Value;
use std::alloc::Global;

const PASS_NAMES: [&str; 8] = ["v", "l", "l64", "i", "i64", "c", "s", "s64"];

const CAVEAT_NAMES: [&str; 6] = ["i", "i64", "l", "l64", "v", "v64"];

/// The result of parsing the JSON object of a pass. The field `pass` doesn't include the verifier
/// ids and locations of caveats. The flag `third_party` is true if any caveat is a third-party
/// caveat.
#[derive(Drop)]
pub struct Read {
    pub pass: Pass,
    pub caveat_count: usize,
    pub third_party: bool,
}

// The identifier of a caveat, and whether the caveat is a third-party caveat.
#[derive(Drop)]
struct Caveat {
    identifier: Vec<u8>,
    third_party: bool,
}

// The identifiers of all caveats, and whether any caveat is a third-party caveat.
#[derive(Drop)]
struct Caveats {
    identifiers: Vec<Vec<u8>>,
    third_party: bool,
}

/// Parses the JSON object of a pass.
#[tactic(auto, unfolding(crate::specs::computed::JsonReading::pass_from))]
pub fn pass_from(alloc: Global, value: &Value) -> Result<Read, FormFault>
    ensures ok { IfOk result (λ read. option_map pass_summary (reading.pass_from (view value.now))
        ≡ Some (read.pass, read.caveat_count, read.third_party)) }
    ensures err { IfErr result (RefusesPart (reading.pass_from (view value.now))) }
{
    if !has_only_names(value, &PASS_NAMES) || !is_version(value) {
        return Err(FormFault::Malformed);
    }
    let location = field(alloc, value, "l", "l64")?;
    let identifier = must_have(alloc, value, "i", "i64")?;
    let caveats = read_caveats(alloc, value)?;
    let signature = signature(alloc, value)?;
    Ok(Read {
        caveat_count: caveats.identifiers.len(),
        third_party: caveats.third_party,
        pass: Pass::new(
            location.unwrap_or(Vec::new(alloc)),
            identifier,
            caveats.identifiers,
            signature,
        ),
    })
}

// Returns whether the version is missing or is the whole number 2.
fn is_version(value: &Value) -> bool
    ensures { result ≡ reading.is_version (get (codes "v") (view value.now)) }
{
    match value.get("v") {
        None => true,
        Some(version) => version.as_u64() == Some(2),
    }
}

// Returns the bytes of a required field. Fails with `Malformed` if the field is missing.
fn must_have(alloc: Global, value: &Value, plain: &str, base64: &str) -> Result<Vec<u8>, FormFault>
    ensures ok { IfOk result
        (λ bytes. reading.must_have (reading.field_from plain.now base64.now (view value.now))
        ≡ Some bytes.items) }
    ensures err { IfErr result
        (RefusesPart
        (reading.must_have (reading.field_from plain.now base64.now (view value.now)))) }
{
    field(alloc, value, plain, base64)?.ok_or(FormFault::Malformed)
}

fn signature(alloc: Global, value: &Value) -> Result<[u8; 32], FormFault>
    ensures ok { IfOk result (λ bytes. reading.signature_from (view value.now) ≡ Some bytes) }
    ensures err { IfErr result (RefusesPart (reading.signature_from (view value.now))) }
{
    let bytes = must_have(alloc, value, "s", "s64")?;
    let Ok(signature) = <[u8; 32]>::try_from(bytes.as_slice()) else {
        return Err(FormFault::Malformed);
    };
    Ok(signature)
}

// Parses the list of caveats in a pass's object. A missing list means no caveats.
fn read_caveats(alloc: Global, value: &Value) -> Result<Caveats, FormFault>
    ensures ok { IfOk result
        (λ caveats. option_map kept_caveats (reading.caveat_list (get (codes "c") (view value.now)))
        ≡ Some (map (λ c. c.items) caveats.identifiers.items, caveats.third_party)) }
    ensures err { IfErr result
        (RefusesPart (reading.caveat_list (get (codes "c") (view value.now)))) }
{
    let Some(list) = value.get("c") else {
        return Ok(Caveats {
            identifiers: Vec::new(alloc),
            third_party: false,
        });
    };
    let Some(list) = list.as_array() else {
        return Err(FormFault::Malformed);
    };
    all_caveats(alloc, list)
}

fn all_caveats(alloc: Global, list: &[Value]) -> Result<Caveats, FormFault>
    ensures ok { IfOk result
        (λ caveats. option_map kept_caveats (reading.caveats_of (items_view list.now))
        ≡ Some (map (λ c. c.items) caveats.identifiers.items, caveats.third_party)) }
    ensures err { IfErr result (RefusesPart (reading.caveats_of (items_view list.now))) }
{
    let mut identifiers = Vec::new(alloc);
    let mut third_party = false;
    for value in list {
        let found = read_caveat(alloc, value)?;
        identifiers.push(found.identifier)?;
        third_party |= found.third_party;
    }
    Ok(Caveats {
        identifiers,
        third_party,
    })
}

#[tactic(auto, unfolding(crate::specs::computed::JsonReading::caveat_from))]
fn read_caveat(alloc: Global, value: &Value) -> Result<Caveat, FormFault>
    ensures ok { IfOk result
        (λ caveat. option_map kept_caveat (reading.caveat_from (view value.now))
        ≡ Some (caveat.identifier.items, caveat.third_party)) }
    ensures err { IfErr result (RefusesPart (reading.caveat_from (view value.now))) }
{
    if !has_only_names(value, &CAVEAT_NAMES) {
        return Err(FormFault::Malformed);
    }
    let identifier = must_have(alloc, value, "i", "i64")?;
    let verifier_id = field(alloc, value, "v", "v64")?;
    let location = field(alloc, value, "l", "l64")?;
    Ok(Caveat {
        identifier,
        third_party: verifier_id.is_some() || location.is_some(),
    })
}
