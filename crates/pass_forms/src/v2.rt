//! Reads V2, the binary format of libmacaroons.

ghost use Rattle.std.specs.Prelude.{◌≡◌, ◌≤◌, IfSome, length, option_map, is_some};
ghost use Rattle.pass_forms.specs.{Reading.{IsReadAs, OrOutOfMemory}, V2.SpellsV2};
ghost use Rattle.pass_forms.specs.computed.V2Reading as reading;

use crate::laws::reads_v2_exactly;
use crate::layout::{self, Caveat, Fields, Header, Layout};
use crate::parts::{after_prefix, last_signature};
use crate::{FormFault, Pass};
use std::alloc::Global;

pub const VERSION: &[u8] = &[2];

pub const LOCATION: u8 = 1;

pub const IDENTIFIER: u8 = 2;

const VERIFIER_ID: u8 = 4;

pub const SIGNATURE: u8 = 6;

pub const END_OF_SECTION: &[u8] = &[0];

// Parses a varint whose value is at most `most`. Each byte contains seven bits of the value, and
// the lowest bits come first.
#[tactic(auto, using(crate::proofs::FieldLemmas::no_bytes), unfolding(crate::specs::computed::V2Reading::varint_up_to))]
fn varint_up_to(most: usize, bytes: &[u8]) -> Option<(usize, &[u8])>
    ensures value { option_map (λ found. (found.0, found.1.now)) result
        ≡ reading.varint_up_to most bytes.now }
    ensures bound { IfSome result (λ found. found.0 ≤ most) }
{
    let (first, rest) = bytes.split_first()?;
    let low = usize::from(*first);
    if low > most {
        return None;
    }
    if low < 128 {
        return Some((low, rest));
    }
    let (high, rest) = varint_up_to(most / 128, rest)?;
    if high == 0 {
        return None;
    }
    let number = high * 128;
    if low - 128 > most - number {
        return None;
    }
    Some((number + (low - 128), rest))
}

// Parses a field of the given type. Returns the field's data and the bytes after the field.
#[tactic(auto, unfolding(crate::specs::computed::V2Reading::field_at))]
fn first_field<'a>(kind: u8, bytes: &'a [u8]) -> Option<(&'a [u8], &'a [u8])>
    ensures { option_map (λ found. (found.0.now, found.1.now)) result
        ≡ reading.field_at kind bytes.now }
{
    let rest = after_prefix(&[kind], bytes)?;
    let (len, rest) = varint_up_to(rest.len(), rest)?;
    if len > rest.len() {
        return None;
    }
    let (field, rest) = rest.split_at(len);
    Some((field, rest))
}

// Parses an optional field. If the field is missing, returns `None` and all of the bytes.
fn optional_field<'a>(kind: u8, bytes: &'a [u8]) -> (Option<&'a [u8]>, &'a [u8])
    ensures { (option_map (λ field. field.now) result.0, result.1.now)
        ≡ reading.optional_at kind bytes.now }
{
    match first_field(kind, bytes) {
        Some((field, rest)) => (Some(field), rest),
        None => (None, bytes),
    }
}

// The V2 layout, which is a sequence of sections. Each section contains fields.
#[derive(Clone, Copy)]
pub struct Sections;

impl Layout for Sections {
    ghost use Rattle.pass_forms.specs.V2.{SpellsV2};
    ghost use Rattle.pass_forms.specs.computed.V2Reading as reading;

    ghost Spells = { SpellsV2 };

    ghost reading = { reading.reading_v2 };

    ghost header_at = { reading.header_at };

    ghost caveat_at = { reading.caveat_at };

    ghost footer_at = { reading.footer_at };

    #[tactic(auto, unfolding(crate::specs::computed::V2Reading::header_at))]
    fn first_header(bytes: &[u8]) -> Option<Header<'_>> {
        let rest = after_prefix(VERSION, bytes)?;
        let (location, rest) = optional_field(LOCATION, rest);
        let (identifier, rest) = first_field(IDENTIFIER, rest)?;
        let rest = after_prefix(END_OF_SECTION, rest)?;
        Some(Header {
            location: location.unwrap_or(&bytes[..0]),
            identifier,
            rest,
        })
    }

    #[tactic(auto, unfolding(crate::specs::computed::V2Reading::caveat_at))]
    fn first_caveat(bytes: &[u8]) -> Option<Caveat<'_>> {
        let (location, rest) = optional_field(LOCATION, bytes);
        let (identifier, rest) = first_field(IDENTIFIER, rest)?;
        let (verifier_id, rest) = optional_field(VERIFIER_ID, rest);
        let rest = after_prefix(END_OF_SECTION, rest)?;
        Some(Caveat {
            identifier,
            third_party: verifier_id.is_some() || location.is_some(),
            rest,
        })
    }

    #[tactic(auto, unfolding(crate::specs::computed::V2Reading::footer_at))]
    fn footer(bytes: &[u8]) -> Option<[u8; 32]> {
        let rest = after_prefix(END_OF_SECTION, bytes)?;
        let (signature, rest) = first_field(SIGNATURE, rest)?;
        last_signature(signature, rest)
    }

    #[tactic(auto, unfolding(crate::specs::computed::V2Reading::reading_v2))]
    fn reads_exactly() {
        reads_v2_exactly();
    }
}

/// An iterator over the fields of a pass in V2. This project accepts only the shortest encoding of
/// each number.
pub type V2Fields<'a> = Fields<'a, Sections>;

/// Reads a pass from V2 bytes. The bytes are libmacaroons' binary format, without base64. This
/// project accepts only the shortest encoding of each number.
///
/// # Errors
///
/// Fails with the first fault that applies:
///
/// - `TooLong` for more than 8,192 bytes,
/// - `Malformed` if the bytes aren't a pass,
/// - `ThirdParty` for a third-party caveat,
/// - `TooMany` for more than 64 caveats,
/// - `Memory` if an allocation fails, which can happen only after all checks succeed.
pub fn read_v2(alloc: Global, bytes: &[u8]) -> Result<Pass, FormFault>
    // The result is the pass that the bytes encode, or the first fault that applies.
    ensures spelling { OrOutOfMemory (IsReadAs (length bytes.now) (SpellsV2 bytes.now)) result }
    // If memory doesn't run out, the result equals the result of `reading_v2` for the bytes.
    ensures computed { OrOutOfMemory (λ answer. reading.reading_v2 bytes.now ≡ answer) result }
{
    layout::read::<Sections>(alloc, bytes)
}
