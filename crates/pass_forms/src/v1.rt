//! Reads V1, the packet format of libmacaroons.

ghost use Rattle.std.specs.Prelude.{◌≡◌, length, option_map, is_some};
ghost use Rattle.pass_forms.specs.{Reading.{IsReadAs, OrOutOfMemory}, V1.SpellsV1};
ghost use Rattle.pass_forms.specs.computed.V1Reading as reading;

use crate::laws::reads_v1_exactly;
use crate::layout::{self, Caveat, Fields, Header, Layout};
use crate::parts::{after_prefix, before_suffix, last_signature};
use crate::{FormFault, Pass};
use std::alloc::Global;

pub const LOCATION: &[u8] = b"location ";

pub const IDENTIFIER: &[u8] = b"identifier ";

pub const CAVEAT: &[u8] = b"cid ";

const VERIFIER_ID: &[u8] = b"vid ";

const CAVEAT_LOCATION: &[u8] = b"cl ";

pub const SIGNATURE: &[u8] = b"signature ";

// The number of hexadecimal digits in the length at the start of a packet.
const LEN_DIGITS: usize = 4;

fn digit_value(byte: u8) -> Option<u8>
    ensures { result ≡ reading.digit_value byte }
{
    match byte {
        b'0'..=b'9' => Some(byte - b'0'),
        b'a'..=b'f' => Some(byte - b'a' + 10),
        _ => None,
    }
}

// Returns the length that the first four hexadecimal digits encode.
fn packet_len(bytes: &[u8]) -> Option<usize>
    ensures { result ≡ reading.len_at bytes.now }
{
    let [a, b, c, d, ..] = bytes else {
        return None;
    };
    let a = usize::from(digit_value(*a)?);
    let b = usize::from(digit_value(*b)?);
    let c = usize::from(digit_value(*c)?);
    let d = usize::from(digit_value(*d)?);
    Some(a * 4096 + b * 256 + c * 16 + d)
}

// Parses a packet with the given key. Returns the packet's data and the bytes after the packet. The
// function is inlined, so that the compiler can use the caller's constant key in the comparison.
#[inline(always)]
#[tactic(auto, unfolding(crate::specs::computed::V1Reading::packet_at))]
fn first_packet<'a>(key: &[u8], bytes: &'a [u8]) -> Option<(&'a [u8], &'a [u8])>
    ensures { option_map (λ found. (found.0.now, found.1.now)) result
        ≡ reading.packet_at key.now bytes.now }
{
    if bytes.len() < LEN_DIGITS {
        return None;
    }
    let (_, rest) = bytes.split_at(LEN_DIGITS);
    // The packet often has a key other than `key`, so the code compares the key before it parses
    // the length.
    let body = after_prefix(key, rest)?;
    let len = packet_len(bytes)?;
    let body_len = len.checked_sub(LEN_DIGITS)?.checked_sub(key.len())?;
    if len > bytes.len() {
        return None;
    }
    let (data, _) = body.split_at(body_len);
    let text = before_suffix(b"\n", data)?;
    let (_, rest) = bytes.split_at(len);
    Some((text, rest))
}

// Skips an optional packet. Returns whether the packet is present, and the bytes after the packet.
// If the packet is missing, returns false and all of the bytes.
#[inline(always)]
fn optional_packet<'a>(key: &[u8], bytes: &'a [u8]) -> (bool, &'a [u8])
    ensures { (is_some (reading.optional_at key.now bytes.now).0 ≡ result.0)
        × (result.1.now ≡ (reading.optional_at key.now bytes.now).1) }
{
    match first_packet(key, bytes) {
        Some((_, rest)) => (true, rest),
        None => (false, bytes),
    }
}

// The V1 layout, which is a sequence of packets.
#[derive(Clone, Copy)]
pub struct Packets;

impl Layout for Packets {
    ghost use Rattle.pass_forms.specs.V1.{SpellsV1};
    ghost use Rattle.pass_forms.specs.computed.V1Reading as reading;

    ghost Spells = { SpellsV1 };

    ghost reading = { reading.reading_v1 };

    ghost header_at = { reading.header_at };

    ghost caveat_at = { reading.caveat_at };

    ghost footer_at = { reading.signature_at };

    #[tactic(auto, unfolding(crate::specs::computed::V1Reading::header_at))]
    fn first_header(bytes: &[u8]) -> Option<Header<'_>> {
        let (location, rest) = first_packet(LOCATION, bytes)?;
        let (identifier, rest) = first_packet(IDENTIFIER, rest)?;
        Some(Header {
            location,
            identifier,
            rest,
        })
    }

    #[tactic(auto, unfolding(crate::specs::computed::V1Reading::caveat_at))]
    fn first_caveat(bytes: &[u8]) -> Option<Caveat<'_>> {
        let (identifier, rest) = first_packet(CAVEAT, bytes)?;
        let (has_verifier_id, rest) = optional_packet(VERIFIER_ID, rest);
        let (has_location, rest) = optional_packet(CAVEAT_LOCATION, rest);
        Some(Caveat {
            identifier,
            third_party: has_verifier_id || has_location,
            rest,
        })
    }

    #[tactic(auto, unfolding(crate::specs::computed::V1Reading::signature_at))]
    fn footer(bytes: &[u8]) -> Option<[u8; 32]> {
        let (signature, rest) = first_packet(SIGNATURE, bytes)?;
        last_signature(signature, rest)
    }

    #[tactic(auto, unfolding(crate::specs::computed::V1Reading::reading_v1))]
    fn reads_exactly() {
        reads_v1_exactly();
    }
}

/// An iterator over the fields of a pass in V1.
pub type V1Fields<'a> = Fields<'a, Packets>;

/// Reads a pass from V1 bytes. The bytes are libmacaroons' packets, without base64.
///
/// # Errors
///
/// Fails with the first fault that applies:
///
/// - `TooLong` for more than 8,192 bytes,
/// - `Malformed` if the bytes aren't a pass,
/// - `ThirdParty` for a third-party caveat,
/// - `TooMany` for more than 64 caveats,
/// - `Memory` if an allocation fails, which can happen only after all checks succeed.
pub fn read_v1(alloc: Global, bytes: &[u8]) -> Result<Pass, FormFault>
    // The result is the pass that the bytes encode, or the first fault that applies.
    ensures spelling { OrOutOfMemory (IsReadAs (length bytes.now) (SpellsV1 bytes.now)) result }
    // If memory doesn't run out, the result equals the result of `reading_v1` for the bytes.
    ensures computed { OrOutOfMemory (λ answer. reading.reading_v1 bytes.now ≡ answer) result }
{
    layout::read::<Packets>(alloc, bytes)
}
