//! Splits bytes into pieces of given lengths, and works on the pieces.

ghost use Rattle.std.specs.Prelude.{◌≡◌, ◌+◌, ◌*◌, ◌≤◌, ◌++◌, OnOk, drop, length, map, option_map};
ghost use Rattle.std.specs.Prelude.{slice_get, sum, take};
ghost use Rattle.pass_mac.specs.Chain.{extended_signature};
ghost use Rattle.pass_caveats.specs.{Fault.first_fault_from, computed.CaveatOf.caveat_of};
ghost use Rattle.pass_calls.specs.Object.{pieces_of, room};

use crate::object::ROOM;
use pass_caveats::{Ask, CaveatFault, fault_at};
use pass_forms::MAX_CAVEATS;
use pass_mac::Chain;
use std::alloc::{AllocError, Global};

/// Returns the first `len` bytes, and the remaining bytes. If there are fewer than `len` bytes, the
/// first result contains all bytes and the second result is empty.
pub fn cut(bytes: &[u8], len: usize) -> (&[u8], &[u8])
    ensures first { result.0.now ≡ take len bytes.now }
    ensures others { result.1.now ≡ drop len bytes.now }
{
    bytes.split_at(len.min(bytes.len()))
}

/// Copies `part` into the bytes, starting at index `place`.
pub fn overwrite(bytes: &mut [u8; ROOM], place: usize, part: &[u8])
    requires { place + length part.now ≤ room }
    ensures { bytes.new
        ≡ take place bytes.old ++ (part.now ++ drop (place + length part.now) bytes.old) }
{
    bytes[place..place + part.len()].copy_from_slice(part);
}

/// Returns the sum of at most 64 lengths.
pub fn total(lens: &[u16]) -> usize
    requires { length lens.now ≤ 64 }
    ensures value { result ≡ sum lens.now }
    ensures bound { result ≤ 65535 * length lens.now }
{
    match lens.split_first() {
        Some((len, others)) => usize::from(*len) + total(others),
        None => 0,
    }
}

/// Returns the piece with this index, counted from 0. `lens` has the lengths of the pieces.
pub fn piece<'a>(lens: &[u16], bytes: &'a [u8], index: usize) -> Option<&'a [u8]>
    ensures { option_map (λ piece. piece.now) result
        ≡ slice_get (pieces_of lens.now bytes.now) index }
{
    let (len, others) = lens.split_first()?;
    let (first, rest) = cut(bytes, usize::from(*len));
    match index.checked_sub(1) {
        None => Some(first),
        Some(before) => piece(others, rest, before),
    }
}

/// Adds each piece as a caveat to the chain of signatures.
pub fn extended(mut chain: Chain, lens: &[u16], bytes: &[u8]) -> Chain
    ensures { result ≡ extended_signature chain (pieces_of lens.now bytes.now) }
{
    match lens.split_first() {
        Some((len, others)) => {
            let (first, rest) = cut(bytes, usize::from(*len));
            chain.add(first);
            extended(chain, others, rest)
        }
        None => chain,
    }
}

/// Appends a copy of each piece to a list.
pub fn copy_pieces(
    alloc: Global,
    list: &mut Vec<Vec<u8>>,
    lens: &[u16],
    bytes: &[u8],
) -> Result<(), AllocError>
    ensures { OnOk result (map (λ piece. piece.items) list.new.items
        ≡ map (λ piece. piece.items) list.old.items ++ pieces_of lens.now bytes.now) }
{
    let Some((len, others)) = lens.split_first() else {
        return Ok(());
    };
    let (first, rest) = cut(bytes, usize::from(*len));
    list.push(Vec::from_slice(alloc, first)?)?;
    copy_pieces(alloc, list, others, rest)
}

/// Reads the pieces as caveats, and returns the first fault. A fault states the number of its
/// piece. The first piece has the number `number`.
pub fn first_fault_in(lens: &[u16], bytes: &[u8], number: usize, ask: &Ask) -> Option<CaveatFault>
    requires { number + length lens.now ≤ 65 }
    ensures { result
        ≡ first_fault_from number (map caveat_of (pieces_of lens.now bytes.now)) ask.now }
{
    let (len, others) = lens.split_first()?;
    let (first, rest) = cut(bytes, usize::from(*len));
    if let Some(fault) = fault_at(first, number, ask) {
        return Some(fault);
    }
    first_fault_in(others, rest, number + 1, ask)
}
