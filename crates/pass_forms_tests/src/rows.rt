//! Rows of tests, and assertions.

use pass_forms::Pass;
use std::fmt::Debug;
use std::process::Abort;

pub(crate) trait Host: Abort + AllocGlobal {}

impl<R: Abort + AllocGlobal> Host for R {}

/// The compared values are copies because borrows make the proof of a test longer.
pub(crate) fn expect_eq<T: PartialEq + Debug + Copy>(
    rt: &impl Abort,
    outcome: T,
    want: T,
    row: &impl Debug,
) {
    assert_eq!(rt; outcome, want, "{row:?}");
}

pub(crate) type Piece = (usize, &'static [u8]);

fn append(rt: &impl Abort, bytes: &mut Vec<u8>, piece: &Piece) {
    for _ in 0..piece.0 {
        bytes.extend_from_slice(piece.1).expect(rt, "memory");
    }
}

pub(crate) fn join(rt: &impl Host, pieces: &[Piece]) -> Vec<u8> {
    let mut bytes = Vec::new(rt.alloc());
    for piece in pieces {
        append(rt, &mut bytes, piece);
    }
    bytes
}

#[derive(Clone, Copy, Debug)]
pub(crate) struct Fields<'a> {
    pub(crate) location: &'a [u8],
    pub(crate) identifier: &'a [u8],
    pub(crate) caveats: &'a [&'a [u8]],
    pub(crate) signature: &'a [u8; 32],
}

pub(crate) fn expect_caveats(rt: &impl Abort, caveats: &[Vec<u8>], want: &Fields<'_>) {
    expect_eq(rt, caveats.len(), want.caveats.len(), want);
    for (place, caveat) in caveats.iter().enumerate() {
        let wanted = want.caveats.get(place).copied();
        expect_eq(rt, Some(caveat.as_slice()), wanted, want);
    }
}

pub(crate) fn expect_pass(rt: &impl Abort, pass: &Pass, want: &Fields<'_>) {
    expect_eq(rt, pass.location(), want.location, want);
    expect_eq(rt, pass.identifier(), want.identifier, want);
    expect_eq(rt, pass.signature(), want.signature, want);
    expect_caveats(rt, pass.caveats(), want);
}

pub(crate) fn pass_of(rt: &impl Host, identifier: &[Piece], caveat_count: usize) -> Pass {
    let mut caveats = Vec::new(rt.alloc());
    for _ in 0..caveat_count {
        caveats.push(Vec::new(rt.alloc())).expect(rt, "memory");
    }
    let (location, identifier) = (Vec::new(rt.alloc()), join(rt, identifier));
    Pass::new(location, identifier, caveats, [0xff; 32])
}
