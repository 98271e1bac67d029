//! Assertions and values that the tests share.

use club_values::Moment;
use std::alloc::Global;
use std::fmt::{Debug, Display};
use std::process::Abort;
use std::time::Clock;
use test_kit::Piece;
use test_kit::moments::NOON;

/// A helper that uses sockets must have `Net` in its own bounds. The borrow checker doesn't cover a
/// test that gets `Net` through this trait.
pub(crate) trait Runtime: Abort + Alloc<A = Global> + Clock {}

impl<R: Abort + Alloc<A = Global> + Clock> Runtime for R {}

/// Ends the test unless the values are equal. A direct `assert_eq!` makes a proof longer.
pub(crate) fn expect_eq<T: PartialEq + Debug + Copy>(rt: &impl Runtime, returned: T, want: T) {
    assert_eq!(rt; returned, want);
}

pub(crate) fn expect_row<T: PartialEq + Debug + Copy>(
    rt: &impl Runtime,
    returned: T,
    want: T,
    row: impl Debug + Copy,
) {
    assert_eq!(rt; returned, want, "{row:?}");
}

pub(crate) fn expect_bytes(rt: &impl Runtime, returned: &[u8], want: &[u8], asked: &str) {
    expect_row(rt, returned, want, asked);
}

pub(crate) fn expect_shown<T: Display>(rt: &impl Runtime, value: &T, want: &str) {
    let text = value.to_string(rt.alloc()).expect(rt, "memory");
    expect_bytes(rt, text.as_bytes(), want.as_bytes(), want);
}

pub(crate) fn join(rt: &impl Runtime, pieces: &[Piece]) -> String {
    test_kit::join(rt.alloc(), pieces).expect(rt, "memory")
}

pub(crate) fn moment(rt: &impl Runtime, text: &str) -> Moment {
    Moment::read(text.as_bytes()).expect(rt, "a moment")
}

pub(crate) fn noon(rt: &impl Runtime) -> Moment {
    moment(rt, NOON)
}
