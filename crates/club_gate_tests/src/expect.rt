//! Assertions, and the runtime of a test.

use std::alloc::AllocError;
use std::fmt::Debug;
use std::process::Abort;

pub(crate) trait Host: Abort + AllocGlobal {}

impl<R: Abort + AllocGlobal> Host for R {}

/// Ends the test unless the values are equal. The proof of a test takes a third of the time if the
/// test calls this function instead of `assert_eq!`, and if the values are passed as copies.
pub(crate) fn expect_eq<T: PartialEq + Debug + Copy>(rt: &impl Abort, returned: T, want: T) {
    assert_eq!(rt; returned, want);
}

pub(crate) fn expect_row<T: PartialEq + Debug + Copy>(
    rt: &impl Abort,
    row: impl Debug + Copy,
    returned: T,
    want: T,
) {
    assert_eq!(rt; returned, want, "row {row:?}");
}

pub(crate) fn expect_text(rt: &impl Abort, case: &str, returned: &str, want: &str) {
    expect_row(rt, case, returned, want);
}

pub(crate) fn expect_lines(rt: &impl Abort, case: &str, returned: &[String], want: &[String]) {
    expect_row(rt, case, returned, want);
}

pub(crate) fn push<T: Drop>(rt: &impl Abort, values: &mut Vec<T>, value: T) {
    values.push(value).expect(rt, "memory");
}

pub(crate) fn append(rt: &impl Abort, lines: &mut Vec<String>, mut more: Vec<String>) {
    lines.append(&mut more).expect(rt, "memory");
}

pub(crate) fn text(rt: &impl Abort, text: Result<String, AllocError>) -> String {
    text.expect(rt, "memory")
}
