use std::fmt::Debug;
use std::process::Abort;

pub(crate) trait Host: Abort + AllocGlobal {}

impl<R: Abort + AllocGlobal> Host for R {}

/// The proof of a test takes a tenth of the time if the test calls this function instead of
/// `assert_eq!`. The compared values are copies because borrows make the proof longer.
pub(crate) fn expect_eq<T: PartialEq + Debug + Copy>(
    rt: &impl Abort,
    returned: T,
    want: T,
    row: &impl Debug,
) {
    assert_eq!(rt; returned, want, "row {row:?}");
}
