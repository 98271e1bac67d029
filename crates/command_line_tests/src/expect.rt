use std::fmt::{Debug, Display};
use std::process::Abort;
use test_kit::{End, Output, Piece, form_line, join};

pub(crate) trait Host: Abort + AllocGlobal {}

impl<R: Abort + AllocGlobal> Host for R {}

/// The proof of a test takes a third of the time if the test calls this function instead of
/// `assert_eq!`.
pub(crate) fn expect_case<T: PartialEq + Debug + Copy>(
    rt: &impl Abort,
    case: &str,
    returned: T,
    want: T,
) {
    assert_eq!(rt; returned, want, "{case}");
}

pub(crate) fn expect_end(rt: &impl Abort, output: &Output, end: End, line: &str) {
    assert!(rt; end.fits(output), "{line}: {output:?}, and not {end:?}");
}

pub(crate) fn expect_form_refused(rt: &impl Host, output: &Output, line: &str, form: &str) {
    let want = form_line(rt.alloc(), form).expect(rt, "memory");
    assert!(rt; output.begins(2, want.as_str()), "{line}: {output:?}");
}

pub(crate) fn printed(rt: &impl Host, status: u8, text: &impl Display) -> Output {
    let text = text.to_string(rt.alloc()).expect(rt, "memory");
    Output { status, text }
}

pub(crate) fn text_of(rt: &impl Host, pieces: &[Piece]) -> String {
    join(rt.alloc(), pieces).expect(rt, "memory")
}

pub(crate) fn joined(rt: &impl Host, parts: &[&str]) -> String {
    parts.concat(rt.alloc()).expect(rt, "memory")
}

// "this is our super secret key; only we should know it"
const ROOT: &str =
    "74686973206973206f757220737570657220736563726574206b65793b206f6e6c792077652073686f756c64206b6e6f77206974";

fn argument_of(word: &str) -> &str {
    if word == "ROOT" { ROOT } else { word }
}

/// Bars separate the arguments. `ROOT` stands for the root of `passtool`'s known pass.
pub(crate) fn arguments_of<'a>(rt: &impl Host, program: &'a str, line: &'a str) -> Vec<&'a str> {
    let mut arguments = Vec::from_array(rt.alloc(), [program]).expect(rt, "memory");
    if !line.is_empty() {
        for word in line.split('|') {
            arguments.push(argument_of(word)).expect(rt, "memory");
        }
    }
    arguments
}
