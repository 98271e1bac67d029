//! Tests of where a request's head ends.

use crate::bodies::is_whole;
use crate::expect::{Runtime, expect_row, join};
use test_kit::Piece;

/// A text, and whether the text begins with a complete request.
static WHOLE: [(&str, bool); 11] = [
    ("", false),
    ("GET /account HTTP/1.1\r\n\r", false),
    ("GET /account HTTP/1.1\r\n\r\nGET", true),
    ("GET /account HTTP/1.1\n\n", false),
    ("GET /account HTTP/1.1\r\n\n", false),
    ("GET /account HTTP/1.1\r\n\r\r\n", false),
    // A request with an invalid head counts as complete.
    ("\r\n\r\n", true),
    ("GET\r\n\r\n", true),
    ("PUT / HTTP/1.1\r\nContent-Length: 2\r\n\r\n{", false),
    ("PUT / HTTP/1.1\r\nContent-Length: 2\r\n\r\n{}x", true),
    // A body of 257 bytes is longer than the limit.
    ("PUT / HTTP/1.1\r\nContent-Length: 257\r\n\r\n", true),
];

/// Long texts, and whether each begins with a complete request. A head has at most 16,384 bytes. If
/// no head ends within these bytes, the text counts as a complete request.
static LONG: [(&[Piece], bool); 3] = [
    (&[(16_383, "a")], false),
    (&[(16_384, "a")], true),
    (&[(16_381, "a"), (1, "\r\n\r\n")], true),
];

fn expect_whole(rt: &impl Runtime, text: &str, whole: bool) {
    let bytes = text.as_bytes();
    let last = bytes.len().saturating_sub(3);
    expect_row(rt, is_whole(bytes, 0), whole, text);
    expect_row(rt, is_whole(bytes, last), whole, text);
}

#[test]
fn whole_requests(rt: HostRuntime) {
    for (text, whole) in &WHOLE {
        expect_whole(&rt, text, *whole);
    }
    for (pieces, whole) in &LONG {
        expect_whole(&rt, join(&rt, pieces).as_str(), *whole);
    }
}
