//! Failing or interrupted readers and writers, and readers that return their bytes in pieces.

use super::doubles::Slow;
use super::runs::*;
use crate::expect::{Host, expect_end, joined};
use test_kit::End::{self, Prints, Writes};

const FAILED: End = Prints(7, "input or output failed");

#[test]
fn reads_in_pieces(rt: HostRuntime) {
    let mut reader = Slow::new(rt.alloc(), TEXT.as_bytes());
    let output = output_of(&rt, VERIFY, &mut reader);
    expect_end(&rt, &output, Writes("signed"), VERIFY);
}

fn fails_after(rt: &impl Host, line: &str, left: &[u8]) {
    let output = output_of(rt, line, &mut Slow::failing(rt.alloc(), left));
    expect_end(rt, &output, FAILED, line);
}

fn fails_with_reader(rt: &impl Host, line: &str) {
    let (half, _) = TEXT.as_bytes().split_at(90);
    fails_after(rt, line, b"");
    fails_after(rt, line, half);
    fails_after(rt, line, TEXT.as_bytes());
}

static READERS: [&str; 4] = [VERIFY, SHOW, NARROW, TO_V2];

#[test]
fn fails_with_its_reader(rt: HostRuntime) {
    for line in &READERS {
        fails_with_reader(&rt, line);
    }
}

// A line, its input, and its output without the line feed.
type Run = (&'static str, &'static str, &'static str);

// The writer has room only for `front`.
fn takes(rt: &impl Host, run: &Run, front: &[u8], flushes: bool, end: End) {
    let mut writer = Slow::new(rt.alloc(), b"");
    writer.room = front.len();
    writer.flushes = flushes;
    expect_taken(rt, run.0, &mut run.1.as_bytes(), writer, end, front);
}

// A writer with enough room fails only if its flush fails.
fn fails_with_writer(rt: &impl Host, run: &Run) {
    let text = joined(rt, &[run.2, "\n"]);
    let bytes = text.as_bytes();
    for room in 0..bytes.len() {
        let (front, _) = bytes.split_at(room);
        takes(rt, run, front, true, FAILED);
    }
    takes(rt, run, bytes, true, Prints(0, ""));
    takes(rt, run, bytes, false, FAILED);
}

static WRITERS: [Run; 6] = [
    ("--version", "", "passtool 0.1.0"),
    (VERIFY, TEXT, "signed"),
    (SHOW, TEXT, SHOWN),
    (NARROW, BARE_TEXT, TEXT),
    (TO_V2, TEXT, V2_TEXT),
    (MINT, "", V2_TEXT),
];

#[test]
fn fails_with_its_writer(rt: HostRuntime) {
    for run in &WRITERS {
        fails_with_writer(&rt, run);
    }
}
