//! Tests of how often an exchange calls the reader. After the request's last byte, the exchange
//! doesn't call the reader again.

use super::doubles::Pieces;
use super::{BOOKING, Ended, IS_BAD, NO_REQUEST, booked, returns};
use crate::bodies::LONGEST;
use crate::expect::{Runtime, expect_eq, join};
use std::ops::Range;
use test_kit::Piece;

/// The largest number of bytes per call, the number of calls, and the number of unread bytes. After
/// its last byte, the reader fails.
type Reading = (usize, u64, usize);

fn is_read(rt: &impl Runtime, text: &str, (step, calls, left): Reading, want: &Ended) {
    let mut reader = Pieces::new(text.as_bytes(), step, true);
    returns(rt, &mut reader, want);
    expect_eq(rt, (reader.calls, reader.left.len()), (calls, left));
}

type Read = (&'static [Piece], Reading);

/// The booking has 128 bytes. The buffer has room for 16,640 bytes.
static BOOKINGS: [Read; 5] = [
    (&[(1, BOOKING)], (1, 128, 0)),
    (&[(1, BOOKING)], (100_000, 1, 0)),
    (&[(1, BOOKING), (1_000, "x")], (100_000, 1, 0)),
    (&[(1, BOOKING), (100_000, "x")], (1, 128, 100_000)),
    (&[(1, BOOKING), (100_000, "x")], (200_000, 1, 83_488)),
];

static LONGEST_READINGS: [Reading; 4] = [
    (200_000, 1, 0),
    (16_384, 2, 0),
    (16_383, 2, 0),
    (1, 16_640, 0),
];

/// If a head doesn't end within 16,384 bytes, the exchange refuses the request as bad.
static ENDLESS: [Reading; 3] = [(1, 16_384, 3_616), (600, 28, 3_360), (200_000, 1, 3_360)];

fn is_read_so(rt: &impl Runtime, pieces: &[Piece], readings: &[Reading], want: &Ended) {
    let text = join(rt, pieces);
    for reading in readings {
        is_read(rt, text.as_str(), *reading, want);
    }
}

#[test]
fn reads_no_further_than_the_request(rt: HostRuntime) {
    for (pieces, reading) in &BOOKINGS {
        is_read_so(&rt, pieces, &[*reading], &booked(&rt));
    }
    is_read_so(&rt, &LONGEST, &LONGEST_READINGS, &booked(&rt));
}

#[test]
fn endless_head(rt: HostRuntime) {
    is_read_so(&rt, &[(20_000, "x")], &ENDLESS, &IS_BAD);
}

/// Returns the expected `Reading` if five more bytes follow a request of `len` bytes. A call
/// returns at most `step` bytes.
fn by_steps(len: usize, step: usize) -> Reading {
    let calls = len.div_ceil(step.max(1));
    let taken = calls.saturating_mul(step);
    let left = len.saturating_add(5).saturating_sub(taken);
    (step, calls as u64, left)
}

fn is_read_by_steps(rt: &impl Runtime, text: &str, steps: Range<usize>, want: &Ended) {
    let len = text.len().saturating_sub(5);
    for step in steps {
        is_read(rt, text, by_steps(len, step), want);
    }
}

/// Header fields of 0, 5, 6 and 7 bytes. Modulo 4, the lengths of the four heads differ.
static FIELDS: [&str; 4] = ["", "A: \r\n", "A: b\r\n", "A: bc\r\n"];

fn with_field(rt: &impl Runtime, field: &str) -> String {
    let text = format!(in rt.alloc();
        "PUT /slots/court-1/2026-05-01/18/bookings/7 HTTP/1.1\r\n{field}\
        Authorization: Bearer AgEJ\r\nContent-Length: 12\r\n\r\n{{\"guests\":2}}GET /"
    );
    text.expect(rt, "memory")
}

#[test]
fn splits_a_request(rt: HostRuntime) {
    for field in &FIELDS {
        let text = with_field(&rt, field);
        is_read_by_steps(&rt, text.as_str(), 1..180, &booked(&rt));
    }
}

/// Each text has a CR LF CR LF before `GET /`. In all but the first text, other CR and LF bytes
/// come before the CR LF CR LF.
static PARTS: [&str; 5] = [
    "\r\n\r\nGET /",
    "\r\r\n\r\nGET /",
    "\r\n\r\r\n\r\nGET /",
    "\r\n\n\r\n\r\nGET /",
    "\n\r\n\r\nGET /",
];

#[test]
fn begins_the_end_of_a_head_again(rt: HostRuntime) {
    for text in &PARTS {
        is_read_by_steps(&rt, text, 1..20, &IS_BAD);
    }
}

fn is_cut(rt: &impl Runtime, bytes: &[u8]) {
    returns(rt, &mut Pieces::new(bytes, 7, false), &IS_BAD);
    let mut reader = Pieces::new(bytes, 7, true);
    returns(rt, &mut reader, &NO_REQUEST);
    expect_eq(rt, reader.failures, 1);
}

#[test]
fn cut_input(rt: HostRuntime) {
    let bytes = BOOKING.as_bytes();
    for len in 0..bytes.len() {
        is_cut(&rt, &bytes[..len]);
    }
}
