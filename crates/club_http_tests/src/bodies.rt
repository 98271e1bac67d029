//! Tests of requests for a booking: complete, cut short, and in two pieces.

ghost use Rattle.http_request.specs.Frame.{Covers};

use crate::expect::{Runtime, expect_row, join};
use club_core::{Refusal, Request};
use http_request::{HeadScan, Routes, words_by_scan, words_of};
use test_kit::Piece;
use test_kit::requests::BOOK_7;

const BOOKING: &str = "PUT /slots/court-1/2026-05-01/18/bookings/7 HTTP/1.1\r\nHost: club\r\n\
    Authorization: Bearer AgEJ\r\nContent-Length: 12\r\n\r\n{\"guests\":2}";

type Asked = Result<Request, Refusal>;

pub(crate) const BAD_REQUEST: Asked = Err(Refusal::BadRequest);

pub(crate) fn booked(rt: &impl Runtime) -> Asked {
    Ok(BOOK_7.request().expect(rt, "a request"))
}

fn routes(rt: &impl Runtime) -> Routes {
    Routes::new(rt.alloc()).expect(rt, "memory")
}

fn asked_by(routes: &Routes, bytes: &[u8]) -> Asked {
    match words_of(routes, bytes) {
        Ok(words) => Ok(words.request),
        Err(refusal) => Err(refusal),
    }
}

fn asks(rt: &impl Runtime, bytes: &[u8], want: &Asked) {
    expect_row(rt, &asked_by(&routes(rt), bytes), want, bytes.len());
}

/// Scans the bytes in two pieces. The first piece has at most `first` bytes.
fn scan_of(bytes: &[u8], first: usize) -> HeadScan
    ensures { Covers result bytes.now }
{
    let first = first.min(bytes.len());
    let mut scan = HeadScan::new();
    scan.go_on(&bytes[..first], 0);
    scan.go_on(bytes, first);
    scan
}

/// Returns whether a scan in two pieces finds a complete request at the start of the bytes.
pub(crate) fn is_whole(bytes: &[u8], first: usize) -> bool {
    scan_of(bytes, first).is_whole(bytes)
}

fn asked_in_two(routes: &Routes, bytes: &[u8], first: usize) -> Asked {
    match words_by_scan(routes, bytes, &scan_of(bytes, first)) {
        Ok(words) => Ok(words.request),
        Err(refusal) => Err(refusal),
    }
}

fn is_booked_in_two(rt: &impl Runtime, bytes: &[u8], first: usize) {
    let asked = asked_in_two(&routes(rt), bytes, first);
    expect_row(rt, &asked, &booked(rt), first);
    expect_row(rt, is_whole(bytes, first), true, first);
}

fn is_cut(rt: &impl Runtime, bytes: &[u8]) {
    asks(rt, bytes, &BAD_REQUEST);
    expect_row(rt, is_whole(bytes, bytes.len() / 2), false, bytes.len());
}

#[test]
fn cut(rt: HostRuntime) {
    let bytes = BOOKING.as_bytes();
    for len in 0..bytes.len() {
        is_cut(&rt, &bytes[..len]);
    }
}

#[test]
fn in_two_pieces(rt: HostRuntime) {
    for first in 0..BOOKING.len() + 1 {
        is_booked_in_two(&rt, BOOKING.as_bytes(), first);
    }
}

pub(crate) fn ask_with(rt: &impl Runtime, body: &str, want: &Asked) {
    let length = body.len();
    let text = format!(in rt.alloc();
        "PUT /slots/court-1/2026-05-01/18/bookings/7 HTTP/1.1\r\n\
        Authorization: Bearer x\r\nContent-Length: {length}\r\n\r\n{body}"
    );
    asks(rt, text.expect(rt, "memory").as_bytes(), want);
}

/// The longest request, with a head of 16,384 bytes and a body of 256.
pub(crate) static LONGEST: [Piece; 5] = [
    (
        1,
        "PUT /slots/court-1/2026-05-01/18/bookings/7 HTTP/1.1\r\n\
        Authorization: Bearer AgEJ\r\nContent-Length: 256\r\nHost: ",
    ),
    (16_384 - 113, "h"),
    (1, "\r\n\r\n{\"guests\":2"),
    (244, " "),
    (1, "}"),
];

#[test]
fn longest(rt: HostRuntime) {
    let text = join(&rt, &LONGEST);
    let bytes = text.as_bytes();
    expect_row(&rt, bytes.len(), 16_640, "the longest");
    asks(&rt, bytes, &booked(&rt));
    is_booked_in_two(&rt, bytes, 16_384);
    is_cut(&rt, &bytes[..bytes.len().saturating_sub(1)]);
}

/// `rt try --test --fail-alloc N` refuses the Nth allocation of this test.
#[test]
fn refused_memory(rt: HostRuntime) {
    if let Ok(routes) = Routes::new(rt.alloc()) {
        let asked = asked_by(&routes, BOOKING.as_bytes());
        if asked != Err(Refusal::Unavailable) {
            expect_row(&rt, &asked, &booked(&rt), BOOKING);
        }
    }
}
