//! Exchanges in memory, with a desk that counts its requests.

pub mod doubles;
mod reading;

use crate::desk::Desk;
use crate::expect::{Runtime, expect_bytes, expect_eq, expect_shown, noon};
use club_core::{Refusal, Reply, Request};
use club_http::{AnswerFault, Face, answer};
use doubles::{Narrow, Pieces, ROOM};
use test_kit::exchanges::{BAD_REQUEST, BOOKED_7, UNAVAILABLE};
use test_kit::replies;
use test_kit::requests::BOOK_7;

/// A request for a booking, with a head of 116 bytes and a body of 12.
const BOOKING: &str = "PUT /slots/court-1/2026-05-01/18/bookings/7 HTTP/1.1\r\nHost: club\r\n\
    Authorization: Bearer AgEJ\r\nContent-Length: 12\r\n\r\n{\"guests\":2}";

const _: () = prove!(BOOKING.len() == 128);

/// The result of an exchange, the desk's last request, and the text of the reply. If the writer
/// fails, it gets only a prefix of the text.
type Ended = (Result<Reply, AnswerFault>, Option<Request>, &'static str);

const IS_BAD: Ended = (Ok(Reply::Refused(Refusal::BadRequest)), None, BAD_REQUEST);

const IS_UNAVAILABLE: Ended = (Ok(Reply::Refused(Refusal::Unavailable)), None, UNAVAILABLE);

const NO_REQUEST: Ended = (Err(AnswerFault::Read), None, "");

fn booked_reply(rt: &impl Runtime) -> Reply {
    replies::BOOKED_7.reply().expect(rt, "a reply")
}

fn booked(rt: &impl Runtime) -> Ended {
    (Ok(booked_reply(rt)), BOOK_7.request(), BOOKED_7)
}

fn cut_off(len: usize) -> Ended {
    (Err(AnswerFault::Write(len)), BOOK_7.request(), BOOKED_7)
}

fn booking_desk(rt: &impl Runtime) -> Desk<'static> {
    let mut desk = Desk::new(rt.alloc(), noon(rt));
    desk.reply = booked_reply(rt);
    desk
}

fn expect_ended(
    rt: &impl Runtime,
    outcome: &Result<Reply, AnswerFault>,
    desk: &Desk<'_>,
    writer: &Narrow,
    (want, last, text): &Ended,
) {
    expect_eq(rt, outcome, want);
    expect_eq(rt, desk.asked, u64::from(last.is_some()));
    expect_eq(rt, &desk.last, last);
    let len = match want {
        Err(AnswerFault::Write(len)) => *len,
        _ => text.len(),
    };
    let written = text.as_bytes().get(..len).expect(rt, "a prefix");
    expect_bytes(rt, writer.written_bytes(), written, "the booking");
}

fn ends(rt: &impl Runtime, reader: &mut Pieces<'_>, writer: &mut Narrow, want: &Ended) {
    let mut desk = booking_desk(rt);
    let mut face = Face::new(rt.alloc()).expect(rt, "a face");
    let outcome = answer(&mut face, &mut desk, noon(rt), reader, writer);
    expect_ended(rt, &outcome, &desk, writer, want);
}

fn returns(rt: &impl Runtime, reader: &mut Pieces<'_>, want: &Ended) {
    ends(rt, reader, &mut Narrow::new(ROOM, ROOM), want);
}

fn gives(rt: &impl Runtime, writer: &mut Narrow, want: &Ended) {
    let mut reader = Pieces::new(BOOKING.as_bytes(), 600, false);
    ends(rt, &mut reader, writer, want);
}

#[test]
fn failing_writers(rt: HostRuntime) {
    for len in 0..BOOKED_7.len() {
        let mut writer = Narrow::new(ROOM, len);
        gives(&rt, &mut writer, &cut_off(len));
        expect_eq(&rt, writer.failures, 1);
    }
}

#[test]
fn short_writes(rt: HostRuntime) {
    let mut writer = Narrow::new(1, ROOM);
    gives(&rt, &mut writer, &booked(&rt));
    expect_eq(&rt, writer.calls, 133);
    let mut writer = Narrow::new(ROOM, 0);
    writer.stalls = true;
    gives(&rt, &mut writer, &cut_off(0));
}

/// `rt try --test --fail-alloc N` refuses the Nth allocation of this test.
#[test]
fn refused_memory(rt: HostRuntime) {
    let Ok(mut face) = Face::new(rt.alloc()) else {
        return;
    };
    let mut desk = booking_desk(&rt);
    let mut reader = Pieces::new(BOOKING.as_bytes(), 600, false);
    let mut writer = Narrow::new(ROOM, ROOM);
    let outcome = answer(&mut face, &mut desk, noon(&rt), &mut reader, &mut writer);
    let refused = outcome == IS_UNAVAILABLE.0;
    let want = if refused { IS_UNAVAILABLE } else { booked(&rt) };
    expect_ended(&rt, &outcome, &desk, &writer, &want);
}

#[test]
fn names_of_faults(rt: HostRuntime) {
    expect_shown(&rt, &AnswerFault::Read, "input failed");
    expect_shown(&rt, &AnswerFault::Write(12), "output failed after 12 bytes");
}
