//! Typed values that tests make from plain values.

use crate::expect::Host;
use club_core::{Command, OfficeAnswer, Request};
use club_gate::{Fault, OfficeReply, key_signature};
use club_rows::{Booking, BookingNumber, Root};
use club_values::{Day, Moment, Name, Slot};
use test_kit::{PlainBooking, PlainCommand, PlainRequest, PlainSlot};

pub(crate) fn name(rt: &impl Host, text: &str) -> Name {
    Name::read(text.as_bytes()).expect(rt, "a name")
}

pub(crate) fn day(rt: &impl Host, text: &str) -> Day {
    Day::read(text.as_bytes()).expect(rt, "a day")
}

/// Returns the moment of a minute, counted from 1970-01-01T00:00.
pub(crate) fn at(rt: &impl Host, minute: u32) -> Moment {
    Moment::from_number(minute).expect(rt, "a moment")
}

pub(crate) fn moment(rt: &impl Host, text: &str) -> Moment {
    Moment::read(text.as_bytes()).expect(rt, "a moment")
}

pub(crate) fn root(rt: &impl Host, bytes: &[u8]) -> Root {
    Root::new(bytes).expect(rt, "a root")
}

pub(crate) fn slot(rt: &impl Host, slot: PlainSlot) -> Slot {
    slot.slot().expect(rt, "a slot")
}

pub(crate) fn number(rt: &impl Host, number: u32) -> BookingNumber {
    BookingNumber::new(number).expect(rt, "a number")
}

pub(crate) fn booking(rt: &impl Host, booking: PlainBooking) -> Booking {
    booking.booking().expect(rt, "a booking")
}

pub(crate) fn booked(rt: &impl Host, plain: Option<PlainBooking>) -> Option<Booking> {
    plain.map(|plain| booking(rt, plain))
}

pub(crate) fn request(rt: &impl Host, asked: PlainRequest) -> Request {
    asked.request().expect(rt, "a request")
}

pub(crate) fn command(rt: &impl Host, plain: PlainCommand) -> Command {
    plain.command().expect(rt, "a command")
}

/// Returns the desk's reply for the answer of the reference machine.
pub(crate) fn office_reply(answer: &OfficeAnswer) -> OfficeReply {
    match *answer {
        OfficeAnswer::Done => OfficeReply::Done,
        OfficeAnswer::NewKey { name, root } => OfficeReply::Key {
            signature: key_signature(&name, &root),
        },
        OfficeAnswer::NotDone(fault) => OfficeReply::Refused(Fault::from(fault)),
    }
}
