//! Typed values that tests make from plain values.

use crate::expect::Host;
use club_rows::{Booking, Facility, Key, Root};
use club_values::{Moment, Name, Slot};
use test_kit::roots::ROOT;
use test_kit::{PlainBooking, PlainFacility, PlainSlot};

pub(crate) fn name(rt: &impl Host, text: &str) -> Name {
    Name::read(text.as_bytes()).expect(rt, "a name")
}

pub(crate) fn root(rt: &impl Host, bytes: &[u8]) -> Root {
    Root::new(bytes).expect(rt, "a root")
}

pub(crate) fn moment(rt: &impl Host, text: &str) -> Moment {
    Moment::read(text.as_bytes()).expect(rt, "a moment")
}

pub(crate) fn slot(rt: &impl Host, slot: &PlainSlot) -> Slot {
    slot.slot().expect(rt, "a slot")
}

pub(crate) fn key(rt: &impl Host, revoked: bool) -> Key {
    Key {
        name: name(rt, "amy-1"),
        member: name(rt, "amy"),
        root: root(rt, ROOT),
        older: None,
        revoked,
    }
}

pub(crate) fn facility(rt: &impl Host, facility: &Option<PlainFacility>) -> Option<Facility> {
    match facility {
        Some(facility) => Some(facility.facility().expect(rt, "a facility")),
        None => None,
    }
}

pub(crate) fn booking(rt: &impl Host, booking: &Option<PlainBooking>) -> Option<Booking> {
    match booking {
        Some(booking) => Some(booking.booking().expect(rt, "a booking")),
        None => None,
    }
}
