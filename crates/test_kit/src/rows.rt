//! Rows of the club, as plain values.

use crate::slots::{COURT_AT_18, PlainSlot, ROOM_AT_18};
use club_rows::{Booking, BookingNumber, Facility, Guests, Member};
use club_values::{Kind, Name};

/// A facility that is open from hour 8 to hour 22.
#[derive(Clone, Copy)]
pub struct PlainFacility {
    pub name: &'static str,
    pub kind: Kind,
    pub places: u8,
    pub price: u16,
}

pub const COURT: PlainFacility = PlainFacility {
    name: "court-1",
    kind: Kind::Court,
    places: 4,
    price: 200,
};

pub const ROOM: PlainFacility = PlainFacility {
    name: "room-1",
    kind: Kind::Room,
    places: 1,
    price: 601,
};

/// A booking, and its refund if it was cancelled.
#[derive(Clone, Copy)]
pub struct PlainBooking {
    pub key: &'static str,
    pub number: u32,
    pub slot: PlainSlot,
    pub guests: u8,
    pub charge: u32,
    pub left: u8,
    pub refund: Option<u32>,
}

pub const BOOKING_7: PlainBooking = PlainBooking {
    key: "amy-1",
    number: 7,
    slot: COURT_AT_18,
    guests: 2,
    charge: 600,
    left: 1,
    refund: None,
};

pub const BOOKING_8: PlainBooking = PlainBooking {
    key: "amy-1",
    number: 8,
    slot: ROOM_AT_18,
    guests: 0,
    charge: 601,
    left: 0,
    refund: None,
};

pub fn amy(credited: u32, quota: u8) -> Option<Member> {
    Some(Member {
        name: Name::read(b"amy")?,
        credited,
        quota,
    })
}

impl PlainFacility {
    pub fn facility(&self) -> Option<Facility> {
        Some(Facility {
            name: Name::read(self.name.as_bytes())?,
            kind: self.kind,
            places: self.places,
            price: self.price,
            opens: 8,
            shuts: 22,
        })
    }
}

impl PlainBooking {
    /// Returns `None` if a value is outside its limits.
    pub fn booking(&self) -> Option<Booking> {
        Some(Booking {
            key: Name::read(self.key.as_bytes())?,
            number: BookingNumber::new(self.number)?,
            slot: self.slot.slot()?,
            guests: Guests::new(self.guests)?,
            charge: self.charge,
            left: self.left,
            cancelled: self.refund.is_some(),
            refund: self.refund.unwrap_or(0),
        })
    }
}
