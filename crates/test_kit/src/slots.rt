//! Slots, as plain values.

use club_values::{Day, Hour, Name, Slot};

/// 2026-05-01, a Friday, as the number of days since 1970-01-01.
pub const FRIDAY: u16 = 20_574;

/// The day is counted from 1970-01-01.
#[derive(Clone, Copy)]
pub struct PlainSlot {
    pub facility: &'static str,
    pub day: u16,
    pub hour: u8,
}

pub const COURT_AT_18: PlainSlot = PlainSlot {
    facility: "court-1",
    day: FRIDAY,
    hour: 18,
};

pub const ROOM_AT_18: PlainSlot = PlainSlot {
    facility: "room-1",
    day: FRIDAY,
    hour: 18,
};

pub const COURT_AT_19: PlainSlot = PlainSlot {
    hour: 19,
    ..COURT_AT_18
};

impl PlainSlot {
    pub fn slot(&self) -> Option<Slot> {
        Some(Slot {
            facility: Name::read(self.facility.as_bytes())?,
            day: Day::from_number(self.day)?,
            hour: Hour::from_number(self.hour)?,
        })
    }
}
