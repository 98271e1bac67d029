//! Replies, as plain values.

use crate::slots::COURT_AT_18;
use club_core::{Refusal, Reply};
use club_rows::BookingNumber;
use club_values::{Kind, Name};

#[derive(Clone, Copy)]
pub enum PlainReply {
    /// The number of persons in the slot of `court-1` at 18, and whether the slot is closed.
    SlotShown(u64, bool),
    /// The key, the number, the charge, and the places that are still free.
    Booked(&'static str, u32, u32, u8),
    /// The key, the number, and the refund.
    Cancelled(&'static str, u32, u32),
    /// The balance, the number of open bookings, and the spent points of amy, who has quota 5.
    AccountShown(u32, u64, u64),
    Refused(Refusal),
}

pub const BOOKED_7: PlainReply = PlainReply::Booked("amy-1", 7, 600, 1);

pub const CANCELLED_7: PlainReply = PlainReply::Cancelled("amy-1", 7, 600);

pub const BOOKED_2: PlainReply = PlainReply::Booked("bob-1", 2, 200, 3);

pub const FILLED_BY_7: PlainReply = PlainReply::Booked("amy-1", 7, 600, 0);

pub const ACCOUNT_BEFORE: PlainReply = PlainReply::AccountShown(10_000, 0, 0);

pub const ACCOUNT_AFTER: PlainReply = PlainReply::AccountShown(9_400, 1, 600);

pub const NOT_VERIFIED: PlainReply = PlainReply::Refused(Refusal::NotVerified);

pub const KEY_REVOKED: PlainReply = PlainReply::Refused(Refusal::KeyRevoked);

pub const DENIED_1: PlainReply = PlainReply::Refused(Refusal::CaveatDenies(1));

pub const NO_SUCH_FACILITY: PlainReply = PlainReply::Refused(Refusal::NoSuchFacility);

pub const NO_SUCH_BOOKING: PlainReply = PlainReply::Refused(Refusal::NoSuchBooking);

impl PlainReply {
    /// Returns `None` if a name or a number is outside its limits.
    pub fn reply(&self) -> Option<Reply> {
        Some(match *self {
            PlainReply::SlotShown(taken, closed) => Reply::SlotShown {
                slot: COURT_AT_18.slot()?,
                kind: Kind::Court,
                price: 200,
                places: 4,
                taken,
                closed,
            },
            PlainReply::Booked(key, number, charge, left) => Reply::Booked {
                key: Name::read(key.as_bytes())?,
                number: BookingNumber::new(number)?,
                charge,
                left,
            },
            PlainReply::Cancelled(key, number, refund) => Reply::Cancelled {
                key: Name::read(key.as_bytes())?,
                number: BookingNumber::new(number)?,
                refund,
            },
            PlainReply::AccountShown(balance, open_count, spent) => Reply::AccountShown {
                member: Name::read(b"amy")?,
                balance,
                quota: 5,
                open_count,
                spent,
            },
            PlainReply::Refused(refusal) => Reply::Refused(refusal),
        })
    }
}
