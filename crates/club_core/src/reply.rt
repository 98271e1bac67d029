//! Defines the replies to requests.

use crate::refusal::Refusal;
use club_rows::BookingNumber;
use club_values::{Kind, Name, Slot};

/// The reply to a request.
#[derive(Clone, Copy, Debug, PartialEq, Eq)]
pub enum Reply {
    SlotShown {
        slot: Slot,
        kind: Kind,
        price: u16,
        places: u8,
        /// The number of persons in the slot.
        taken: u64,
        closed: bool,
    },
    Booked {
        key: Name,
        number: BookingNumber,
        charge: u32,
        /// The number of free places in the slot after the booking.
        left: u8,
    },
    Cancelled {
        key: Name,
        number: BookingNumber,
        refund: u32,
    },
    AccountShown {
        member: Name,
        balance: u32,
        quota: u8,
        open_count: u64,
        /// The points that the key of the request's pass has spent.
        spent: u64,
    },
    Refused(Refusal),
}
