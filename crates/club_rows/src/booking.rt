//! Bookings, their refunds and their columns.

ghost use Rattle.std.specs.Prelude.{◌≡◌};
ghost use Rattle.club_values.specs.Number.{Reads};

use crate::booking_number::BookingNumber;
use crate::columns::{booking_number_of, guests_of, number_within, paid_of, slot_from_columns};
use crate::facility::{MAX_PLACES, MAX_PRICE};
use crate::guests::Guests;
use club_values::{MINUTES_A_DAY, Moment, Name, Slot};

/// The highest charge of a booking, in points: the maximum number of places times the highest
/// price.
pub const MAX_CHARGE: u32 = MAX_PLACES * MAX_PRICE;

/// The maximum number of free places in a slot after a booking. A booking takes at least one place.
const MAX_LEFT: u32 = MAX_PLACES - 1;

/// A cancellation gets a full refund if at least this many minutes remain before the slot starts.
/// The value is one day in minutes.
const FULL_REFUND_MINUTES: u64 = MINUTES_A_DAY as u64;

/// A booking of a slot. A cancellation doesn't delete the booking's row.
#[derive(Clone, Copy, Debug, PartialEq, Eq)]
pub struct Booking {
    /// The name of the key that was used to make the booking.
    pub key: Name,
    pub number: BookingNumber,
    pub slot: Slot,
    pub guests: Guests,
    /// The charge for the booking, in points.
    pub charge: u32,
    /// The number of free places in the slot just after this booking.
    pub left: u8,
    pub cancelled: bool,
    /// The refund for the booking, in points, or 0 if the booking isn't cancelled.
    pub refund: u32,
}

/// The values of a booking's columns.
#[derive(Clone, Copy, Debug)]
pub struct BookingColumns<'a> {
    pub key: &'a [u8],
    pub number: i64,
    pub facility: &'a [u8],
    pub day: i64,
    pub hour: i64,
    pub guests: i64,
    pub charge: i64,
    pub left: i64,
    /// 1 if the booking is cancelled, and 0 otherwise.
    pub cancelled: i64,
    pub refund: i64,
}

impl Booking {
    ghost use Rattle.club_rows.specs.{Columns.IsBookingOf, Rows.refund_at};

    /// Returns the refund in points for a cancellation at this moment. If at least one day remains
    /// before the slot starts, the refund is the whole charge. Otherwise, the refund is half of the
    /// charge, rounded down.
    pub fn refund_at(&self, moment: Moment) -> u32
        ensures { result ≡ refund_at self.now moment }
    {
        if u64::from(moment.number()) + FULL_REFUND_MINUTES <= u64::from(self.slot.start()) {
            self.charge
        } else {
            self.charge / 2
        }
    }

    /// Returns the booking with these column values. Returns `None` if a value is outside its
    /// limits.
    pub fn from_columns(columns: &BookingColumns<'_>) -> Option<Booking>
        ensures { Reads (IsBookingOf columns.now) result }
    {
        let key = Name::read(columns.key)?;
        let number = booking_number_of(columns.number)?;
        let slot = slot_from_columns(columns.facility, columns.day, columns.hour)?;
        let guests = guests_of(columns.guests)?;
        let left = number_within(columns.left, 0, MAX_LEFT)?;
        let (charge, cancelled, refund) = paid_of(
            columns.charge,
            columns.cancelled,
            columns.refund,
        )?;
        Some(Booking {
            key,
            number,
            slot,
            guests,
            charge,
            left: left as u8,
            cancelled,
            refund,
        })
    }
}
