//! Booking numbers.

ghost use Rattle.std.specs.Prelude.{◌≡◌, ◌↔◌, IsSome, IfSome};
ghost use Rattle.club_rows.specs.Rows.{IsBookingNumber};

use club_values::digits::MAX_NUMBER;
use std::marker::Model;

/// The highest booking number.
pub const MAX_BOOKING_NUMBER: u32 = MAX_NUMBER;

/// The number of a booking, from 1 to 999,999,999. The bookings of a key have different numbers.
/// Contracts represent a booking number as a natural number.
#[derive(Clone, Copy, Debug, PartialEq, Eq, PartialOrd, Ord)]
pub struct BookingNumber {
    number: u32,
}

impl Model for BookingNumber {
    ghost use Rattle.std.specs.Prelude.{ℕ};

    ghost Value = { ℕ };

    ghost use Rattle.club_rows.specs.Rows.{IsBookingNumber};

    ghost view = { λ booking. booking.number };

    ghost invariant = { λ booking. IsBookingNumber booking.number };

    ghost inverse = { λ n. record { number = n } };
}

impl BookingNumber {
    /// Returns the booking number with this value. Returns `None` for 0 and for values above
    /// 999,999,999.
    pub fn new(number: u32) -> Option<BookingNumber>
        ensures within { IsSome result ↔ IsBookingNumber number }
        ensures value { IfSome result (λ booking. booking ≡ number) }
    {
        if number < 1 || number > MAX_BOOKING_NUMBER {
            return None;
        }
        Some(BookingNumber { number })
    }

    /// Returns the number.
    pub fn get(self) -> u32
        ensures value { result ≡ self }
        ensures within { IsBookingNumber result }
    {
        self.number
    }
}
