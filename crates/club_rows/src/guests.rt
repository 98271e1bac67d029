//! The guests of a booking.

ghost use Rattle.std.specs.Prelude.{◌≡◌, ◌+◌, ◌↔◌, IsSome, IfSome};
ghost use Rattle.club_rows.specs.Rows.{IsGuests};

use club_values::MAX_GUESTS;
use std::marker::Model;

/// The number of guests of a booking, from 0 to 49. The member isn't a guest. Contracts represent a
/// `Guests` value as a natural number.
#[derive(Clone, Copy, Debug, PartialEq, Eq, PartialOrd, Ord)]
pub struct Guests {
    count: u8,
}

impl Model for Guests {
    ghost use Rattle.std.specs.Prelude.{ℕ};

    ghost Value = { ℕ };

    ghost use Rattle.club_rows.specs.Rows.{IsGuests};

    ghost view = { λ guests. guests.count };

    ghost invariant = { λ guests. IsGuests guests.count };

    ghost inverse = { λ n. record { count = n } };
}

impl Guests {
    /// Returns a `Guests` value with this number of guests. Returns `None` for more than 49 guests.
    pub fn new(count: u8) -> Option<Guests>
        ensures within { IsSome result ↔ IsGuests count }
        ensures value { IfSome result (λ guests. guests ≡ count) }
    {
        if count > MAX_GUESTS {
            return None;
        }
        Some(Guests { count })
    }

    /// Returns the number of guests.
    pub fn get(self) -> u8
        ensures value { result ≡ self }
        ensures within { IsGuests result }
    {
        self.count
    }

    /// Returns the number of persons: the guests and the member.
    pub fn persons(self) -> u8
        ensures value { result ≡ self + 1 }
        ensures within { IsGuests self }
    {
        self.count + 1
    }
}
