//! Slots. A slot is one hour at one facility on one day.

ghost use Rattle.std.specs.Prelude.{◌≡◌, ◌+◌, ◌≤◌};
ghost use Rattle.club_values.specs.Moment.{last_moment, minutes_an_hour};

use crate::day::Day;
use crate::hour::Hour;
use crate::moment::{MINUTES_A_DAY, MINUTES_AN_HOUR};
use crate::name::Name;

/// The maximum number of guests in a booking. The member who books isn't a guest.
pub const MAX_GUESTS: u8 = 49;

/// A slot: one hour at one facility on one day.
#[derive(Clone, Copy, Debug, PartialEq, Eq)]
pub struct Slot {
    pub facility: Name,
    pub day: Day,
    pub hour: Hour,
}

impl Slot {
    ghost use Rattle.club_values.specs.Moment.{start_of};

    /// Returns the number of minutes from 1970-01-01T00:00 to the start of the slot.
    pub fn start(&self) -> u32
        ensures value { result ≡ start_of self.now }
        // The last slot begins at 23:00 on the last supported day, so every slot ends by the end of
        // that day.
        ensures bound { result + minutes_an_hour ≤ last_moment + 1 }
    {
        u32::from(self.day.number()) * u32::from(MINUTES_A_DAY)
            + u32::from(self.hour.number()) * u32::from(MINUTES_AN_HOUR)
    }
}
