//! Hours of a day, and their texts.

ghost use Rattle.std.specs.Prelude.{◌≡◌, ◌↔◌, IsSome, IfSome, Some};
ghost use Rattle.club_values.specs.{Moment.{IsHour, SpellsHour}, Number.Reads};
ghost use Rattle.club_values.specs.computed.TextOf.{hour_of_text};
ghost use Rattle.club_values.specs.Number as digits;

use crate::ascii::text_of;
use crate::digits::{read_two, two_digits};
use std::fmt;
use std::marker::Model;

/// The number of hours in a day.
pub const HOURS_A_DAY: u8 = 24;

/// An hour of a day, 0 to 23. Contracts represent an hour by its number. Hours are ordered by time.
#[derive(Clone, Copy, Debug, PartialEq, Eq, PartialOrd, Ord)]
pub struct Hour {
    number: u8,
}

impl Model for Hour {
    ghost use Rattle.std.specs.Prelude.{ℕ};

    ghost Value = { ℕ };

    ghost use Rattle.club_values.specs.Moment.{IsHour};

    ghost view = { λ hour. hour.number };

    ghost invariant = { λ hour. IsHour hour.number };

    ghost inverse = { λ n. record { number = n } };
}

fn hour_in(text: &[u8]) -> Option<Hour>
    ensures { Reads (SpellsHour text.now) result }
{
    let [tens, ones] = *text else { return None };
    Hour::from_number(read_two(tens, ones)?)
}

impl Hour {
    /// Returns the hour with this number, or `None` for a number above 23.
    pub fn from_number(number: u8) -> Option<Hour>
        ensures within { IsSome result ↔ IsHour number }
        ensures value { IfSome result (λ hour. hour ≡ number) }
    {
        if number < HOURS_A_DAY {
            Some(Hour { number })
        } else {
            None
        }
    }

    /// Returns the number of the hour.
    pub fn number(self) -> u8
        ensures value { result ≡ self }
        ensures within { IsHour result }
    {
        self.number
    }

    /// Returns the hour that two digits from `00` to `23` encode, or `None` for any other text.
    pub fn read(text: &[u8]) -> Option<Hour>
        ensures spelled { Reads (SpellsHour text.now) result }
        ensures function { result ≡ hour_of_text text.now }
    {
        hour_in(text)
    }

    /// Returns the hour as two digits.
    pub fn text(self) -> [u8; 2]
        ensures value { result ≡ digits.two_digits self }
        ensures spelled { SpellsHour result self }
    {
        two_digits(self.number)
    }
}

impl fmt::Display for Hour {
    ghost output = { λ hour. Some (digits.two_digits hour) };

    fn fmt<W: fmt::Write>(&self, f: &mut fmt::Formatter<W>) -> fmt::Result {
        f.write_str(text_of(&self.text()))
    }
}
