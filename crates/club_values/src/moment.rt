//! Moments and their texts. A moment is a minute on the club's clock, from 2000 to 2099.

ghost use Rattle.std.specs.Prelude.{◌≡◌, ◌+◌, ◌*◌, ◌/◌, ◌%◌, ◌<◌, ◌↔◌, IsSome, IfSome, Some};
ghost use Rattle.club_values.specs.Moment.{IsDay, IsMoment, SpellsTime, SpellsMoment};
ghost use Rattle.club_values.specs.{Moment.{minutes_a_day, moment_text}, Number.Reads};
ghost use Rattle.club_values.specs.computed.TextOf.{moment_of_text};

use crate::ascii::text_of;
use crate::day::{Day, FIRST_DAY, LAST_DAY};
use crate::digits::{read_two, two_digits};
use crate::hour::HOURS_A_DAY;
use std::fmt;
use std::marker::Model;

/// The number of minutes in an hour.
pub const MINUTES_AN_HOUR: u16 = 60;

/// The number of minutes in a day.
pub const MINUTES_A_DAY: u16 = HOURS_A_DAY as u16 * MINUTES_AN_HOUR;

/// The number of minutes from 1970-01-01T00:00 to the first moment, 2000-01-01T00:00.
const FIRST_MOMENT: u32 = FIRST_DAY as u32 * MINUTES_A_DAY as u32;

/// The number of minutes from 1970-01-01T00:00 to the last moment, 2099-12-31T23:59.
const LAST_MOMENT: u32 = (LAST_DAY as u32 + 1) * MINUTES_A_DAY as u32 - 1;

/// A minute on the club's clock, from 2000-01-01T00:00 to 2099-12-31T23:59. Contracts represent a
/// moment by the number of minutes since 1970-01-01T00:00. Moments are ordered by time.
#[derive(Clone, Copy, Debug, PartialEq, Eq, PartialOrd, Ord)]
pub struct Moment {
    number: u32,
}

impl Model for Moment {
    ghost use Rattle.std.specs.Prelude.{ℕ};

    ghost Value = { ℕ };

    ghost use Rattle.club_values.specs.Moment.{IsMoment};

    ghost view = { λ moment. moment.number };

    ghost invariant = { λ moment. IsMoment moment.number };

    ghost inverse = { λ n. record { number = n } };
}

/// Returns the number of minutes from midnight to the time in a text `THH:MM`, or `None` for any
/// other text.
fn minute_of(text: &[u8]) -> Option<u16>
    ensures { Reads (SpellsTime text.now) result }
{
    let [b'T', h1, h2, b':', m1, m2] = *text else {
        return None;
    };
    let hour = read_two(h1, h2)?;
    let minute = u16::from(read_two(m1, m2)?);
    if hour < HOURS_A_DAY && minute < MINUTES_AN_HOUR {
        Some(u16::from(hour) * MINUTES_AN_HOUR + minute)
    } else {
        None
    }
}

fn moment_in(text: &[u8]) -> Option<Moment>
    ensures { Reads (SpellsMoment text.now) result }
{
    if text.len() < 10 {
        return None;
    }
    let (date, time) = text.split_at(10);
    let day = Day::read(date)?;
    let minute = minute_of(time)?;
    Moment::new(day, minute)
}

impl Moment {
    /// Returns the moment with this number of minutes since 1970-01-01T00:00, or `None` if the
    /// number is out of range.
    pub fn from_number(number: u32) -> Option<Moment>
        ensures within { IsSome result ↔ IsMoment number }
        ensures value { IfSome result (λ moment. moment ≡ number) }
    {
        if number < FIRST_MOMENT || number > LAST_MOMENT {
            return None;
        }
        Some(Moment { number })
    }

    /// Returns the moment at this minute of a day, or `None` if the minute is 1,440 or more. The
    /// minutes of a day are numbered from 0.
    pub fn new(day: Day, minute: u16) -> Option<Moment>
        ensures within { IsSome result ↔ (minute < minutes_a_day) }
        ensures value { IfSome result (λ moment. moment ≡ day * minutes_a_day + minute) }
    {
        if minute >= MINUTES_A_DAY {
            return None;
        }
        Some(Moment {
            number: u32::from(day.number()) * u32::from(MINUTES_A_DAY) + u32::from(minute),
        })
    }

    /// Returns the number of minutes from 1970-01-01T00:00 to the moment.
    pub fn number(self) -> u32
        ensures value { result ≡ self }
        ensures within { IsMoment result }
    {
        self.number
    }

    /// Returns the day on which the moment occurs.
    pub fn day(self) -> Day
        ensures value { result ≡ self / minutes_a_day }
        ensures within { IsDay result }
    {
        let number = self.number / u32::from(MINUTES_A_DAY);
        Day::from_number(number as u16).unwrap()
    }

    /// Returns the number of minutes since midnight, 0 to 1,439.
    pub fn minute_of_day(self) -> u16
        ensures value { result ≡ self % minutes_a_day }
        ensures within { result < minutes_a_day }
    {
        (self.number % u32::from(MINUTES_A_DAY)) as u16
    }

    /// Returns the moment that a text `YYYY-MM-DDTHH:MM` encodes, or `None` if the text isn't a
    /// real date and time in range.
    pub fn read(text: &[u8]) -> Option<Moment>
        ensures spelled { Reads (SpellsMoment text.now) result }
        ensures function { result ≡ moment_of_text text.now }
    {
        moment_in(text)
    }

    /// Returns the text of the moment, `YYYY-MM-DDTHH:MM`.
    pub fn text(self) -> [u8; 16]
        ensures value { result ≡ moment_text self }
        ensures spelled { SpellsMoment result self }
    {
        let minute = self.minute_of_day();
        let [h1, h2] = two_digits((minute / MINUTES_AN_HOUR) as u8);
        let [m1, m2] = two_digits((minute % MINUTES_AN_HOUR) as u8);
        let [y1, y2, y3, y4, dash1, o1, o2, dash2, d1, d2] = self.day().text();
        [
            y1, y2, y3, y4, dash1, o1, o2, dash2, d1, d2, b'T', h1, h2, b':', m1, m2,
        ]
    }
}

impl fmt::Display for Moment {
    ghost output = { λ moment. Some (moment_text moment) };

    fn fmt<W: fmt::Write>(&self, f: &mut fmt::Formatter<W>) -> fmt::Result {
        f.write_str(text_of(&self.text()))
    }
}
