//! Days from 2000 to 2099, and their texts.

ghost use Rattle.std.specs.Prelude.{◌≡◌, ◌<◌, ◌≤◌, ◌↔◌, IsSome, IfSome, Some, pos};
ghost use Rattle.club_values.specs.{Kind.weekday_of, Moment.{IsDay, SpellsDay, AreDateParts}};
ghost use Rattle.club_values.specs.{Moment.{IsDateText, IsDateOf, day_text}, Number.Reads};
ghost use Rattle.club_values.specs.computed.TextOf.{day_of_text};
ghost use Rattle.jiff_core.specs.Date.{epoch_day};

use crate::ascii::text_of;
use crate::digits::{read_two, two_digits};
use jiff_core::civil::{Date, Weekday};
use std::fmt;
use std::marker::Model;

/// The day number of 2000-01-01, the first supported day.
pub(crate) const FIRST_DAY: u16 = 10_957;

/// The day number of 2099-12-31, the last supported day.
pub(crate) const LAST_DAY: u16 = 47_481;

/// The number of days from the earliest date of `jiff_core` to 1970-01-01.
const DAYS_BEFORE_1970: u32 = 4_371_587;

/// A day from 2000-01-01 to 2099-12-31. Contracts represent a day by the number of days since
/// 1970-01-01. Days are ordered by time.
#[derive(Clone, Copy, Debug, PartialEq, Eq, PartialOrd, Ord)]
pub struct Day {
    number: u16,
}

impl Model for Day {
    ghost use Rattle.std.specs.Prelude.{ℕ};

    ghost Value = { ℕ };

    ghost use Rattle.club_values.specs.Moment.{IsDay};

    ghost view = { λ day. day.number };

    ghost invariant = { λ day. IsDay day.number };

    ghost inverse = { λ n. record { number = n } };
}

/// Returns the year, month and day in a text `YYYY-MM-DD`, or `None` for any other text. The three
/// numbers needn't form a real date.
fn parts_of(text: &[u8]) -> Option<(u16, u8, u8)>
    ensures { Reads (λ p. AreDateParts text.now p.0 p.1 p.2) result }
{
    let [y1, y2, y3, y4, b'-', m1, m2, b'-', d1, d2] = *text else {
        return None;
    };
    let century = read_two(y1, y2)?;
    let year = read_two(y3, y4)?;
    let month = read_two(m1, m2)?;
    let day = read_two(d1, d2)?;
    Some((u16::from(century) * 100 + u16::from(year), month, day))
}

/// Returns the date that a text `YYYY-MM-DD` encodes, or `None` if the text isn't a real date.
fn date_of(text: &[u8]) -> Option<Date>
    ensures { Reads (IsDateText text.now) result }
{
    let (year, month, day) = parts_of(text)?;
    Date::new(year as i16, month as i8, day as i8).ok()
}

#[tactic(auto, using(crate::proofs::DayLemmas::spells_by_date))]
fn day_in(text: &[u8]) -> Option<Day>
    ensures { Reads (SpellsDay text.now) result }
{
    Day::from_date(date_of(text)?)
}

impl Day {
    /// Returns the day with this number of days since 1970-01-01, or `None` if the number is out of
    /// range.
    pub fn from_number(number: u16) -> Option<Day>
        ensures within { IsSome result ↔ IsDay number }
        ensures value { IfSome result (λ day. day ≡ number) }
    {
        if number < FIRST_DAY || number > LAST_DAY {
            return None;
        }
        Some(Day { number })
    }

    /// Returns the number of days since 1970-01-01.
    pub fn number(self) -> u16
        ensures value { result ≡ self }
        ensures within { IsDay result }
    {
        self.number
    }

    /// Returns the date as a `Day`, or `None` if the date is out of range.
    pub fn from_date(date: Date) -> Option<Day>
        ensures { Reads (λ day. IsDay day × (epoch_day date ≡ pos day)) result }
    {
        let number = u16::try_from(date.to_unix_epoch_day()).ok()?;
        Day::from_number(number)
    }

    /// Returns the calendar date of the day.
    pub fn date(self) -> Date
        ensures same { epoch_day result ≡ pos self }
        ensures within { IsDay self }
    {
        Date::from_days_since_min(u32::from(self.number) + DAYS_BEFORE_1970)
    }

    /// Returns the year, the month and the day of the month. Months and days count from 1.
    pub fn year_month_day(self) -> (u16, u8, u8)
        ensures date { IsDateOf result.0 result.1 result.2 self }
        ensures years { (2000 ≤ result.0) × (result.0 ≤ 2099) }
        ensures within { IsDay self }
    {
        let date = self.date();
        (date.year as u16, date.month, date.day)
    }

    /// Returns the day of the week.
    pub fn weekday(self) -> Weekday
        ensures { result ≡ weekday_of self }
    {
        self.date().weekday()
    }

    /// Returns the text of the day, `YYYY-MM-DD`.
    pub fn text(self) -> [u8; 10]
        ensures value { result ≡ day_text self }
        ensures spelled { SpellsDay result self }
    {
        let (year, month, day) = self.year_month_day();
        let [y1, y2] = two_digits((year / 100) as u8);
        let [y3, y4] = two_digits((year % 100) as u8);
        let [m1, m2] = two_digits(month);
        let [d1, d2] = two_digits(day);
        [y1, y2, y3, y4, b'-', m1, m2, b'-', d1, d2]
    }

    /// Returns the day that a text `YYYY-MM-DD` encodes, or `None` if the text isn't a real date in
    /// range.
    pub fn read(text: &[u8]) -> Option<Day>
        ensures spelled { Reads (SpellsDay text.now) result }
        ensures function { result ≡ day_of_text text.now }
    {
        day_in(text)
    }
}

impl fmt::Display for Day {
    ghost output = { λ day. Some (day_text day) };

    fn fmt<W: fmt::Write>(&self, f: &mut fmt::Formatter<W>) -> fmt::Result {
        f.write_str(text_of(&self.text()))
    }
}
