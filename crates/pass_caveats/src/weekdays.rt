//! Defines sets of weekdays in a caveat.

ghost use Rattle.std.specs.Prelude.{◌≡◌};
ghost use Rattle.club_values.specs.Number.{Reads};

use crate::parts::skip;
use club_values::Weekday;

/// A set of weekdays.
#[derive(Clone, Copy, Debug, PartialEq, Eq)]
pub struct Weekdays {
    pub monday: bool,
    pub tuesday: bool,
    pub wednesday: bool,
    pub thursday: bool,
    pub friday: bool,
    pub saturday: bool,
    pub sunday: bool,
}

impl Weekdays {
    ghost use Rattle.pass_caveats.specs.Choices.{has_weekday, SpellsWeekdays};

    /// Parses a comma-separated list of one or more of the weekdays `mon`, `tue`, `wed`, `thu`,
    /// `fri`, `sat` and `sun`. Each weekday occurs at most once, and the weekdays must be in this
    /// order. Returns `None` for any other text.
    pub fn read(text: &[u8]) -> Option<Weekdays>
        ensures { Reads (SpellsWeekdays text.now) result }
    {
        let (monday, rest) = skip(Some(text), b"mon");
        let (tuesday, rest) = skip(rest, b"tue");
        let (wednesday, rest) = skip(rest, b"wed");
        let (thursday, rest) = skip(rest, b"thu");
        let (friday, rest) = skip(rest, b"fri");
        let (saturday, rest) = skip(rest, b"sat");
        let (sunday, rest) = skip(rest, b"sun");
        if rest.is_some() {
            return None;
        }
        Some(Weekdays {
            monday,
            tuesday,
            wednesday,
            thursday,
            friday,
            saturday,
            sunday,
        })
    }

    /// Returns whether a weekday is in the set.
    pub fn contains(self, weekday: Weekday) -> bool
        ensures { result ≡ has_weekday self weekday }
    {
        match weekday {
            Weekday::Monday => self.monday,
            Weekday::Tuesday => self.tuesday,
            Weekday::Wednesday => self.wednesday,
            Weekday::Thursday => self.thursday,
            Weekday::Friday => self.friday,
            Weekday::Saturday => self.saturday,
            Weekday::Sunday => self.sunday,
        }
    }
}
