//! The time zone of the club's clock.

ghost use Rattle.std.specs.Prelude.{◌≡◌};
ghost use Rattle.club_clock.specs.Zone.{IsShown, zone_of};

use club_values::{Day, MINUTES_AN_HOUR, Moment};
use jiff_core::Timestamp;
use jiff_tz::posix::TimeZone;
use std::marker::Model;

/// A time zone, defined by a POSIX rule such as `UTC0` or `CET-1CEST,M3.5.0,M10.5.0/3`. Contracts
/// represent a zone by the text of its rule.
#[derive(Drop)]
pub struct Zone<'a> {
    rule: &'a str,
    time_zone: TimeZone,
}

impl<'a> Model for Zone<'a> {
    ghost use Rattle.std.specs.Prelude.{ℕ, List};
    ghost use Rattle.club_clock.specs.Zone.{IsZoneOf};

    ghost Value = { List ℕ };

    ghost view = { λ zone. zone.rule.now };

    ghost invariant = { λ zone. IsZoneOf zone.rule.now zone.time_zone };
}

impl<'a> Zone<'a> {
    /// Returns the zone with the given rule. Returns `None` if the text isn't a POSIX rule.
    pub fn from_rule(rule: &'a str) -> Option<Zone<'a>>
        ensures { result ≡ zone_of rule.entry.now }
    {
        match TimeZone::parse(rule.as_bytes()) {
            Ok(time_zone) => Some(Zone { rule, time_zone }),
            Err(_) => None,
        }
    }

    /// Returns the minute that a clock in the zone shows at an instant. Returns `None` if the year
    /// of that minute is before 2000 or after 2099.
    pub fn moment_at(&self, instant: Timestamp) -> Option<Moment>
        ensures { IsShown self.now instant.nanosecond result }
    {
        let civil = self.time_zone.to_offset(instant).to_datetime(instant);
        let day = Day::from_date(civil.date)?;
        let minute = u16::from(civil.time.hour) * MINUTES_AN_HOUR + u16::from(civil.time.minute);
        Moment::new(day, minute)
    }
}
