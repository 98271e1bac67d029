//! Sources of moments.

ghost use Rattle.std.specs.{Prelude.{◌≡◌, pos, MatchOption}, Time.system_time_nanos};
ghost use Rattle.jiff_core.specs.Timestamp.{IsTimestampNanos};

use crate::clock::Clock;
use club_values::Moment;
use jiff_core::Timestamp;
use std::marker::Model;
use std::time::{self, SystemTime};

/// A source of moments. The server gets the moment of each connection from such a source.
pub trait Moments {
    ghost use Rattle.club_clock.specs.Moments.{GivesMoment};

    // Relates the source before a call of `now`, the returned moment, and the source after the
    // call.
    ghost gives: { GivesMoment Self };

    /// Returns the current moment. Returns `None` if the clock can't be read, or if the clock's
    /// year is before 2000 or after 2099.
    fn now(&mut self) -> Option<Moment>
        ensures { gives self.old result self.new };
}

/// A clock that shows the current instant.
pub trait Instants {
    ghost use Rattle.std.specs.Prelude.{Option};
    ghost use Rattle.jiff_core.specs.declared.timestamp.Timestamp.{Timestamp};

    // The instants that the clock may show.
    ghost shows: { Self → Option Timestamp → Type 0 };

    /// Returns the current instant. Returns `None` if the clock can't be read, or if a `Timestamp`
    /// can't represent the clock's time.
    fn instant(&self) -> Option<Timestamp>
        ensures { shows self.now result };
}

/// Reads the instants from the machine's clock. The contract states nothing about these instants.
impl<C: time::Clock> Instants for C {
    ghost shows = { λ _ _. Unit {0} };

    fn instant(&self) -> Option<Timestamp> {
        instant_of(SystemTime::now(self).ok()?)
    }
}

// Converts a system time to an instant. Returns `None` if the time is too late for a `Timestamp`.
fn instant_of(time: SystemTime) -> Option<Timestamp>
    ensures { MatchOption result
        (¬ (IsTimestampNanos (pos (system_time_nanos time))))
        (λ instant. instant.nanosecond ≡ pos (system_time_nanos time)) }
{
    let since = time.duration_since(SystemTime::UNIX_EPOCH).ok()?;
    Timestamp::from_nanosecond(i128::try_from(since.as_nanos()).ok()?).ok()
}

/// A source of moments. Each moment is the fixed moment of `clock`, or is read from `machine`, the
/// machine's clock. Contracts represent a `MomentsOf` by the pair of both clocks.
#[derive(Drop)]
pub struct MomentsOf<'z, 'c, C> {
    pub clock: Clock<'z>,
    pub machine: &'c C,
}

impl<'z, 'c, C> Model for MomentsOf<'z, 'c, C> {
    ghost use Rattle.club_clock.specs.declared.clock.Clock.{Clock};

    ghost Value = { Clock × C };

    ghost view = { λ moments. (moments.clock, moments.machine.now) };
}

impl<'z, 'c, C: Instants> Moments for MomentsOf<'z, 'c, C> {
    ghost use Rattle.club_clock.specs.Moments.{showing};

    // A clock with a fixed moment returns the fixed moment. Any other clock returns the moment in
    // its zone at the machine's current instant, or `None` if the machine's clock returns no
    // instant.
    ghost gives = { showing C.shows };

    fn now(&mut self) -> Option<Moment> {
        match &self.clock {
            Clock::Fixed(moment) => Some(*moment),
            Clock::InZone(zone) => {
                let instant = self.machine.instant()?;
                zone.moment_at(instant)
            }
        }
    }
}
