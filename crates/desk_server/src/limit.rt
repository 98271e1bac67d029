//! Time limits that a monotonic clock measures.

use std::thread;
use std::time::{Clock, Duration, Instant};

/// A clock that counts the time since its start.
pub trait MonotonicClock {
    ghost use Rattle.std.specs.Prelude.{ℕ, Option};
    ghost use Rattle.desk_server.specs.Limits.{nanos_of};

    // The times that the clock may show, in nanoseconds. The time is `None` if the clock can't be
    // read.
    ghost shows: { Self → Option ℕ → Type 0 };

    /// Returns the current instant, or `None` if the clock can't be read.
    fn instant_now(&self) -> Option<Instant>
        ensures { shows self.now (nanos_of result) };

    /// Sleeps for the given duration.
    fn rest(&self, duration: Duration);
}

/// The machine's clock. The contract promises nothing about the clock's instants.
impl<C: Clock> MonotonicClock for C {
    ghost shows = { λ _ _. Unit {0} };

    fn instant_now(&self) -> Option<Instant> {
        Instant::now(self).ok()
    }

    fn rest(&self, duration: Duration) {
        thread::sleep(self, duration)
    }
}

/// A deadline that a clock measures.
#[derive(Drop)]
pub struct Limit<'c, C> {
    pub(crate) clock: &'c C,
    due: Option<Instant>,
}

impl<'c, C: MonotonicClock> Limit<'c, C> {
    ghost use Rattle.std.specs.{Duration.as_nanos, Prelude.{◌≡◌}};
    ghost use Rattle.desk_server.specs.Limits.{AtShown, due_after, left_until, nanos_of};

    /// Returns the deadline that is `patience` after the current time. If the clock can't be read
    /// or can't represent the deadline, the deadline counts as passed.
    pub fn after(clock: &'c C, patience: Duration) -> Limit<'c, C>
        ensures clock { result.clock ≡ clock.entry }
        ensures due { AtShown (C.shows clock.entry.now)
            (λ shown. nanos_of result.due ≡ due_after (as_nanos patience) shown) }
    {
        let due = match clock.instant_now() {
            Some(now) => now.checked_add(patience),
            None => None,
        };
        Limit { clock, due }
    }

    /// Returns the time until the deadline. Returns zero if the deadline has passed, or if the
    /// clock can't be read.
    pub fn left(&self) -> Duration
        ensures { AtShown (C.shows self.now.clock.now)
            (λ shown. as_nanos result ≡ left_until (nanos_of self.now.due) shown) }
    {
        match (self.due, self.clock.instant_now()) {
            (Some(due), Some(now)) => due.duration_since(now),
            _ => Duration::ZERO,
        }
    }
}
