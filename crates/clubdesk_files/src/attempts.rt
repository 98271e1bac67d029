//! Repeats an attempt, and sleeps briefly after each failure.

ghost use Rattle.clubdesk_files.specs.Retried.{GainsWithin};

use std::thread;
use std::time::{Clock, Duration};

/// The time to sleep after a failed attempt, in milliseconds.
pub(crate) const SLEEP_MILLIS: u64 = 10;

/// The number of attempts in one second.
pub const ATTEMPTS_A_SECOND: u32 = 100;

/// A resource that another program may be using. A caller may need several attempts to get the
/// resource.
pub trait Attempts {
    type Gain;

    ghost use Rattle.clubdesk_files.specs.Retried.{Gains};

    // The possible results of an attempt, given the state before and after the attempt.
    ghost gains: { Gains Self Self.Gain };

    /// Tries once to get the resource. Returns `None` if the attempt fails.
    fn attempt(&mut self) -> Option<Self::Gain>
        ensures { gains self.old result self.new };
}

/// Makes at most `most` attempts, and sleeps after each failed attempt. Returns the result of the
/// first successful attempt, or `None` if all attempts fail.
pub fn gain<A: Attempts, C: Clock>(attempts: &mut A, clock: &C, most: u32) -> Option<A::Gain>
    ensures { GainsWithin A.gains most attempts.old result attempts.new }
{
    for tried in 0..most {
        match attempts.attempt() {
            Some(gain) => return Some(gain),
            None => thread::sleep(clock, Duration::from_millis(SLEEP_MILLIS)),
        }
    }
    None
}
