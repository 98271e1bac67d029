//! Computes rates per second and times per run.

use std::time::Duration;

/// Returns the number of runs per second. `time` is the time of `count` runs.
pub(crate) fn rate(count: usize, time: Duration) -> u128 {
    count as u128 * 1_000_000_000 / time.as_nanos().max(1)
}

/// Returns the nanoseconds per run. `time` is the time of `count` runs.
pub(crate) fn nanos_each(count: usize, time: Duration) -> u128 {
    time.as_nanos() / (count as u128).max(1)
}
