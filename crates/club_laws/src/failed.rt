//! Laws about runs in which some events failed because an allocation or the storage failed. `O` is
//! the type of a desk's answers to the office.

ghost use Rattle.club_laws.specs.{Examples.LeavesOutFailedEvents, Failed.{CutsRuns, JoinsRuns}};
ghost use Rattle.club_laws.specs.Failed.{LeavesEvents, LeavesOutFailed, NeverUnavailable};
ghost use Rattle.club_laws.specs.Failed.{RunsWithoutFailures};

/// Removing the failed events from a run changes neither the responses to the other events nor the
/// last club.
#[tactic(auto, using(crate::proofs::SoloRuns::run_of_answered))]
pub fn leaves_out_failed<O>()
    ensures { LeavesOutFailed O }
{}

/// If all events are within their limits, then all answered events are within their limits.
#[tactic(auto, using(crate::proofs::SoloRuns::events_left))]
pub fn leaves_events<O>()
    ensures { LeavesEvents O }
{}

/// A run can be split into two runs. The second run begins with the last club of the first run.
#[tactic(auto, using(crate::proofs::SoloRuns::cut))]
pub fn cuts_runs<O>()
    ensures { CutsRuns O }
{}

/// Two runs can be joined into one run if the second run begins with the last club of the first
/// run.
#[tactic(auto, using(crate::proofs::SoloRuns::join))]
pub fn joins_runs<O>()
    ensures { JoinsRuns O }
{}

/// Suppose that a desk never shows the machine's answers to the office as faults. Then the
/// machine's own replies form a run.
#[tactic(auto, using(crate::proofs::SoloRuns::run_without_failures))]
pub fn runs_without_failures<O>()
    ensures { RunsWithoutFailures O }
{}

/// The machine's own replies never report a failure of memory or storage.
#[tactic(auto, using(crate::proofs::SoloRuns::never_unavailable))]
pub fn never_unavailable()
    ensures { NeverUnavailable }
{}

/// An example: a failed credit and a failed booking change nothing. Removing both events from the
/// run doesn't change the other replies.
pub fn leaves_out_failed_events()
    ensures { LeavesOutFailedEvents }
{}
