//! Laws about sound clubs, and about the changes that events make to them.

ghost use Rattle.club_laws.specs.SoundRuns.{ChangesFit, EmptyIsSound, RunsKeepSound};
ghost use Rattle.club_laws.specs.SoundRuns.{StepsKeepSound, SuitingChangesKeepSound};

/// The empty club is sound.
pub fn empty_is_sound()
    ensures { EmptyIsSound }
{}

/// A step from a sound club leads to a sound club if the event's values are within the limits of
/// their types.
pub fn steps_keep_sound()
    ensures { StepsKeepSound }
{}

/// Suppose that an event changes a sound club, and that the event's values are within their limits.
/// Then the change matches the club's rows, and the changed club is sound.
#[tactic(auto, using(crate::proofs::SoundSteps::fits_event))]
pub fn changes_fit()
    ensures { ChangesFit }
{}

/// A run from a sound club ends in a sound club if the values of all events are within their
/// limits.
pub fn runs_keep_sound()
    ensures { RunsKeepSound }
{}

/// A change that meets the conditions of `Suits` keeps a sound club sound. A store needs to test no
/// other conditions.
pub fn suiting_changes_keep_sound()
    ensures { SuitingChangesKeepSound }
{}
