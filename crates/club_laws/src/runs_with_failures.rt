//! Laws about runs in which some events failed. `O` is the type of a desk's answers to the office.

ghost use Rattle.club_laws.specs.RunsWithFailures.{CancellationsWithFailures};
ghost use Rattle.club_laws.specs.RunsWithFailures.{ConservesWithFailures, PlacesWithFailures};
ghost use Rattle.club_laws.specs.RunsWithFailures.{SoloLawWithFailures, SoloLawOfTwoWithFailures};
ghost use Rattle.club_laws.specs.RunsWithFailures.{SoundWithFailures, RepeatsAfterOneMore};
ghost use Rattle.club_laws.specs.RunsWithFailures.{RepeatsWithFailures};

use club_core::laws::tests_the_signature;
use pass_caveats::laws::tests_the_set;

/// A run from a sound club ends in a sound club if the values of all events are within their
/// limits.
#[tactic(auto, using(crate::proofs::SoloRuns::sound_with_failures))]
pub fn keeps_sound<O>()
    ensures { SoundWithFailures O }
{}

/// A run from the empty club neither creates nor loses points.
pub fn conserves_points<O>()
    ensures { ConservesWithFailures O }
{}

/// After a run from the empty club, no slot has more persons than places.
#[tactic(auto, using(crate::proofs::SoloRuns::places_with_failures))]
pub fn never_overbooks<O>()
    ensures { PlacesWithFailures O }
{}

/// An accepted repeat of a served request gets the first response, unless the repeat fails.
/// Removing the repeat from the run changes neither the other responses nor the last club.
pub fn repeats_return_the_same<O>()
    ensures { RepeatsWithFailures O }
{
    tests_the_set();
    tests_the_signature();
}

/// If the office has cancelled a booking, a member's accepted request to cancel the same booking
/// gets the recorded refund, unless the request fails. Removing this request from the run changes
/// neither the other responses nor the last club.
pub fn cancellations_return_the_record<O>()
    ensures { CancellationsWithFailures O }
{
    tests_the_set();
    tests_the_signature();
}

/// After a run, an accepted repeat of a served request gets the same reply. The repeat also gets
/// the same reply after one more event.
pub fn repeats_after_one_more<O>()
    ensures { RepeatsAfterOneMore O }
{
    tests_the_set();
    tests_the_signature();
}

/// In a run from a sound club, a member's part of the club and the member's own events determine
/// the replies to the member's requests.
#[tactic(auto, using(crate::proofs::SoloRuns::solo_with_failures))]
pub fn solo_law<O>()
    ensures { SoloLawWithFailures O }
{}

/// Suppose that a member's part of the club and the member's own events are the same in two runs
/// from sound clubs. Then the replies to the member's requests are the same in both runs.
#[tactic(auto, using(crate::proofs::SoloRuns::solo_with_failures))]
pub fn solo_law_of_two<O>()
    ensures { SoloLawOfTwoWithFailures O }
{}
