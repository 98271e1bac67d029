//! Laws about points and places. Points are neither created nor lost, and no slot is overbooked.

ghost use Rattle.club_laws.specs.Conservation.{ConservesPoints, ConservesWithoutCorrections};
ghost use Rattle.club_laws.specs.Conservation.{NeverOverbooks, SoundClubsHavePlaces};
ghost use Rattle.club_laws.specs.Examples.{CountsACancellationOnce, CountsADebit, CountsEachOnce};

/// An example: each charge and each refund counts once, even if later replies repeat the charge or
/// the refund.
pub fn counts_each_once()
    ensures { CountsEachOnce }
{}

/// An example: a debit counts if and only if the reply to the office reports success.
pub fn counts_a_debit()
    ensures { CountsADebit }
{}

/// An example: a cancellation by the office refunds the whole charge once. The cancellation refunds
/// nothing if the member already cancelled the booking.
pub fn counts_a_cancellation_once()
    ensures { CountsACancellationOnce }
{}

/// After a run from the empty club, a member's balance plus debits plus charges equals the member's
/// credits plus refunds. No balance is below 0. If the office is the first to cancel a booking, the
/// refund is the whole charge.
pub fn conserves_points()
    ensures { ConservesPoints }
{}

/// If the office neither debits nor cancels, a member's balance plus charges equals the member's
/// credits plus the refunds in the replies.
#[tactic(auto, using(crate::proofs::PointRuns::conserved_without_corrections))]
pub fn conserves_without_corrections()
    ensures { ConservesWithoutCorrections }
{}

/// After a run from the empty club, no slot has more persons than places.
#[tactic(auto, using(crate::proofs::PointRuns::has_room))]
pub fn never_overbooks()
    ensures { NeverOverbooks }
{}

/// In every sound club, no slot has more persons than places. The club need not be the result of a
/// run.
#[tactic(auto, using(crate::proofs::PointRuns::has_places))]
pub fn sound_clubs_have_places()
    ensures { SoundClubsHavePlaces }
{}
