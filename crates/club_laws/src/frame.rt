//! Laws about the effect of changes and events on a member's part of the club. A member's part
//! contains the member's row, keys and bookings, and all facilities.

ghost use Rattle.club_laws.specs.Frame.{ChangesThePartAlike, LeavesThePart, TakenIsOwnAndOthers};

/// Suppose that a change leads from a sound club to a sound club. Then the change has the same
/// effect on a member's part of the club as on the club, or doesn't affect the part.
#[tactic(auto, using(crate::proofs::MemberParts::changes_the_part_alike))]
pub fn changes_the_part_alike()
    ensures { ChangesThePartAlike }
{}

/// In a sound club, an event that isn't one of the member's own events leaves the member's part of
/// the club unchanged.
#[tactic(auto, using(crate::proofs::SoloRuns::leaves_the_part))]
pub fn leaves_the_part()
    ensures { LeavesThePart }
{}

/// The number of persons in a slot is the number from a member's own bookings plus the number from
/// all other bookings.
#[tactic(auto, using(crate::proofs::AnswerCases::sum_in_parts))]
pub fn taken_is_own_and_others()
    ensures { TakenIsOwnAndOthers }
{}
