//! Laws about the replies to a member's requests. A machine that has only the member's part of the
//! club gives the same replies.

ghost use Rattle.club_laws.specs.Examples.{AnswersAmyAlone, AnswersAmyAmongOthers};
ghost use Rattle.club_laws.specs.Examples.{ShowsAmyATakenPlace, ShowsAmyHerCancellation};
ghost use Rattle.club_laws.specs.{Examples.ShowsAmyNewNumbers, SoloLaw.{EndsWithThePart, SoloLaw}};
ghost use Rattle.club_laws.specs.SoloLaw.{SoloLawOfTwo};

/// In a run from a sound club, a member's part of the club and the member's own events determine
/// the replies to the member's requests.
#[tactic(auto, using(crate::proofs::SoloRuns::solo_law))]
pub fn solo_law()
    ensures { SoloLaw }
{}

/// Suppose that a member's part of the club and the member's own events are the same in two runs
/// from sound clubs. Then the replies to the member's requests are the same in both runs.
#[tactic(auto, using(crate::proofs::SoloRuns::solo_law))]
pub fn solo_law_of_two()
    ensures { SoloLawOfTwo }
{}

/// In a run from a sound club, applying the member's own events to the member's part gives the
/// member's part of the club after the run.
#[tactic(auto, using(crate::proofs::SoloRuns::ends_with_the_part))]
pub fn ends_with_the_part()
    ensures { EndsWithThePart }
{}

/// An example: a member books a slot, views the account and cancels the booking.
pub fn answers_amy_alone()
    ensures { AnswersAmyAlone }
{}

/// An example: the replies to a member stay the same while another member books and cancels. The
/// office also credits the other member, and adds and revokes the other member's keys.
pub fn answers_amy_among_others()
    ensures { AnswersAmyAmongOthers }
{}

/// An example: if another member has one place in the slot, the reply to a booking states one fewer
/// free place. No other reply changes.
pub fn shows_amy_a_taken_place()
    ensures { ShowsAmyATakenPlace }
{}

/// An example: a facility's new price and number of places apply to the member's next booking.
/// Earlier bookings don't change.
pub fn shows_amy_new_numbers()
    ensures { ShowsAmyNewNumbers }
{}

/// An example: the office cancels another member's booking, which frees its places for Amy. The
/// office then cancels Amy's booking, and Amy gets the points back.
pub fn shows_amy_her_cancellation()
    ensures { ShowsAmyHerCancellation }
{}
