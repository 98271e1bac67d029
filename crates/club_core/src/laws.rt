//! Laws about the club's rules. Each law is the contract of a function with an empty body.

ghost use Rattle.club_core.specs.Examples.{BooksAndCancels, RepeatsAfterACancellation, ClosesASlot};
ghost use Rattle.club_core.specs.Examples.{OpensASlot, DebitsAMember, SetsAQuota, SetsAFacility};
ghost use Rattle.club_core.specs.Examples.{KeepsASpendLimit, CancelsForAMember, KeepsARefund};
ghost use Rattle.club_core.specs.{Examples.CancelsUnderARevokedKey, Laws.RefusalsChangeNothing};
ghost use Rattle.club_core.specs.Laws.{ViewsDecide, TestsTheSignature, OwnBookings, MostTaken};
ghost use Rattle.club_core.specs.Laws.{OneSheet, SomeSheet, LooksNoFurther};

/// A member can book a slot, view the account, and cancel the booking.
pub fn books_and_cancels()
    ensures { BooksAndCancels }
{}

/// If a member repeats a booking request, the reply is the same as the first time, even after the
/// booking's cancellation. The repeated request charges nothing.
pub fn repeats_after_a_cancellation()
    ensures { RepeatsAfterACancellation }
{}

/// A slot can be closed only while nobody has booked it. A closed slot can't be booked.
pub fn closes_a_slot()
    ensures { ClosesASlot }
{}

/// A closed slot can be opened and then booked again. Opening an open slot changes nothing.
pub fn opens_a_slot()
    ensures { OpensASlot }
{}

/// A debit lowers the balance. The rules refuse a debit of more than the balance.
pub fn debits_a_member()
    ensures { DebitsAMember }
{}

/// A new quota applies from the next booking on. The member's open bookings remain valid, even if
/// their number exceeds the new quota.
pub fn sets_a_quota()
    ensures { SetsAQuota }
{}

/// A facility's new places, price and opening hours apply from the next booking on. Earlier
/// bookings don't change.
pub fn sets_a_facility()
    ensures { SetsAFacility }
{}

/// A cancellation by the office refunds the whole charge, even after the slot has begun.
pub fn cancels_for_a_member()
    ensures { CancelsForAMember }
{}

/// If the member has already cancelled a booking, a cancellation by the office doesn't change the
/// refund.
pub fn keeps_a_refund()
    ensures { KeepsARefund }
{}

/// The office can cancel a booking of a revoked key. The cancellation frees the booking's places.
pub fn cancels_under_a_revoked_key()
    ensures { CancelsUnderARevokedKey }
{}

/// Under a spend limit, a key can spend refunded points again.
#[tactic(auto, unfolding(pass_caveats::specs::Caveat::permits))]
pub fn keeps_a_spend_limit()
    ensures { KeepsASpendLimit }
{}

/// A refusal changes nothing.
#[tactic(auto, using(crate::proofs::ReplyLemmas::refusals_change_nothing))]
pub fn refusals_change_nothing()
    ensures { RefusalsChangeNothing }
{}

/// For the key that a pass names, `view_in` returns the view that the rules use to decide the
/// request.
pub fn views_decide()
    ensures { ViewsDecide }
{}

/// The rules need only some fields of the view for an answer. The caveats need only the recorded
/// booking, the facility and the points that the key has spent. Each kind of request needs
/// different fields of the view.
pub fn looks_no_further()
    ensures { LooksNoFurther }
{}

/// `is_signed_under` returns true if and only if a root of the key signs the pass and is valid at
/// the given moment.
pub fn tests_the_signature()
    ensures { TestsTheSignature }
{}

/// The bookings of a key's member are enough to compute the points that the key has spent. The same
/// bookings are enough to find the key's booking with a given number.
pub fn own_bookings_suffice()
    ensures { OwnBookings }
{}

/// `most_taken_in` is the highest number of persons in any slot of the facility.
#[tactic(auto, using(crate::proofs::ReplyLemmas::most_taken))]
pub fn most_taken_is_reached()
    ensures { MostTaken }
{}

/// A club that satisfies the invariants has exactly one day sheet for each day.
pub fn one_sheet_a_day()
    ensures one { OneSheet }
    ensures some { SomeSheet }
{}
