//! Laws about repeated requests. An accepted repeat of a served booking or cancellation changes
//! nothing.

ghost use Rattle.club_laws.specs.Examples.{AcceptsARepeat, RepeatsAfterTheOffice};
ghost use Rattle.club_laws.specs.Repeats.{CancellationsReturnTheRecord, RepeatsMayBeLeftOut};
ghost use Rattle.club_laws.specs.Repeats.{RepeatsReturnTheSame};

use club_core::laws::tests_the_signature;
use pass_caveats::laws::tests_the_set;

/// An accepted repeat of a served booking or cancellation gets the first reply, and changes
/// nothing.
pub fn repeats_return_the_same()
    ensures { RepeatsReturnTheSame }
{
    tests_the_set();
    tests_the_signature();
}

/// Removing an accepted repeat of a served request from a run changes neither the other replies nor
/// the last club.
pub fn repeats_may_be_left_out()
    ensures { RepeatsMayBeLeftOut }
{
    tests_the_set();
    tests_the_signature();
}

/// An example: a member repeats a booking after its cancellation, when the slot has begun. The desk
/// accepts the repeat, even under a pass that allows no spending.
pub fn accepts_a_repeat()
    ensures { AcceptsARepeat }
{}

/// If the office has cancelled a booking, a member's accepted request to cancel the same booking
/// changes nothing. The reply states the recorded refund.
pub fn cancellations_return_the_record()
    ensures { CancellationsReturnTheRecord }
{
    tests_the_set();
    tests_the_signature();
}

/// An example: the office cancels a booking. The member then sends a request to cancel the same
/// booking, and then repeats the original request to book.
pub fn repeats_after_the_office()
    ensures { RepeatsAfterTheOffice }
{}
