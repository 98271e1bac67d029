//! Defines the verdict on a request: the reply, and the change to the club.

ghost use Rattle.std.specs.Prelude.{◌≡◌};

use crate::change::Change;
use crate::refusal::Refusal;
use crate::reply::Reply;
use club_rows::Booking;
use club_values::Name;

/// The reply to a request, and the change that the request makes to the club.
#[derive(Clone, Copy, Debug, PartialEq, Eq)]
pub struct Verdict {
    pub reply: Reply,
    pub change: Option<Change>,
}

impl Verdict {
    ghost use Rattle.club_core.specs.Verdict as verdicts;

    /// Returns a verdict with this reply and without a change.
    pub fn reply_only(reply: Reply) -> Verdict
        ensures { result ≡ verdicts.reply_only reply }
    {
        Verdict {
            reply,
            change: None,
        }
    }

    /// Returns a verdict with this refusal and without a change.
    pub fn refuse(refusal: Refusal) -> Verdict
        ensures { result ≡ verdicts.refusal_verdict refusal }
    {
        Verdict::reply_only(Reply::Refused(refusal))
    }

    /// Returns the reply to a new booking, and the change that inserts the booking's row. The
    /// booking's key belongs to `member`.
    pub(crate) fn new_booking(booking: Booking, member: &Name) -> Verdict
        ensures { result ≡ verdicts.booked_now booking member.now }
    {
        Verdict {
            reply: Reply::Booked {
                key: booking.key,
                number: booking.number,
                charge: booking.charge,
                left: booking.left,
            },
            change: Some(Change::InsertBooking {
                booking,
                member: *member,
            }),
        }
    }

    /// Returns the reply to a cancellation, and the change that records the refund. The booking's
    /// key belongs to `member`.
    pub(crate) fn new_cancellation(booking: &Booking, member: &Name, refund: u32) -> Verdict
        ensures { result ≡ verdicts.cancelled_now booking.now member.now refund }
    {
        Verdict {
            reply: Reply::Cancelled {
                key: booking.key,
                number: booking.number,
                refund,
            },
            change: Some(Change::MarkCancelled {
                booking: *booking,
                member: *member,
                refund,
            }),
        }
    }
}
