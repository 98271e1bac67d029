//! Defines the requests to the desk.

ghost use Rattle.std.specs.Prelude.{◌≡◌};
ghost use Rattle.club_rows.specs.Rows.{IsSlot};

use club_rows::{BookingNumber, Guests};
use club_values::{Action, Slot};

/// A request to the desk.
#[derive(Clone, Copy, Debug, PartialEq, Eq)]
pub enum Request {
    /// Shows the state of a slot.
    View {
        slot: Slot,
    },
    /// Books places in a slot for the member and the guests. The booking gets this number.
    Book {
        slot: Slot,
        number: BookingNumber,
        guests: Guests,
    },
    /// Cancels the booking of this slot that has this number.
    Cancel {
        slot: Slot,
        number: BookingNumber,
    },
    /// Shows the member's account.
    Account,
}

/// Exists only for its contract, which states that the values of a slot are within their limits.
pub(crate) fn slot_within(slot: &Slot)
    ensures { IsSlot slot.now }
{
    let _facility = slot.facility.as_bytes();
    let _day = slot.day.number();
    let _hour = slot.hour.number();
}

impl Request {
    ghost use Rattle.club_core.specs.Request.{request_action, request_slot, request_number};
    ghost use Rattle.club_core.specs.{Request.request_guests, Run.IsRequest};

    /// Exists only for its contract, which states that the slot, number and guests of a request are
    /// within their limits.
    pub fn within(&self)
        ensures { IsRequest self.now }
    {
        match self {
            Request::View { slot } => slot_within(slot),
            Request::Book {
                slot,
                number,
                guests,
            } => {
                slot_within(slot);
                let _number = number.get();
                let _guests = guests.get();
            }
            Request::Cancel { slot, number } => {
                slot_within(slot);
                let _number = number.get();
            }
            Request::Account => (),
        }
    }

    /// Returns the action that the request asks for.
    pub fn action(&self) -> Action
        ensures { result ≡ request_action self.now }
    {
        match self {
            Request::View { .. } => Action::View,
            Request::Book { .. } => Action::Book,
            Request::Cancel { .. } => Action::Cancel,
            Request::Account => Action::Account,
        }
    }

    /// Returns the slot that the request names, or `None` if the request is for the account.
    pub fn slot(&self) -> Option<Slot>
        ensures { result ≡ request_slot self.now }
    {
        match self {
            Request::View { slot } | Request::Book { slot, .. } | Request::Cancel { slot, .. } =>
                Some(*slot),
            Request::Account => None,
        }
    }

    /// Returns the booking number, or `None` if the request has no number.
    pub fn number(&self) -> Option<BookingNumber>
        ensures { result ≡ request_number self.now }
    {
        match self {
            Request::Book { number, .. } | Request::Cancel { number, .. } => Some(*number),
            Request::View { .. } | Request::Account => None,
        }
    }

    /// Returns the number of guests of a booking, or 0 for a request that books nothing.
    pub fn guests(&self) -> u8
        ensures { result ≡ request_guests self.now }
    {
        match self {
            Request::Book { guests, .. } => guests.get(),
            _ => 0,
        }
    }
}
