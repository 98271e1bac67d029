//! The members' requests and the moments of the requests. The requests use the slots in order, and
//! the keys in round-robin order.

use crate::club::{COURT, KEYS};
use club_rows::slot_from_columns;
use club_values::{Moment, Slot};

/// The day 2000-01-01, as days since 1970-01-01.
const FIRST_DAY: u16 = 10_957;

const FIRST_HOUR: u16 = 8;

const HOURS_A_DAY: u16 = 14;

/// A kind of request.
#[derive(Clone, Copy)]
pub(crate) enum Wish {
    /// A booking of a slot. Bookings with different indices are for different slots. If their keys
    /// are the same, their booking numbers are different.
    Booking,
    /// A request for the account of the key's member.
    Account,
}

/// Returns the booking number for an index. The booking numbers of each key begin at 1.
pub(crate) fn number_at(index: u16) -> u16 {
    index / KEYS + 1
}

/// Returns the slot for an index, counted from 0, and the moment of the request for the slot.
pub(crate) fn slot_and_moment(index: u16) -> Option<(Slot, Moment)> {
    let slot = slot_at(index)?;
    let moment = minute_before(&slot)?;
    Some((slot, moment))
}

fn slot_at(index: u16) -> Option<Slot> {
    let day = i64::from(FIRST_DAY) + i64::from(index / HOURS_A_DAY);
    let hour = FIRST_HOUR + index % HOURS_A_DAY;
    slot_from_columns(COURT, day, i64::from(hour))
}

/// Returns the last minute before a slot begins. A booking made in this minute is open only
/// briefly, so members have few open bookings.
fn minute_before(slot: &Slot) -> Option<Moment> {
    Moment::from_number(slot.start().saturating_sub(1))
}
