//! Parses column values. A database returns column values as integers, texts and bytes.

ghost use Rattle.std.specs.Prelude.{◌≡◌, ◌≤◌, pos};
ghost use Rattle.club_rows.specs.{Columns.{IsTruth, IsSlotOf, IsPaid}, Rows.IsBookingNumber};
ghost use Rattle.club_rows.specs.Rows.{IsGuests};
ghost use Rattle.club_values.specs.Number.{Reads};

use crate::booking::MAX_CHARGE;
use crate::booking_number::BookingNumber;
use crate::guests::Guests;
use club_values::{Day, Hour, Name, Slot};

/// Returns the number in a column. Returns `None` if the number is less than `low` or more than
/// `high`.
pub(crate) fn number_within(value: i64, low: u32, high: u32) -> Option<u32>
    ensures { Reads (λ n. (low ≤ n) × (n ≤ high) × (value ≡ pos n)) result }
{
    let number = u32::try_from(value).ok()?;
    if number < low || number > high {
        return None;
    }
    Some(number)
}

/// Returns the truth value in a column. Returns `None` if the value is neither 0 nor 1.
pub(crate) fn truth_of(value: i64) -> Option<bool>
    ensures { Reads (IsTruth value) result }
{
    match value {
        0 => Some(false),
        1 => Some(true),
        _ => None,
    }
}

pub(crate) fn booking_number_of(value: i64) -> Option<BookingNumber>
    ensures { Reads (λ number. IsBookingNumber number × (value ≡ pos number)) result }
{
    BookingNumber::new(u32::try_from(value).ok()?)
}

pub(crate) fn guests_of(value: i64) -> Option<Guests>
    ensures { Reads (λ guests. IsGuests guests × (value ≡ pos guests)) result }
{
    Guests::new(u8::try_from(value).ok()?)
}

/// Parses a booking's charge, its cancellation flag and its refund.
pub(crate) fn paid_of(charge: i64, cancelled: i64, refund: i64) -> Option<(u32, bool, u32)>
    ensures { Reads (λ paid. IsPaid charge cancelled refund paid.0 paid.1 paid.2) result }
{
    let charge = number_within(charge, 0, MAX_CHARGE)?;
    if truth_of(cancelled)? {
        let refund = number_within(refund, 0, charge)?;
        Some((charge, true, refund))
    } else {
        let refund = number_within(refund, 0, 0)?;
        Some((charge, false, refund))
    }
}

/// Returns the slot with these column values. Returns `None` if a value is outside its limits.
pub fn slot_from_columns(facility: &[u8], day: i64, hour: i64) -> Option<Slot>
    ensures { Reads (IsSlotOf facility.now day hour) result }
{
    let facility = Name::read(facility)?;
    let day = Day::from_number(u16::try_from(day).ok()?)?;
    let hour = Hour::from_number(u8::try_from(hour).ok()?)?;
    Some(Slot {
        facility,
        day,
        hour,
    })
}
