//! Checks whether the values of a change are within their limits.

ghost use Rattle.std.specs.Prelude.{◌≡◌, true, false};
ghost use Rattle.club_core.specs.Office.{are_limits};
ghost use Rattle.club_rows.specs.Rows.{IsRoot, IsMember, IsFacility, IsKey, IsSlot, IsBooking};
ghost use Rattle.club_values.specs.Moment.{IsMoment};

use club_rows::{
    Booking, Facility, Key, LAST_HOUR, MAX_CHARGE, MAX_CREDITED, MAX_PLACES, MAX_PRICE, MAX_QUOTA,
    Member, Root,
};
use club_values::{Moment, Slot};

/// The highest number of free places in a slot after a booking. A booking takes at least one place.
const MAX_LEFT: u32 = MAX_PLACES - 1;

pub(crate) fn is_member(member: &Member) -> bool
    ensures yes { result ≡ true → IsMember member.now }
    ensures no { result ≡ false → ¬ IsMember member.now }
{
    let _name = member.name.as_bytes();
    member.credited <= MAX_CREDITED && u32::from(member.quota) <= MAX_QUOTA
}

pub(crate) fn is_facility(facility: &Facility) -> bool
    ensures yes { result ≡ true → IsFacility facility.now }
    ensures no { result ≡ false → ¬ IsFacility facility.now }
{
    let _name = facility.name.as_bytes();
    1 <= facility.places
        && u32::from(facility.places) <= MAX_PLACES
        && u32::from(facility.price) <= MAX_PRICE
        && facility.opens < facility.shuts
        && u32::from(facility.shuts) <= LAST_HOUR
}

/// Returns whether a facility's places, price and hours are all within their limits.
pub(crate) fn are_numbers(places: u8, price: u16, opens: u8, shuts: u8) -> bool
    ensures { result ≡ are_limits places price opens shuts }
{
    1 <= places
        && u32::from(places) <= MAX_PLACES
        && u32::from(price) <= MAX_PRICE
        && opens < shuts
        && u32::from(shuts) <= LAST_HOUR
}

/// Proves that a key's values are within their limits. The types of the values guarantee the
/// limits.
pub(crate) fn key_within(key: &Key)
    ensures { IsKey key.now }
{
    let _name = key.name.as_bytes();
    let _member = key.member.as_bytes();
    let _root = key.root.as_bytes();
    if let Some(older) = &key.older {
        let _older = older.root.as_bytes();
        let _until = older.until.number();
    }
}

/// Proves that a slot's values are within their limits. The types of the values guarantee the
/// limits.
pub(crate) fn slot_within(slot: &Slot)
    ensures { IsSlot slot.now }
{
    let _facility = slot.facility.as_bytes();
    let _day = slot.day.number();
    let _hour = slot.hour.number();
}

/// Proves that a rotation's new root and the moment `until` are within their limits. The types of
/// these values guarantee the limits.
pub(crate) fn rotation_within(root: &Root, until: Moment)
    ensures root { IsRoot root.now }
    ensures until { IsMoment until }
{
    let _root = root.as_bytes();
    let _until = until.number();
}

pub(crate) fn is_booking(booking: &Booking) -> bool
    ensures yes { result ≡ true → IsBooking booking.now }
    ensures no { result ≡ false → ¬ IsBooking booking.now }
{
    let _key = booking.key.as_bytes();
    let _number = booking.number.get();
    let _guests = booking.guests.get();
    slot_within(&booking.slot);
    booking.charge <= MAX_CHARGE
        && u32::from(booking.left) <= MAX_LEFT
        && booking.refund <= booking.charge
        && (booking.cancelled || booking.refund == 0)
}
