//! Builds the parameters of the SQL statements.

ghost use Rattle.std.specs.Prelude.{◌≡◌, ◌/◌, [], ◌∷◌, ◌++◌, pos, neg_ℤ};
ghost use Rattle.club_core.specs.{After.good_until, Club.cost_of};
ghost use Rattle.club_rows.specs.{Columns.truth, Rows.persons_of};
ghost use Rattle.club_tables.specs.ChangeStatements.{charge_values, numbers_values};
ghost use Rattle.club_tables.specs.Columns.{whole, facility_values, key_values, older_root_values};
ghost use Rattle.club_tables.specs.Columns.{booking_values, name_values, persons_taken};
ghost use Rattle.club_values.specs.Moment.{minutes_a_day};
ghost use Rattle.sqlite.specs.Values.{bound};
ghost use Rattle.sqlite_value.specs.declared.value.Value.TheVariants.{Int as IntValue};
ghost use Rattle.sqlite_value.specs.declared.value.Value.TheVariants.{Text as TextValue};
ghost use Rattle.sqlite_value.specs.declared.value.Value.TheVariants.{Blob as BlobValue};

use club_rows::{Booking, Facility, Key, Member, Root};
use club_values::{Moment, Name, Slot};
use sqlite::types::ValueRef;

/// Returns 1 for true and 0 for false.
fn bool_as_number(value: bool) -> i64
    ensures { result ≡ pos (truth value) }
{
    if value { 1 } else { 0 }
}

/// Returns the column values of a new member.
pub(crate) fn of_member(member: &Member) -> [ValueRef<'_>; 3]
    ensures { bound result ≡ TextValue member.now.name ∷ whole member.now.credited ∷ whole
        member.now.quota ∷ [] }
{
    [
        ValueRef::Text(member.name.as_bytes()),
        ValueRef::Int(i64::from(member.credited)),
        ValueRef::Int(i64::from(member.quota)),
    ]
}

/// Returns the column values of a facility.
pub(crate) fn of_facility(facility: &Facility) -> [ValueRef<'_>; 6]
    ensures { bound result ≡ facility_values facility.now }
{
    [
        ValueRef::Text(facility.name.as_bytes()),
        ValueRef::Text(facility.kind.text().as_bytes()),
        ValueRef::Int(i64::from(facility.places)),
        ValueRef::Int(i64::from(facility.price)),
        ValueRef::Int(i64::from(facility.opens)),
        ValueRef::Int(i64::from(facility.shuts)),
    ]
}

/// Returns a facility's name, followed by its new places, price and hours.
pub(crate) fn of_numbers(
    facility: &Name,
    places: u8,
    price: u16,
    opens: u8,
    shuts: u8,
) -> [ValueRef<'_>; 5]
    ensures { bound result ≡ numbers_values facility.now places price opens shuts }
{
    [
        ValueRef::Text(facility.as_bytes()),
        ValueRef::Int(i64::from(places)),
        ValueRef::Int(i64::from(price)),
        ValueRef::Int(i64::from(opens)),
        ValueRef::Int(i64::from(shuts)),
    ]
}

/// Returns the column values of a key.
pub(crate) fn of_key(key: &Key) -> [ValueRef<'_>; 4]
    ensures { bound result ≡ key_values key.now }
{
    [
        ValueRef::Text(key.name.as_bytes()),
        ValueRef::Text(key.member.as_bytes()),
        ValueRef::Blob(key.root.as_bytes()),
        ValueRef::Int(bool_as_number(key.revoked)),
    ]
}

/// Returns a key's name.
pub(crate) fn of_name(key: &Name) -> [ValueRef<'_>; 1]
    ensures { bound result ≡ TextValue key.now ∷ [] }
{
    [ValueRef::Text(key.as_bytes())]
}

/// Returns a key's name, its older root, and the moment until which the older root is valid.
pub(crate) fn of_older_root<'a>(key: &'a Name, former: &'a Root, until: Moment) -> [ValueRef<'a>; 3]
    ensures { bound result ≡ TextValue key.now ∷ older_root_values (good_until until former.now) }
{
    [
        ValueRef::Text(key.as_bytes()),
        ValueRef::Blob(former.as_bytes()),
        ValueRef::Int(i64::from(until.number())),
    ]
}

/// Returns a key's name, its new root, and its former root.
pub(crate) fn of_root<'a>(key: &'a Name, root: &'a Root, former: &'a Root) -> [ValueRef<'a>; 3]
    ensures { bound result ≡ TextValue key.now ∷ BlobValue root.now ∷ BlobValue former.now ∷ [] }
{
    [
        ValueRef::Text(key.as_bytes()),
        ValueRef::Blob(root.as_bytes()),
        ValueRef::Blob(former.as_bytes()),
    ]
}

/// Returns the column values of a booking.
pub(crate) fn of_booking(booking: &Booking) -> [ValueRef<'_>; 10]
    ensures { bound result ≡ booking_values booking.now }
{
    [
        ValueRef::Text(booking.key.as_bytes()),
        ValueRef::Int(i64::from(booking.number.get())),
        ValueRef::Text(booking.slot.facility.as_bytes()),
        ValueRef::Int(i64::from(booking.slot.day.number())),
        ValueRef::Int(i64::from(booking.slot.hour.number())),
        ValueRef::Int(i64::from(booking.guests.get())),
        ValueRef::Int(i64::from(booking.charge)),
        ValueRef::Int(i64::from(booking.left)),
        ValueRef::Int(bool_as_number(booking.cancelled)),
        ValueRef::Int(i64::from(booking.refund)),
    ]
}

/// Returns a member's name and a number.
pub(crate) fn of_number(member: &Name, number: u32) -> [ValueRef<'_>; 2]
    ensures { bound result ≡ TextValue member.now ∷ whole number ∷ [] }
{
    [
        ValueRef::Text(member.as_bytes()),
        ValueRef::Int(i64::from(number)),
    ]
}

/// Returns the column values that identify a slot.
pub(crate) fn of_slot(slot: &Slot) -> [ValueRef<'_>; 3]
    ensures { bound result ≡ name_values slot.now }
{
    [
        ValueRef::Text(slot.facility.as_bytes()),
        ValueRef::Int(i64::from(slot.day.number())),
        ValueRef::Int(i64::from(slot.hour.number())),
    ]
}

/// Returns a member's name, a moment, and the moment's day.
pub(crate) fn of_open(member: &Name, moment: Moment) -> [ValueRef<'_>; 3]
    ensures { bound result ≡ TextValue member.now ∷ whole moment ∷ whole
        (moment / minutes_a_day) ∷ [] }
{
    [
        ValueRef::Text(member.as_bytes()),
        ValueRef::Int(i64::from(moment.number())),
        ValueRef::Int(i64::from(moment.day().number())),
    ]
}

/// Returns a member's name and the cost of a booking, followed by the booking's key and slot.
pub(crate) fn of_charge<'a>(member: &'a Name, booking: &'a Booking) -> [ValueRef<'a>; 6]
    ensures { bound result ≡ charge_values member.now (cost_of booking.now) booking.now.key
        booking.now.slot }
{
    let cost = booking.charge.saturating_sub(booking.refund);
    [
        ValueRef::Text(member.as_bytes()),
        ValueRef::Int(i64::from(cost)),
        ValueRef::Text(booking.key.as_bytes()),
        ValueRef::Text(booking.slot.facility.as_bytes()),
        ValueRef::Int(i64::from(booking.slot.day.number())),
        ValueRef::Int(i64::from(booking.slot.hour.number())),
    ]
}

/// Returns a member's name, a negated refund, and the booking's key. `ADD_USED` adds the negated
/// refund to the points that the member has spent.
pub(crate) fn of_return<'a>(
    member: &'a Name,
    booking: &'a Booking,
    refund: u32,
) -> [ValueRef<'a>; 3]
    ensures { bound result ≡ TextValue member.now ∷ IntValue (neg_ℤ (pos refund)) ∷ TextValue
        booking.now.key ∷ [] }
{
    [
        ValueRef::Text(member.as_bytes()),
        ValueRef::Int(-i64::from(refund)),
        ValueRef::Text(booking.key.as_bytes()),
    ]
}

/// Returns the column values that identify a slot, and the number of persons to add to the slot.
fn of_persons(slot: &Slot, persons: i64) -> [ValueRef<'_>; 4]
    ensures { bound result ≡ name_values slot.now ++ IntValue persons ∷ [] }
{
    [
        ValueRef::Text(slot.facility.as_bytes()),
        ValueRef::Int(i64::from(slot.day.number())),
        ValueRef::Int(i64::from(slot.hour.number())),
        ValueRef::Int(persons),
    ]
}

/// Returns a booking's slot, and the booking's number of persons. For a cancelled booking, the
/// number is 0.
pub(crate) fn of_places(booking: &Booking) -> [ValueRef<'_>; 4]
    ensures { bound result ≡ name_values booking.now.slot ++ IntValue
        (pos (persons_taken booking.now)) ∷ [] }
{
    let persons = if booking.cancelled {
        0
    } else {
        booking.guests.get() + 1
    };
    of_persons(&booking.slot, i64::from(persons))
}

/// Returns a booking's slot, and the booking's negated number of persons.
pub(crate) fn of_freed(booking: &Booking) -> [ValueRef<'_>; 4]
    ensures { bound result ≡ name_values booking.now.slot ++ IntValue
        (neg_ℤ (pos (persons_of booking.now))) ∷ [] }
{
    let persons = i64::from(booking.guests.get()) + 1;
    of_persons(&booking.slot, -persons)
}

/// Returns the column values of a booking, followed by the refund.
pub(crate) fn of_refund(booking: &Booking, refund: u32) -> [ValueRef<'_>; 11]
    ensures { bound result ≡ booking_values booking.now ++ whole refund ∷ [] }
{
    [
        ValueRef::Text(booking.key.as_bytes()),
        ValueRef::Int(i64::from(booking.number.get())),
        ValueRef::Text(booking.slot.facility.as_bytes()),
        ValueRef::Int(i64::from(booking.slot.day.number())),
        ValueRef::Int(i64::from(booking.slot.hour.number())),
        ValueRef::Int(i64::from(booking.guests.get())),
        ValueRef::Int(i64::from(booking.charge)),
        ValueRef::Int(i64::from(booking.left)),
        ValueRef::Int(bool_as_number(booking.cancelled)),
        ValueRef::Int(i64::from(booking.refund)),
        ValueRef::Int(i64::from(refund)),
    ]
}
