//! Edits existing rows. Each call searches all rows, and edits the rows that the arguments name.

ghost use Rattle.std.specs.Prelude.{◌≡◌, ◌≤◌, map, All};
ghost use Rattle.club_rows.specs.{Rows.credited_limit, declared.member.Member.Member as MemberRow};
ghost use Rattle.club_core.specs.After as after;

use club_rows::{Booking, BookingNumber, Facility, Key, Member, OlderRoot, Root};
use club_values::{Moment, Name, Slot};

fn credit_row(member: &Member, name: &Name, points: u32) -> Member
    requires { (after.credited_member name.now points member.now).credited ≤ credited_limit }
    ensures { result ≡ after.credited_member name.now points member.now }
{
    let mut member = *member;
    if member.name == *name {
        member.credited += points;
    }
    member
}

/// Adds points to the credit of the member with this name.
#[tactic(auto, using(crate::proofs::StepLemmas::edited_more))]
pub(crate) fn credit(members: &mut [Member], name: &Name, points: u32)
    requires { All (λ (member : MemberRow). member.credited ≤ credited_limit)
        (map (after.credited_member name.now points) members.old) }
    ensures { members.new ≡ map (after.credited_member name.now points) members.old }
{
    for member in members.iter_mut() {
        *member = credit_row(member, name, points);
    }
}

fn debit_row(member: &Member, name: &Name, points: u32) -> Member
    ensures { result ≡ after.debited_member name.now points member.now }
{
    let mut member = *member;
    if member.name == *name {
        member.credited = member.credited.saturating_sub(points);
    }
    member
}

/// Subtracts points from the credit of the member with this name.
#[tactic(auto, using(crate::proofs::StepLemmas::edited_more))]
pub(crate) fn debit(members: &mut [Member], name: &Name, points: u32)
    ensures { members.new ≡ map (after.debited_member name.now points) members.old }
{
    for member in members.iter_mut() {
        *member = debit_row(member, name, points);
    }
}

fn quota_row(member: &Member, name: &Name, quota: u8) -> Member
    ensures { result ≡ after.member_with_quota name.now quota member.now }
{
    let mut member = *member;
    if member.name == *name {
        member.quota = quota;
    }
    member
}

/// Sets the quota of the member with this name.
#[tactic(auto, using(crate::proofs::StepLemmas::edited_more))]
pub(crate) fn set_quota(members: &mut [Member], name: &Name, quota: u8)
    ensures { members.new ≡ map (after.member_with_quota name.now quota) members.old }
{
    for member in members.iter_mut() {
        *member = quota_row(member, name, quota);
    }
}

fn numbers_row(
    facility: &Facility,
    name: &Name,
    places: u8,
    price: u16,
    opens: u8,
    shuts: u8,
) -> Facility
    ensures { result
        ≡ after.facility_with_numbers name.now places price opens shuts facility.now }
{
    let mut facility = *facility;
    if facility.name == *name {
        facility.places = places;
        facility.price = price;
        facility.opens = opens;
        facility.shuts = shuts;
    }
    facility
}

/// Sets the places, price and opening hours of the facility with this name.
#[tactic(auto, using(crate::proofs::StepLemmas::edited_more))]
pub(crate) fn set_numbers(
    facilities: &mut [Facility],
    name: &Name,
    places: u8,
    price: u16,
    opens: u8,
    shuts: u8,
)
    ensures { facilities.new
        ≡ map (after.facility_with_numbers name.now places price opens shuts) facilities.old }
{
    for facility in facilities.iter_mut() {
        *facility = numbers_row(facility, name, places, price, opens, shuts);
    }
}

fn revoke_row(key: &Key, name: &Name) -> Key
    ensures { result ≡ after.revoked_key name.now key.now }
{
    let mut key = *key;
    key.revoked = key.revoked || key.name == *name;
    key
}

/// Marks the key with this name as revoked.
#[tactic(auto, using(crate::proofs::StepLemmas::edited_more))]
pub(crate) fn revoke(keys: &mut [Key], name: &Name)
    ensures { keys.new ≡ map (after.revoked_key name.now) keys.old }
{
    for key in keys.iter_mut() {
        *key = revoke_row(key, name);
    }
}

fn rotate_row(key: &Key, name: &Name, root: &Root, until: Moment) -> Key
    ensures { result ≡ after.rotated_key name.now root.now until key.now }
{
    let mut key = *key;
    if key.name == *name {
        let replaced = OlderRoot {
            root: key.root,
            until,
        };
        key.older = Some(replaced);
        key.root = *root;
    }
    key
}

/// Replaces the root of the key with this name. The key's former root becomes the key's older root,
/// which expires at the moment `until`.
#[tactic(auto, using(crate::proofs::StepLemmas::edited_more))]
pub(crate) fn rotate(keys: &mut [Key], name: &Name, root: &Root, until: Moment)
    ensures { keys.new ≡ map (after.rotated_key name.now root.now until) keys.old }
{
    for key in keys.iter_mut() {
        *key = rotate_row(key, name, root, until);
    }
}

/// Removes the slot from the list of closed slots.
pub(crate) fn open(closed: &mut Vec<Slot>, slot: &Slot)
    ensures { closed.new.items ≡ after.closed_but slot.now closed.old.items }
{
    closed.retain(|other| other != slot);
}

fn cancel_row(booking: &Booking, key: &Name, number: BookingNumber, refund: u32) -> Booking
    ensures { result ≡ after.cancelled_booking key.now number refund booking.now }
{
    let mut booking = *booking;
    if booking.key == *key && booking.number == number && !booking.cancelled {
        booking.cancelled = true;
        booking.refund = refund;
    }
    booking
}

/// Marks the booking with this key and this number as cancelled, and records the refund. A booking
/// that is already cancelled doesn't change.
#[tactic(auto, using(crate::proofs::StepLemmas::edited_more))]
pub(crate) fn cancel(bookings: &mut [Booking], key: &Name, number: BookingNumber, refund: u32)
    ensures { bookings.new ≡ map (after.cancelled_booking key.now number refund) bookings.old }
{
    for booking in bookings.iter_mut() {
        *booking = cancel_row(booking, key, number, refund);
    }
}
