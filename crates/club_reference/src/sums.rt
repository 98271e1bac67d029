//! Sums over bookings. Each call computes a sum from all bookings.

ghost use Rattle.std.specs.Prelude.{◌≡◌, ◌-◌, ◌<◌, ◌^◌, fold};
ghost use Rattle.club_reference.specs.Widths.{is_key_of, own_bookings};
ghost use Rattle.club_rows.specs.Rows.{persons_of};
ghost use Rattle.club_values.specs.declared.slot.Slot.{Slot as SlotRow};
ghost use Rattle.club_core.specs.Club as sums;

use club_rows::{Booking, BookingNumber, Key, Member};
use club_values::{Moment, Name, Slot};

/// Returns the cost of a booking in points, which is the charge minus the refund.
fn cost(booking: &Booking) -> u32
    ensures { result ≡ sums.cost_of booking.now }
{
    booking.charge.saturating_sub(booking.refund)
}

/// Returns the number of persons of a booking: the guests and the member.
pub(crate) fn persons(booking: &Booking) -> u32
    ensures { result ≡ persons_of booking.now }
{
    u32::from(booking.guests.persons())
}

/// Returns true if the key with this name belongs to the member.
pub(crate) fn is_key_of(keys: &[Key], member: &Name, name: &Name) -> bool
    ensures { result ≡ is_key_of keys.now member.now name.now }
{
    keys.iter()
        .filter(|key| key.member == *member)
        .any(|key| key.name == *name)
}

/// Returns the number of persons in the slot. Cancelled bookings don't count.
pub(crate) fn persons_in(bookings: &[Booking], slot: &Slot) -> u32
    requires { sums.taken_in slot.now bookings.now < 2 ^ 32 }
    ensures { result ≡ sums.taken_in slot.now bookings.now }
{
    bookings
        .iter()
        .filter(|booking| !booking.cancelled && booking.slot == *slot)
        .map(|booking| persons(booking))
        .sum()
}

/// Returns the highest number of persons in any slot of the facility. Returns 0 if the facility has
/// no booking.
pub(crate) fn most_persons_at(bookings: &[Booking], facility: &Name) -> u32
    requires { (slot : SlotRow) → sums.taken_in slot bookings.now < 2 ^ 32 }
    ensures { result ≡ sums.most_taken_in facility.now bookings.now }
{
    bookings
        .iter()
        .filter(|booking| booking.slot.facility == *facility)
        .fold(
            0,
            |most, booking| most.max(persons_in(bookings, &booking.slot)),
        )
}

/// Returns the points that the key `name` has spent. Only the member's bookings count.
pub(crate) fn spent(keys: &[Key], bookings: &[Booking], member: &Name, name: &Name) -> u64
    requires { sums.spent_under name.now (own_bookings keys.now member.now bookings.now) < 2 ^ 64 }
    ensures { result ≡ sums.spent_under name.now (own_bookings keys.now member.now bookings.now) }
{
    bookings
        .iter()
        .filter(|booking| is_key_of(keys, member, &booking.key))
        .filter(|booking| booking.key == *name)
        .map(|booking| u64::from(cost(booking)))
        .sum()
}

fn left_of(keys: &[Key], bookings: &[Booking], member: &Member) -> u32
    ensures { result
        ≡ fold (λ left booking. left - sums.cost_of booking) member.now.credited
        (own_bookings keys.now member.now.name bookings.now) }
{
    bookings
        .iter()
        .filter(|booking| is_key_of(keys, &member.name, &booking.key))
        .fold(
            member.credited,
            |left, booking| left.saturating_sub(cost(booking)),
        )
}

/// Returns the member's balance, which is the credited points minus the cost of the member's
/// bookings.
pub(crate) fn balance(keys: &[Key], bookings: &[Booking], member: &Member) -> u32
    ensures { result ≡ sums.balance_of member.now
        (own_bookings keys.now member.now.name bookings.now) }
{
    left_of(keys, bookings, member)
}

/// Returns the number of the member's open bookings at this moment. An open booking isn't
/// cancelled, and its slot begins after the moment.
pub(crate) fn open_count(keys: &[Key], bookings: &[Booking], member: &Name, moment: Moment) -> u64
    ensures { result ≡ sums.count_to_come moment (own_bookings keys.now member.now bookings.now) }
{
    bookings
        .iter()
        .filter(|booking| is_key_of(keys, member, &booking.key))
        .filter(|booking| !booking.cancelled && moment.number() < booking.slot.start())
        .count() as u64
}

/// Returns the booking with this key and this number. The key may belong to any member.
pub(crate) fn booking_under(
    bookings: &[Booking],
    name: &Name,
    number: BookingNumber,
) -> Option<Booking>
    ensures { result ≡ sums.booking_under name.now number bookings.now }
{
    bookings
        .iter()
        .find(|row| row.key == *name && row.number == number)
        .copied()
}

/// Returns the booking with this key and this number, if the key belongs to the member.
pub(crate) fn recorded_booking(
    keys: &[Key],
    bookings: &[Booking],
    member: &Name,
    name: &Name,
    number: BookingNumber,
) -> Option<Booking>
    ensures { result ≡ sums.booking_under name.now number
        (own_bookings keys.now member.now bookings.now) }
{
    bookings
        .iter()
        .filter(|booking| is_key_of(keys, member, &booking.key))
        .find(|booking| booking.key == *name && booking.number == number)
        .copied()
}
