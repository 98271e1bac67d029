//! Returns the club's rows and balances. Tests compare these values with the rows and balances of
//! other machines.

ghost use Rattle.std.specs.Prelude.{◌≡◌};
ghost use Rattle.club_reference.specs.Widths.{own_bookings};
ghost use Rattle.club_core.specs.Club as sums;

use crate::club::Club;
use crate::sums::balance;
use club_rows::{Booking, Facility, Key, Member};
use club_values::Slot;

impl Club {
    /// Returns the members, from the oldest row to the newest.
    pub fn members(&self) -> &[Member]
        ensures { result.now ≡ self.now.members }
    {
        &self.members
    }

    /// Returns the facilities, from the oldest row to the newest.
    pub fn facilities(&self) -> &[Facility]
        ensures { result.now ≡ self.now.facilities }
    {
        &self.facilities
    }

    /// Returns the keys, from the oldest row to the newest.
    pub fn keys(&self) -> &[Key]
        ensures { result.now ≡ self.now.keys }
    {
        &self.keys
    }

    /// Returns all bookings, from the oldest row to the newest. Cancelled bookings are included.
    pub fn bookings(&self) -> &[Booking]
        ensures { result.now ≡ self.now.bookings }
    {
        &self.bookings
    }

    /// Returns the closed slots, from the oldest row to the newest.
    pub fn closed_slots(&self) -> &[Slot]
        ensures { result.now ≡ self.now.closed }
    {
        &self.closed
    }

    /// Returns the member's balance, which is the credited points minus the cost of the member's
    /// bookings.
    pub fn balance(&self, member: &Member) -> u32
        ensures { result ≡ sums.balance_of member.now
            (own_bookings self.now.keys member.now.name self.now.bookings) }
    {
        balance(&self.keys, &self.bookings, member)
    }
}
