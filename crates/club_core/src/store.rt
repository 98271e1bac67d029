//! Defines the trait that each store of the club's rows implements, and the faults of a store.

use crate::account::MemberAccount;
use crate::change::Change;
use crate::slot_use::SlotUse;
use club_rows::{Booking, BookingNumber, Facility, KeyRow, OlderRoot};
use club_values::{Day, Moment, Name, Slot};
use std::error::Error;
use std::fmt;

/// The reason why a call to a store failed.
#[derive(Clone, Copy, Debug, PartialEq, Eq)]
pub enum StoreFault {
    /// An allocation failed.
    Memory,
    /// The storage failed, or a stored value is outside its limits.
    Storage,
}

impl fmt::Display for StoreFault {
    ghost use Rattle.std.specs.Prelude.{Some};
    ghost use Rattle.club_core.specs.Refusal.{store_fault_text};

    ghost output = { λ fault. Some (store_fault_text fault) };

    fn fmt<W: fmt::Write>(&self, f: &mut fmt::Formatter<W>) -> fmt::Result {
        match self {
            StoreFault::Memory => write!(f, "out of memory"),
            StoreFault::Storage => write!(f, "storage failed"),
        }
    }
}

impl Error for StoreFault {}

/// A store of a club's rows. The promises of this trait hold while the store's disk is clean. A
/// disk is clean if each read returns the bytes that the store wrote, and only the store writes to
/// the disk.
pub trait ClubStore {
    ghost use Rattle.std.specs.Prelude.{◌≡◌, ◌∷◌, All, IfErr, List, Some, option_map};
    ghost use Rattle.club_core.specs.{Basis.{account_named, slot_use}, Club.{Club, IsSound}};
    ghost use Rattle.club_core.specs.Club.{bookings_of, facility_named, key_named, older_root_of};
    ghost use Rattle.club_core.specs.Club.{booking_under, count_to_come, most_taken_in};
    ghost use Rattle.club_core.specs.{Club.spent_under, Sheet.AreRowsOf, Store.Changes};
    ghost use Rattle.club_core.specs.Store.{ReadsStore, StoreGhosts};
    ghost use Rattle.club_core.specs.declared.{change.Change.Change, store.StoreFault.StoreFault};
    ghost use Rattle.club_rows.specs.Rows.{row_of_key};

    // Relates a store to its club, to its failures and to the state of its disk.
    ghost ghosts: { StoreGhosts Self };

    /// Returns the row of the key with this name, or `None` if no key has this name.
    fn key_row(&mut self, name: &Name) -> Result<Option<KeyRow>, StoreFault>
        ensures { ReadsStore ghosts self.old self.new result
            (λ club row. row ≡ option_map row_of_key (key_named name.now club)) };

    /// Returns the older root of the key with this name: the key's root before the last rotation.
    /// Returns `None` if the key was never rotated, or if no key has this name.
    fn older_root(&mut self, name: &Name) -> Result<Option<OlderRoot>, StoreFault>
        ensures { ReadsStore ghosts self.old self.new result
            (λ club older. older ≡ older_root_of name.now club) };

    /// Returns the facility with this name, or `None` if no facility has this name.
    fn facility(&mut self, name: &Name) -> Result<Option<Facility>, StoreFault>
        ensures { ReadsStore ghosts self.old self.new result
            (λ club facility. facility ≡ facility_named name.now club) };

    /// Returns the number of persons in a slot, and whether the slot is closed.
    fn slot(&mut self, slot: &Slot) -> Result<SlotUse, StoreFault>
        ensures { ReadsStore ghosts self.old self.new result
            (λ club found. found ≡ slot_use club slot.now) };

    /// Returns the highest number of persons in any slot of the facility with this name, on any
    /// day. Returns 0 if the facility has no bookings.
    fn most_taken(&mut self, facility: &Name) -> Result<u32, StoreFault>
        ensures { ReadsStore ghosts self.old self.new result
            (λ club most. most ≡ most_taken_in facility.now club.bookings) };

    /// Returns the key's booking with this number, or `None` if the key has no such booking.
    fn booking(&mut self, key: &Name, number: BookingNumber) -> Result<Option<Booking>, StoreFault>
        ensures { ReadsStore ghosts self.old self.new result
            (λ club booking. booking ≡ booking_under key.now number club.bookings) };

    /// Returns the row and the balance of the member with this name, or `None` if no member has
    /// this name.
    fn account(&mut self, member: &Name) -> Result<Option<MemberAccount>, StoreFault>
        ensures { ReadsStore ghosts self.old self.new result
            (λ club account. account ≡ account_named member.now club) };

    /// Returns the number of a member's open bookings. An open booking isn't cancelled, and its
    /// slot begins after the given moment.
    fn open_count(&mut self, member: &Name, moment: Moment) -> Result<u64, StoreFault>
        ensures { ReadsStore ghosts self.old self.new result
            (λ club count. count ≡ count_to_come moment (bookings_of member.now club)) };

    /// Returns the points that a key has spent: the charges of the key's bookings minus the
    /// refunds.
    fn spent(&mut self, key: &Name) -> Result<u64, StoreFault>
        ensures { ReadsStore ghosts self.old self.new result
            (λ club spent. spent ≡ spent_under key.now club.bookings) };

    /// Returns the day's bookings that aren't cancelled, in the day sheet's order.
    fn day(&mut self, day: Day) -> Result<Vec<Booking>, StoreFault>
        ensures { ReadsStore ghosts self.old self.new result
            (λ club rows. AreRowsOf club day rows.items) };

    /// Applies a change.
    ///
    /// The call fails without effect if the change doesn't match the club's rows, or if the changed
    /// club would violate the invariants. If an allocation or the storage fails, the call fails,
    /// and the store's club doesn't change. After a later crash, the store may nevertheless contain
    /// the changed club.
    fn apply(&mut self, change: &Change) -> Result<(), StoreFault>
        ensures was_clean { ghosts.is_clean self.new → ghosts.is_clean self.old }
        ensures changed { ghosts.is_clean self.new →
            Changes ghosts.represents change.now self.old self.new result }
        ensures failed { ghosts.is_clean self.new → IfErr result
            (λ fault. ghosts.fails (Some change.now) self.old fault self.new) };

    // The current club and each crash state satisfy the invariants of a club.
    ghost sound: { (store : Self) (club : Club) (others : List Club)
        → ghosts.represents store club others
        → All IsSound (club ∷ others) };
}
