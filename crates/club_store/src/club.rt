//! Implements the trait `ClubStore` for `Store`. A desk uses its store through this trait.

use crate::store::Store;
use club_core::{Change, ClubStore, MemberAccount, SlotUse, StoreFault};
use club_rows::{Booking, BookingNumber, Facility, KeyRow, OlderRoot};
use club_values::{Day, Moment, Name, Slot};
use sqlite::Alter;

impl<S: Alter> ClubStore for Store<S> {
    ghost use Rattle.club_store.specs.Failing.{over_connection};

    ghost ghosts = { over_connection S.Store };

    fn key_row(&mut self, name: &Name) -> Result<Option<KeyRow>, StoreFault> {
        self.tables.key(name)
    }

    fn older_root(&mut self, name: &Name) -> Result<Option<OlderRoot>, StoreFault> {
        self.tables.older_root(name)
    }

    fn facility(&mut self, name: &Name) -> Result<Option<Facility>, StoreFault> {
        Store::facility(self, name)
    }

    fn slot(&mut self, slot: &Slot) -> Result<SlotUse, StoreFault> {
        Store::slot(self, slot)
    }

    fn most_taken(&mut self, facility: &Name) -> Result<u32, StoreFault> {
        self.tables.most_taken(facility)
    }

    fn booking(
        &mut self,
        key: &Name,
        number: BookingNumber,
    ) -> Result<Option<Booking>, StoreFault> {
        self.tables.booking(key, number)
    }

    fn account(&mut self, member: &Name) -> Result<Option<MemberAccount>, StoreFault> {
        Store::account(self, member)
    }

    fn open_count(&mut self, member: &Name, moment: Moment) -> Result<u64, StoreFault> {
        self.tables.open_count(member, moment)
    }

    fn spent(&mut self, key: &Name) -> Result<u64, StoreFault> {
        self.tables.spent(key)
    }

    fn day(&mut self, day: Day) -> Result<Vec<Booking>, StoreFault> {
        Store::day(self, day)
    }

    fn apply(&mut self, change: &Change) -> Result<(), StoreFault> {
        self.tables.apply(change)
    }

    ghost sound = { λ store club others represents. represents.0 };
}
