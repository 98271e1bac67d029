//! A club's store in a file that another program can remove.

ghost use Rattle.std.specs.{Bool.OnFalse, Prelude.{◌≡◌, IfErr, IfOk, IsTrue, Some}};
ghost use Rattle.club_core.specs.Store.{Changes};
ghost use Rattle.club_core.specs.declared.store.StoreFault.TheVariants.{Storage};
ghost use Rattle.clubdesk_files.specs.Named.{FailsOrIsLost, with_name};

use club_core::{Change, ClubStore, MemberAccount, SlotUse, StoreFault};
use club_rows::{Booking, BookingNumber, Facility, KeyRow, OlderRoot};
use club_store::{CrashStates, OverStorage};
use club_values::{Day, Moment, Name, Slot};
use sqlite::Alter;

/// An open file that another program can remove from the file system.
pub trait Removable {
    // A check has found that the file has no name, or the check has failed.
    ghost is_lost: { Self → Type 0 };

    // A check has found that the file has a name.
    ghost is_found: { Self → Type 0 };

    /// Returns true if the file still has a name in its file system. Without a name, the file's
    /// data is lost when the file is closed.
    fn has_name(&self) -> bool
        ensures lost { OnFalse result (is_lost self.now) }
        ensures found { IsTrue result → is_found self.now };
}

/// A store over a file. If the file has lost its name, each change fails. Other programs can
/// therefore find every change that the store confirms.
#[derive(Drop)]
pub struct NamedStore<S, F> {
    pub store: S,
    pub file: F,
}

impl<S, F: Removable> NamedStore<S, F> {
    // Fails with `Storage` if the file has lost its name.
    fn look(&self) -> Result<(), StoreFault>
        ensures lost { IfErr result (λ fault. (fault ≡ Storage) × F.is_lost self.now.file) }
        ensures found { IfOk result (λ _. F.is_found self.now.file) }
    {
        if self.file.has_name() {
            Ok(())
        } else {
            Err(StoreFault::Storage)
        }
    }
}

/// A change fails if the file has lost its name. A read doesn't check the file, because the store
/// has the file open.
impl<S: CrashStates, F: Removable> ClubStore for NamedStore<S, F> {
    ghost ghosts = { with_name S.ghosts F.is_lost };

    ghost sound = { λ named club others represents. S.sound named.store club others represents };

    fn key_row(&mut self, name: &Name) -> Result<Option<KeyRow>, StoreFault> {
        self.store.key_row(name)
    }

    fn older_root(&mut self, name: &Name) -> Result<Option<OlderRoot>, StoreFault> {
        self.store.older_root(name)
    }

    fn facility(&mut self, name: &Name) -> Result<Option<Facility>, StoreFault> {
        self.store.facility(name)
    }

    fn slot(&mut self, slot: &Slot) -> Result<SlotUse, StoreFault> {
        self.store.slot(slot)
    }

    fn most_taken(&mut self, facility: &Name) -> Result<u32, StoreFault> {
        self.store.most_taken(facility)
    }

    fn booking(
        &mut self,
        key: &Name,
        number: BookingNumber,
    ) -> Result<Option<Booking>, StoreFault> {
        self.store.booking(key, number)
    }

    fn account(&mut self, member: &Name) -> Result<Option<MemberAccount>, StoreFault> {
        self.store.account(member)
    }

    fn open_count(&mut self, member: &Name, moment: Moment) -> Result<u64, StoreFault> {
        self.store.open_count(member, moment)
    }

    fn spent(&mut self, key: &Name) -> Result<u64, StoreFault> {
        self.store.spent(key)
    }

    fn day(&mut self, day: Day) -> Result<Vec<Booking>, StoreFault> {
        self.store.day(day)
    }

    fn apply(&mut self, change: &Change) -> Result<(), StoreFault>
        ensures was_clean { S.ghosts.is_clean self.new.store → S.ghosts.is_clean self.old.store }
        ensures changed { S.ghosts.is_clean self.new.store →
            Changes (λ named. S.ghosts.represents named.store) change.now self.old self.new
            result }
        ensures failed { S.ghosts.is_clean self.new.store → IfErr result
            (λ fault. FailsOrIsLost S.ghosts F.is_lost (Some change.now) self.old fault
            self.new) }
        ensures found { IfOk result (λ _. F.is_found self.old.file) }
    {
        self.look()?;
        self.store.apply(change)
    }
}

/// Each sound club may be added to the crash states of the store.
impl<S: CrashStates, F: Removable> CrashStates for NamedStore<S, F> {
    ghost widened = { λ named club others more. S.widened named.store club others more };
}

/// The storage of the SQLite engine is that of the store.
impl<T: Alter, S: OverStorage<T> + CrashStates, F: Removable + Drop> OverStorage<T>
    for NamedStore<S, F> {
    fn into_storage(self) -> T {
        let NamedStore { store, file: _ } = self;
        store.into_storage()
    }
}
