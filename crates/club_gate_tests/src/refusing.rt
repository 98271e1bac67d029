//! A store that records its calls, and that can fail from a chosen call on.

use crate::prelude::*;
use club_core::{Change, MemberAccount, SlotUse};
use club_rows::{Booking, BookingNumber, Facility, KeyRow, OlderRoot};
use club_values::{Day, Moment, Name, Slot};

#[derive(Clone, Copy, Debug, PartialEq, Eq)]
pub(crate) enum Call {
    Key,
    OlderRoot,
    Record,
    Facility,
    MostTaken,
    Slot,
    Account,
    OpenCount,
    Spent,
    Day,
    Change,
}

/// Each answer needs fewer calls than this number.
const MOST: usize = 16;

/// Each call from number `first` on fails with `fault`. The first call has number 1.
#[derive(Drop)]
pub(crate) struct Refusing<S: ClubStore> {
    pub store: S,
    noted: [Option<Call>; MOST],
    pub calls: usize,
    first: usize,
    fault: StoreFault,
}

impl<S: ClubStore> Refusing<S> {
    pub fn from_call(first: usize, fault: StoreFault, store: S) -> Refusing<S> {
        Refusing {
            store,
            noted: [None; MOST],
            calls: 0,
            first,
            fault,
        }
    }

    pub fn never(store: S) -> Refusing<S> {
        Refusing::from_call(usize::MAX, StoreFault::Storage, store)
    }

    pub fn expect_calls(&self, rt: &impl Host, row: usize, want: &[Call]) {
        expect_row(rt, row, self.calls, want.len());
        for (place, call) in want.iter().enumerate() {
            let noted = self.noted.get(place).copied();
            expect_row(rt, row, noted, Some(Some(*call)));
        }
    }

    fn note(&mut self, call: Call) -> Result<(), StoreFault> {
        if let Some(place) = self.noted.get_mut(self.calls) {
            *place = Some(call);
        }
        self.calls = self.calls.saturating_add(1);
        if self.calls >= self.first {
            return Err(self.fault);
        }
        Ok(())
    }
}

impl<S: ClubStore> ClubStore for Refusing<S> {
    ghost ghosts = { record {
      is_clean = λ store. ⊥;
      represents = λ store club others. ⊥;
      fails = λ wish old fault new. ⊥;
    } };

    ghost sound = { λ store club others represents. absurd represents };

    fn key_row(&mut self, name: &Name) -> Result<Option<KeyRow>, StoreFault> {
        self.note(Call::Key)?;
        self.store.key_row(name)
    }

    fn older_root(&mut self, name: &Name) -> Result<Option<OlderRoot>, StoreFault> {
        self.note(Call::OlderRoot)?;
        self.store.older_root(name)
    }

    fn facility(&mut self, name: &Name) -> Result<Option<Facility>, StoreFault> {
        self.note(Call::Facility)?;
        self.store.facility(name)
    }

    fn most_taken(&mut self, facility: &Name) -> Result<u32, StoreFault> {
        self.note(Call::MostTaken)?;
        self.store.most_taken(facility)
    }

    fn slot(&mut self, slot: &Slot) -> Result<SlotUse, StoreFault> {
        self.note(Call::Slot)?;
        self.store.slot(slot)
    }

    fn booking(
        &mut self,
        key: &Name,
        number: BookingNumber,
    ) -> Result<Option<Booking>, StoreFault> {
        self.note(Call::Record)?;
        self.store.booking(key, number)
    }

    fn account(&mut self, member: &Name) -> Result<Option<MemberAccount>, StoreFault> {
        self.note(Call::Account)?;
        self.store.account(member)
    }

    fn open_count(&mut self, member: &Name, moment: Moment) -> Result<u64, StoreFault> {
        self.note(Call::OpenCount)?;
        self.store.open_count(member, moment)
    }

    fn spent(&mut self, key: &Name) -> Result<u64, StoreFault> {
        self.note(Call::Spent)?;
        self.store.spent(key)
    }

    fn day(&mut self, day: Day) -> Result<Vec<Booking>, StoreFault> {
        self.note(Call::Day)?;
        self.store.day(day)
    }

    fn apply(&mut self, change: &Change) -> Result<(), StoreFault> {
        self.note(Call::Change)?;
        self.store.apply(change)
    }
}
