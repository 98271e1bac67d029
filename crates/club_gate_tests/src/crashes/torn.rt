//! The contents that a crash may leave: each change since the last sync is kept, lost or torn.

use crate::crashes::disk::{Bytes, Stops};
use crate::crashes::recorded::{Change, Recorded, overwrite};
use crate::expect::{Host, push};
use sqlite::Files;
use sqlite_disk::digest_of;

#[derive(Clone, Copy)]
pub(crate) enum Survival {
    Kept,
    Lost,
    FirstHalf,
    AllButOne,
    LastHalf,
    Odd,
}

/// The survival of the earlier changes, of one change, and of the later changes.
#[derive(Clone, Copy)]
pub(crate) struct Survivals(Survival, Survival, Survival);

/// The newest change of a file is tried with each of these rows.
static TRIED: [Survivals; 9] = [
    Survivals(Survival::Kept, Survival::Lost, Survival::Kept),
    Survivals(Survival::Kept, Survival::FirstHalf, Survival::Kept),
    Survivals(Survival::Kept, Survival::AllButOne, Survival::Kept),
    Survivals(Survival::Kept, Survival::LastHalf, Survival::Kept),
    Survivals(Survival::Kept, Survival::Odd, Survival::Kept),
    Survivals(Survival::Lost, Survival::Kept, Survival::Kept),
    Survivals(Survival::Kept, Survival::Kept, Survival::Lost),
    Survivals(Survival::Lost, Survival::Odd, Survival::Lost),
    Survivals(Survival::Odd, Survival::Odd, Survival::Odd),
];

/// Each other change is tried with one of the first six rows. The row depends on the number of the
/// change and on the stop.
const BY_TURNS: usize = 6;

/// The number of a change, and the survivals of the earlier changes, of this change, and of the
/// later changes. The changes of the log have lower numbers than the changes of the database.
#[derive(Clone, Copy)]
pub(crate) struct Case(pub usize, pub Survivals);

const ALL_KEPT: Survivals = Survivals(Survival::Kept, Survival::Kept, Survival::Kept);

const ALL_LOST: Survivals = Survivals(Survival::Lost, Survival::Lost, Survival::Lost);

pub(crate) const KEPT: Case = Case(0, ALL_KEPT);

pub(crate) const LOST: Case = Case(0, ALL_LOST);

/// This byte fills the gap before a write past the end of a file.
const GARBAGE: u8 = 0xA5;

impl Survival {
    fn keeps(self, place: usize, len: usize) -> bool {
        match self {
            Survival::Kept => true,
            Survival::Lost => false,
            Survival::FirstHalf => place < len / 2,
            Survival::AllButOne => place < len.saturating_sub(1),
            Survival::LastHalf => place >= len / 2,
            Survival::Odd => place % 2 == 1,
        }
    }

    /// A change of a single byte is kept or lost, not torn.
    fn of_len(self, len: usize) -> Survival {
        match len {
            1 if self.keeps(0, 1) => Survival::Kept,
            1 => Survival::Lost,
            _ => self,
        }
    }

    fn number(self) -> u8 {
        match self {
            Survival::Kept => 0,
            Survival::Lost => 1,
            Survival::FirstHalf => 2,
            Survival::AllButOne => 3,
            Survival::LastHalf => 4,
            Survival::Odd => 5,
        }
    }
}

impl Case {
    fn survival(&self, number: usize, change: &Change) -> Survival {
        let Case(torn, Survivals(before, own, after)) = *self;
        let survival = if number < torn {
            before
        } else if number == torn {
            own
        } else {
            after
        };
        survival.of_len(change.len)
    }
}

fn put(rt: &impl Host, file: &mut Vec<u8>, index: usize, byte: u8) {
    match file.get_mut(index) {
        Some(place) => *place = byte,
        None => {
            file.resize(index, GARBAGE).expect(rt, "memory");
            push(rt, file, byte);
        }
    }
}

fn write_part(rt: &impl Host, file: &mut Vec<u8>, at: usize, bytes: &[u8], survival: Survival) {
    for (place, byte) in bytes.iter().enumerate() {
        if survival.keeps(place, bytes.len()) {
            put(rt, file, at.saturating_add(place), *byte);
        }
    }
}

fn torn_len(old: usize, new: usize, survival: Survival) -> usize {
    match survival {
        Survival::Kept => new,
        Survival::Lost => old,
        _ => (old / 2).saturating_add(new / 2),
    }
}

fn make(rt: &impl Host, file: &mut Vec<u8>, change: &Change, survival: Survival) {
    match (change.at, survival) {
        (_, Survival::Lost) => {}
        (None, _) => {
            let len = torn_len(file.len(), change.len, survival);
            file.resize(len, 0).expect(rt, "memory");
        }
        (Some(at), Survival::Kept) => overwrite(file, at, &change.bytes).expect(rt, "memory"),
        (Some(at), _) => write_part(rt, file, at, &change.bytes, survival),
    }
}

/// Returns the bytes that a crash leaves. The file's first change has the number `first`.
fn left_of(rt: &impl Host, file: &Recorded, first: usize, case: &Case) -> Vec<u8> {
    let mut bytes = Vec::from_slice(rt.alloc(), &file.synced).expect(rt, "memory");
    for (place, change) in file.changes.iter().enumerate() {
        let survival = case.survival(first.saturating_add(place), change);
        make(rt, &mut bytes, change, survival);
    }
    bytes
}

pub(crate) fn left(rt: &impl Host, files: &Files<Stops>, case: &Case) -> Bytes {
    let (log, db) = (files.log.inner(), files.db.inner());
    Bytes {
        log: left_of(rt, log, 0, case),
        db: left_of(rt, db, log.changes.len(), case),
    }
}

pub(crate) fn changes_in(files: &Files<Stops>) -> usize {
    let (log, db) = (files.log.inner(), files.db.inner());
    log.changes.len().saturating_add(db.changes.len())
}

pub(crate) fn tried_of(files: &Files<Stops>, number: usize, turn: usize) -> &'static [Survivals] {
    let next = number.saturating_add(1);
    if next == files.log.inner().changes.len() || next == changes_in(files) {
        return &TRIED;
    }
    let row = number.wrapping_add(turn) % BY_TURNS;
    &TRIED[row..row + 1]
}

fn digest_with(digest: u64, file: &Recorded, first: usize, case: &Case) -> u64 {
    let mut digest = digest_of(digest ^ file.synced_digest, &[]);
    for (place, change) in file.changes.iter().enumerate() {
        match case.survival(first.saturating_add(place), change) {
            Survival::Lost => {}
            survival => digest = digest_of(digest ^ change.digest, &[survival.number()]),
        }
    }
    digest
}

/// The digest is computed without the bytes of the files.
pub(crate) fn digest_of_left(key: u64, files: &Files<Stops>, case: &Case) -> u64 {
    let (log, db) = (files.log.inner(), files.db.inner());
    let digest = digest_with(key, log, 0, case);
    digest_with(digest, db, log.changes.len(), case)
}
