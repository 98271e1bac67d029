//! Opens the tables of a database. Migrates tables of version 1, adds the index of the bookings if
//! it is missing, and creates all tables if there are none.

ghost use Rattle.std.specs.Prelude.{◌≡◌, [], ◌∷◌, map, IsTrue, IfOk, IfErr, OnOk, OnErr};
ghost use Rattle.club_tables.specs.{Columns.{version_values, HasValues}, Opening.AcceptsTables};
ghost use Rattle.club_tables.specs.Opening.{EnsuresIndex, FailsToPrepareOne, HasMigrated};
ghost use Rattle.club_tables.specs.Opening.{HasOrGetsIndex, IsOpeningFault, Opens, RunsBatch};
ghost use Rattle.club_tables.specs.Opening.{Understands, WhenIdle, YieldsVersion, table_batch};
ghost use Rattle.club_tables.specs.Opening.{migration, index_batch, version_text};
ghost use Rattle.club_tables.specs.ReadsAndChanges.{version_1_in, version_2_in, found_in};
ghost use Rattle.club_tables.specs.Transaction.{FailsToAsk, IsIdle, IsKept, IsUntouched};
ghost use Rattle.sqlite.specs.{Held.state, State.{HasCleanDisk, Survives}};

use crate::row::integer_at;
use crate::tables::Tables;
use crate::texts;
use crate::transaction::Statement;
use club_core::StoreFault;
use sqlite::{Alter, Row};

/// The current version of the tables.
const VERSION: u8 = 2;

/// The first version, which has no table of older roots.
const FIRST_VERSION: u8 = 1;

/// Converts SQL texts into statements without parameters.
macro_rules! statements {
    ($($text:expr),* $(,)?) => {
        [$(Statement { text: $text, params: &[] }),*]
    };
}

/// The statements that create the tables of an empty club.
const TABLE_STATEMENTS: [Statement<'static>; 10] = statements![
    texts::MAKE_DESK,
    texts::MAKE_MEMBERS,
    texts::MAKE_FACILITIES,
    texts::MAKE_KEYS,
    texts::MAKE_SLOTS,
    texts::MAKE_BOOKINGS,
    texts::MAKE_KEYS_BY_MEMBER,
    texts::MAKE_OLD_ROOTS,
    texts::MAKE_BOOKINGS_BY_KEY,
    texts::ADD_VERSION,
];

/// Returns whether there is exactly one row and this row contains the version.
fn is_version(rows: &[Row], version: u8) -> bool
    ensures one { rows.now ≡ version_values version ∷ [] → IsTrue result }
    ensures only { IsTrue result → (row : _) × (rows.now ≡ row ∷ []) × HasValues row
        (version_values version) }
{
    match rows {
        [row] => integer_at(row, 0) == Some(i64::from(version)),
        _ => false,
    }
}

impl<S: Alter> Tables<S> {
    /// Returns the rows that contain the version of the tables. If the database contains a club,
    /// the returned version is the version of the club's tables.
    fn version(&mut self) -> Result<Vec<Row>, StoreFault>
        ensures ok { HasCleanDisk (state S.Store self.new) → IfOk result
            (λ rows. YieldsVersion S.Store self.old self.new rows.items) }
        ensures fault { HasCleanDisk (state S.Store self.new) → IfErr result
            (FailsToAsk S.Store (version_text, []) self.old self.new) }
        ensures kept { IsKept (state S.Store self.old) (state S.Store self.new) }
        ensures survives { Survives (state S.Store self.old) (state S.Store self.new) (λ _. ⊥) }
    {
        self.ask(texts::VERSION, &[])
    }

    /// Creates the tables of an empty club, in one transaction. Fails if the database already has
    /// one of the tables.
    fn make_tables(&mut self) -> Result<(), StoreFault>
        ensures opens { RunsBatch S.Store (found_in S.Store) table_batch self.old self.new result }
        ensures untouched { OnErr result
            (IsKept (state S.Store self.old) (state S.Store self.new)) }
    {
        self.run(&TABLE_STATEMENTS)
    }

    /// Prepares each SQL text. Fails if SQLite doesn't accept a text as a statement over the
    /// tables. Changes nothing.
    fn prepare_all(&mut self, texts: &[&str]) -> Result<(), StoreFault>
        ensures kept { IsUntouched (state S.Store self.old) (state S.Store self.new) }
        ensures understood { HasCleanDisk (state S.Store self.new) → OnOk result
            (WhenIdle S.Store (λ _. Understands S.Store (map (λ text. text.now) texts.now))
            self.old self.new) }
        ensures fault { HasCleanDisk (state S.Store self.new) → IfErr result
            (FailsToPrepareOne S.Store (map (λ text. text.now) texts.now) self.old self.new) }
        ensures survives { Survives (state S.Store self.old) (state S.Store self.new) (λ _. ⊥) }
    {
        for text in texts {
            match self.prepare(text) {
                Ok(()) => {}
                Err(fault) => return Err(fault),
            }
        }
        Ok(())
    }

    /// Migrates tables of version 1 to version 2, in one transaction. Adds an empty table of older
    /// roots, and the index of the bookings.
    fn add_old_roots(&mut self) -> Result<(), StoreFault>
        ensures opens { RunsBatch S.Store (version_1_in S.Store) migration
            self.old self.new result }
        ensures untouched { OnErr result
            (IsKept (state S.Store self.old) (state S.Store self.new)) }
    {
        self.run(&statements![
            texts::MAKE_OLD_ROOTS,
            texts::MAKE_BOOKINGS_BY_KEY,
            texts::SET_VERSION,
        ])
    }

    /// Migrates tables of version 1, after checking that SQLite accepts the statements that read a
    /// row by its primary key. A failed call changes nothing. After a crash, the tables have
    /// version 1 or version 2.
    fn migrate(&mut self) -> Result<(), StoreFault>
        ensures opens { Opens S.Store (version_1_in S.Store)
            (λ from to. IsIdle (state S.Store from) → HasMigrated S.Store from to)
            (IsOpeningFault S.Store) self.old self.new result }
        ensures untouched { OnErr result
            (IsUntouched (state S.Store self.old) (state S.Store self.new)) }
    {
        match self.prepare_all(&texts::FIRST_ROWS_BY_KEY) {
            Ok(()) => self.add_old_roots(),
            Err(fault) => Err(fault),
        }
    }

    /// Creates the index of the bookings, in one transaction. Fails if the index already exists.
    fn add_index(&mut self) -> Result<(), StoreFault>
        ensures opens { RunsBatch S.Store (version_2_in S.Store) index_batch
            self.old self.new result }
        ensures untouched { OnErr result
            (IsKept (state S.Store self.old) (state S.Store self.new)) }
    {
        self.run(&statements![texts::MAKE_BOOKINGS_BY_KEY])
    }

    /// Creates the index of the bookings if it is missing.
    fn ensure_index(&mut self) -> Result<(), StoreFault>
        ensures opens { Opens S.Store (version_2_in S.Store) (HasOrGetsIndex S.Store)
            (IsOpeningFault S.Store) self.old self.new result }
        ensures untouched { OnErr result
            (IsKept (state S.Store self.old) (state S.Store self.new)) }
    {
        match self.prepare(texts::DROP_BOOKINGS_BY_KEY) {
            Ok(()) => Ok(()),
            Err(StoreFault::Memory) => Err(StoreFault::Memory),
            Err(StoreFault::Storage) => self.add_index(),
        }
    }

    /// Accepts tables of version 2, after checking that SQLite accepts the statements that read a
    /// row by its primary key. Adds the index of the bookings if it is missing. A failed call
    /// changes nothing. After a crash, either the tables are unchanged, or the index exists.
    fn complete(&mut self) -> Result<(), StoreFault>
        ensures opens { Opens S.Store (version_2_in S.Store)
            (WhenIdle S.Store (EnsuresIndex S.Store)) (IsOpeningFault S.Store)
            self.old self.new result }
        ensures untouched { OnErr result
            (IsUntouched (state S.Store self.old) (state S.Store self.new)) }
    {
        match self.prepare_all(&texts::ROWS_BY_KEY) {
            Ok(()) => self.ensure_index(),
            Err(fault) => Err(fault),
        }
    }

    /// Opens the tables. Migrates tables of version 1, and creates the index of the bookings if it
    /// is missing. Creates all tables if the version can't be read.
    pub fn open(&mut self) -> Result<(), StoreFault>
        ensures opens { Opens S.Store (found_in S.Store) (WhenIdle S.Store (AcceptsTables S.Store))
            (IsOpeningFault S.Store) self.old self.new result }
        ensures untouched { OnErr result
            (IsKept (state S.Store self.old) (state S.Store self.new)) }
    {
        let found = match self.version() {
            Ok(found) => found,
            Err(StoreFault::Memory) => return Err(StoreFault::Memory),
            Err(StoreFault::Storage) => return self.make_tables(),
        };
        let rows = found.as_slice();
        if is_version(rows, VERSION) {
            return self.complete();
        }
        if is_version(rows, FIRST_VERSION) {
            return self.migrate();
        }
        Err(StoreFault::Storage)
    }
}
