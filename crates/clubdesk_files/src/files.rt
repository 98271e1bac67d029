//! Databases in files. The name of a database is the path of its file.

ghost use Rattle.std.specs.Prelude.{◌≡◌, IfOk};
ghost use Rattle.clubdesk_files.specs.Opened.{IsOpenedByOffice, OpensServer};
ghost use Rattle.desk_server.specs.Served.{CountsOn};
ghost use Rattle.sqlite.specs.WalFiles.{image_at};

use crate::attempts::{ATTEMPTS_A_SECOND, gain};
use crate::door::FileDoor;
use crate::file_visit::FileVisit;
use crate::named::NamedStore;
use crate::openings::{FileClub, OfficeOpenings, ServerOpenings};
use crate::place::fault_of;
use club_core::StoreFault;
use desk_server::{Databases, Reached};
use sqlite::{Start, Unknown};

/// The number of attempts to open a file that another program has open. All attempts together take
/// ten seconds.
const MAX_OPENINGS: u32 = 10 * ATTEMPTS_A_SECOND;

/// Databases in files. The name of a database is the path of its file.
#[derive(Drop)]
pub struct Files<'a> {
    pub rt: &'a HostRuntime,
    /// The number of calls of `open` and `reach` so far.
    pub tried: u64,
    /// The number of calls of `close` so far.
    pub closed: u64,
}

impl<'a> Files<'a> {
    /// Returns the system's files as databases. No database is open yet.
    pub fn new(rt: &'a HostRuntime) -> Files<'a>
        ensures tried { result.tried ≡ 0 }
        ensures closed { result.closed ≡ 0 }
    {
        Files {
            rt,
            tried: 0,
            closed: 0,
        }
    }
}

impl<'a> Databases for Files<'a> {
    type Store = FileClub;

    type Door = FileDoor<'a>;

    type Visit = FileVisit<'a>;

    ghost opens = { λ old name given new.
        CountsOn old.tried 1 new.tried × (new.closed ≡ old.closed)
        × OpensServer (image_at ⟦<Unknown as Start>⟧) given };

    ghost reaches = { λ old name given new.
        CountsOn old.tried 1 new.tried × (new.closed ≡ old.closed)
        × IfOk given (IsOpenedByOffice (image_at ⟦<Unknown as Start>⟧)) };

    ghost closes = { λ old store new.
        CountsOn old.closed 1 new.closed × (new.tried ≡ old.tried) };

    fn open(&mut self, name: &str) -> Result<FileClub, StoreFault> {
        self.tried = self.tried.saturating_add(1);
        let mut openings = ServerOpenings { rt: self.rt, name };
        // The code uses `match`, because a proof about `unwrap_or` for a result with a store would
        // take forty seconds.
        match gain(&mut openings, self.rt, MAX_OPENINGS) {
            Some(opened) => opened,
            None => Err(StoreFault::Storage),
        }
    }

    fn reach(&mut self, name: &str) -> Result<Reached<FileClub, FileVisit<'a>>, StoreFault> {
        self.tried = self.tried.saturating_add(1);
        let mut openings = OfficeOpenings { rt: self.rt, name };
        match gain(&mut openings, self.rt, MAX_OPENINGS) {
            Some(found) => found,
            None => Err(StoreFault::Storage),
        }
    }

    // Committed changes are in the log next to the file. Closing the connection copies the changes
    // into the file. If copying fails, the changes stay in the log until the database is opened
    // again.
    fn close(&mut self, named: FileClub) {
        self.closed = self.closed.saturating_add(1);
        let NamedStore { store, file: _ } = named;
        let _ = store.into_connection().close();
    }

    fn make_door(&self, name: &str) -> Result<FileDoor<'a>, StoreFault> {
        FileDoor::make(self.rt, name).map_err(|error| fault_of(&error))
    }
}

/// Code that can use databases of any type.
pub trait DatabasesUser {
    type Outcome;

    // The possible outcomes of a run.
    ghost outcomes: { Self → Self.Outcome → Type 0 };

    /// Runs this code with the given databases, and returns the outcome.
    fn run_over<D: Databases>(self, databases: &mut D) -> Self::Outcome
        ensures { outcomes self result };
}

/// Runs `user` with databases that are stored in files. `user` is code that is proved for databases
/// of any type. Therefore, its proof doesn't involve the type of a store in a file, which contains
/// the whole database engine.
pub fn run_over_files<U: DatabasesUser>(rt: &HostRuntime, user: U) -> U::Outcome
    ensures { U.outcomes user result }
{
    user.run_over(&mut Files::new(rt))
}
