//! Attempts to open a database that another program may have open.

ghost use Rattle.std.specs.Prelude.{IfOk, IfSome};
ghost use Rattle.clubdesk_files.specs.Opened.{IsOpenedByOffice, IsOpenedFrom, OpensServer};
ghost use Rattle.sqlite.specs.WalFiles.{image_at};

use crate::attempts::Attempts;
use crate::file_visit::{FileVisit, Found, find_server};
use crate::named::NamedStore;
use crate::open_file::OpenFile;
use crate::place::{fault_of, make_private};
use club_core::StoreFault;
use club_store::{FailedOpening, Store};
use desk_server::Reached;
use sqlite::{FileFrom, FileStore, Start, Unknown};

/// The store of a club in a file. [`Unknown`] means that a torn write leaves each byte either old
/// or new.
type FileStoreOfClub = Store<FileStore<FileFrom<Unknown>>>;

/// The store of a club in a file that another program can remove.
pub type FileClub = NamedStore<FileStoreOfClub, OpenFile>;

// Opens the database in a file. If the file is missing, creates a file that only its owner can use.
// Returns `None` while another program has the file open.
fn try_open(rt: &HostRuntime, name: &str) -> Option<Result<FileStoreOfClub, StoreFault>>
    ensures { IfSome result (λ opened. IfOk opened
        (IsOpenedFrom (image_at ⟦<Unknown as Start>⟧))) }
{
    make_private(rt, name);
    match Store::open_file(rt, name, Unknown) {
        Ok(store) => Some(Ok(store)),
        Err((_, FailedOpening::InUse)) => None,
        Err((fault, _left)) => Some(Err(fault)),
    }
}

/// The attempts of a server to open a database.
#[derive(Drop)]
pub struct ServerOpenings<'a, 'n> {
    pub rt: &'a HostRuntime,
    pub name: &'n str,
}

impl<'a> Attempts for ServerOpenings<'a, '_> {
    type Gain = Result<FileClub, StoreFault>;

    ghost gains = { λ _ gained _. IfSome gained
        (OpensServer (image_at ⟦<Unknown as Start>⟧)) };

    fn attempt(&mut self) -> Option<Result<FileClub, StoreFault>> {
        match try_open(self.rt, self.name)? {
            Ok(store) => match OpenFile::at(self.rt, self.name) {
                Ok(file) => Some(Ok(NamedStore { store, file })),
                Err(error) => Some(Err(fault_of(&error))),
            },
            Err(fault) => Some(Err(fault)),
        }
    }
}

/// The office's attempts to reach a database, through a server's door or by opening the file. An
/// attempt fails if another program has the file open, or if a server ends before it sends its
/// greeting.
#[derive(Drop)]
pub struct OfficeOpenings<'a, 'n> {
    pub rt: &'a HostRuntime,
    pub name: &'n str,
}

impl<'a> Attempts for OfficeOpenings<'a, '_> {
    type Gain = Result<Reached<FileClub, FileVisit<'a>>, StoreFault>;

    ghost gains = { λ _ gained _. IfSome gained (λ reached. IfOk reached
        (IsOpenedByOffice (image_at ⟦<Unknown as Start>⟧))) };

    fn attempt(&mut self) -> Option<Result<Reached<FileClub, FileVisit<'a>>, StoreFault>> {
        match find_server(self.rt, self.name) {
            Ok(Found::Server(visit)) => Some(Ok(Reached::Served(visit))),
            Ok(Found::Ended) => None,
            Err(fault) => Some(Err(fault)),
            Ok(Found::Nobody) => match try_open(self.rt, self.name)? {
                Ok(store) => {
                    let file = OpenFile::unwatched();
                    Some(Ok(Reached::Opened(NamedStore { store, file })))
                }
                Err(fault) => Some(Err(fault)),
            },
        }
    }
}
