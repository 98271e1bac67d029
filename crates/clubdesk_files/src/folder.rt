//! The entries of a database's folder.

ghost use Rattle.std.specs.{IoError.error_kind, Prelude.{◌↔◌, IfErr, IfOk, IsTrue}};
ghost use Rattle.clubdesk_files.specs.Folder.{FailsToFindDoor, FindsDoor, IsDoor, MayMakeDoor};

use std::io::{self, ErrorKind};

/// The user id of root.
const ROOT: u32 = 0;

/// The suffix of the door's name. The door is a server's socket. The name of the door is the
/// database's name with this suffix.
pub(crate) const OFFICE: &str = "-office";

/// An entry of a folder. A symbolic link is an entry of its own.
#[derive(Clone, Copy, Drop)]
pub struct FolderEntry {
    pub is_socket: bool,
    /// The user id of the owner.
    pub owner: u32,
}

/// The folder of a database, and the user who looks into it.
pub trait Folder {
    ghost use Rattle.std.specs.{IoError.error_kind, Prelude.{◌≡◌, ℕ, IfErr, IfOk}};
    ghost use Rattle.std.specs.declared.io.ErrorKind.{ErrorKind};
    ghost use Rattle.clubdesk_files.specs.Folder.{Entries};

    // The entries that the folder may show under the database's name with a suffix.
    ghost shows: { Entries Self };

    // Looking into the folder may fail with an error of this kind.
    ghost fails: { Self → ErrorKind → Type 0 };

    // The user id of the caller.
    ghost user: { Self → ℕ };

    /// Returns the entry whose name is the database's name with this suffix, or `None` if there is
    /// no such entry.
    fn entry(&self, suffix: &str) -> io::Result<Option<FolderEntry>>
        ensures shown { IfOk result (λ entry. shows self.now suffix.now entry) }
        ensures failed { IfErr result (λ error. fails self.now (error_kind error)) };

    /// Returns the caller's user id.
    fn caller(&self) -> u32
        ensures { result ≡ user self.now };
}

/// Returns true if a socket has the door's name.
///
/// # Errors
///
/// Fails with `InvalidData` if another kind of file has the door's name, or if the socket belongs
/// to a user who may not make the door.
pub fn has_door<F: Folder>(folder: &F) -> io::Result<bool>
    ensures found { IfOk result (FindsDoor F.shows (F.user folder.now) folder.now) }
    ensures failed { IfErr result (λ error. FailsToFindDoor F.shows F.fails (F.user folder.now)
        folder.now (error_kind error)) }
{
    let door = match folder.entry(OFFICE) {
        Ok(Some(door)) => door,
        Ok(None) => return Ok(false),
        Err(error) => return Err(error),
    };
    let file = match folder.entry("") {
        Ok(file) => file,
        Err(error) => return Err(error),
    };
    if is_door(file, folder.caller(), door) {
        Ok(true)
    } else {
        Err(io::Error::from(ErrorKind::InvalidData))
    }
}

// Returns true if an entry is a socket that belongs to a user who may make the door.
fn is_door(file: Option<FolderEntry>, caller: u32, entry: FolderEntry) -> bool
    ensures { IsTrue result ↔ IsDoor file caller entry }
{
    let owner = match file {
        Some(file) => file.owner,
        None => caller,
    };
    entry.is_socket && may_make_door(entry.owner, owner, caller)
}

/// Returns true if a user may make the door of a database. The database's owner, the caller and
/// root may make the door. Without this check, anyone who can write to the folder could put a
/// socket there and receive the office's commands.
pub fn may_make_door(user: u32, owner: u32, caller: u32) -> bool
    ensures { IsTrue result ↔ MayMakeDoor user owner caller }
{
    user == owner || user == caller || user == ROOT
}
