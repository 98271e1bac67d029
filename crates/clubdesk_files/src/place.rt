//! The files in the folder of a database.

use crate::folder::{Folder, FolderEntry, OFFICE};
use club_core::StoreFault;
use libc::geteuid;
use std::alloc::AllocError;
use std::fs::{File, OpenOptions};
use std::io::ErrorKind;
use std::os::fd::AsRawFd;
use std::os::unix::fs::{FileTypeExt, MetadataExt, OpenOptionsExt};
use std::path::Path;
use std::{fs, io};

/// The mode of new files. Only the owner of a file can read and write it.
pub(crate) const OWNERS_MODE: u32 = 0o600;

/// The name of a database in memory. A database in memory has no files.
pub(crate) const IN_MEMORY: &str = ":memory:";

/// The path of the current folder.
const HERE: &str = ".";

/// The open folder of a database, and the name of the database's file in this folder. If a link
/// leads to the file, the folder and the name are those of the file, not of the link. Paths go
/// through the folder's descriptor, because the folder's own path may be too long for a socket's
/// address.
#[derive(Drop)]
pub(crate) struct Place<'a> {
    rt: &'a HostRuntime,
    folder: File,
    name: String,
    caller: u32,
}

impl<'a> Place<'a> {
    /// Finds the folder and the name of the database at this path. The folder must exist. The file
    /// may be missing, because a server can still have a removed file open.
    pub fn find(rt: &'a HostRuntime, file: &str) -> io::Result<Place<'a>> {
        match fs::canonicalize(rt, file) {
            Ok(whole) => Place::of(rt, whole.as_path()),
            Err(error) if error.kind() == ErrorKind::NotFound => Place::of(rt, Path::new(file)),
            Err(error) => Err(error),
        }
    }

    fn of(rt: &'a HostRuntime, file: Path<'_>) -> io::Result<Place<'a>> {
        let Some(name) = file.file_name() else {
            return Err(io::Error::from(ErrorKind::InvalidInput));
        };
        let name = format!(in rt.alloc(); "{name}")?;
        let folder = match file.parent() {
            Some(folder) if !folder.as_str().is_empty() => folder,
            _ => Path::new(HERE),
        };
        let folder = File::open(rt, folder)?;
        let caller = geteuid();
        Ok(Place {
            rt,
            folder,
            name,
            caller,
        })
    }

    /// Returns the path of the door's socket.
    pub fn door(&self) -> Result<String, AllocError> {
        self.path(OFFICE)
    }

    // Returns the database's path with this suffix.
    fn path(&self, suffix: &str) -> Result<String, AllocError> {
        let descriptor = self.folder.as_raw_fd();
        let name = self.name.as_str();
        format!(in self.rt.alloc(); "/proc/self/fd/{descriptor}/{name}{suffix}")
    }
}

/// No contract states what the file system contains.
impl Folder for Place<'_> {
    ghost shows = { λ _ _ _. Unit {0} };

    ghost fails = { λ _ _. Unit {0} };

    ghost user = { λ place. place.caller };

    fn entry(&self, suffix: &str) -> io::Result<Option<FolderEntry>> {
        let path = self.path(suffix)?;
        match fs::symlink_metadata(self.rt, path.as_str()) {
            Ok(found) => Ok(Some(FolderEntry {
                is_socket: found.file_type().is_socket(),
                owner: found.uid(),
            })),
            Err(error) if error.kind() == ErrorKind::NotFound => Ok(None),
            Err(error) => Err(error),
        }
    }

    fn caller(&self) -> u32 {
        self.caller
    }
}

/// Returns the store's fault for a door that can't be made or used.
pub(crate) fn fault_of(error: &io::Error) -> StoreFault {
    match error.kind() {
        ErrorKind::OutOfMemory => StoreFault::Memory,
        _ => StoreFault::Storage,
    }
}

/// The file of a socket, identified by its inode number. No other file gets this inode number while
/// a listener has the socket open.
#[derive(Clone, Copy, Drop)]
pub(crate) struct SocketFile {
    inode: u64,
}

impl SocketFile {
    /// Returns the file at a path.
    pub fn at(rt: &HostRuntime, path: &str) -> io::Result<SocketFile> {
        let inode = fs::symlink_metadata(rt, path)?.ino();
        Ok(SocketFile { inode })
    }

    /// Removes the file from a path, if the path still leads to this file.
    pub fn remove(self, rt: &HostRuntime, path: &str) {
        match SocketFile::at(rt, path) {
            Ok(found) if found.inode == self.inode => {
                let _ = fs::remove_file(rt, path);
            }
            _ => {}
        }
    }
}

/// Creates an empty file that only its owner can read and write. An existing file stays as it is.
pub(crate) fn make_private(rt: &HostRuntime, file: &str) {
    if file != IN_MEMORY {
        let mut options = OpenOptions::new();
        options.write(true).create_new(true).mode(OWNERS_MODE);
        let _made = options.open(rt, file);
    }
}
