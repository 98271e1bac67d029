//! The file that a store has open.

ghost use Rattle.clubdesk_files.specs.Named.{IsWatched};

use crate::named::Removable;
use crate::place::IN_MEMORY;
use std::fs::File;
use std::io::ErrorKind;
use std::os::unix::fs::MetadataExt;
use std::{fs, io};

/// The number of descriptors that the program searches for a store's open file.
const MAX_DESCRIPTORS: u32 = 1_024;

/// An additional descriptor of the file that a store has open. A check through a descriptor takes
/// less than a fifth of the time of a check by path.
#[derive(Drop)]
pub struct OpenFile {
    // The open file, or `None` if the program never checks the file.
    file: Option<File>,
}

impl OpenFile {
    /// Opens an additional descriptor of the database's file, which a store of this program has
    /// open. A database in memory has no file and is never checked.
    ///
    /// # Errors
    ///
    /// Fails if no open file has this path, or if memory runs out.
    pub(crate) fn at(rt: &HostRuntime, name: &str) -> io::Result<OpenFile> {
        if name == IN_MEMORY {
            return Ok(OpenFile::unwatched());
        }
        let found = fs::metadata(rt, name)?;
        for descriptor in 0..MAX_DESCRIPTORS {
            let link = format!(in rt.alloc(); "/proc/self/fd/{descriptor}")?;
            match fs::metadata(rt, link.as_str()) {
                Ok(open) if open.ino() == found.ino() && open.dev() == found.dev() => {
                    let file = File::open(rt, link.as_str())?;
                    return Ok(OpenFile { file: Some(file) });
                }
                _ => {}
            }
        }
        Err(io::Error::from(ErrorKind::NotFound))
    }

    /// Returns a file that is never checked. The office's commands use such a file, because they
    /// have the database open only briefly.
    pub(crate) fn unwatched() -> OpenFile
        ensures { ¬ IsWatched result }
    {
        OpenFile { file: None }
    }
}

/// Only a watched file can be lost. The contract states nothing about the system's answers.
impl Removable for OpenFile {
    ghost is_lost = { IsWatched };

    ghost is_found = { λ _. Unit {0} };

    fn has_name(&self) -> bool {
        match &self.file {
            Some(file) => match file.metadata() {
                Ok(found) => found.nlink() > 0,
                Err(_) => false,
            },
            None => true,
        }
    }
}
