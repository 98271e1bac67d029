//! Connects to a server, and sends a command to it.

ghost use Rattle.std.specs.Prelude.{Bool};
ghost use Rattle.clubdesk_files.specs.Retried.{IsHandedOn, IsHandedTo, SendsOver};

use crate::folder::has_door;
use crate::handover::{AnswerReader, CommandWriter, greeted};
use crate::kinds::{is_cut_short, is_nobody};
use crate::place::{Place, fault_of};
use crate::retried::{Servers, hand_over_to, hand_over_until_done};
use club_core::StoreFault;
use desk_server::Visit;
use std::io::{self, ErrorKind, Read, Write};
use std::os::unix::net::UnixStream;
use std::time::Duration;

/// The time that a server has to send its greeting, in seconds. With the server's default timeout,
/// no client can keep the server busy for this long.
const GREETING_SECONDS: u64 = 60;

/// A database's server that has sent its greeting.
#[derive(Drop)]
pub struct FileVisit<'a> {
    rt: &'a HostRuntime,
    file: String,
    // The connection to a server that has sent its greeting. After an attempt to send a command,
    // this field is `None`, and the next attempt connects again.
    greeted: Option<UnixStream>,
}

impl<'a> FileVisit<'a> {
    /// Waits for the greeting of a database's server, over a connection to the server's door.
    ///
    /// # Errors
    ///
    /// Fails if the server doesn't send its greeting in time, or sends something else. Fails if the
    /// connection fails, or if memory runs out.
    pub fn over(rt: &'a HostRuntime, file: &str, stream: UnixStream) -> io::Result<FileVisit<'a>> {
        let file = format!(in rt.alloc(); "{file}")?;
        stream.set_read_timeout(Some(Duration::from_secs(GREETING_SECONDS)))?;
        greeted(&mut &stream)?;
        let greeted = Some(stream);
        Ok(FileVisit { rt, file, greeted })
    }
}

/// The result of connecting to a database's door.
#[derive(Drop)]
pub(crate) enum Found<'a> {
    /// A server that has sent its greeting.
    Server(FileVisit<'a>),
    /// The server ended before it sent its greeting, and received no command.
    Ended,
    /// No server listens on the door, the database's name is too long for a door, or only root can
    /// use the door. In these cases, `OfficeOpenings` opens the file itself, unless the file's lock
    /// shows that another program has the file open.
    Nobody,
}

/// Connects to the database's server and waits for its greeting.
///
/// # Errors
///
/// The call has sent nothing when it fails. The cases are:
/// - The server doesn't send its greeting in time, or sends something else.
/// - The door can't be used, or belongs to a user who may not make the door.
/// - Memory runs out.
pub(crate) fn find_server<'a>(rt: &'a HostRuntime, file: &str) -> Result<Found<'a>, StoreFault> {
    match connect(rt, file) {
        Ok(stream) => match FileVisit::over(rt, file, stream) {
            Ok(visit) => Ok(Found::Server(visit)),
            Err(error) if is_cut_short(error.kind()) => Ok(Found::Ended),
            Err(error) => Err(fault_of(&error)),
        },
        Err(error) if is_nobody(error.kind()) => Ok(Found::Nobody),
        Err(error) => Err(fault_of(&error)),
    }
}

/// Connects to the door of a database. The path may lead through links to the database.
///
/// # Errors
///
/// - Fails with `NotFound` or `ConnectionRefused` if no server listens on the door.
/// - Fails with `InvalidInput` if the name is too long for a door.
/// - Fails with `PermissionDenied` if only root can use the door.
/// - Fails with `InvalidData` if another kind of file has the door's name.
/// - Fails with `InvalidData` if the door belongs to a user who may not make the door.
/// - Fails with another error if the door can't be used for another reason.
pub fn connect(rt: &HostRuntime, file: &str) -> io::Result<UnixStream> {
    let place = Place::find(rt, file)?;
    if !has_door(&place)? {
        return Err(io::Error::from(ErrorKind::NotFound));
    }
    let path = place.door()?;
    UnixStream::connect(rt, path.as_str())
}

impl FileVisit<'_> {
    // Returns the connection to the next server that has sent its greeting. Returns `None` if there
    // is no such server.
    fn next(&mut self) -> Option<UnixStream> {
        match self.greeted.take() {
            Some(stream) => Some(stream),
            None => match find_server(self.rt, self.file.as_str()) {
                Ok(Found::Server(visit)) => {
                    let FileVisit { greeted, .. } = visit;
                    greeted
                }
                _ => None,
            },
        }
    }
}

/// The contract states nothing about which servers there are.
impl Servers for FileVisit<'_> {
    ghost hands = { λ _ command answer _. (is_there : Bool) × IsHandedTo
        (SendsOver ⟦<&'static UnixStream as Read>⟧.remaining
        ⟦<&'static UnixStream as Write>⟧.contents
        ⟦<&'static UnixStream as CommandWriter>⟧.ends
        ⟦<&'static UnixStream as AnswerReader>⟧.fails
        ⟦<&'static UnixStream as CommandWriter>⟧.fails command) is_there answer };

    fn hand_over(&mut self, command: &[u8]) -> Option<(u8, String)> {
        let server = self.next();
        hand_over_to(self.rt.alloc(), server, command)
    }
}

/// Each answer but the last one has the status `NOTHING_DONE`.
impl Visit for FileVisit<'_> {
    ghost use Rattle.clubdesk_files.specs.declared.file_visit.FileVisit.{FileVisit};

    ghost gives = { λ visit command answer. (last : FileVisit)
        × IsHandedOn ⟦<FileVisit<'static> as Servers>⟧.hands command visit answer last };

    fn give(mut self, command: &[u8]) -> Option<(u8, String)> {
        let rt = self.rt;
        hand_over_until_done(rt, &mut self, command)
    }
}
