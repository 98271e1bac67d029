//! The door of a server. The door is a socket next to the database, and only the socket's owner can
//! use it.

use crate::folder::has_door;
use crate::place::{IN_MEMORY, OWNERS_MODE, Place, SocketFile};
use desk_server::Door;
use libc::{fchmod, net as c};
use std::io::ErrorKind;
use std::net::Net;
use std::os::fd::{AsFd, AsRawFd};
use std::os::unix::net::{SocketAddr, UnixListener};
use std::rt::Files;
use std::{fs, io};

/// The number of commands that can wait for the server.
const BACKLOG: i32 = 128;

/// The socket of a server's door. Dropping this value removes the socket's file, unless the name
/// now belongs to another server's door. A database in memory has no door.
pub struct FileDoor<'a> {
    rt: &'a HostRuntime,
    at: Option<(Place<'a>, SocketFile, UnixListener)>,
}

impl<'a> FileDoor<'a> {
    /// Makes the door of a database, and replaces a socket that a killed server left behind. Only
    /// the program that has the database open makes a door, so no server still listens on the
    /// replaced socket.
    ///
    /// # Errors
    ///
    /// Fails if the door's name belongs to another kind of file, or to a socket whose owner may not
    /// make the door. Fails if the folder isn't writable, or if memory runs out.
    pub fn make(rt: &'a HostRuntime, file: &str) -> io::Result<FileDoor<'a>> {
        if file == IN_MEMORY {
            return Ok(FileDoor { rt, at: None });
        }
        let place = Place::find(rt, file)?;
        let path = place.door()?;
        if has_door(&place)? {
            fs::remove_file(rt, path.as_str())?;
        }
        let listener = bind_private(rt, path.as_str())?;
        let made = SocketFile::at(rt, path.as_str())?;
        Ok(FileDoor {
            rt,
            at: Some((place, made, listener)),
        })
    }
}

// Binds a socket at a path. The mode of the socket's file is the mode of the socket's descriptor
// without the bits of the umask. The socket is therefore never open to other users.
fn bind_private(rt: &HostRuntime, path: &str) -> io::Result<UnixListener> {
    let address = SocketAddr::from_pathname(path)?;
    let socket = rt.unix_socket()?;
    if fchmod(socket.as_raw_fd(), OWNERS_MODE) < 0 {
        return Err(io::Error::from(ErrorKind::Other));
    }
    rt.bind_unix(socket.as_fd(), &address)?;
    if c::listen(socket.as_raw_fd(), BACKLOG) < 0 {
        return Err(io::Error::from(ErrorKind::Other));
    }
    let listener = UnixListener::from(socket);
    listener.set_nonblocking(true)?;
    Ok(listener)
}

impl Door for FileDoor<'_> {
    fn listener(&self) -> Option<&UnixListener> {
        let (_, _, listener) = self.at.as_ref()?;
        Some(listener)
    }
}

impl Drop for FileDoor<'_> {
    fn drop(self) {
        let FileDoor { rt, at } = self;
        if let Some((place, made, _listener)) = at {
            if let Ok(path) = place.door() {
                made.remove(rt, path.as_str());
            }
        }
    }
}
