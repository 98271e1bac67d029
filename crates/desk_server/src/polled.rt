//! Calls of `poll`, which waits for events on file descriptors.

use libc::net as c;
use libc::types::pollfd;
use std::os::fd::RawFd;

/// The result of a wait for a command or a client.
pub(crate) enum Next {
    /// A command is ready and comes next.
    Command,
    /// A client is ready and comes next.
    Client,
    /// Neither a command nor a client came in time.
    Nothing,
    /// Waiting failed.
    Failed,
}

/// Waits for a command at a door or for a client, and returns which of the two comes next. If both
/// are ready, the command comes next if `command_first` is true, and otherwise the client. Waits at
/// most `milliseconds`. If `milliseconds` is -1, the wait has no limit.
pub(crate) fn next_of(door: RawFd, client: RawFd, milliseconds: i32, command_first: bool) -> Next {
    let mut asked = [waits_for(door, c::POLLIN), waits_for(client, c::POLLIN)];
    let ready = c::poll(&mut asked, milliseconds);
    if ready < 0 {
        return Next::Failed;
    }
    let command = asked[0].revents != 0;
    let client = asked[1].revents != 0;
    if command && (command_first || !client) {
        Next::Command
    } else if client {
        Next::Client
    } else {
        Next::Nothing
    }
}

/// Returns true if a read of a descriptor wouldn't block. A read doesn't block if bytes, the end of
/// the input or a fault has arrived.
pub(crate) fn is_readable(fd: RawFd) -> bool {
    c::poll(&mut [waits_for(fd, c::POLLIN)], 0) > 0
}

/// Returns true if a write to a descriptor wouldn't block. A write doesn't block if there is room
/// for bytes, or if there is a fault.
pub(crate) fn is_writable(fd: RawFd) -> bool {
    c::poll(&mut [waits_for(fd, c::POLLOUT)], 0) > 0
}

// Returns the entry that makes `poll` wait for the given events of a descriptor.
fn waits_for(fd: RawFd, events: i16) -> pollfd {
    pollfd {
        fd,
        events,
        revents: 0,
    }
}
