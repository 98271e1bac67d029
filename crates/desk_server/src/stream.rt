//! A client's stream that can wait for the client and for commands of the office at the same time.

use crate::between::Handover;
use crate::door::Handed;
use crate::limit::MonotonicClock;
use crate::polled::{Next, is_readable, is_writable, next_of};
use crate::timed::{LEAST_MICROSECONDS, TimedStream, Waited, outcome_of};
use std::io::{ErrorKind, Read, Write};
use std::net::{Shutdown, TcpStream};
use std::os::fd::AsRawFd;
use std::os::unix::net::UnixListener;
use std::time::Duration;

/// The result of a wait for a client or a command.
#[derive(Drop)]
pub enum Woken<O> {
    /// A command came.
    Command(O),
    /// The wait returned no command, for one of these reasons:
    ///
    /// - The client sent bytes or ended its input.
    /// - The time limit expired.
    /// - Waiting failed.
    /// - There is no door where commands arrive.
    Client,
    /// The server couldn't accept a connection of the office, or the connection was already gone.
    Nobody,
}

/// A client's stream that can also wait for commands at the office's door. No contract states which
/// commands arrive.
pub trait ClientStream: TimedStream {
    ghost use Rattle.std.specs.Io.KnownBytes.{Keeps};

    type Command: Handover + Drop;

    /// Waits until the client or the office is ready, at most for the time `limit`. If both are
    /// ready, the office comes next if `command_first` is true, and otherwise the client.
    fn wait_within(&mut self, limit: Duration, command_first: bool) -> Woken<Self::Command>
        ensures reads_nothing { Keeps (Self.to_come self.old) (Self.to_come self.new) }
        ensures writes_nothing { Keeps (Self.taken self.old) (Self.taken self.new) };

    /// Tells the client that the server will send no more bytes. Returns true on success.
    fn end_writing(&mut self) -> bool
        ensures reads_nothing { Keeps (Self.to_come self.old) (Self.to_come self.new) }
        ensures writes_nothing { Keeps (Self.taken self.old) (Self.taken self.new) };
}

/// The time that the server sleeps after it couldn't accept a connection of the office, in
/// milliseconds.
const REST_MILLISECONDS: u64 = 10;

/// A client's socket, and the office's door if there is one.
#[derive(Drop)]
pub struct ClientSocket<'a, C> {
    stream: TcpStream,
    door: Option<&'a UnixListener>,
    clock: &'a C,
    // True if the last wait found that the next read doesn't block.
    readable: bool,
}

impl<'a, C: MonotonicClock> ClientSocket<'a, C> {
    // Returns the socket of a client that the server has just accepted.
    pub(crate) fn new(
        stream: TcpStream,
        door: Option<&'a UnixListener>,
        clock: &'a C,
    ) -> ClientSocket<'a, C> {
        ClientSocket {
            stream,
            door,
            clock,
            readable: false,
        }
    }
}

/// No contract states which bytes a client's socket returns or takes.
impl<C: MonotonicClock> TimedStream for ClientSocket<'_, C> {
    ghost use Rattle.std.specs.Prelude.{None};

    ghost to_come = { λ _. None };

    ghost taken = { λ _. None };

    ghost reads = { λ _ _ _ _. Unit {0} };

    ghost writes = { λ _ _ _ _. Unit {0} };

    fn read_within(&mut self, limit: Duration, room: &mut [u8]) -> Waited {
        let readable = self.readable;
        self.readable = false;
        let mut stream = &self.stream;
        let may_read = if readable {
            true
        } else if limit.is_zero() {
            is_readable(stream.as_raw_fd())
        } else {
            stream.set_read_timeout(Some(limit)).is_ok()
        };
        if may_read {
            outcome_of(stream.read(room))
        } else {
            Waited::Failed
        }
    }

    fn write_within(&mut self, limit: Duration, bytes: &[u8]) -> Waited {
        let mut stream = &self.stream;
        let least = Duration::from_micros(LEAST_MICROSECONDS);
        let may_write = !limit.is_zero() || is_writable(stream.as_raw_fd());
        if may_write && stream.set_write_timeout(Some(limit.max(least))).is_ok() {
            outcome_of(stream.write(bytes))
        } else {
            Waited::Failed
        }
    }
}

impl<'a, C: MonotonicClock> ClientStream for ClientSocket<'a, C> {
    type Command = Handed<'a, C>;

    fn wait_within(&mut self, limit: Duration, command_first: bool) -> Woken<Handed<'a, C>> {
        let Some(door) = self.door else {
            return Woken::Client;
        };
        let client = self.stream.as_raw_fd();
        let most = milliseconds_of(limit);
        match next_of(door.as_raw_fd(), client, most, command_first) {
            Next::Command => match Handed::accept(door, self.clock) {
                Ok(handed) => Woken::Command(handed),
                Err(error) if error.kind() == ErrorKind::WouldBlock => Woken::Nobody,
                Err(_) => {
                    self.clock
                        .rest(Duration::from_millis(REST_MILLISECONDS).min(limit));
                    Woken::Nobody
                }
            },
            Next::Client => {
                self.readable = true;
                Woken::Client
            }
            Next::Nothing | Next::Failed => Woken::Client,
        }
    }

    fn end_writing(&mut self) -> bool {
        self.stream.shutdown(Shutdown::Write).is_ok()
    }
}

// Returns a timeout for `poll`: the whole milliseconds of a duration plus 1, at most `i32::MAX`.
// Without the extra millisecond, `poll` could return before the duration is over.
fn milliseconds_of(limit: Duration) -> i32 {
    i32::try_from(limit.as_millis())
        .unwrap_or(i32::MAX)
        .saturating_add(1)
}
