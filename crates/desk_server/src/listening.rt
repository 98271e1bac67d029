//! The listeners of a server. Clients come over TCP, and commands of the office come through the
//! server's door.

use crate::connections::{Arrival, Arrivals};
use crate::door::Handed;
use crate::limit::MonotonicClock;
use crate::polled::{Next, next_of};
use crate::stream::ClientSocket;
use crate::timed::Accepted;
use std::cell::Cell;
use std::io;
use std::io::ErrorKind;
use std::net::TcpListener;
use std::os::fd::{AsRawFd, RawFd};
use std::os::unix::net::UnixListener;
use std::time::Duration;

/// The time that the server sleeps after a failure to wait or to accept a connection, in
/// milliseconds. A failure to wait, or to accept a client, counts as a client. Without the sleep,
/// repeated failures would soon reach the number of clients to serve.
const REST_MILLISECONDS: u64 = 10;

/// The number that replaces a missing descriptor. `poll` ignores the descriptor -1.
const NO_DESCRIPTOR: RawFd = -1;

/// The timeout that makes `poll` wait without a limit.
const NO_END: i32 = -1;

/// A client of a listener, or a command that came through a door.
type Arrived<'a, C> = Arrival<Accepted<'a, ClientSocket<'a, C>, C>, Handed<'a, C>>;

/// A source of clients from a listener, and of commands from a door if there is one. All clients
/// have the same time limit, `patience`. If a client and a command are both waiting, the client and
/// the office take turns.
#[derive(Drop)]
pub struct Listening<'a, C> {
    clients: &'a TcpListener,
    door: Option<&'a UnixListener>,
    clock: &'a C,
    patience: Duration,
    // True if a command goes before a client when both are waiting.
    command_first: Cell<bool>,
    waited: u64,
    failures: u64,
}

impl<'a, C: MonotonicClock> Listening<'a, C> {
    ghost use Rattle.std.specs.Prelude.{◌≡◌};

    /// Returns a new source, on which `next` hasn't been called. `clock` measures the time limits.
    pub fn new(
        clients: &'a TcpListener,
        door: Option<&'a UnixListener>,
        clock: &'a C,
        patience: Duration,
    ) -> Listening<'a, C>
        ensures waited { result.waited ≡ 0 }
        ensures failures { result.failures ≡ 0 }
    {
        Listening {
            clients,
            door,
            clock,
            patience,
            command_first: Cell::new(true),
            waited: 0,
            failures: 0,
        }
    }

    // Waits until a command or a client has arrived. If a connection is gone before the server
    // accepts it, the server ignores that connection. If the server can't accept a connection of
    // the office, the server pauses and tries again. If a client is waiting after the pause, the
    // server accepts the client before it tries again. A failure to accept a connection of the
    // office doesn't count as a client.
    fn wait(&self) -> Arrived<'a, C> {
        let door = match self.door {
            Some(door) => door.as_raw_fd(),
            None => NO_DESCRIPTOR,
        };
        let clients = self.clients.as_raw_fd();
        for _ in 0..u64::MAX {
            let command = match next_of(door, clients, NO_END, self.command_first.get()) {
                Next::Command => true,
                Next::Client => false,
                Next::Nothing => continue,
                Next::Failed => return Arrival::Nobody,
            };
            self.command_first.set(!command);
            match self.take(command) {
                Ok(arrival) => return arrival,
                Err(error) if error.kind() == ErrorKind::WouldBlock => {}
                Err(_) if command => self.clock.rest(Duration::from_millis(REST_MILLISECONDS)),
                Err(_) => return Arrival::Nobody,
            }
        }
        Arrival::Nobody
    }

    // Accepts a command if `command` is true, else a client.
    fn take(&self, command: bool) -> io::Result<Arrived<'a, C>> {
        match self.door {
            Some(door) if command => {
                let handed = Handed::accept(door, self.clock)?;
                Ok(Arrival::Command(handed))
            }
            _ => {
                let (stream, _) = self.clients.accept()?;
                let socket = ClientSocket::new(stream, self.door, self.clock);
                let accepted = Accepted::new(socket, self.clock, self.patience);
                Ok(Arrival::Client(accepted))
            }
        }
    }
}

impl<'a, C: MonotonicClock> Arrivals for Listening<'a, C> {
    type Client = Accepted<'a, ClientSocket<'a, C>, C>;

    type Command = Handed<'a, C>;

    ghost waited = { λ listening. listening.waited };

    ghost failures = { λ listening. listening.failures };

    fn next(&mut self) -> Arrived<'a, C> {
        self.waited = self.waited.saturating_add(1);
        match self.wait() {
            Arrival::Nobody => {
                self.failures = self.failures.saturating_add(1);
                self.clock.rest(Duration::from_millis(REST_MILLISECONDS));
                Arrival::Nobody
            }
            arrival => arrival,
        }
    }
}
