//! Commands that come through the office's door (a Unix socket) while the server waits for a
//! client's request.

use super::{REPLY, REQUEST, client_at, desk_at_noon, exchange, patience};
use crate::desk::{Desk, Sender};
use crate::expect::{Runtime, expect_bytes, expect_eq};
use crate::sockets::{client_of, expect_reply};
use club_http::AnswerFault;
use desk_server::Listening;
use libc::net as c;
use std::cell::Cell;
use std::env;
use std::fs::{self, Files};
use std::io::{self, Write};
use std::net::{Net, Shutdown, TcpListener, TcpStream};
use std::os::fd::AsRawFd;
use std::os::unix::net::{UnixListener, UnixStream};
use std::time::{Clock, Duration};

/// The listener for clients, and the office's door at `path`.
#[derive(Drop)]
pub struct Sockets {
    path: String,
    pub door: UnixListener,
    pub listener: TcpListener,
}

fn new_path(rt: &HostRuntime, port: u16) -> io::Result<String> {
    let folder = env::temp_dir(rt)?;
    let folder = folder.as_str();
    Ok(format!(in rt.alloc(); "{folder}/door-{port}")?)
}

impl Sockets {
    /// The door's path has the listener's port, so that no two doors have the same path.
    pub fn new(rt: &HostRuntime) -> io::Result<Sockets> {
        let listener = TcpListener::bind(rt, "127.0.0.1:0")?;
        let path = new_path(rt, listener.local_addr()?.port())?;
        let door = UnixListener::bind(rt, path.as_str())?;
        door.set_nonblocking(true)?;
        Ok(Sockets {
            path,
            door,
            listener,
        })
    }

    pub fn sender(&self, rt: &(impl Runtime + Net)) -> UnixStream {
        UnixStream::connect(rt, self.path.as_str()).expect(rt, "a sender")
    }

    /// Sends a command to the door. A read of the answer times out after a second.
    pub fn office(&self, rt: &(impl Runtime + Net), command: &[u8]) -> UnixStream {
        let mut office = self.sender(rt);
        office.write_all(command).expect(rt, "a command");
        office.shutdown(Shutdown::Write).expect(rt, "an end");
        let second = Some(Duration::from_secs(1));
        office.set_read_timeout(second).expect(rt, "a timeout");
        office
    }

    pub fn arrivals<'a, C: Clock>(&'a self, clock: &'a C) -> Listening<'a, C> {
        Listening::new(&self.listener, Some(&self.door), clock, patience())
    }

    /// After this call, the door is readable, but each accept at the door fails.
    pub fn break_door(&self) {
        let _ = self.door.set_nonblocking(false);
        let _ = c::shutdown(self.door.as_raw_fd(), c::SHUT_RDWR);
    }

    pub fn remove(self, rt: &(impl Runtime + Files)) {
        fs::remove_file(rt, self.path.as_str()).expect(rt, "a door");
    }
}

fn tied_desk<'x>(rt: &impl Runtime, sender: Sender<'x>, office: &'x UnixStream) -> Desk<'x> {
    let mut desk = desk_at_noon(rt);
    desk.status = 7;
    desk.sender = Some(sender);
    desk.office = Some(office);
    desk
}

/// On a command, the client sends `rest`. On a request, the desk reads the office's whole answer.
/// Returns the fault, the number of the commands' bytes, and the number of requests.
fn ends_beside_a_command<'x>(
    rt: &'x (impl Runtime + Net),
    sockets: &'x Sockets,
    patience: Duration,
    client: &TcpStream,
    rest: &[u8],
) -> (Option<AnswerFault>, usize, u64) {
    let (listener, door) = (&sockets.listener, Some(&sockets.door));
    let mut connection = client_at(rt, listener, door, rt, patience);
    let office = sockets.office(rt, b"an order");
    let (left, step) = (rest, rest.len());
    let mut desk = tied_desk(rt, Sender { client, left, step }, &office);
    let outcome = exchange(rt, &mut connection, &mut desk);
    if desk.asked > 0 {
        expect_bytes(rt, &desk.got, b"!\x07\0", "what the office got");
    }
    (outcome.err(), desk.bytes, desk.asked)
}

// The office gets its answer before the client sends the rest.
#[test]
fn a_command_between_two_pieces(rt: HostRuntime) {
    let sockets = Sockets::new(&rt).expect(&rt, "sockets");
    let client = client_of(&rt, &sockets.listener, b"G");
    let returned = ends_beside_a_command(&rt, &sockets, patience(), &client, &REQUEST[1..]);
    sockets.remove(&rt);
    expect_eq(&rt, returned, (None, 8, 1));
    expect_reply(&rt, client, REPLY);
}

#[test]
fn a_command_beside_a_silent_client(rt: HostRuntime) {
    let sockets = Sockets::new(&rt).expect(&rt, "sockets");
    let client = client_of(&rt, &sockets.listener, b"");
    let brief = Duration::from_millis(50);
    let returned = ends_beside_a_command(&rt, &sockets, brief, &client, b"");
    sockets.remove(&rt);
    expect_eq(&rt, returned, (Some(AnswerFault::Read), 8, 0));
}

/// A clock that makes a client send the rest of its request when the server has slept for 30
/// milliseconds.
#[derive(Drop)]
struct Sending<'s> {
    client: &'s TcpStream,
    rest: Cell<&'s [u8]>,
    slept: Cell<Duration>,
}

impl Clock for Sending<'_> {
    fn monotonic(&self) -> io::Result<Duration> {
        Ok(self.slept.get())
    }

    fn since_1970(&self) -> io::Result<Duration> {
        self.monotonic()
    }

    fn sleep(&self, duration: Duration) {
        self.slept.set(self.slept.get().saturating_add(duration));
        if self.slept.get() >= Duration::from_millis(30) {
            let mut client = self.client;
            let _ = client.write_all(self.rest.replace(b""));
        }
    }
}

fn exchanges_at_a_broken_door(rt: &impl Runtime, sockets: &Sockets, clock: &impl Clock) {
    let (listener, door) = (&sockets.listener, Some(&sockets.door));
    let mut connection = client_at(rt, listener, door, clock, patience());
    sockets.break_door();
    let mut desk = desk_at_noon(rt);
    let outcome = exchange(rt, &mut connection, &mut desk);
    expect_eq(rt, (outcome.is_ok(), desk.asked), (true, 1));
}

// Each accept at the door fails. After each sleep, the server looks at the client and at the door
// again.
#[test]
fn a_door_that_fails_beside_a_client(rt: HostRuntime) {
    let sockets = Sockets::new(&rt).expect(&rt, "sockets");
    let client = client_of(&rt, &sockets.listener, b"G");
    let clock = Sending {
        client: &client,
        rest: Cell::new(&REQUEST[1..]),
        slept: Cell::new(Duration::ZERO),
    };
    exchanges_at_a_broken_door(&rt, &sockets, &clock);
    let slept = clock.slept.get();
    sockets.remove(&rt);
    expect_eq(&rt, slept, Duration::from_millis(30));
    expect_reply(&rt, client, REPLY);
}
