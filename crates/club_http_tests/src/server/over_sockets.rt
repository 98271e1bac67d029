//! Servers and exchanges over sockets. No contract states which bytes a socket sends or receives.

use super::doubles::HandSet;
use super::{Face, REPLY, REQUEST, always, client_at, desk_at_noon, new_face, patience, serves};
use crate::expect::{Runtime, expect_bytes, expect_eq, join};
use crate::sockets::{client_of, expect_reply, loopback_listener};
use desk_server::{Connection, Listening, Unlogged};
use std::cell::Cell;
use std::io::{self, Read, Write};
use std::net::{TcpListener, TcpStream};
use std::time::{Clock, Duration};
use test_kit::exchanges::BAD_REQUEST;

/// Returns the number of requests that reach the desk.
fn serve<'x>(
    rt: &'x impl Runtime,
    listener: &'x TcpListener,
    count: u32,
    patience: Duration,
) -> u64 {
    let mut arrivals = Listening::new(listener, None, rt, patience);
    let mut desk = desk_at_noon(rt);
    expect_eq(rt, serves(rt, &mut arrivals, count, &mut desk), Ok(()));
    desk.asked
}

// The first client closes its connection before the server accepts it.
#[test]
fn serves_over_a_socket(rt: HostRuntime) {
    let listener = loopback_listener(&rt);
    drop(client_of(&rt, &listener, b""));
    let client = client_of(&rt, &listener, REQUEST);
    expect_eq(&rt, serve(&rt, &listener, 2, patience()), 1);
    expect_reply(&rt, client, REPLY);
}

#[test]
fn accepts_a_client(rt: HostRuntime) {
    let listener = loopback_listener(&rt);
    let _client = client_of(&rt, &listener, b"");
    drop(client_at(&rt, &listener, None, &rt, patience()));
}

/// Returns the face, which contains the bytes of the request.
fn exchanges<'x>(
    rt: &impl Runtime,
    listener: &'x TcpListener,
    clock: &'x impl Clock,
    asked: u64,
) -> Face {
    let mut face = new_face(rt);
    let mut desk = desk_at_noon(rt);
    let mut connection = client_at(rt, listener, None, clock, patience());
    let (at, log) = (desk.moment, &mut Unlogged);
    let outcome = connection.exchange(&mut face, &mut always(at), &mut desk, log, at);
    expect_eq(rt, (outcome.is_ok(), desk.asked), (true, asked));
    face
}

static EXCHANGES: [(&[u8], u64, &str); 2] = [(REQUEST, 1, REPLY), (b"x\r\n\r\n", 0, BAD_REQUEST)];

#[test]
fn exchanges_over_a_socket(rt: HostRuntime) {
    for (request, asked, reply) in &EXCHANGES {
        let listener = loopback_listener(&rt);
        let client = client_of(&rt, &listener, request);
        let face = exchanges(&rt, &listener, &rt, *asked);
        expect_reply(&rt, client, reply);
        expect_bytes(&rt, face.request(), request, reply);
    }
}

static BEHIND: [usize; 3] = [1, 1_000, 60_000];

// The client may lose its reply if the server closes the socket before the server has read all
// bytes.
#[test]
fn replies_before_bytes_behind_a_request(rt: HostRuntime) {
    for behind in &BEHIND {
        let listener = loopback_listener(&rt);
        let client = client_of(&rt, &listener, REQUEST);
        let mut peer = client.try_clone().expect(&rt, "a client");
        let bytes = join(&rt, &[(*behind, "x")]);
        peer.write_all(bytes.as_bytes()).expect(&rt, "more bytes");
        drop(exchanges(&rt, &listener, &rt, 1));
        expect_reply(&rt, client, REPLY);
        peer.write_all(b"x").expect(&rt, "a byte more");
    }
}

// The server reads the clock when each of its two time limits starts, and at each wait, read and
// write. Five readings show that the server doesn't wait for the client after the reply.
#[test]
fn closes_at_once_after_a_request(rt: HostRuntime) {
    let listener = loopback_listener(&rt);
    let _client = client_of(&rt, &listener, REQUEST);
    let clock = HandSet::new(0, 0);
    clock.readable.set(10);
    drop(exchanges(&rt, &listener, &clock, 1));
    expect_eq(&rt, clock.readable.get(), 5);
}

#[test]
fn cuts_a_silent_client_off(rt: HostRuntime) {
    let listener = loopback_listener(&rt);
    let _silent = client_of(&rt, &listener, b"");
    let _slow = client_of(&rt, &listener, b"GET /acc");
    let brief = Duration::from_millis(50);
    expect_eq(&rt, serve(&rt, &listener, 2, brief), 0);
}

#[test]
fn waits_as_long_as_its_patience(rt: HostRuntime) {
    let listener = loopback_listener(&rt);
    let _silent = client_of(&rt, &listener, b"");
    let patience = Duration::from_millis(1_200);
    let before = rt.monotonic().expect(&rt, "a clock");
    expect_eq(&rt, serve(&rt, &listener, 1, patience), 0);
    let waited = rt.monotonic().expect(&rt, "a clock").saturating_sub(before);
    expect_eq(&rt, waited >= patience, true);
}

/// A clock. Each reading of the clock also reads the bytes that the client has received.
#[derive(Drop)]
struct Watching<'c> {
    clock: &'c HostRuntime,
    client: &'c TcpStream,
    // The number of bytes that the client has received, and whether the client has reached their
    // end.
    came: Cell<usize>,
    ended: Cell<bool>,
}

impl Clock for Watching<'_> {
    fn monotonic(&self) -> io::Result<Duration> {
        let mut client = self.client;
        let mut room = [0; 256];
        match client.read(&mut room) {
            Ok(0) => self.ended.set(true),
            Ok(came) => self.came.set(self.came.get().saturating_add(came)),
            Err(_) => {}
        }
        self.clock.monotonic()
    }

    fn since_1970(&self) -> io::Result<Duration> {
        self.clock.since_1970()
    }
}

// The server ends its side of the connection, and continues to read.
#[test]
fn ends_one_side_and_reads_the_other(rt: HostRuntime) {
    let listener = loopback_listener(&rt);
    let mut client = client_of(&rt, &listener, REQUEST);
    client.write_all(b"x").expect(&rt, "a byte more");
    client.set_nonblocking(true).expect(&rt, "a client");
    let watching = Watching {
        clock: &rt,
        client: &client,
        came: Cell::new(0),
        ended: Cell::new(false),
    };
    let before = rt.monotonic().expect(&rt, "a clock");
    drop(exchanges(&rt, &listener, &watching, 1));
    let long = rt.monotonic().expect(&rt, "a clock").saturating_sub(before)
        >= Duration::from_millis(150);
    let seen = (watching.came.get(), watching.ended.get(), long);
    expect_eq(&rt, seen, (REPLY.len(), true, true));
}
