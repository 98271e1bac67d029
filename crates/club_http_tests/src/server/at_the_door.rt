//! The office's commands at the server's door, which is a Unix socket. Some commands come while
//! clients wait. No contract states which bytes a socket sends or receives.

use super::by_the_door::Sockets;
use super::desk_at_noon;
use super::doubles::HandSet;
use crate::desk::Desk;
use crate::expect::{Runtime, expect_bytes, expect_eq, expect_row, join};
use crate::sockets::client_of;
use desk_server::{Arrival, Arrivals, Handover};
use std::fmt::Debug;
use std::io::{Read, Write};
use std::net::{Net, Shutdown};
use std::os::unix::net::UnixStream;
use std::time::{Clock, Duration};

/// After sending its bytes, a sender ends its side of the connection, stays silent, or closes the
/// connection.
#[derive(Clone, Copy, Debug, PartialEq, Eq)]
enum Then {
    Ends,
    Waits,
    Goes,
}

type Sent = (usize, Then);

const NOTHING: &[u8] = b"!\x09nothing was done\0";

/// A sender, the number of commands that the desk carries out, the number of their bytes, and the
/// answer.
type Visit = (Sent, u64, usize, &'static [u8]);

const COMPLETE: Visit = ((8, Then::Ends), 1, 8, b"!\x01\0");

const SILENT: Visit = ((8, Then::Waits), 0, 0, NOTHING);

static VISITS: [Visit; 8] = [
    COMPLETE,
    ((0, Then::Ends), 1, 0, b"!\x01\0"),
    // A command may have at most 8,191 bytes.
    ((8_191, Then::Ends), 1, 8_191, b"!\x01\0"),
    ((8_192, Then::Ends), 0, 0, NOTHING),
    ((70_000, Then::Ends), 0, 0, NOTHING),
    SILENT,
    ((0, Then::Goes), 0, 0, b""),
    ((8, Then::Goes), 0, 0, b""),
];

fn sender_at(rt: &(impl Runtime + Net), sockets: &Sockets, sent: Sent) -> Option<UnixStream> {
    let (bytes, then) = sent;
    let mut sender = sockets.sender(rt);
    let command = "x".repeat(rt.alloc(), bytes).expect(rt, "memory");
    sender.write_all(command.as_bytes()).expect(rt, "a command");
    match then {
        Then::Ends => sender.shutdown(Shutdown::Write).expect(rt, "an end"),
        Then::Waits => {}
        Then::Goes => return None,
    }
    Some(sender)
}

/// Returns whether the desk carries out the command, or `None` if no command arrives.
fn carries_out(arrivals: &mut impl Arrivals, desk: &mut Desk<'_>) -> Option<bool> {
    match arrivals.next() {
        Arrival::Command(mut command) => Some(command.carry_out(desk).is_some()),
        Arrival::Client(_) | Arrival::Nobody => None,
    }
}

fn visits(
    rt: &(impl Runtime + Net),
    sockets: &Sockets,
    clock: &impl Clock,
    sent: Sent,
    desk: &mut Desk<'_>,
) -> (Option<bool>, Vec<u8>) {
    let sender = sender_at(rt, sockets, sent);
    let whole = carries_out(&mut sockets.arrivals(clock), desk);
    let mut got = Vec::new(rt.alloc());
    if let Some(mut sender) = sender {
        // This read may end with an error, because the server may close the connection without
        // reading all bytes.
        let _ = sender.read_to_end(&mut got);
    }
    (whole, got)
}

fn expect_visit(
    rt: &(impl Runtime + Net),
    sockets: &Sockets,
    clock: &impl Clock,
    (sent, commanded, bytes, want): Visit,
    row: impl Debug + Copy,
) {
    let mut desk = desk_at_noon(rt);
    let (whole, got) = visits(rt, sockets, clock, sent, &mut desk);
    let returned = (whole, desk.commanded, desk.bytes);
    expect_row(rt, returned, (Some(commanded == 1), commanded, bytes), row);
    expect_bytes(rt, &got, want, "what the office got");
}

#[test]
fn senders_at_a_door(rt: HostRuntime) {
    let sockets = Sockets::new(&rt).expect(&rt, "sockets");
    for visit in &VISITS {
        expect_visit(&rt, &sockets, &rt, *visit, visit.0);
    }
    sockets.remove(&rt);
}

/// The milliseconds that each reading adds to the clock. A command has 200 milliseconds to arrive.
static LATE: [u64; 4] = [0, 150, 200, 1_000];

// Even if the server was suspended for too long, it carries out a command that has already arrived.
#[test]
fn a_command_that_is_there_is_in_time(rt: HostRuntime) {
    let sockets = Sockets::new(&rt).expect(&rt, "sockets");
    for step in &LATE {
        let clock = HandSet::new(0, step.saturating_mul(1_000));
        expect_visit(&rt, &sockets, &clock, COMPLETE, *step);
    }
    sockets.remove(&rt);
}

fn silent_wait(rt: &(impl Runtime + Net), sockets: &Sockets, clock: &impl Clock) -> Duration {
    let before = rt.monotonic().expect(rt, "a clock");
    expect_visit(rt, sockets, clock, SILENT, "a silent sender");
    rt.monotonic().expect(rt, "a clock").saturating_sub(before)
}

#[test]
fn a_command_has_a_fifth_of_a_second(rt: HostRuntime) {
    let sockets = Sockets::new(&rt).expect(&rt, "sockets");
    let waited = silent_wait(&rt, &sockets, &rt);
    expect_eq(&rt, waited >= Duration::from_millis(190), true);
    let waited = silent_wait(&rt, &sockets, &HandSet::new(0, 40_000));
    expect_eq(&rt, waited < Duration::from_millis(700), true);
    sockets.remove(&rt);
}

pub fn is_command(arrivals: &mut impl Arrivals) -> Option<bool> {
    match arrivals.next() {
        Arrival::Command(_) => Some(true),
        Arrival::Client(_) => Some(false),
        Arrival::Nobody => None,
    }
}

// The server pauses ten milliseconds, and then accepts a client.
#[test]
fn a_door_that_fails_is_no_client(rt: HostRuntime) {
    let sockets = Sockets::new(&rt).expect(&rt, "sockets");
    sockets.break_door();
    let _first = client_of(&rt, &sockets.listener, b"");
    let _second = client_of(&rt, &sockets.listener, b"");
    let clock = HandSet::new(0, 0);
    let mut arrivals = sockets.arrivals(&clock);
    for rested in &[10, 20] {
        let returned = (is_command(&mut arrivals), clock.elapsed());
        expect_eq(&rt, returned, (Some(false), *rested));
    }
    sockets.remove(&rt);
}

/// More bytes than the buffers of a socket can hold.
const LONG: usize = 2_000_000;

// The server cuts the sender off, so the sender gets an incomplete answer.
#[test]
fn a_sender_that_takes_no_answer(rt: HostRuntime) {
    let text = join(&rt, &[(LONG, "x")]);
    let sockets = Sockets::new(&rt).expect(&rt, "sockets");
    let mut desk = desk_at_noon(&rt);
    desk.text = text.as_str();
    let (whole, got) = visits(&rt, &sockets, &rt, COMPLETE.0, &mut desk);
    let cut_off = got.len() > 2 && got.len() < LONG;
    expect_eq(&rt, (whole, desk.commanded, cut_off), (Some(true), 1, true));
    sockets.remove(&rt);
}

static TURNS: [bool; 5] = [true, false, true, false, false];

#[test]
fn commands_and_clients_take_turns(rt: HostRuntime) {
    let sockets = Sockets::new(&rt).expect(&rt, "sockets");
    let _first = client_of(&rt, &sockets.listener, b"");
    let _second = client_of(&rt, &sockets.listener, b"");
    let _third = client_of(&rt, &sockets.listener, b"");
    let _office = sockets.sender(&rt);
    let _other = sockets.sender(&rt);
    let mut arrivals = sockets.arrivals(&rt);
    for turn in &TURNS {
        expect_eq(&rt, is_command(&mut arrivals), Some(*turn));
    }
    sockets.remove(&rt);
}
