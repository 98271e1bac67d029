//! Tests of time limits, with a clock that advances while the server waits for a client.

use super::at_the_door::is_command;
use super::doubles::{HandSet, Slow};
use super::{REQUEST, desk_at_noon, new_face, patience};
use crate::expect::{Runtime, expect_eq, expect_row};
use crate::sockets::loopback_listener;
use club_http::{AnswerFault, answer};
use desk_server::{Accepted, Listening};
use libc::net as c;
use std::os::fd::AsRawFd;
use std::time::Duration;

const NEVER: u64 = 1_000_000_000;

const ALWAYS: u64 = u64::MAX;

/// The fault, the numbers of reads and of writes, and the milliseconds that passed.
type Outcome = (Option<AnswerFault>, u64, u64, u64);

const CUT: Option<AnswerFault> = Some(AnswerFault::Read);

const UNWRITTEN: Option<AnswerFault> = Some(AnswerFault::Write(0));

/// The milliseconds before each byte that a client sends, the milliseconds before each byte that
/// the client receives, and the number of readings after which the clock fails.
///
/// The request has 53 bytes and its reply 140. The patience (timeout) is ten seconds for each.
/// After ten seconds, the server tries one more read or write without a wait.
static OUTCOMES: [((u64, u64, u64), Outcome); 10] = [
    ((0, 0, ALWAYS), (None, 53, 140, 0)),
    ((100, 50, ALWAYS), (None, 53, 140, 12_300)),
    ((1_000, 0, ALWAYS), (CUT, 11, 0, 10_000)),
    ((NEVER, 0, ALWAYS), (CUT, 1, 0, 10_000)),
    (
        (0, 1_000, ALWAYS),
        (Some(AnswerFault::Write(10)), 53, 11, 10_000),
    ),
    ((0, NEVER, ALWAYS), (UNWRITTEN, 53, 1, 10_000)),
    ((1, 0, 0), (CUT, 1, 0, 0)),
    ((0, 1, 0), (UNWRITTEN, 53, 1, 0)),
    ((0, 0, 0), (None, 53, 140, 0)),
    ((0, 0, 55), (None, 53, 140, 0)),
];

fn slow<'a>(clock: &'a HandSet, pause: u64, bytes: &'a [u8]) -> Slow<'a> {
    Slow {
        clock,
        pause,
        bytes,
        interruptions: 0,
        calls: 0,
    }
}

fn outcome_of(rt: &impl Runtime, sends: Slow<'_>, takes: Slow<'_>, patience: Duration) -> Outcome {
    let clock = sends.clock;
    let mut inlet = Accepted::new(sends, clock, patience);
    let mut outlet = Accepted::new(takes, clock, patience);
    let mut desk = desk_at_noon(rt);
    let at = desk.moment;
    let outcome = answer(&mut new_face(rt), &mut desk, at, &mut inlet, &mut outlet);
    let reads = inlet.into_stream().calls;
    let writes = outlet.into_stream().calls;
    (outcome.err(), reads, writes, clock.elapsed())
}

#[test]
fn a_client_that_dawdles_is_cut_off(rt: HostRuntime) {
    for (client, outcome) in &OUTCOMES {
        let (sends, takes, readable) = *client;
        let clock = HandSet::new(0, 0);
        clock.readable.set(readable);
        let sends = slow(&clock, sends, REQUEST);
        let takes = slow(&clock, takes, b"");
        let returned = outcome_of(&rt, sends, takes, patience());
        expect_row(&rt, returned, *outcome, *client);
    }
}

/// The number of waits that a signal interrupts. Each signal comes halfway through a pause of one
/// second. The patience (timeout) is a minute, the time of 53 whole pauses and 14 half pauses.
static INTERRUPTED: [(u32, Outcome); 3] = [
    (1, (None, 54, 140, 53_500)),
    (14, (None, 67, 140, 60_000)),
    (15, (CUT, 68, 0, 60_000)),
];

#[test]
fn goes_on_after_a_signal(rt: HostRuntime) {
    for (signals, outcome) in &INTERRUPTED {
        let clock = HandSet::new(0, 0);
        let mut sends = slow(&clock, 1_000, REQUEST);
        sends.interruptions = *signals;
        let takes = slow(&clock, 0, b"");
        let returned = outcome_of(&rt, sends, takes, Duration::from_secs(60));
        expect_row(&rt, returned, *outcome, *signals);
    }
}

/// The milliseconds before each byte, the number of reads, and the milliseconds that passed. The
/// patience (timeout) is ten seconds, and each wait lasts at most 200 milliseconds.
static RESTS: [(u64, u64, u64); 5] = [
    (0, 54, 0),
    (100, 54, 5_300),
    (200, 51, 10_000),
    (201, 1, 200),
    (NEVER, 1, 200),
];

#[test]
fn what_still_comes_is_taken(rt: HostRuntime) {
    for (pause, reads, passed) in &RESTS {
        let clock = HandSet::new(0, 0);
        let mut client = Accepted::new(slow(&clock, *pause, REQUEST), &clock, patience());
        client.take_rest();
        let returned = (client.into_stream().calls, clock.elapsed());
        expect_row(&rt, returned, (*reads, *passed), *pause);
    }
}

// After a shutdown of the listener, each wait fails at once. The server pauses after each failure.
#[test]
fn rests_after_a_wait_that_failed(rt: HostRuntime) {
    let listener = loopback_listener(&rt);
    let _ = c::shutdown(listener.as_raw_fd(), c::SHUT_RDWR);
    let clock = HandSet::new(0, 0);
    let mut arrivals = Listening::new(&listener, None, &clock, patience());
    for _ in 0..3 {
        expect_eq(&rt, is_command(&mut arrivals), None);
    }
    expect_eq(&rt, clock.elapsed(), 30);
}
