//! Servers and account listings that use the test's clock. A program in another language computed
//! the moments from the zone database.

use crate::memory::{Played, play_words, run_row};
use crate::runs::{Fixture, expect_eq};
use std::alloc::AllocError;
use std::test::Fail;
use std::time::Clock;
use test_kit::exchanges::{BOOK_7, BOOKED_7};

pub(crate) static OFFICE: [&str; 4] = [
    "add-member amy 5 => 0 done\n",
    "credit amy 10000 => 0 done\n",
    "add-facility court-1 court 4 200 8 22 => 0 done\n",
    "add-key amy-1 amy 00112233445566778899aabbccddeeff => \
        0 AgEJY2x1Yi1kZXNrAglrZXk6YW15LTEAAAYgDsU-vMVpq3Ex5_BQk6D5VX6TimC0IfCk7Dn6nv7TIJk\n",
];

pub(crate) static BOOKED: [&str; 1] = [
    "sheet 2026-05-01 => 0 Day sheet 2026-05-01\n\
    court-1                  18:00 amy-1                            7  3    600\n\
    Total bookings 1, persons 3, charge 600\n",
];

static NO_BOOKINGS: [&str; 1] = ["sheet 2026-05-01 => 0 Day sheet 2026-05-01\nNo bookings.\n"];

const NOT_BOOKABLE: &str =
    "HTTP/1.1 409 Conflict\r\nContent-Type: application/json\r\nContent-Length: 34\r\n\
    Connection: close\r\n\r\n{\"fault\":16,\"text\":\"not bookable\"}";

// Returns the expected end of the server's run, the reply, and the sheet after the run.
fn outcome_of(word: &str) -> (&'static str, &'static str, &'static [&'static str]) {
    match word {
        "served" => ("0 ", BOOKED_7, &BOOKED),
        "not bookable" => ("0 ", NOT_BOOKABLE, &NO_BOOKINGS),
        _ => ("6 clock out of range", "", &NO_BOOKINGS),
    }
}

// `$` stands for the method and the path of the booking.
fn log_of(rt: &HostRuntime, line: &str) -> Result<String, AllocError> {
    match line.split_once('$') {
        Some((moment, rest)) => format!(in rt.alloc();
            "{moment}PUT /slots/court-1/2026-05-01/18/bookings/7{rest}\n"
        ),
        None if line == "unlogged" => Ok(String::new(rt.alloc())),
        None => format!(in rt.alloc(); "{line}\n"),
    }
}

// Splits a row into the clock's second, the server's options, the outcome and the log.
fn parts_of_served(row: &str) -> Option<(&str, &str, &str, &str)> {
    let (second, rest) = row.split_once("; ")?;
    let (options, rest) = rest.split_once("; ")?;
    let (outcome, log) = rest.split_once("; ")?;
    Some((second, options, outcome, log))
}

fn expect_served(rt: &HostRuntime, played: &Played, reply: &str, line: &str) -> Result<(), Fail> {
    let log = log_of(rt, line)?;
    let output = &played.output;
    expect_eq(rt, str::from_utf8(output.reply.as_slice()), Ok(reply))?;
    expect_eq(rt, str::from_utf8(output.log.as_slice()), Ok(log.as_str()))?;
    played.expect_openings(6, 6)
}

// A log ends with the microseconds of the connection.
fn serves(rt: &HostRuntime, row: &str) -> Result<(), Fail> {
    let (second, options, outcome, log) = parts_of_served(row).ok_or("a row")?;
    let (_, later) = log.rsplit_once(' ').unwrap_or(("", "1533"));
    let (end, reply, sheet) = outcome_of(outcome);
    let mut scene = Fixture::between(&OFFICE, &[BOOK_7], sheet);
    scene.second = second.parse().ok();
    scene.later = later.parse().unwrap_or(0);
    let words = format!(in rt.alloc(); "serve --port 0 --count 1 {options}")?;
    let played = play_words(rt, &scene, words.as_str())?;
    expect_eq(rt, (row, played.output.returned.as_str()), (row, end))?;
    expect_served(rt, &played, reply, log)
}

static SERVED: [&str; 18] = [
    // A fixed moment needs no clock.
    "none; --at 2026-04-20T12:00; served; unlogged",
    "none; --at 2026-04-20T12:00 --log; served; 2026-04-20T12:00 $ 200 0",
    "1777658400; --log --at 2026-05-01T17:59 --zone CET-1CEST,M3.5.0,M10.5.0/3; served; \
        2026-05-01T17:59 $ 200 1533",
    "1777658399; --at 2026-05-01T18:00 --log; not bookable; 2026-05-01T18:00 $ 409 1533",
    // The server serves a complete request even after the end of its patience.
    "0; --at 2026-04-20T12:00 --log --patience 3; served; 2026-04-20T12:00 $ 200 4000000",
    "0; --at 2026-04-20T12:00 --log --patience 4; served; 2026-04-20T12:00 $ 200 4000000",
    "0; --patience 5 --at 2026-04-20T12:00 --log; served; 2026-04-20T12:00 $ 200 4000000",
    "0; --at 2026-04-20T12:00 --log --patience 3600; served; 2026-04-20T12:00 $ 200 3599000000",
    // Moments around 18:00 on 2026-05-01, in three zones.
    "1777658399; --log; served; 2026-05-01T17:59 $ 200 1533",
    "1777658400; --log; not bookable; 2026-05-01T18:00 $ 409 1533",
    "1777658399; --zone UTC0; served; unlogged",
    "1777651199; --zone CET-1CEST,M3.5.0,M10.5.0/3 --log; served; 2026-05-01T17:59 $ 200 1533",
    "1777651200; --zone CET-1CEST,M3.5.0,M10.5.0/3 --log; not bookable; \
        2026-05-01T18:00 $ 409 1533",
    "1777672799; --zone EST5EDT,M3.2.0,M11.1.0 --log; served; 2026-05-01T17:59 $ 200 1533",
    // Moments outside the years 2000 to 2099, and no clock.
    "946684799; --log; out of range; - - - - 1533",
    "4102444800; --zone UTC0; out of range; unlogged",
    "4102441200; --log --zone CET-1CEST,M3.5.0,M10.5.0/3; out of range; - - - - 1533",
    "none; --log; out of range; - - - - 0",
];

#[test]
fn serves_by_a_clock(rt: HostRuntime) -> Result<(), Fail> {
    for row in &SERVED {
        serves(&rt, row)?;
    }
    Ok(())
}

/// The client sends only this line of the booking's request.
const BEGINNING: &str = "PUT /slots/court-1/2026-05-01/18/bookings/7 HTTP/1.1\r\n";

/// The patience in seconds, and the microseconds that pass before the server waits.
static A_SECOND_LEFT: [(u32, u64); 3] = [(1, 0), (2, 1_000_000), (3_600, 3_599_000_000)];

// When the patience for a client ends, the server serves the next client.
fn waits(rt: &HostRuntime, patience: u32, later: u64) -> Result<(), Fail> {
    let words = format!(in rt.alloc();
        "serve --port 0 --count 2 --at 2026-04-20T12:00 --patience {patience}"
    )?;
    let mut scene = Fixture::between(&OFFICE, &[BEGINNING, BOOK_7], &BOOKED);
    scene.later = later;
    let before = rt.monotonic()?;
    let output = play_words(rt, &scene, words.as_str())?.output;
    let waited = rt.monotonic()?.saturating_sub(before).as_secs();
    if output.reply.as_slice() == BOOKED_7.as_bytes() && waited >= 1 && waited < 30 {
        return Ok(());
    }
    Err(format!(in rt.alloc(); "patience {patience}: waited {waited} seconds")?.into())
}

// The test waits in real time, and its time limit stops a server that waits too long.
#[test]
fn waits_as_long_as_its_patience(rt: HostRuntime) -> Result<(), Fail> {
    for row in &A_SECOND_LEFT {
        waits(&rt, row.0, row.1)?;
    }
    Ok(())
}

/// The clock's second, and a row. A fixed moment needs no clock.
static SHOWN: [&str; 5] = [
    "1777658399; show-account amy-1 => 0 member amy\nbalance 10000\nquota 5\nopen 0\nspent 0\n\
        revoked no\nolder root none\n",
    "946684799; show-account amy-1 => 6 clock out of range",
    "4102441200; show-account amy-1 --zone CET-1CEST,M3.5.0,M10.5.0/3 => 6 clock out of range",
    "none; show-account zed-1 => 6 clock out of range",
    "none; show-account amy-2 --at 2026-04-20T12:00 => 1 refused: unknown",
];

#[test]
fn shows_accounts_by_a_clock(rt: HostRuntime) -> Result<(), Fail> {
    for row in &SHOWN {
        let (second, row) = row.split_once("; ").ok_or("a second")?;
        let mut scene = Fixture::after(&OFFICE);
        scene.second = second.parse().ok();
        run_row(&rt, &scene, row, 5)?;
    }
    Ok(())
}

/// Each number is the first of ten ports. At least one of the ten is free.
static FIRST_OF_TEN: [u16; 6] = [1_025, 30_000, 60_001, 60_990, 61_001, 65_526];

// Returns false if the port is in use.
fn serves_at(rt: &HostRuntime, port: u16) -> Result<bool, Fail> {
    let scene = Fixture::between(&OFFICE, &[BOOK_7], &[]);
    let words = format!(in rt.alloc(); "serve --port {port} --count 1 --at 2026-04-20T12:00")?;
    let output = play_words(rt, &scene, words.as_str())?.output;
    if output.returned.as_str() == "7 input or output failed" {
        return Ok(false);
    }
    expect_eq(rt, str::from_utf8(output.reply.as_slice()), Ok(BOOKED_7))?;
    Ok(true)
}

fn serves_in(rt: &HostRuntime, first: u16) -> Result<(), Fail> {
    for port in first..=first.saturating_add(9) {
        if serves_at(rt, port)? {
            return Ok(());
        }
    }
    Err("no port is free".into())
}

#[test]
fn serves_at_any_port(rt: HostRuntime) -> Result<(), Fail> {
    for first in &FIRST_OF_TEN {
        serves_in(&rt, *first)?;
    }
    Ok(())
}
