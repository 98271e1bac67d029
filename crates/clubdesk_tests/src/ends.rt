//! Failing writers, and a port in use.

use crate::memory::{play_words, run_row};
use crate::runs::{ClubFile, Fixture, expect_eq};
use std::net::TcpListener;
use std::test::Fail;

const FULL: &str = "7 input or output failed";

// Fails unless the run writes exactly `room` bytes, reports a failed write and logs nothing.
fn expect_full(club: &ClubFile<'_>, words: &str, room: usize) -> Result<(), Fail> {
    let mut scene = Fixture::after(&[]);
    scene.room = room;
    let output = club.run(scene, words)?;
    expect_eq(club.rt, output.returned.as_str(), FULL)?;
    expect_eq(club.rt, (output.taken, output.log.len()), (room, 0))
}

// The key stays in the club, although its pass wasn't printed.
#[test]
fn a_failing_writer(rt: HostRuntime) -> Result<(), Fail> {
    let club = ClubFile::new(&rt, "full")?;
    expect_full(&club, "add-member amy 5", 0)?;
    let adds_a_key = "add-key amy-1 amy 00112233445566778899aabbccddeeff";
    expect_full(&club, adds_a_key, 40)?;
    club.play(&["add-key amy-1 amy 00112233445566778899aabbccddeeff => 1 refused: exists"])?;
    expect_full(&club, "serve --port 0 --count 1 --log", 5)
}

// Returns the number of bytes that a run writes before its flush fails.
fn unflushed(rt: &HostRuntime, words: &str, after: &[&str]) -> Result<usize, Fail> {
    let mut scene = Fixture::between(&[], &[], after);
    scene.flushes = false;
    let output = play_words(rt, &scene, words)?.output;
    expect_eq(rt, (output.returned.as_str(), output.log.len()), (FULL, 0))?;
    Ok(output.taken)
}

static UNFLUSHED: [(&str, &[&str], usize); 3] = [
    ("--version", &[], 15),
    (
        "add-member bob 5",
        &["add-member bob 5 => 1 refused: exists"],
        5,
    ),
    ("sheet 2026-05-01", &[], 34),
];

#[test]
fn a_writer_that_fails_to_flush(rt: HostRuntime) -> Result<(), Fail> {
    for row in &UNFLUSHED {
        expect_eq(&rt, unflushed(&rt, row.0, row.1)?, row.2)?;
    }
    let taken = unflushed(&rt, "serve --port 0 --count 1 --log", &[])?;
    expect_eq(&rt, taken > 0, true)
}

#[test]
fn a_port_in_use(rt: HostRuntime) -> Result<(), Fail> {
    let listener = TcpListener::bind(&rt, "127.0.0.1:0")?;
    let port = listener.local_addr()?.port();
    let row = format!(in rt.alloc(); "serve --port {port} --count 1 => {FULL}")?;
    run_row(&rt, &Fixture::after(&[]), row.as_str(), 1)
}
