//! Runs of the program over files, one after the other. Some of the runs are servers.

use crate::runs::{ClubFile, Fixture, expect_eq};
use crate::servers::{BOOKED, OFFICE};
use std::os::unix::fs::MetadataExt;
use std::test::Fail;
use std::{env, fs};
use test_kit::exchanges::{BOOK_7, BOOKED_7, UNAVAILABLE};

pub(crate) static AMY: [&str; 1] = ["add-member amy 5 => 0 done\n"];

pub fn new_club<'a>(rt: &'a HostRuntime, name: &str, rows: &[&str]) -> Result<ClubFile<'a>, Fail> {
    let club = ClubFile::new(rt, name)?;
    club.play(rows)?;
    Ok(club)
}

fn expect_bytes(club: &ClubFile<'_>, want: &[u8]) -> Result<(), Fail> {
    let bytes = fs::read(club.rt, club.path())?;
    expect_eq(club.rt, bytes.as_slice(), want)
}

fn expect_reply(club: &ClubFile<'_>, scene: Fixture<'_>, want: &str) -> Result<(), Fail> {
    let output = club.run(scene, "serve --port 0 --count 1 --at 2026-04-20T12:00")?;
    expect_eq(club.rt, str::from_utf8(output.reply.as_slice()), Ok(want))
}

// Later runs and a second server find the booking in the file.
#[test]
fn a_day_in_a_file(rt: HostRuntime) -> Result<(), Fail> {
    let club = new_club(&rt, "day", &OFFICE)?;
    expect_reply(&club, Fixture::between(&[], &[BOOK_7], &[]), BOOKED_7)?;
    expect_reply(&club, Fixture::between(&[], &[BOOK_7], &[]), BOOKED_7)?;
    club.play(&BOOKED)?;
    club.play(&["close-slot court-1 2026-05-01 18 => 1 refused: slot in use"])
}

// The server drops its database without closing it, so only the log has the booking.
#[test]
fn a_booking_in_the_log_alone(rt: HostRuntime) -> Result<(), Fail> {
    let club = new_club(&rt, "left", &OFFICE)?;
    let before = fs::read(&rt, club.path())?;
    let mut scene = Fixture::between(&[], &[BOOK_7], &[]);
    scene.is_killed = true;
    expect_reply(&club, scene, BOOKED_7)?;
    expect_bytes(&club, before.as_slice())?;
    club.play(&BOOKED)
}

// Nobody would find a booking in a file without a name, so the server refuses the booking.
#[test]
fn a_file_that_was_removed(rt: HostRuntime) -> Result<(), Fail> {
    let club = new_club(&rt, "gone", &OFFICE)?;
    let scene = Fixture {
        removed: Some(club.path()),
        ..Fixture::between(&[], &[BOOK_7], &[])
    };
    expect_reply(&club, scene, UNAVAILABLE)
}

// Before a command ends, it moves its changes from the log into the file.
#[test]
fn the_log_may_go(rt: HostRuntime) -> Result<(), Fail> {
    let club = new_club(&rt, "log", &AMY)?;
    club.remove_with("-wal")?;
    club.play(&["add-member amy 5 => 1 refused: exists"])
}

static STORAGE_FAILED: [&str; 3] = [
    "sheet 2026-05-01 => 5 storage failed",
    "add-member amy 5 => 5 storage failed",
    "serve --port 0 --count 1 => 5 storage failed",
];

#[test]
fn files_of_something_else(rt: HostRuntime) -> Result<(), Fail> {
    let club = ClubFile::new(&rt, "x")?;
    fs::write(&rt, club.path(), [b'x'; 100])?;
    club.play(&STORAGE_FAILED)?;
    expect_bytes(&club, &[b'x'; 100])
}

/// In a new file, the version is the last byte of the second page.
const VERSION_AT: usize = 8_191;

fn change_version(rt: &HostRuntime, path: &str) -> Result<(), Fail> {
    let mut bytes = fs::read(rt, path)?;
    match bytes.get_mut(VERSION_AT) {
        Some(version) if *version == 2 => *version = 9,
        _ => return Err("the version lies elsewhere".into()),
    }
    Ok(fs::write(rt, path, bytes.as_slice())?)
}

#[test]
fn files_of_another_version(rt: HostRuntime) -> Result<(), Fail> {
    let club = new_club(&rt, "version", &AMY)?;
    change_version(&rt, club.path())?;
    club.play(&STORAGE_FAILED)
}

#[test]
fn files_that_cannot_be(rt: HostRuntime) -> Result<(), Fail> {
    let folder = env::temp_dir(&rt)?;
    for path in [folder.as_str(), "/nowhere/club", ":memory:"] {
        let path = format!(in rt.alloc(); "{path}")?;
        ClubFile::at(&rt, path).play(&STORAGE_FAILED)?;
    }
    expect_eq(&rt, fs::metadata(&rt, ":memory:").is_err(), true)
}

#[test]
fn modes(rt: HostRuntime) -> Result<(), Fail> {
    let club = new_club(&rt, "modes", &AMY)?;
    for end in ["", "-wal"] {
        let found = fs::metadata(&rt, club.path_with(end)?.as_str())?;
        expect_eq(&rt, found.mode() & 0o777, 0o600)?;
    }
    Ok(())
}
