//! Long paths, roots and credits of each length, and the sheet of a day with many bookings.

use crate::callers::Input;
use crate::memory::run_row;
use crate::runs::{ClubFile, Fixture, new_path};
use crate::servers::OFFICE;
use std::test::Fail;

// A program in another language computed the pass.
static EDGES: [&str; 4] = [
    "rotate-key amy-1 ffeeddccbbaa99887766554433221100 2099-12-31T23:59 => \
        0 AgEJY2x1Yi1kZXNrAglrZXk6YW15LTEAAAYgKCFX6Yuml46qONOaXLd8NdScMHF3Rhger2bpvDhpHo8\n",
    "show-account amy-1 --at 2026-04-20T12:00 => 0 member amy\nbalance 10000\nquota 5\nopen 0\n\
        spent 0\nrevoked no\nolder root until 2099-12-31T23:59\n",
    "add-facility hall room 50 9999 0 24 => 0 done\n",
    "show-slot hall 2026-05-01 23 => 0 facility hall\nday 2026-05-01\nhour 23\nkind room\n\
        price 9999\nplaces 50\ntaken 0\nclosed no\n",
];

// The long path leads to the same file as the short path.
#[test]
fn at_a_path_of_4000_letters(rt: HostRuntime) -> Result<(), Fail> {
    let short = new_path(&rt, "long")?;
    let letters = 4_000usize.saturating_sub(short.len());
    let dots = "/.".repeat(rt.alloc(), letters / 2)?;
    let club = ClubFile::at(&rt, format!(in rt.alloc(); "{dots}{short}")?);
    club.play(&OFFICE)?;
    club.play(&EDGES)
}

// The least and the greatest number of each length up to six digits, and the least number of seven
// digits.
static CREDITS: [u32; 13] = [
    1, 9, 10, 99, 100, 999, 1_000, 9_999, 10_000, 99_999, 100_000, 999_999, 1_000_000,
];

#[test]
fn takes_credits_of_each_length(rt: HostRuntime) -> Result<(), Fail> {
    for points in &CREDITS {
        let row = format!(in rt.alloc(); "credit amy {points} => 0 done\n")?;
        run_row(&rt, &Fixture::after(&OFFICE), row.as_str(), 5)?;
    }
    Ok(())
}

fn expect_pass(rt: &HostRuntime, hex: &str, returned: &str) -> Result<(), Fail> {
    if returned.starts_with("0 AgEJY2x1Yi1kZXNrAglrZXk6YW15LTEAAAYg") && returned.len() == 82 {
        return Ok(());
    }
    Err(format!(in rt.alloc(); "{hex}: {returned}")?.into())
}

// The scenarios test the passes under roots of each length.
fn takes_a_root(club: &ClubFile<'_>, hex: &str) -> Result<(), Fail> {
    let words = format!(in club.rt.alloc(); "rotate-key amy-1 {hex} 2099-12-31T23:59")?;
    let output = club.run(Fixture::after(&[]), words.as_str())?;
    expect_pass(club.rt, hex, output.returned.as_str())?;
    let row = "rotate-key amy-1 2099-12-31T23:59 --root-stdin => 1 refused: exists";
    let scene = Fixture {
        input: Input::Bytes(hex.as_bytes()),
        ..Fixture::after(&[])
    };
    club.play_in(scene, row)
}

#[test]
fn takes_roots_of_each_length(rt: HostRuntime) -> Result<(), Fail> {
    let club = ClubFile::new(&rt, "roots")?;
    club.play(&OFFICE)?;
    for len in 16..=64usize {
        let hex = "a7".repeat(rt.alloc(), len)?;
        takes_a_root(&club, hex.as_str())?;
    }
    Ok(())
}

/// The keys' names have 24 letters. A program in another language computed the passes.
static KEYS: [&str; 5] = [
    "add-member a 99 => 0 done\n",
    "add-key a-key-name-of-24-letters a 00112233445566778899aabbccddeeff => \
        0 AgEJY2x1Yi1kZXNrAhxrZXk6YS1rZXktbmFtZS1vZi0yNC1sZXR0ZXJzAAAGIKVPaDEFATLWBr5KnJZ9PU27\
        uF1SIXD-BQjX7PXqxZ8Q\n",
    "add-member b 99 => 0 done\n",
    "add-key key-2-name-of-24-letters b 00112233445566778899aabbccddeeff => \
        0 AgEJY2x1Yi1kZXNrAhxrZXk6a2V5LTItbmFtZS1vZi0yNC1sZXR0ZXJzAAAGIHIjQL9EAt2PzilVsGCgsQoC\
        u6cbp0EcpdQRU-7cLvQX\n",
    "add-facility a-facility-of-24-letters room 50 0 0 24 => 0 done\n",
];

/// The number of hours with bookings, and the number of each key's bookings in an hour.
const HOURS: u32 = 20;

const EACH: u32 = 3;

fn booking_request(rt: &HostRuntime, hour: u32, number: u32, pass: &str) -> Result<String, Fail> {
    Ok(format!(in rt.alloc();
        "PUT /slots/a-facility-of-24-letters/2026-05-01/{hour:02}/bookings/{number} \
        HTTP/1.1\r\nHost: club\r\nAuthorization: Bearer {pass}\r\n\
        Content-Length: 12\r\n\r\n{{\"guests\":0}}"
    )?)
}

// Returns the key and its pass.
fn key_and_pass(row: &str) -> Option<(&str, &str)> {
    let (words, end) = row.split_once(" => ")?;
    let (key, _) = words.split_once(' ')?.1.split_once(' ')?;
    Some((key, end.trim_end().split_once(' ')?.1))
}

fn book_hour(
    rt: &HostRuntime,
    row: &str,
    hour: u32,
    requests: &mut Vec<String>,
    sheet: &mut String,
) -> Result<(), Fail> {
    let (key, pass) = key_and_pass(row).ok_or("a key and its pass")?;
    for place in 0..EACH {
        let number = 999_999_000 + hour.saturating_mul(EACH).saturating_add(place) % 1_000;
        requests.push(booking_request(rt, hour, number, pass)?)?;
        let row = format!(in rt.alloc();
            "a-facility-of-24-letters {hour:02}:00 {key} {number}  1      0\n"
        )?;
        sheet.push_str(row.as_str())?;
    }
    Ok(())
}

fn book_day(rt: &HostRuntime) -> Result<(Vec<String>, String), Fail> {
    let mut requests = Vec::new(rt.alloc());
    let mut sheet = format!(in rt.alloc(); "sheet 2026-05-01 => 0 Day sheet 2026-05-01\n")?;
    for hour in 0..HOURS {
        for key in [KEYS[1], KEYS[3]] {
            book_hour(rt, key, hour, &mut requests, &mut sheet)?;
        }
    }
    sheet.push_str("Total bookings 120, persons 120, charge 0\n")?;
    Ok((requests, sheet))
}

/// The sheet has 9,183 bytes.
#[test]
fn prints_a_long_sheet(rt: HostRuntime) -> Result<(), Fail> {
    let (texts, sheet) = book_day(&rt)?;
    let requests: Vec<&str> = texts.iter().map(|text| text.as_str()).collect(rt.alloc())?;
    let after = [sheet.as_str()];
    let scene = Fixture::between(&KEYS, requests.as_slice(), &after);
    let row = "serve --port 0 --count 120 --at 2026-04-20T12:00 => 0 ";
    run_row(&rt, &scene, row, 7)
}
