//! Commands over a club in memory, and roots from standard input.

use crate::callers::Input;
use crate::memory::run_row;
use crate::runs::Fixture;
use crate::servers::OFFICE;
use std::test::Fail;

// A program in another language computed the passes.
static PASSES_OF_KEYS: [&str; 3] = [
    "add-key amy-2 amy 00112233445566778899aabbccddeeff --form v1 => \
        0 MDAxN2xvY2F0aW9uIGNsdWItZGVzawowMDE5aWRlbnRpZmllciBrZXk6YW15LTIKMDAyZnNpZ25hdHVyZ\
        SBQ47CyDfqrbBnz21ohXWEEI9Z140bkegPdzFmleAQ3Qwo\n",
    "rotate-key amy-1 ffeeddccbbaa99887766554433221100 2026-04-25T00:00 --form json => \
        0 {\"c\":[],\"i\":\"key:amy-1\",\"l\":\"club-desk\",\
        \"s64\":\"KCFX6Yuml46qONOaXLd8NdScMHF3Rhger2bpvDhpHo8\",\"v\":2}\n",
    "add-key abcdefghijklmnopqrstuvwx amy 00112233445566778899aabbccddeeff => \
        0 AgEJY2x1Yi1kZXNrAhxrZXk6YWJjZGVmZ2hpamtsbW5vcHFyc3R1dnd4AAAGIBNlR4VGj8m96ZmIBUTHZTX\
        VOtB9a8tjEv3fQ5S4lfFx\n",
];

#[test]
fn passes_of_keys(rt: HostRuntime) -> Result<(), Fail> {
    for row in &PASSES_OF_KEYS {
        run_row(&rt, &Fixture::after(&OFFICE), row, 5)?;
    }
    Ok(())
}

// The program checks arguments before it opens a club.
static WORDS: [&str; 3] = [
    "sheet 2026-02-29 => 3 bad value",
    "serve --port 65536 --count 1 => 3 bad value",
    "--version => 0 clubdesk 0.1.0\n",
];

#[test]
fn arguments(rt: HostRuntime) -> Result<(), Fail> {
    for row in &WORDS {
        run_row(&rt, &Fixture::after(&[]), row, 0)?;
    }
    Ok(())
}

static ROOTS: [&str; 3] = [
    "00112233445566778899aabbccddeeff\n; add-key amy-2 amy --root-stdin => \
        0 AgEJY2x1Yi1kZXNrAglrZXk6YW15LTIAAAYgUOOwsg36q2wZ89taIV1hBCPWdeNG5HoD3cxZpXgEN0M\n",
    "00112233445566778899AABBCCDDEEFF; add-key amy-2 amy --root-stdin => \
        0 AgEJY2x1Yi1kZXNrAglrZXk6YW15LTIAAAYgUOOwsg36q2wZ89taIV1hBCPWdeNG5HoD3cxZpXgEN0M\n",
    "ffeeddccbbaa99887766554433221100\n; rotate-key amy-1 2026-04-25T00:00 --root-stdin => \
        0 AgEJY2x1Yi1kZXNrAglrZXk6YW15LTEAAAYgKCFX6Yuml46qONOaXLd8NdScMHF3Rhger2bpvDhpHo8\n",
];

static NO_ROOTS: [&[u8]; 8] = [
    b"",
    b"\n",
    // The first root has 15 bytes, and the second has 16 and a half.
    b"00112233445566778899aabbccddee\n",
    b"00112233445566778899aabbccddeeff1\n",
    b"00112233445566778899aabbccddeefg\n",
    b"00112233445566778899aabbccddeeff\n\n",
    b"00112233445566778899aabbccddeeff\r\n",
    b"\xff0112233445566778899aabbccddeeff\n",
];

const NO_ROOT: &str = "add-key amy-2 amy --root-stdin => 3 bad value";

const NO_ROOT_TO_ROTATE: &str = "rotate-key amy-1 2026-04-25T00:00 --root-stdin => 3 bad value";

// The rows of `OFFICE` open the club four times.
fn ends_so(rt: &HostRuntime, row: &str, input: Input<'_>, openings: u64) -> Result<(), Fail> {
    let scene = Fixture::after(&OFFICE).reading(input);
    let openings = openings.saturating_add(4);
    run_row(rt, &scene, row, openings)
}

#[test]
fn roots(rt: HostRuntime) -> Result<(), Fail> {
    for row in &ROOTS {
        let (input, row) = row.split_once("; ").ok_or("an input")?;
        ends_so(&rt, row, Input::Bytes(input.as_bytes()), 1)?;
    }
    Ok(())
}

// The program reads its input before it opens a club.
#[test]
fn no_roots(rt: HostRuntime) -> Result<(), Fail> {
    for input in &NO_ROOTS {
        ends_so(&rt, NO_ROOT, Input::Bytes(input), 0)?;
        ends_so(&rt, NO_ROOT_TO_ROTATE, Input::Bytes(input), 0)?;
    }
    let row = "add-key amy-2 amy --root-stdin => 7 input or output failed";
    ends_so(&rt, row, Input::Broken, 0)
}

const LONGEST: &str = "add-key amy-2 amy --root-stdin => \
    0 AgEJY2x1Yi1kZXNrAglrZXk6YW15LTIAAAYgDX-5zX6dlNErx-MuAUoVk9vN8GThsorPx80b0Maeqt4\n";

static BEHIND_THE_LONGEST: [(&str, bool); 5] = [
    ("", true),
    ("\n", true),
    ("0", false),
    ("00", false),
    ("\n0", false),
];

fn long_root(rt: &HostRuntime, root: &str, behind: &str, is_taken: bool) -> Result<(), Fail> {
    let text = format!(in rt.alloc(); "{root}{behind}")?;
    let row = if is_taken { LONGEST } else { NO_ROOT };
    ends_so(rt, row, Input::Bytes(text.as_bytes()), u64::from(is_taken))
}

#[test]
fn long_roots(rt: HostRuntime) -> Result<(), Fail> {
    let longest = "00".repeat(rt.alloc(), 64)?;
    for row in &BEHIND_THE_LONGEST {
        long_root(&rt, longest.as_str(), row.0, row.1)?;
    }
    Ok(())
}
