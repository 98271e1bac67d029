//! Passes with 64 caveats, long caveats and words, and slow pipes.

use super::doubles::Slow;
use super::runs::*;
use crate::expect::{Host, expect_case, expect_end, joined, text_of};
use test_kit::End::{Begins, Prints, Writes};
use test_kit::passes::{AMY_JSON, AMY_V1, AMY_V2};
use test_kit::{End, Output, Piece};

const VERIFY: &str = "verify|--root|00112233445566778899aabbccddeeff";

// An independent program computed these texts of amy's pass. Each entry has the line that converts
// to the form, and the text up to and including the first caveat. Then come one more caveat, and
// the ends after 63 and after 64 caveats.
type Guests = [&'static str; 5];

static GUESTS: [Guests; 3] = [
    [
        TO_V1,
        "MDAxN2xvY2F0aW9uIGNsdWItZGVzawowMDE5aWRlbnRpZmllciBrZXk6YW15LTEKMDAxNWNpZCBndWVzdHMgPD0gNDkK",
        "MDAxNWNpZCBndWVzdHMgPD0gNDkK",
        "MDAyZnNpZ25hdHVyZSBmLswfZ1VYwg0L5-m6hOXJXowm5PNxdjv8ZGENiAtdLAo",
        "MDAyZnNpZ25hdHVyZSCMJKkmAyvlhTHo8JHg6Unt770jXj_0R1I-3J1Co_oC7Ao",
    ],
    [
        TO_V2,
        "AgEJY2x1Yi1kZXNrAglrZXk6YW15LTEAAgxndWVzdHMgPD0gNDkA",
        "AgxndWVzdHMgPD0gNDkA",
        "AAYgZi7MH2dVWMINC-fpuoTlyV6MJuTzcXY7_GRhDYgLXSw",
        "AAYgjCSpJgMr5YUx6PCR4OlJ7e-9I14_9EdSPtydQqP6Auw",
    ],
    [
        TO_JSON,
        "{\"c\":[{\"i\":\"guests <= 49\"}",
        ",{\"i\":\"guests <= 49\"}",
        "],\"i\":\"key:amy-1\",\"l\":\"club-desk\",\"s64\":\"Zi7MH2dVWMINC-fpuoTlyV6MJuTzcXY7_GRhDYgLXSw\",\"v\":2}",
        "],\"i\":\"key:amy-1\",\"l\":\"club-desk\",\"s64\":\"jCSpJgMr5YUx6PCR4OlJ7e-9I14_9EdSPtydQqP6Auw\",\"v\":2}",
    ],
];

fn of_63(rt: &impl Host, of: &Guests) -> String {
    text_of(rt, &[(1, of[1]), (62, of[2]), (1, of[3])])
}

fn of_64(rt: &impl Host, of: &Guests) -> String {
    text_of(rt, &[(1, of[1]), (63, of[2]), (1, of[4])])
}

fn expect_text(rt: &impl Host, line: &str, input: &str, want: &str) {
    let mut reader = input.as_bytes();
    let output = output_of(rt, line, &mut reader);
    expect_case(rt, want, output.status, 0);
    expect_case(rt, input, output.text.strip_suffix('\n'), Some(want));
}

fn is_converted(rt: &impl Host, text: &str) {
    expect_text(rt, VERIFY, text, "signed");
    for of in &GUESTS {
        expect_text(rt, of[0], text, of_64(rt, of).as_str());
    }
}

#[test]
fn verifies_and_converts_sixty_four_caveats(rt: HostRuntime) {
    for of in &GUESTS {
        is_converted(&rt, of_64(&rt, of).as_str());
    }
}

#[test]
fn narrows_to_sixty_four_caveats(rt: HostRuntime) {
    for of in &GUESTS {
        let (text, want) = (of_63(&rt, of), of_64(&rt, of));
        expect_text(&rt, "narrow|guests <= 49", text.as_str(), want.as_str());
    }
}

pub(super) const GUESTS_64: Piece = (64, "|guests <= 1");

const MINT: Piece = (1, "mint|--root|ROOT|--id|we used our secret key");

static ADDED: [(&[Piece], &str, End); 4] = [
    (&[(1, "narrow"), GUESTS_64], TEXT, TOO_MANY),
    (&[(1, "narrow"), GUESTS_64], BARE_TEXT, Begins(0, "")),
    (&[MINT, (64, "|x")], "", Begins(0, "")),
    (&[MINT, (65, "|x")], "", TOO_MANY),
];

#[test]
fn adds_no_sixty_fifth_caveat(rt: HostRuntime) {
    for (pieces, input, end) in &ADDED {
        expect(&rt, text_of(&rt, pieces).as_str(), input.as_bytes(), *end);
    }
}

// An independent program computed these passes with a caveat of 256 bytes.
static OF_LONG: [(&str, &str); 3] = [
    (
        AMY_V1,
        "MDAxN2xvY2F0aW9uIGNsdWItZGVzawowMDE5aWRlbnRpZmllciBrZXk6YW15LTEKMDEwOWNpZCAtLS0tLS0tLS0tLS0tLS0tIC0tLS0tLS0tLS0tLS0tLS0gLS0tLS0tLS0tLS0tLS0tLSAtLS0tLS0tLS0tLS0tLS0tIC0tLS0tLS0tLS0tLS0tLS0gLS0tLS0tLS0tLS0tLS0tLSAtLS0tLS0tLS0tLS0tLS0tIC0tLS0tLS0tLS0tLS0tLS0gLS0tLS0tLS0tLS0tLS0tLSAtLS0tLS0tLS0tLS0tLS0tIC0tLS0tLS0tLS0tLS0tLS0gLS0tLS0tLS0tLS0tLS0tLSAtLS0tLS0tLS0tLS0tLS0tIC0tLS0tLS0tLS0tLS0tLS0gLS0tLS0tLS0tLS0tLS0tLSAtCjAwMmZzaWduYXR1cmUg0EYA3QeW9E_rlyXJ4RF9vkes1fuayd1HMFzy7zTp_ysK",
    ),
    (
        AMY_V2,
        "AgEJY2x1Yi1kZXNrAglrZXk6YW15LTEAAoACLS0tLS0tLS0tLS0tLS0tLSAtLS0tLS0tLS0tLS0tLS0tIC0tLS0tLS0tLS0tLS0tLS0gLS0tLS0tLS0tLS0tLS0tLSAtLS0tLS0tLS0tLS0tLS0tIC0tLS0tLS0tLS0tLS0tLS0gLS0tLS0tLS0tLS0tLS0tLSAtLS0tLS0tLS0tLS0tLS0tIC0tLS0tLS0tLS0tLS0tLS0gLS0tLS0tLS0tLS0tLS0tLSAtLS0tLS0tLS0tLS0tLS0tIC0tLS0tLS0tLS0tLS0tLS0gLS0tLS0tLS0tLS0tLS0tLSAtLS0tLS0tLS0tLS0tLS0tIC0tLS0tLS0tLS0tLS0tLS0gLQAABiDQRgDdB5b0T-uXJcnhEX2-R6zV-5rJ3UcwXPLvNOn_Kw",
    ),
    (
        AMY_JSON,
        "{\"c\":[{\"i\":\"---------------- ---------------- ---------------- ---------------- ---------------- ---------------- ---------------- ---------------- ---------------- ---------------- ---------------- ---------------- ---------------- ---------------- ---------------- -\"}],\"i\":\"key:amy-1\",\"l\":\"club-desk\",\"s64\":\"0EYA3QeW9E_rlyXJ4RF9vkes1fuayd1HMFzy7zTp_ys\",\"v\":2}",
    ),
];

#[test]
fn narrows_by_a_long_caveat(rt: HostRuntime) {
    let caveat = text_of(&rt, &[(15, "---------------- "), (1, "-")]);
    expect_case(&rt, "the caveat", caveat.len(), 256);
    let line = joined(&rt, &["narrow|--any|--|", caveat.as_str()]);
    for (text, want) in &OF_LONG {
        expect_text(&rt, line.as_str(), text, want);
        expect_text(&rt, VERIFY, want, "signed");
    }
}

fn with_signals<'a>(rt: &impl Host, left: &'a str, signals: u8) -> Slow<'a> {
    let mut slow = Slow::new(rt.alloc(), left.as_bytes());
    slow.signals = signals;
    slow
}

#[test]
fn goes_on_after_two_signals_in_a_row(rt: HostRuntime) {
    let text = joined(&rt, &[V2_TEXT, "\n"]);
    let (mut reader, writer) = (with_signals(&rt, TEXT, 2), with_signals(&rt, "", 2));
    expect_taken(
        &rt,
        TO_V2,
        &mut reader,
        writer,
        Prints(0, ""),
        text.as_bytes(),
    );
}

const VERIFY_LONGEST: &str = "verify|--root|00";

fn minted(rt: &impl Host, len: usize) -> Output {
    let line = text_of(rt, &[(1, "mint|--root|00|--id|"), (len, "k")]);
    unread_output_of(rt, line.as_str())
}

fn expect_signed(rt: &impl Host, text: &str, signals: u8) {
    let output = output_of(rt, VERIFY_LONGEST, &mut with_signals(rt, text, signals));
    expect_end(rt, &output, Writes("signed"), VERIFY_LONGEST);
}

#[test]
fn reads_the_longest_line_byte_by_byte(rt: HostRuntime) {
    let line = minted(&rt, 6_104).text;
    expect_case(&rt, "the line", line.len(), 8_193);
    expect_signed(&rt, line.as_str(), 1);
    expect_signed(&rt, line.as_str(), 2);
}

const TOO_LONG: End = Prints(3, "fault 1: too long");

// A pass of 8,192 characters comes before these bytes. `verify` removes one line feed.
static BEHIND: [(&str, End); 5] = [
    ("", Writes("signed")),
    ("\n", Writes("signed")),
    ("\nx", TOO_LONG),
    ("\n\n", TOO_LONG),
    ("x", TOO_LONG),
];

// An identifier of 6,104 bytes makes a pass of 8,192 characters in V2.
#[test]
fn takes_no_text_above_the_limit(rt: HostRuntime) {
    expect_end(&rt, &minted(&rt, 6_105), TOO_LONG, "6,105 bytes");
    let line = minted(&rt, 6_104).text;
    let text = line.strip_suffix('\n').expect(&rt, "a line");
    for (behind, end) in &BEHIND {
        expect_of(&rt, VERIFY_LONGEST, text, behind, *end);
    }
}

static BEFORE_A_LONG_WORD: [(&str, End); 7] = [
    ("", Begins(2, "error: unrecognized subcommand 'wwwwwwww")),
    ("show|", Begins(2, "error: unexpected argument 'wwwwwwww")),
    ("convert|--form|", Begins(2, "error: invalid value 'www")),
    ("help|", Begins(2, "error: unrecognized subcommand 'www")),
    ("verify|--root|", Prints(6, "bad root")),
    ("mint|--id|k|--root|", Prints(6, "bad root")),
    ("narrow|", Prints(5, "caveat 1 not understood")),
];

#[test]
fn refuses_long_words(rt: HostRuntime) {
    let word = text_of(&rt, &[(1_000, "w")]);
    for (before, end) in &BEFORE_A_LONG_WORD {
        expect_unread(&rt, before, word.as_str(), *end);
    }
}
