//! The verification of passes, and texts that aren't passes.

use super::runs::*;
use crate::expect::text_of;
use test_kit::End::{self, Prints, Writes};
use test_kit::Piece;

const VERIFY_OTHER: &str = "verify|--root|00";

static SIGNED: [Row; 6] = [
    (VERIFY, TEXT, Prints(0, "signed\n")),
    (VERIFY, V2_TEXT, Prints(0, "signed\n")),
    (VERIFY, JSON_TEXT, Prints(0, "signed\n")),
    (VERIFY_OTHER, TEXT, Prints(1, "not signed\n")),
    (VERIFY_OTHER, V2_TEXT, Prints(1, "not signed\n")),
    (VERIFY_OTHER, JSON_TEXT, Prints(1, "not signed\n")),
];

#[test]
fn verifies_signed_and_not_signed(rt: HostRuntime) {
    expect_rows(&rt, &SIGNED);
}

#[test]
fn refuses_every_cut(rt: HostRuntime) {
    for len in 0..TEXT.len() {
        let (cut, _) = TEXT.as_bytes().split_at(len);
        expect(&rt, SHOW, cut, MALFORMED);
    }
}

static NO_PASSES: [&[u8]; 7] = [
    // A byte after the signature, in V1 and in V2.
    b"MDAxY2xvY2F0aW9uIGh0dHA6Ly9teWJhbmsvCjAwMjZpZGVudGlmaWVyIHdlIHVzZWQgb3VyIHNlY3JldCBrZXkKMDAxNmNpZCB0ZXN0ID0gY2F2ZWF0CjAwMmZzaWduYXR1cmUgGXusegRK8zMyhluSZuJtSTvdZopmDkTYjOGpmMI9vWcKeA",
    b"AgETaHR0cDovL2V4YW1wbGUub3JnLwIFa2V5aWQAAAYgfN7nklEcW8b1KEhYBd_psk54XijiqZMB-dcRxgnjjvcA",
    b"{}",
    b"!",
    b"\n",
    b"",
    b"\xff\xfe",
];

#[test]
fn refuses_texts_that_are_no_pass(rt: HostRuntime) {
    for input in &NO_PASSES {
        expect(&rt, "narrow|guests <= 1", input, MALFORMED);
    }
}

static THIRD_PARTIES: [&str; 3] = [
    "MDAwZWxvY2F0aW9uIAowMDEzaWRlbnRpZmllciBrZXkKMDAwYWNpZCBjCjAwMGF2aWQgdgowMDA5Y2wgbAowMDJmc2lnbmF0dXJlIAAAAAAAAAAAAAAAAAAAAAAAAAAAAAAAAAAAAAAAAAAACg",
    "AgIBawACAWMEAXYAAAYgAAAAAAAAAAAAAAAAAAAAAAAAAAAAAAAAAAAAAAAAAAA",
    "{\"c\":[{\"i\":\"c\",\"v64\":\"dg\"}],\"i\":\"k\",\"s64\":\"fN7nklEcW8b1KEhYBd_psk54XijiqZMB-dcRxgnjjvc\"}",
];

#[test]
fn refuses_third_party_caveats_in_each_form(rt: HostRuntime) {
    let end = Prints(3, "fault 3: third-party caveat");
    for input in &THIRD_PARTIES {
        expect(&rt, TO_V1, input.as_bytes(), end);
    }
}

// `OTHER_V2` in the standard alphabet of base64.
const STANDARD: &str =
    "AgETaHR0cDovL2V4YW1wbGUub3JnLwIFa2V5aWQAAAYgfN7nklEcW8b1KEhYBd/psk54XijiqZMB+dcRxgnjjvc";

static MORE: [(&str, &str, &str, End); 5] = [
    (VERIFY, TEXT, "\n", Prints(0, "signed\n")),
    (VERIFY, TEXT, "\n\n", MALFORMED),
    (TO_V1, OTHER_V2, "", Writes(OTHER_TEXT)),
    (TO_V1, STANDARD, "", Writes(OTHER_TEXT)),
    (TO_V1, STANDARD, "=", Writes(OTHER_TEXT)),
];

#[test]
fn takes_one_line_feed_either_alphabet_and_right_padding(rt: HostRuntime) {
    for (line, text, more, end) in &MORE {
        expect_of(&rt, line, text, more, *end);
    }
}

static LONG: [(&[Piece], End); 2] = [
    (&[(8192, "A")], MALFORMED),
    (&[(8193, "A")], Prints(3, "fault 1: too long")),
];

#[test]
fn refuses_a_text_that_is_too_long(rt: HostRuntime) {
    for (pieces, end) in &LONG {
        expect(&rt, VERIFY, text_of(&rt, pieces).as_bytes(), *end);
    }
}
