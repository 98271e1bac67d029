//! Tests of texts in any form. The reader detects the form.

use crate::calls::read_any;
use crate::read::Refused;
use crate::refused_memory::{convert, is_written, read_in};
use crate::rows::{Host, expect_eq, expect_pass, join};
use crate::texts::{EXAMPLE, KNOWN, OF_1_LETTER, OF_24_LETTERS, UNLOCATED};
use crate::v2::KEYID_FIELDS;
use pass_forms::{Form, FormFault};

#[test]
fn converts_passes_of_short_and_long_names(rt: HostRuntime) {
    convert(&rt, &OF_1_LETTER);
    convert(&rt, &OF_24_LETTERS);
}

// For an empty location, V1 has a packet, but V2 and JSON have nothing.
#[test]
fn leaves_an_empty_location_out(rt: HostRuntime) {
    convert(&rt, &UNLOCATED);
    let written = "AgEAAgVrZXlpZAAABiAHBwcHBwcHBwcHBwcHBwcHBwcHBwcHBwcHBwcHBwcHBw";
    is_written(&rt, &read_in(&rt, Form::V2, written), &UNLOCATED);
}

// JSON without optional members, as plain text and in base64.
static SHORT: [&str; 3] = [
    "{\"i\":\"keyid\",\"s64\":\"fN7nklEcW8b1KEhYBd_psk54XijiqZMB-dcRxgnjjvc\"}",
    "eyJpIjoia2V5aWQiLCJzNjQiOiJmTjdua2xFY1c4YjFLRWhZQmRfcHNrNTRYaWppcVpNQi1kY1J4Z25qanZjIn0",
    "eyJpIjoia2V5aWQiLCJzNjQiOiJmTjdua2xFY1c4YjFLRWhZQmRfcHNrNTRYaWppcVpNQi1kY1J4Z25qanZjIn0=",
];

#[test]
fn reads_the_short_text(rt: HostRuntime) {
    for text in &SHORT {
        expect_pass(&rt, &read_in(&rt, Form::Json, text), &KEYID_FIELDS);
    }
}

const THIRD_PARTY: &[u8] =
    b"{\"c\":[{\"i\":\"a\",\"v\":\"b\"}],\"i\":\"keyid\",\"s64\":\"fN7nklEcW8b1KEhYBd_psk54XijiqZMB-dcRxgnjjvc\"}";

const THIRD_PARTY_IN_BASE64: &[u8] =
    b"eyJjIjpbeyJpIjoiYSIsImwiOiIifV0sImkiOiJrZXlpZCIsInM2NCI6ImZON25rbEVjVzhiMUtFaFlCZF9wc2s1NFhpamlxWk1CLWRjUnhnbmpqdmMifQ";

static REFUSED: [Refused; 8] = [
    (&[(1, THIRD_PARTY)], FormFault::ThirdParty),
    (&[(1, THIRD_PARTY_IN_BASE64)], FormFault::ThirdParty),
    (&[(1, b" {}")], FormFault::Malformed),
    (&[(1, b"{}")], FormFault::Malformed),
    (&[(1, b"")], FormFault::Malformed),
    (&[(1, b"Aw")], FormFault::Malformed),
    (&[(8193, b"{")], FormFault::TooLong),
    (&[(8192, b"{")], FormFault::Malformed),
];

fn is_refused(rt: &impl Host, text: &[u8], fault: FormFault) {
    expect_eq(rt, read_any(rt.alloc(), text).err(), Some(fault), &text);
}

#[test]
fn shows_each_fault(rt: HostRuntime) {
    for (pieces, fault) in &REFUSED {
        is_refused(&rt, &join(&rt, pieces), *fault);
    }
}

fn is_refused_cut_short(rt: &impl Host, text: &str) {
    for len in 0..text.len() {
        is_refused(rt, &text.as_bytes()[..len], FormFault::Malformed);
    }
}

fn are_refused_cut_short(rt: &impl Host, texts: &[&str]) {
    for text in texts {
        is_refused_cut_short(rt, text);
    }
}

#[test]
fn refuses_texts_cut_short(rt: HostRuntime) {
    are_refused_cut_short(&rt, &KNOWN);
    are_refused_cut_short(&rt, &EXAMPLE);
}
