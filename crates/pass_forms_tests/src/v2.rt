//! Passes that are read from V2.

use crate::read::{Refused, Row, are_read, are_refused, are_refused_between, is_refused_cut_short};
use crate::rows::{Fields, Piece};
use pass_forms::Form;
use pass_forms::FormFault::{Malformed, ThirdParty, TooLong, TooMany};

const HEADER: Piece = (1, b"\x02\x01\x13http://example.org/\x02\x05keyid\x00");

const KEYID: Piece = (1, b"\x02\x02\x05keyid\x00");

const EMPTY_LOCATION: Piece = (1, b"\x02\x01\x00\x02\x05keyid\x00");

const AFTER: Piece = (
    1,
    b"\x00\x06\x20\x7c\xde\xe7\x92\x51\x1c\x5b\xc6\xf5\x28\x48\x58\x05\xdf\xe9\xb2\x4e\x78\x5e\x28\xe2\xa9\x93\x01\xf9\xd7\x11\xc6\x09\xe3\x8e\xf7",
);

pub(crate) const KEYID_FIELDS: Fields<'static> = Fields {
    location: b"",
    identifier: b"keyid",
    caveats: &[],
    signature: b"\x7c\xde\xe7\x92\x51\x1c\x5b\xc6\xf5\x28\x48\x58\x05\xdf\xe9\xb2\x4e\x78\x5e\x28\xe2\xa9\x93\x01\xf9\xd7\x11\xc6\x09\xe3\x8e\xf7",
};

static KNOWN: [Piece; 2] = [HEADER, AFTER];

const GUESTS: &[u8] = b"guests <= 1";

static READ: [Row; 7] = [
    (
        &[HEADER, AFTER],
        Fields {
            location: b"http://example.org/",
            ..KEYID_FIELDS
        },
    ),
    (
        &[KEYID, (1, b"\x02\x01x\x00\x02\x00\x00"), AFTER],
        Fields {
            caveats: &[b"x", b""],
            ..KEYID_FIELDS
        },
    ),
    (&[EMPTY_LOCATION, AFTER], KEYID_FIELDS),
    (&[KEYID, AFTER], KEYID_FIELDS),
    // A length of 127 takes one byte, and a length of 128 takes two.
    (
        &[(1, b"\x02\x02\x7f"), (127, b"x"), (1, b"\x00"), AFTER],
        Fields {
            identifier: &[b'x'; 127],
            ..KEYID_FIELDS
        },
    ),
    (
        &[(1, b"\x02\x02\x80\x01"), (128, b"x"), (1, b"\x00"), AFTER],
        Fields {
            identifier: &[b'x'; 128],
            ..KEYID_FIELDS
        },
    ),
    (
        &[KEYID, (64, b"\x02\x0bguests <= 1\x00"), AFTER],
        Fields {
            caveats: &[GUESTS; 64],
            ..KEYID_FIELDS
        },
    ),
];

#[test]
fn reads_passes(rt: HostRuntime) {
    are_read(&rt, Form::V2, &READ);
}

#[test]
fn refuses_the_known_pass_cut_short(rt: HostRuntime) {
    is_refused_cut_short(&rt, Form::V2, &KNOWN, 65);
}

static ODD: [&[u8]; 3] = [
    b"\x02\x01x\x05\x00\x00",
    b"\x02\x01x\x04\x00\x04\x00\x00",
    b"\x04\x00\x02\x01x\x00",
];

static THIRD_PARTIES: [&[u8]; 2] = [b"\x02\x01x\x04\x00\x00", b"\x01\x00\x02\x01x\x00"];

const MANY: Piece = (65, b"\x02\x0bguests <= 1\x00");

const THIRD_PARTY: &[u8] = b"\x02\x01x\x04\x01y\x00";

static REFUSED: [Refused; 8] = [
    (&[HEADER, AFTER, (1, b"\x00")], Malformed),
    // A length with more bytes than necessary, a length without an end, and a wrong length.
    (&[(1, b"\x02\x02\x85\x00keyid\x00"), AFTER], Malformed),
    (&[(1, b"\x02\x02"), (10, b"\xff"), AFTER], Malformed),
    (&[(1, b"\x02\x02\x06keyid"), AFTER], Malformed),
    (&[(8193, b"\x02")], TooLong),
    (&[KEYID, MANY, AFTER], TooMany),
    (&[KEYID, MANY, AFTER, (1, b"\x00")], Malformed),
    (&[KEYID, MANY, (1, THIRD_PARTY), AFTER], ThirdParty),
];

#[test]
fn shows_each_fault(rt: HostRuntime) {
    are_refused(&rt, Form::V2, &REFUSED);
    let around = (KEYID, AFTER);
    are_refused_between(&rt, Form::V2, around, &ODD, Malformed);
    are_refused_between(&rt, Form::V2, around, &THIRD_PARTIES, ThirdParty);
}
