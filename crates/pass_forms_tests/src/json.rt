//! Passes that are read from JSON.

use crate::calls::read;
use crate::read::{Refused, Row, are_read, are_refused, are_refused_between};
use crate::rows::{Fields, Host, Piece, expect_eq, join};
use crate::v1::KNOWN_FIELDS;
use crate::v2::KEYID_FIELDS;
use pass_forms::Form;
use pass_forms::FormFault::{Malformed, ThirdParty, TooLong, TooMany};

const OPEN: Piece = (1, b"{");

const REST: Piece = (
    1,
    b",\"i\":\"keyid\",\"s64\":\"fN7nklEcW8b1KEhYBd_psk54XijiqZMB-dcRxgnjjvc\"}",
);

const SHORT: Piece = (
    1,
    b"{\"i\":\"keyid\",\"s64\":\"fN7nklEcW8b1KEhYBd_psk54XijiqZMB-dcRxgnjjvc\"}",
);

const IN_OTHER_ORDER: &[u8] =
    b"{\"v\":2,\"l\":\"http://mybank/\",\"i\":\"we used our secret key\",\"c\":[{\"i\":\"test = caveat\"}],\"s64\":\"GXusegRK8zMyhluSZuJtSTvdZopmDkTYjOGpmMI9vWc\"}";

const WITH_AN_EMPTY_CAVEAT: &[u8] =
    b"{\"c\":[{\"i\":\"test = caveat\"},{\"i\":\"\"}],\"i\":\"we used our secret key\",\"l\":\"http://mybank/\",\"s64\":\"GXusegRK8zMyhluSZuJtSTvdZopmDkTYjOGpmMI9vWc\",\"v\":2}";

const SIGNED_BY_TEXT: &[u8] = b"{\"i\":\"keyid\",\"s\":\"0123456789abcdef0123456789abcdef\"}";

static READ: [Row; 4] = [
    (&[(1, IN_OTHER_ORDER)], KNOWN_FIELDS),
    // White space is allowed around the object.
    (&[(1, b" \t\r\n"), SHORT, (1, b"\n ")], KEYID_FIELDS),
    (
        &[(1, WITH_AN_EMPTY_CAVEAT)],
        Fields {
            caveats: &[b"test = caveat", b""],
            ..KNOWN_FIELDS
        },
    ),
    (
        &[(1, SIGNED_BY_TEXT)],
        Fields {
            signature: b"0123456789abcdef0123456789abcdef",
            ..KEYID_FIELDS
        },
    ),
];

#[test]
fn reads_passes(rt: HostRuntime) {
    are_read(&rt, Form::Json, &READ);
}

const NAME: Piece = (1, b"{\"i\":");

const CAVEATS: Piece = (1, b"{\"c\":[{\"i\":\"guests <= 1\"}");

const GUESTS: &[u8] = b"guests <= 1";

const CAVEAT: &[u8] = b",{\"i\":\"guests <= 1\"}";

const THIRD_PARTY: Piece = (1, b",{\"i\":\"x\",\"v64\":\"\"}]");

// `serde_json` reads at most 127 levels of nested arrays and objects.
static AT_THE_LIMITS: [Row; 3] = [
    (&[SHORT, (8127, b" ")], KEYID_FIELDS),
    (&[NAME, (126, b"["), (126, b"]"), REST], KEYID_FIELDS),
    (
        &[CAVEATS, (63, CAVEAT), (1, b"]"), REST],
        Fields {
            caveats: &[GUESTS; 64],
            ..KEYID_FIELDS
        },
    ),
];

// If a pass has too many caveats and another fault, the other fault is reported.
static BEYOND_THE_LIMITS: [Refused; 5] = [
    (&[SHORT, (8128, b" ")], TooLong),
    (&[NAME, (127, b"["), (127, b"]"), REST], Malformed),
    (&[CAVEATS, (64, CAVEAT), (1, b"]"), REST], TooMany),
    (&[CAVEATS, (64, CAVEAT), (1, b",{}]"), REST], Malformed),
    (&[CAVEATS, (64, CAVEAT), THIRD_PARTY, REST], ThirdParty),
];

#[test]
fn reads_up_to_the_limits(rt: HostRuntime) {
    are_read(&rt, Form::Json, &AT_THE_LIMITS);
    are_refused(&rt, Form::Json, &BEYOND_THE_LIMITS);
}

const SIGNED_SHORT: &[u8] = b"{\"i\":\"k\",\"s64\":\"fN7nklEcW8b1KEhYBd_psk54XijiqZMB-dcRxgnjjg\"}";

const WITHOUT_IDENTIFIER: &[u8] = b"{\"s64\":\"fN7nklEcW8b1KEhYBd_psk54XijiqZMB-dcRxgnjjvc\"}";

static OTHER_TEXTS: [Refused; 8] = [
    (&[(1, b"")], Malformed),
    (&[(1, b"[]")], Malformed),
    (&[(1, b"{\"i\":\"keyid\"}")], Malformed),
    (&[(1, WITHOUT_IDENTIFIER)], Malformed),
    (&[(1, SIGNED_SHORT)], Malformed),
    (&[(8193, b"[")], TooLong),
    (&[(8192, b"[")], Malformed),
    // A byte order mark.
    (&[(1, b"\xef\xbb\xbf"), SHORT], Malformed),
];

#[test]
fn refuses_other_texts(rt: HostRuntime) {
    are_refused(&rt, Form::Json, &OTHER_TEXTS);
}

static ODD_MEMBERS: [&[u8]; 16] = [
    b"\"v\":1",
    b"\"v\":2.0",
    b"\"v\":-2",
    b"\"v\":null",
    b"\"v\":\"2\"",
    b"\"i64\":\"_w\"",
    b"\"c\":null",
    b"\"c\":[{\"l\":\"x\"}]",
    b"\"c\":[\"a\"]",
    b"\"c\":[{\"i\":\"a\",\"i64\":\"_w\"}]",
    b"\"x\":1",
    b"\"l\":null",
    b"\"l\":\"a\",\"l64\":\"YQ\"",
    b"\"s\":\"0123456789abcdef0123456789abcdef\"",
    b"\"l64\":\"_\"",
    b"\"c\":[{\"i\":\"a\",\"v64\":\"_w\",\"x\":1}]",
];

static THIRD_PARTIES: [&[u8]; 4] = [
    b"\"c\":[{\"i\":\"a\",\"v\":\"b\"}]",
    b"\"c\":[{\"i\":\"a\",\"v64\":\"_w\"}]",
    b"\"c\":[{\"i\":\"a\",\"l\":\"\"}]",
    b"\"c\":[{\"i\":\"a\",\"l64\":\"\"}]",
];

#[test]
fn refuses_other_members(rt: HostRuntime) {
    let around = (OPEN, REST);
    are_refused_between(&rt, Form::Json, around, &ODD_MEMBERS, Malformed);
    are_refused_between(&rt, Form::Json, around, &THIRD_PARTIES, ThirdParty);
}

// Members, and the identifiers that they encode. The members have base64, escapes, UTF-8, or the
// same name twice. If a name occurs twice, the last member counts.
static IDENTIFIERS: [(&[u8], &[u8]); 6] = [
    (b"\"i64\":\"_w\"", b"\xff"),
    (b"\"i\":\"a\",\"i\":\"b\"", b"b"),
    (b"\"i\":\"\\\"\\\\\\u0000\\u00e9\"", b"\"\\\x00\xc3\xa9"),
    (
        b"\"i\":\"\\b\\f\\n\\r\\t\\/\\ud83d\\ude00\"",
        b"\x08\x0c\n\r\t/\xf0\x9f\x98\x80",
    ),
    (b"\"i\":\"\xc3\xa9\x7f\"", b"\xc3\xa9\x7f"),
    (b"\"i64\":\"//4=\"", b"\xff\xfe"),
];

const SIGNED: &[u8] = b",\"s64\":\"fN7nklEcW8b1KEhYBd_psk54XijiqZMB-dcRxgnjjvc\"}";

fn identifies(rt: &impl Host, member: &'static [u8], identifier: &[u8]) {
    let text = join(rt, &[OPEN, (1, member), (1, SIGNED)]);
    let pass = read(rt.alloc(), Form::Json, &text).expect(rt, "a pass");
    expect_eq(rt, pass.identifier(), identifier, &member);
}

#[test]
fn reads_identifiers(rt: HostRuntime) {
    for (member, identifier) in &IDENTIFIERS {
        identifies(&rt, member, identifier);
    }
}
