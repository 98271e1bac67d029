//! Passes that are read from V1.

use crate::calls::{open_v1, read};
use crate::read::{Refused, Row, are_read, are_refused, are_refused_between, is_refused_cut_short};
use crate::rows::{Fields, Host, Piece, expect_eq, join};
use pass_forms::FormFault::{Malformed, ThirdParty, TooLong, TooMany};
use pass_forms::{Field, FieldSource, Form, is_signed_by};
use pass_mac::Chain;

// The pass of libmacaroons' README, in packets.
const BEFORE: Piece = (
    1,
    b"001clocation http://mybank/\n0026identifier we used our secret key\n",
);

const CAVEAT: Piece = (1, b"0016cid test = caveat\n");

const AFTER: Piece = (
    1,
    b"002fsignature \x19\x7b\xac\x7a\x04\x4a\xf3\x33\x32\x86\x5b\x92\x66\xe2\x6d\x49\x3b\xdd\x66\x8a\x66\x0e\x44\xd8\x8c\xe1\xa9\x98\xc2\x3d\xbd\x67\n",
);

pub(crate) const KNOWN_FIELDS: Fields<'static> = Fields {
    location: b"http://mybank/",
    identifier: b"we used our secret key",
    caveats: &[b"test = caveat"],
    signature: b"\x19\x7b\xac\x7a\x04\x4a\xf3\x33\x32\x86\x5b\x92\x66\xe2\x6d\x49\x3b\xdd\x66\x8a\x66\x0e\x44\xd8\x8c\xe1\xa9\x98\xc2\x3d\xbd\x67",
};

pub(crate) const BARE_FIELDS: Fields<'static> = Fields {
    caveats: &[],
    signature: b"\xe3\xd9\xe0\x29\x08\x52\x6c\x4c\x00\x39\xae\x15\x11\x41\x15\xd9\x7f\xdd\x68\xbf\x2b\xa3\x79\xb3\x42\xaa\xf0\xf6\x17\xd0\x55\x2f",
    ..KNOWN_FIELDS
};

pub(crate) const ROOT: &[u8] = b"this is our super secret key; only we should know it";

static KNOWN: [Piece; 3] = [BEFORE, CAVEAT, AFTER];

const X: &[u8] = b"x";

static READ: [Row; 4] = [
    (&[BEFORE, CAVEAT, AFTER], KNOWN_FIELDS),
    // The length of a packet states where the packet ends, so its data may look like a packet.
    (
        &[BEFORE, (1, b"0014cid x\n000acid y\n"), AFTER],
        Fields {
            caveats: &[b"x\n000acid y"],
            ..KNOWN_FIELDS
        },
    ),
    (
        &[BEFORE, (64, b"000acid x\n"), AFTER],
        Fields {
            caveats: &[X; 64],
            ..KNOWN_FIELDS
        },
    ),
    // All packets are present, and their data may be empty.
    (
        &[(1, b"000elocation \n0010identifier \n0009cid \n"), AFTER],
        Fields {
            location: b"",
            identifier: b"",
            caveats: &[b""],
            ..KNOWN_FIELDS
        },
    ),
];

#[test]
fn reads_passes(rt: HostRuntime) {
    are_read(&rt, Form::V1, &READ);
}

#[test]
fn refuses_the_known_pass_cut_short(rt: HostRuntime) {
    is_refused_cut_short(&rt, Form::V1, &KNOWN, 135);
}

static ODD: [&[u8]; 6] = [
    b"0003",
    b"ffffcid x\n",
    b"000Acid x\n",
    b"000acid x ",
    b"000avid x\n",
    b"000acid x\n0009cl y\n000avid y\n",
];

static THIRD_PARTIES: [&[u8]; 3] = [
    b"000acid x\n000avid y\n0009cl z\n",
    b"000acid x\n0009vid \n",
    b"000acid x\n0008cl \n",
];

const MANY: Piece = (65, b"000acid x\n");

static REFUSED: [Refused; 6] = [
    (&[BEFORE, CAVEAT, AFTER, (1, b"0")], Malformed),
    (&[(8193, b"0")], TooLong),
    (&[(8192, b"0")], Malformed),
    (&[BEFORE, MANY, AFTER], TooMany),
    (&[BEFORE, MANY, AFTER, (1, b"\x00")], Malformed),
    (&[BEFORE, MANY, (1, b"0009vid \n"), AFTER], ThirdParty),
];

#[test]
fn shows_each_fault(rt: HostRuntime) {
    are_refused(&rt, Form::V1, &REFUSED);
    let around = (BEFORE, AFTER);
    are_refused_between(&rt, Form::V1, around, &ODD, Malformed);
    are_refused_between(&rt, Form::V1, around, &THIRD_PARTIES, ThirdParty);
}

fn is_signed(bytes: &[u8], root: &[u8]) -> bool {
    let Ok(mut fields) = open_v1(bytes) else {
        return false;
    };
    let _location = fields.next();
    let Some(Field::Identifier(identifier)) = fields.next() else {
        return false;
    };
    is_signed_by(Chain::start(root, identifier), &mut fields)
}

fn expect_signed(rt: &impl Host, root: &[u8], signed: bool) {
    let bytes = join(rt, &KNOWN);
    expect_eq(rt, is_signed(&bytes, root), signed, &root);
    let pass = read(rt.alloc(), Form::V1, &bytes).expect(rt, "a pass");
    expect_eq(rt, pass.is_signed(root), signed, &root);
}

#[test]
fn known_pass_is_signed_under_its_root(rt: HostRuntime) {
    expect_signed(&rt, ROOT, true);
    expect_signed(&rt, b"another root", false);
}
