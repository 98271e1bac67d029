//! Calls each exported function. The values come from docs/vectors.json, docs/CAVEATS.md and
//! include/clubpass.h.

use super::exports::*;
use pass_calls::{AskObject, PassObject, ROOM};
use std::fmt::Debug;
use std::process::Abort;

trait Host: Abort + AllocGlobal {}

impl<R: Abort + AllocGlobal> Host for R {}

fn expect_eq<T: PartialEq + Debug + Copy>(rt: &impl Abort, outcome: T, want: T, row: &impl Debug) {
    assert_eq!(rt; outcome, want, "{row:?}");
}

#[derive(Debug)]
struct Row {
    location: &'static [u8],
    identifier: &'static [u8],
    caveats: &'static [&'static [u8]],
    signature: &'static [u8; 32],
    // In V1, V2 and JSON, whose numbers are 1, 2 and 3.
    texts: [&'static str; 3],
}

const ROOT: &[u8] = b"\x00\x11\x22\x33\x44\x55\x66\x77\x88\x99\xaa\xbb\xcc\xdd\xee\xff";

static ROWS: [Row; 4] = [
    Row {
        location: b"club-desk",
        identifier: b"key:amy-1",
        caveats: &[],
        signature: b"\x0e\xc5\x3e\xbc\xc5\x69\xab\x71\x31\xe7\xf0\x50\x93\xa0\xf9\x55\x7e\x93\x8a\x60\xb4\x21\xf0\xa4\xec\x39\xfa\x9e\xfe\xd3\x20\x99",
        texts: [
            "MDAxN2xvY2F0aW9uIGNsdWItZGVzawowMDE5aWRlbnRpZmllciBrZXk6YW15LTEKMDAyZnNpZ25hdHVyZSAOxT68xWmrcTHn8FCToPlVfpOKYLQh8KTsOfqe_tMgmQo",
            "AgEJY2x1Yi1kZXNrAglrZXk6YW15LTEAAAYgDsU-vMVpq3Ex5_BQk6D5VX6TimC0IfCk7Dn6nv7TIJk",
            "{\"c\":[],\"i\":\"key:amy-1\",\"l\":\"club-desk\",\"s64\":\"DsU-vMVpq3Ex5_BQk6D5VX6TimC0IfCk7Dn6nv7TIJk\",\"v\":2}",
        ],
    },
    Row {
        location: b"",
        identifier: b"key:amy-1",
        caveats: &[b"guests <= 1"],
        signature: b"\x9b\xbf\x80\x2a\xe2\x60\xb9\x42\x93\xd0\x1b\xe5\x0a\x71\x0f\x96\xe0\xbc\x9d\xba\x30\xf3\x19\xbe\x98\xcd\x96\x11\x0e\x2f\x97\x63",
        texts: [
            "MDAwZWxvY2F0aW9uIAowMDE5aWRlbnRpZmllciBrZXk6YW15LTEKMDAxNGNpZCBndWVzdHMgPD0gMQowMDJmc2lnbmF0dXJlIJu_gCriYLlCk9Ab5QpxD5bgvJ26MPMZvpjNlhEOL5djCg",
            "AgIJa2V5OmFteS0xAAILZ3Vlc3RzIDw9IDEAAAYgm7-AKuJguUKT0BvlCnEPluC8nbow8xm-mM2WEQ4vl2M",
            "{\"c\":[{\"i\":\"guests <= 1\"}],\"i\":\"key:amy-1\",\"s64\":\"m7-AKuJguUKT0BvlCnEPluC8nbow8xm-mM2WEQ4vl2M\",\"v\":2}",
        ],
    },
    Row {
        location: b"",
        identifier: b"",
        caveats: &[b"", b""],
        signature: b"\xa6\x0d\x41\xa0\x13\xdc\x21\x07\xe0\xb4\x06\x89\xc0\x14\xb5\xa7\xa5\x07\xf9\x6b\x8f\xe5\x2a\xc1\x53\x29\xb2\x81\x65\x35\x94\x7b",
        texts: [
            "MDAwZWxvY2F0aW9uIAowMDEwaWRlbnRpZmllciAKMDAwOWNpZCAKMDAwOWNpZCAKMDAyZnNpZ25hdHVyZSCmDUGgE9whB-C0BonAFLWnpQf5a4_lKsFTKbKBZTWUewo",
            "AgIAAAIAAAIAAAAGIKYNQaAT3CEH4LQGicAUtaelB_lrj-UqwVMpsoFlNZR7",
            "{\"c\":[{\"i\":\"\"},{\"i\":\"\"}],\"i\":\"\",\"s64\":\"pg1BoBPcIQfgtAaJwBS1p6UH-WuP5SrBUymygWU1lHs\",\"v\":2}",
        ],
    },
    Row {
        location: b"club-desk",
        identifier: b"key:amy-1",
        caveats: &[
            b"kind = court",
            b"until < 2026-05-01T18:00",
            b"spend <= 600",
        ],
        signature: b"\x99\x5e\xbc\xf9\x2b\xdf\x64\x30\xf6\x0b\x22\x26\x61\x34\x84\xb5\x6c\xae\x9e\x5b\xde\x9c\xfe\x4f\x9b\x4d\x02\x3a\xca\x35\x99\xc4",
        texts: [
            "MDAxN2xvY2F0aW9uIGNsdWItZGVzawowMDE5aWRlbnRpZmllciBrZXk6YW15LTEKMDAxNWNpZCBraW5kID0gY291cnQKMDAyMWNpZCB1bnRpbCA8IDIwMjYtMDUtMDFUMTg6MDAKMDAxNWNpZCBzcGVuZCA8PSA2MDAKMDAyZnNpZ25hdHVyZSCZXrz5K99kMPYLIiZhNIS1bK6eW96c_k-bTQI6yjWZxAo",
            "AgEJY2x1Yi1kZXNrAglrZXk6YW15LTEAAgxraW5kID0gY291cnQAAhh1bnRpbCA8IDIwMjYtMDUtMDFUMTg6MDAAAgxzcGVuZCA8PSA2MDAAAAYgmV68-SvfZDD2CyImYTSEtWyunlvenP5Pm00COso1mcQ",
            "{\"c\":[{\"i\":\"kind = court\"},{\"i\":\"until < 2026-05-01T18:00\"},{\"i\":\"spend <= 600\"}],\"i\":\"key:amy-1\",\"l\":\"club-desk\",\"s64\":\"mV68-SvfZDD2CyImYTSEtWyunlvenP5Pm00COso1mcQ\",\"v\":2}",
        ],
    },
];

// The fields of a new object may have any values.
fn any_object() -> PassObject {
    PassObject {
        form: 9,
        location_len: 8000,
        identifier_len: 300,
        caveat_count: 70,
        caveat_lens: [300; 64],
        signature: [1; 32],
        bytes: [7; ROOM],
    }
}

fn read(rt: &impl Host, text: &[u8], want: u32) -> PassObject {
    let mut pass = any_object();
    let code = clubpass_read(rt.alloc(), text, &mut pass);
    expect_eq(rt, code, want, &text);
    pass
}

// A part of a pass.
#[derive(Clone, Copy)]
enum Part {
    Location,
    Identifier,
    Caveat(usize),
}

fn tell(pass: &PassObject, part: Part, out: &mut [u8], len: &mut usize) -> u32 {
    match part {
        Part::Location => clubpass_location(pass, out, len),
        Part::Identifier => clubpass_identifier(pass, out, len),
        Part::Caveat(index) => clubpass_caveat(pass, index, out, len),
    }
}

// A call changes nothing of the buffer behind the part.
fn tells(rt: &impl Host, pass: &PassObject, part: Part, want: &[u8]) {
    let (mut out, mut len) = ([3; 100], 1000);
    let code = tell(pass, part, &mut out, &mut len);
    expect_eq(rt, (code, len), (0, want.len()), &want);
    expect_eq(rt, &out[..want.len().min(100)], want, &want);
    expect_eq(rt, out[99], 3, &want);
}

fn tells_caveats(rt: &impl Host, pass: &PassObject, row: &Row) {
    expect_eq(rt, clubpass_caveat_count(pass), row.caveats.len(), row);
    for (index, caveat) in row.caveats.iter().enumerate() {
        tells(rt, pass, Part::Caveat(index), caveat);
    }
}

fn tells_signature(rt: &impl Host, pass: &PassObject, row: &Row) {
    let mut signature = [3; 32];
    clubpass_signature(pass, &mut signature);
    expect_eq(rt, signature, *row.signature, row);
}

fn tells_parts(rt: &impl Host, pass: &PassObject, row: &Row) {
    tells(rt, pass, Part::Location, row.location);
    tells(rt, pass, Part::Identifier, row.identifier);
    tells_caveats(rt, pass, row);
    tells_signature(rt, pass, row);
}

fn writes(rt: &impl Host, pass: &PassObject, form: u32, want: &str) {
    let (mut out, mut len) = ([3; 400], 1000);
    let code = clubpass_write(rt.alloc(), pass, form, &mut out, &mut len);
    expect_eq(rt, (code, len), (0, want.len()), &want);
    expect_eq(rt, &out[..want.len().min(400)], want.as_bytes(), &want);
}

fn writes_texts(rt: &impl Host, pass: &PassObject, row: &Row) {
    for (place, text) in row.texts.iter().enumerate() {
        writes(rt, pass, place as u32 + 1, text);
    }
}

fn is_read(rt: &impl Host, text: &str, form: u32, row: &Row) {
    let pass = read(rt, text.as_bytes(), 0);
    expect_eq(rt, clubpass_form(&pass), form, &text);
    tells_parts(rt, &pass, row);
    writes_texts(rt, &pass, row);
}

fn are_read(rt: &impl Host, row: &Row) {
    for (place, text) in row.texts.iter().enumerate() {
        is_read(rt, text, place as u32 + 1, row);
    }
}

#[test]
fn reads_and_writes_passes(rt: HostRuntime) {
    for row in &ROWS {
        are_read(&rt, row);
    }
}

fn minted(rt: &impl Host, row: &Row) -> PassObject {
    let mut pass = any_object();
    let code = clubpass_mint(ROOT, row.location, row.identifier, &mut pass);
    expect_eq(rt, code, 0, row);
    pass
}

fn narrows(rt: &impl Host, pass: &mut PassObject, caveat: &[u8]) {
    let code = clubpass_narrow(pass, caveat);
    expect_eq(rt, code, 0, &caveat);
}

fn narrowed(rt: &impl Host, row: &Row) -> PassObject {
    let mut pass = minted(rt, row);
    for caveat in row.caveats {
        narrows(rt, &mut pass, caveat);
    }
    pass
}

fn expect_signed(rt: &impl Host, pass: &PassObject, root: &[u8], want: bool) {
    expect_eq(rt, clubpass_is_signed(pass, root), want, &root);
}

fn is_made(rt: &impl Host, row: &Row) {
    let pass = narrowed(rt, row);
    expect_eq(rt, clubpass_form(&pass), 2, row);
    tells_parts(rt, &pass, row);
    writes_texts(rt, &pass, row);
    expect_signed(rt, &pass, ROOT, true);
    expect_signed(rt, &pass, &ROOT[1..], false);
}

#[test]
fn makes_passes(rt: HostRuntime) {
    for row in &ROWS {
        is_made(&rt, row);
    }
}

// A part, the room for it, the code, and the length of the part.
static PARTS: [(Part, usize, (u32, usize)); 7] = [
    (Part::Location, 8, (6, 9)),
    (Part::Location, 9, (0, 9)),
    (Part::Identifier, 8, (6, 9)),
    (Part::Identifier, 9, (0, 9)),
    (Part::Caveat(1), 23, (6, 24)),
    (Part::Caveat(1), 24, (0, 24)),
    (Part::Caveat(3), 100, (7, 0)),
];

fn fits(rt: &impl Host, pass: &PassObject, row: &(Part, usize, (u32, usize))) {
    let (part, room, want) = row;
    let (mut out, mut len) = ([3; 100], 1000);
    let code = tell(pass, *part, &mut out[..(*room).min(100)], &mut len);
    expect_eq(rt, (code, len), *want, room);
    let changed = out[0] != 3;
    expect_eq(rt, changed, code == 0, room);
}

#[test]
fn tells_how_long_a_part_is(rt: HostRuntime) {
    let pass = narrowed(&rt, &ROWS[3]);
    for row in &PARTS {
        fits(&rt, &pass, row);
    }
}

// The number of a form, the room for a text, the code, and the length of the text.
static FORMS: [(u32, usize, (u32, usize)); 6] = [
    (0, 400, (8, 0)),
    (4, 400, (8, 0)),
    (1, 226, (6, 227)),
    (1, 227, (0, 227)),
    (3, 0, (6, 172)),
    (2, 155, (0, 155)),
];

fn fits_text(rt: &impl Host, pass: &PassObject, row: &(u32, usize, (u32, usize))) {
    let (form, room, want) = row;
    let (mut out, mut len) = ([3; 400], 1000);
    let code = clubpass_write(
        rt.alloc(),
        pass,
        *form,
        &mut out[..(*room).min(400)],
        &mut len,
    );
    expect_eq(rt, (code, len), *want, row);
}

#[test]
fn tells_how_long_a_text_is(rt: HostRuntime) {
    let pass = narrowed(&rt, &ROWS[3]);
    for row in &FORMS {
        fits_text(&rt, &pass, row);
    }
}

// Texts that aren't passes, and the codes of their faults.
static NOT_PASSES: [(&[u8], u32); 5] = [
    (&[b'A'; 8193], 1),
    (b"", 2),
    (
        b"{\"c\":[\"a\"],\"i\":\"keyid\",\"s64\":\"fN7nklEcW8b1KEhYBd_psk54XijiqZMB-dcRxgnjjvc\"}",
        2,
    ),
    (
        b"AgIFa2V5aWQAAQACAWEAAAYgAAAAAAAAAAAAAAAAAAAAAAAAAAAAAAAAAAAAAAAAAAA",
        3,
    ),
    (
        b"{\"c\":[{\"i\":\"a\",\"v64\":\"Yg\"}],\"i\":\"keyid\",\"s64\":\"fN7nklEcW8b1KEhYBd_psk54XijiqZMB-dcRxgnjjvc\"}",
        3,
    ),
];

static EMPTY: Row = Row {
    location: b"",
    identifier: b"",
    caveats: &[],
    signature: &[0; 32],
    texts: [""; 3],
};

fn is_refused(rt: &impl Host, text: &[u8], code: u32) {
    let pass = read(rt, text, code);
    expect_eq(rt, clubpass_form(&pass), 0, &text);
    tells_parts(rt, &pass, &EMPTY);
}

#[test]
fn shows_faults(rt: HostRuntime) {
    for (text, code) in &NOT_PASSES {
        is_refused(&rt, text, *code);
    }
}

static LONG: [u8; 8193] = [b'x'; 8193];

fn with_64_caveats(rt: &impl Host) -> PassObject {
    let mut pass = minted(rt, &EMPTY);
    for _ in 0..64 {
        narrows(rt, &mut pass, b"");
    }
    pass
}

#[test]
fn has_limits(rt: HostRuntime) {
    let mut pass = any_object();
    expect_eq(
        &rt,
        clubpass_mint(ROOT, &LONG[1..], b"", &mut pass),
        0,
        &"8,192 bytes",
    );
    expect_eq(&rt, clubpass_narrow(&mut pass, b"x"), 5, &"a byte more");
    expect_eq(
        &rt,
        clubpass_mint(ROOT, &LONG, b"", &mut pass),
        5,
        &"8,193 bytes",
    );
    let mut full = with_64_caveats(&rt);
    expect_eq(&rt, clubpass_narrow(&mut full, b""), 4, &"a 65th caveat");
}

// A booking for two guests on court-1, on 2026-05-01 (day 20,574) at 18:00. The request was made on
// 2026-04-20T12:00.
fn booking(guests: u8) -> AskObject {
    let mut facility = [0; 24];
    facility[..7].copy_from_slice(b"court-1");
    AskObject {
        owed: 600,
        spent: 0,
        action: 2,
        kind: 1,
        moment: 29_611_440,
        day: 20_574,
        hour: 18,
        guests,
        facility_len: 7,
        facility,
    }
}

// Caveats, the number of guests, the code, and the number of the caveat.
static ASKED: [(&[&[u8]], u8, (u32, usize)); 9] = [
    (&[], 2, (0, 0)),
    (&[], 49, (0, 0)),
    (&[], 50, (9, 0)),
    (&[], 255, (9, 0)),
    (&[b"kind = court", b"guests <= 2"], 2, (0, 0)),
    (&[b"kind = court", b"guests <= 1"], 2, (11, 2)),
    (&[b"kind = boat", b"kind = Boat"], 2, (11, 1)),
    (
        &[b"kind = court", b"hours = 18-19", b"kind = Boat"],
        2,
        (10, 3),
    ),
    (&[b"guests <= 49"], 50, (9, 0)),
];

fn asks(rt: &impl Host, row: &(&[&[u8]], u8, (u32, usize))) {
    let (caveats, guests, want) = row;
    let mut pass = minted(rt, &ROWS[0]);
    for caveat in *caveats {
        narrows(rt, &mut pass, caveat);
    }
    let mut number = 1000;
    let code = clubpass_first_fault(&pass, &booking(*guests), &mut number);
    expect_eq(rt, (code, number), *want, row);
}

#[test]
fn finds_the_first_fault(rt: HostRuntime) {
    for row in &ASKED {
        asks(&rt, row);
    }
}

static CAVEATS: [(&[u8], bool); 6] = [
    (b"kind = court", true),
    (b"guests <= 49", true),
    (b"guests <= 50", false),
    (b"until < 2026-05-01T18:00", true),
    (b"until < 2026-05-01", false),
    (b"", false),
];

#[test]
fn knows_caveats(rt: HostRuntime) {
    for (text, want) in &CAVEATS {
        expect_eq(&rt, clubpass_is_caveat(text), *want, text);
    }
}
