//! The forms and the base64 around the bytes of a pass.

use crate::calls::unwrap_text;
use crate::rows::{Host, Piece, expect_eq, join};
use pass_forms::{Form, FormFault, MAX_BYTES, decode_base64};

const PASS: &[u8] = b"\x02\x01\x13http://example.org/\x02\x05keyid\x00\x00\x06\x20\
    \x7c\xde\xe7\x92\x51\x1c\x5b\xc6\xf5\x28\x48\x58\x05\xdf\xe9\xb2\
    \x4e\x78\x5e\x28\xe2\xa9\x93\x01\xf9\xd7\x11\xc6\x09\xe3\x8e\xf7";

static SPELLINGS: [&[u8]; 4] = [
    b"AgETaHR0cDovL2V4YW1wbGUub3JnLwIFa2V5aWQAAAYgfN7nklEcW8b1KEhYBd_psk54XijiqZMB-dcRxgnjjvc",
    b"AgETaHR0cDovL2V4YW1wbGUub3JnLwIFa2V5aWQAAAYgfN7nklEcW8b1KEhYBd_psk54XijiqZMB-dcRxgnjjvc=",
    b"AgETaHR0cDovL2V4YW1wbGUub3JnLwIFa2V5aWQAAAYgfN7nklEcW8b1KEhYBd/psk54XijiqZMB+dcRxgnjjvc",
    b"AgETaHR0cDovL2V4YW1wbGUub3JnLwIFa2V5aWQAAAYgfN7nklEcW8b1KEhYBd/psk54XijiqZMB+dcRxgnjjvc=",
];

static OBJECTS: [(&[u8], bool, &[u8]); 3] = [
    (b"{}", true, b"{}"),
    (b"{\xff", true, b"{\xff"),
    (b"e30", false, b"{}"),
];

fn wraps(rt: &impl Host, text: &[u8], form: Form, plain: bool, bytes: &[u8]) {
    let mut room = [1; MAX_BYTES];
    let unwrapped = unwrap_text(text, &mut room).expect(rt, "a form");
    let shape = (unwrapped.form, unwrapped.plain, unwrapped.len);
    expect_eq(rt, shape, (form, plain, bytes.len()), &text);
    expect_eq(rt, unwrapped.bytes(text, &room), bytes, &text);
}

#[test]
fn takes_off_four_spellings(rt: HostRuntime) {
    for text in &SPELLINGS {
        wraps(&rt, text, Form::V2, false, PASS);
    }
}

#[test]
fn json_is_plain_or_in_base64(rt: HostRuntime) {
    for (text, plain, bytes) in &OBJECTS {
        wraps(&rt, text, Form::Json, *plain, bytes);
    }
}

fn outcome(text: &[u8]) -> Result<(Form, usize), FormFault> {
    let mut room = [1; MAX_BYTES];
    let unwrapped = unwrap_text(text, &mut room)?;
    Ok((unwrapped.form, unwrapped.bytes(text, &room).len()))
}

static OTHER_TEXTS: [&[u8]; 8] = [
    // Characters of both alphabets, too much padding, and an unused last bit that is set.
    b"AgETaHR0cDovL2V4YW1wbGUub3JnLwIFa2V5aWQAAAYgfN7nklEcW8b1KEhYBd_psk54XijiqZMB+dcRxgnjjvc",
    b"AgETaHR0cDovL2V4YW1wbGUub3JnLwIFa2V5aWQAAAYgfN7nklEcW8b1KEhYBd_psk54XijiqZMB-dcRxgnjjvc==",
    b"AgETaHR0cDovL2V4YW1wbGUub3JnLwIFa2V5aWQAAAYgfN7nklEcW8b1KEhYBd_psk54XijiqZMB-dcRxgnjjvd",
    // Too little padding, padding alone, no text, white space, and bytes that aren't UTF-8.
    b"Zg=",
    b"=",
    b"",
    b" {}",
    b"\xff\xfe",
];

fn expect_outcomes(rt: &impl Host, texts: &[&[u8]], want: Result<(Form, usize), FormFault>) {
    for text in texts {
        expect_eq(rt, outcome(text), want, text);
    }
}

#[test]
fn refuses_other_texts(rt: HostRuntime) {
    expect_outcomes(&rt, &OTHER_TEXTS, Err(FormFault::Malformed));
}

// Base64 of the bytes `0`, `9`, `a` and `f`. `OTHER_BYTES` has bytes with which no form begins:
// `A`, and neighbours of bytes with which a form begins.
static V1_BYTES: [&[u8]; 4] = [b"MA", b"OQ", b"YQ", b"Zg=="];

static OTHER_BYTES: [&[u8]; 8] = [b"AQ", b"Aw", b"Lw", b"Og", b"QQ", b"YA", b"Zw", b"fA"];

#[test]
fn first_byte_decides_the_form(rt: HostRuntime) {
    expect_outcomes(&rt, &V1_BYTES, Ok((Form::V1, 1)));
    expect_outcomes(&rt, &OTHER_BYTES, Err(FormFault::Malformed));
    expect_eq(&rt, outcome(b"Ag"), Ok((Form::V2, 1)), &"the byte 2");
    expect_eq(&rt, outcome(b"ew"), Ok((Form::Json, 1)), &"a brace");
}

static LONG: [(&[Piece], Result<(Form, usize), FormFault>); 4] = [
    (&[(8192, b"A")], Err(FormFault::Malformed)),
    (&[(8193, b"A")], Err(FormFault::TooLong)),
    (&[(1, b"Ag"), (8190, b"A")], Ok((Form::V2, 6144))),
    (&[(1, b"{g"), (8191, b"A")], Err(FormFault::TooLong)),
];

#[test]
fn reads_up_to_8192_bytes(rt: HostRuntime) {
    for (pieces, want) in &LONG {
        expect_eq(&rt, outcome(&join(&rt, pieces)), *want, pieces);
    }
}

// RFC 4648's vectors in each alphabet and padding, then texts that aren't base64.
static DECODED: [(&[u8], Option<&[u8]>); 13] = [
    (b"", Some(b"")),
    (b"Zg", Some(b"f")),
    (b"Zm8=", Some(b"fo")),
    (b"Zm9v", Some(b"foo")),
    (b"Zm9vYmFy", Some(b"foobar")),
    (b"_w", Some(b"\xff")),
    (b"-_8", Some(b"\xfb\xff")),
    (b"+/8=", Some(b"\xfb\xff")),
    (b"Z", None),
    (b"Zg=", None),
    (b"Zh", None),
    (b"-/8", None),
    (b" Zg", None),
];

fn decodes(rt: &impl Host, text: &[u8], want: Option<&[u8]>) {
    match decode_base64(rt.alloc(), text).expect(rt, "memory") {
        Some(bytes) => expect_eq(rt, Some(bytes.as_slice()), want, &text),
        None => expect_eq(rt, None, want, &text),
    }
}

#[test]
fn decodes_base64(rt: HostRuntime) {
    for (text, want) in &DECODED {
        decodes(&rt, text, *want);
    }
}
