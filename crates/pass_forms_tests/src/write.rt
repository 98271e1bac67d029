//! Passes that are made, narrowed and written.

use crate::calls::{narrow, read, read_any, write, write_any};
use crate::rows::{Fields, Host, Piece, expect_caveats, expect_eq, expect_pass, pass_of};
use crate::texts::{FORMS, KNOWN};
use crate::v1::{BARE_FIELDS, KNOWN_FIELDS, ROOT};
use pass_forms::{Form, FormFault, Pass};
use std::alloc::Global;

fn mint_known(rt: &impl Host, want: &Fields<'_>) -> Pass {
    let pass = Pass::mint(rt.alloc(), ROOT, want.location, want.identifier).expect(rt, "memory");
    expect_pass(rt, &pass, want);
    expect_eq(rt, pass.is_signed(ROOT), true, want);
    pass
}

fn known_pass(rt: &impl Host) -> Pass {
    let mut pass = mint_known(rt, &BARE_FIELDS);
    narrow(rt.alloc(), &mut pass, b"test = caveat").expect(rt, "memory");
    pass
}

#[test]
fn gives_its_parts_back(rt: HostRuntime) {
    let (parts, want) = (known_pass(&rt).into_parts(), &KNOWN_FIELDS);
    expect_eq(&rt, parts.location.as_slice(), want.location, want);
    expect_eq(&rt, parts.identifier.as_slice(), want.identifier, want);
    expect_eq(&rt, parts.signature, *want.signature, want);
    expect_caveats(&rt, &parts.caveats, want);
}

fn expect_text(rt: &impl Host, form: Form, pass: &Pass, want: &str) {
    let text = write(rt.alloc(), form, pass).expect(rt, "a text");
    expect_eq(rt, text.as_str(), want, &form);
}

#[test]
fn answers_with_ample_memory(rt: HostRuntime) {
    let pass = known_pass(&rt);
    for (place, form) in FORMS.iter().enumerate() {
        expect_text(&rt, *form, &pass, KNOWN[place]);
    }
}

fn is_written_in_json(rt: &impl Host, pass: &Pass, text: &str) {
    expect_text(rt, Form::Json, pass, text);
    let back = read(rt.alloc(), Form::Json, text.as_bytes()).expect(rt, "the pass of its text");
    expect_eq(rt, back.location(), pass.location(), &"a location");
    expect_eq(rt, back.identifier(), pass.identifier(), &"an identifier");
    expect_eq(rt, back.signature(), pass.signature(), &"a signature");
}

static JSON: [(&str, &str); 2] = [
    (
        "{\"i\":\"keyid\",\"s64\":\"fN7nklEcW8b1KEhYBd_psk54XijiqZMB-dcRxgnjjvc\"}",
        "{\"c\":[],\"i\":\"keyid\",\"s64\":\"fN7nklEcW8b1KEhYBd_psk54XijiqZMB-dcRxgnjjvc\",\"v\":2}",
    ),
    (
        "{\"i64\":\"_w\",\"l64\":\"__4AYWJj\",\"c\":[{\"i64\":\"YQ==\"},{\"i64\":\"_w\"}],\"s\":\"0123456789abcdef0123456789abcdef\"}",
        "{\"c\":[{\"i\":\"a\"},{\"i64\":\"_w\"}],\"i64\":\"_w\",\"l64\":\"__4AYWJj\",\"s64\":\"MDEyMzQ1Njc4OWFiY2RlZjAxMjM0NTY3ODlhYmNkZWY\",\"v\":2}",
    ),
];

#[test]
fn writes_one_text(rt: HostRuntime) {
    for (text, written) in &JSON {
        let pass = read(rt.alloc(), Form::Json, text.as_bytes()).expect(&rt, "a pass");
        is_written_in_json(&rt, &pass, written);
    }
}

// RFC 8259 has short escapes. Other bytes below 0x20 are written with `\u`.
#[test]
fn writes_escapes(rt: HostRuntime) {
    let identifier: &[Piece] = &[(
        1,
        b"\x00\x08\t\n\x0c\r\x1f\"\\/\x7f\xc3\xa9\xe2\x80\xa8\xf0\x9f\x98\x80",
    )];
    let text =
        "{\"c\":[],\"i\":\"\\u0000\\b\\t\\n\\f\\r\\u001f\\\"\\\\/\x7f\u{e9}\u{2028}\u{1f600}\",\"s64\":\"__________________________________________8\",\"v\":2}";
    is_written_in_json(&rt, &pass_of(&rt, identifier, 0), text);
}

// The lengths of the text and of the identifier, and the number of caveats.
type Lens = (usize, usize, usize);

type Row = (Form, usize, usize, Result<Lens, FormFault>);

// Without its identifier, a pass has 77 bytes in V1, 40 in V2 and 73 in JSON. In base64, 6,144
// bytes become 8,192 characters.
static LENS: [Row; 13] = [
    (Form::V1, 6067, 0, Ok((8192, 6067, 0))),
    (Form::V1, 6068, 0, Err(FormFault::TooLong)),
    (Form::V1, 0, 65, Err(FormFault::TooMany)),
    (Form::V1, 9000, 65, Err(FormFault::TooMany)),
    (Form::V2, 6104, 0, Ok((8192, 6104, 0))),
    (Form::V2, 6105, 0, Err(FormFault::TooLong)),
    (Form::V2, 0, 65, Err(FormFault::TooMany)),
    (Form::V2, 9000, 65, Err(FormFault::TooMany)),
    (Form::Json, 8119, 0, Ok((8192, 8119, 0))),
    (Form::Json, 8120, 0, Err(FormFault::TooLong)),
    (Form::Json, 0, 64, Ok((648, 0, 64))),
    (Form::Json, 0, 65, Err(FormFault::TooMany)),
    (Form::Json, 9000, 65, Err(FormFault::TooMany)),
];

fn lens_of(alloc: Global, text: Result<String, FormFault>) -> Result<Lens, FormFault> {
    let text = text?;
    let (_form, back) = read_any(alloc, text.as_bytes())?;
    Ok((text.len(), back.identifier().len(), back.caveats().len()))
}

fn has_lens(rt: &impl Host, row: &Row) {
    let (form, identifier_len, caveat_count, want) = row;
    let pass = pass_of(rt, &[(*identifier_len, b"x")], *caveat_count);
    let written = write(rt.alloc(), *form, &pass);
    expect_eq(rt, lens_of(rt.alloc(), written), *want, row);
    let written = write_any(rt.alloc(), *form, &pass);
    expect_eq(rt, lens_of(rt.alloc(), written), *want, row);
}

#[test]
fn writes_up_to_the_limits(rt: HostRuntime) {
    for row in &LENS {
        has_lens(&rt, row);
    }
}

#[test]
fn counts_caveats(rt: HostRuntime) {
    let mut pass = pass_of(&rt, &[], 63);
    narrow(rt.alloc(), &mut pass, b"").expect(&rt, "a narrower pass");
    for form in &FORMS {
        expect_eq(&rt, write(rt.alloc(), *form, &pass).is_ok(), true, form);
    }
    let refused = narrow(rt.alloc(), &mut pass, b"");
    expect_eq(&rt, refused, Err(FormFault::TooMany), &"a 65th caveat");
    expect_eq(&rt, pass.caveats().len(), 64, &"caveats");
}
