//! Passes that are read, all at once and field by field, and bytes that are refused.

use crate::calls::{open_v1, open_v2, read};
use crate::rows::{Fields, Host, Piece, expect_eq, expect_pass, join};
use pass_forms::{Field, FieldSource, Form, FormFault, Pass};
use pass_json::JsonFields;

pub(crate) type Row = (&'static [Piece], Fields<'static>);

pub(crate) type Refused = (&'static [Piece], FormFault);

fn expect_next<'a, S: FieldSource<'a>>(rt: &impl Host, fields: &mut S, want: Option<Field<'a>>) {
    expect_eq(rt, fields.next(), want, &"the next field");
}

fn expect_fields<'a, S: FieldSource<'a>>(rt: &impl Host, fields: &mut S, want: &Fields<'a>) {
    expect_next(rt, fields, Some(Field::Location(want.location)));
    expect_next(rt, fields, Some(Field::Identifier(want.identifier)));
    for caveat in want.caveats {
        expect_next(rt, fields, Some(Field::Caveat(caveat)));
    }
    expect_next(rt, fields, Some(Field::Signature(*want.signature)));
    expect_next(rt, fields, None);
    expect_next(rt, fields, None);
}

// The second source is made before the first source is read.
fn expect_fields_twice<'a, S: FieldSource<'a> + Drop>(
    rt: &impl Host,
    fields: &mut S,
    want: &Fields<'a>,
) {
    let mut others = fields.again();
    expect_fields(rt, fields, want);
    expect_fields(rt, &mut others, want);
}

// Reads the fields of V1 and V2 without memory. JSON can't be read without memory.
fn walks<'a>(rt: &impl Host, form: Form, bytes: &'a [u8], want: &Fields<'a>) {
    match form {
        Form::V1 => expect_fields_twice(rt, &mut open_v1(bytes).expect(rt, "fields"), want),
        Form::V2 => expect_fields_twice(rt, &mut open_v2(bytes).expect(rt, "fields"), want),
        Form::Json => {}
    }
}

fn walks_in_memory<'a>(rt: &impl Host, pass: &'a Pass, want: &Fields<'a>) {
    expect_fields_twice(rt, &mut pass.fields(), want);
}

fn walks_in_json<'a>(rt: &impl Host, pass: &'a Pass, want: &Fields<'a>) {
    expect_fields_twice(rt, &mut JsonFields::over(pass), want);
}

fn is_read(rt: &impl Host, form: Form, row: &Row) {
    let bytes = join(rt, row.0);
    walks(rt, form, &bytes, &row.1);
    let pass = read(rt.alloc(), form, &bytes).expect(rt, "a pass");
    expect_pass(rt, &pass, &row.1);
    walks_in_memory(rt, &pass, &row.1);
    walks_in_json(rt, &pass, &row.1);
}

pub(crate) fn are_read(rt: &impl Host, form: Form, rows: &[Row]) {
    for row in rows {
        is_read(rt, form, row);
    }
}

fn is_refused(rt: &impl Host, form: Form, bytes: &[u8], fault: FormFault) {
    let want = Some(fault);
    let opened = match form {
        Form::V1 => open_v1(bytes).err(),
        Form::V2 => open_v2(bytes).err(),
        Form::Json => want,
    };
    expect_eq(rt, opened, want, &bytes);
    expect_eq(rt, read(rt.alloc(), form, bytes).err(), want, &bytes);
}

pub(crate) fn are_refused(rt: &impl Host, form: Form, rows: &[Refused]) {
    for (pieces, fault) in rows {
        is_refused(rt, form, &join(rt, pieces), *fault);
    }
}

pub(crate) fn are_refused_between(
    rt: &impl Host,
    form: Form,
    (before, after): (Piece, Piece),
    rows: &[&'static [u8]],
    fault: FormFault,
) {
    for odd in rows {
        is_refused(rt, form, &join(rt, &[before, (1, *odd), after]), fault);
    }
}

pub(crate) fn is_refused_cut_short(rt: &impl Host, form: Form, pieces: &[Piece], len: usize) {
    let bytes = join(rt, pieces);
    expect_eq(rt, bytes.len(), len, &form);
    for len in 0..bytes.len() {
        is_refused(rt, form, &bytes[..len], FormFault::Malformed);
    }
}
