//! Runs of the program with input and output in memory. The pass and its root come from
//! libmacaroons' documentation. A program in another language computed the other values.

use super::doubles::Slow;
use crate::expect::{Host, arguments_of, expect_case, expect_end, joined, printed};
use passtool_commands::run;
use std::io::{Read, Write};
use test_kit::End::{self, Prints};
use test_kit::Output;

// The pass with the identifier `we used our secret key`, the location http://mybank/ and the caveat
// `test = caveat`.
pub(crate) const TEXT: &str =
    "MDAxY2xvY2F0aW9uIGh0dHA6Ly9teWJhbmsvCjAwMjZpZGVudGlmaWVyIHdlIHVzZWQgb3VyIHNlY3JldCBrZXkKMDAxNmNpZCB0ZXN0ID0gY2F2ZWF0CjAwMmZzaWduYXR1cmUgGXusegRK8zMyhluSZuJtSTvdZopmDkTYjOGpmMI9vWcK";

pub(crate) const V2_TEXT: &str =
    "AgEOaHR0cDovL215YmFuay8CFndlIHVzZWQgb3VyIHNlY3JldCBrZXkAAg10ZXN0ID0gY2F2ZWF0AAAGIBl7rHoESvMzMoZbkmbibUk73WaKZg5E2IzhqZjCPb1n";

pub(crate) const JSON_TEXT: &str =
    "{\"c\":[{\"i\":\"test = caveat\"}],\"i\":\"we used our secret key\",\"l\":\"http://mybank/\",\"s64\":\"GXusegRK8zMyhluSZuJtSTvdZopmDkTYjOGpmMI9vWc\",\"v\":2}";

pub(crate) const SHOWN: &str =
    "form v1\nlocation http://mybank/\nidentifier we used our secret key\ncaveat 1 test = caveat\nsignature 197bac7a044af33332865b9266e26d493bdd668a660e44d88ce1a998c23dbd67";

pub(crate) const BARE_TEXT: &str =
    "MDAxY2xvY2F0aW9uIGh0dHA6Ly9teWJhbmsvCjAwMjZpZGVudGlmaWVyIHdlIHVzZWQgb3VyIHNlY3JldCBrZXkKMDAyZnNpZ25hdHVyZSDj2eApCFJsTAA5rhURQRXZf91ovyujebNCqvD2F9BVLwo";

// This pass has no caveats, and its root is unknown.
pub(crate) const OTHER_TEXT: &str =
    "MDAyMWxvY2F0aW9uIGh0dHA6Ly9leGFtcGxlLm9yZy8KMDAxNWlkZW50aWZpZXIga2V5aWQKMDAyZnNpZ25hdHVyZSB83ueSURxbxvUoSFgF3-myTnheKOKpkwH51xHGCeOO9wo";

pub(crate) const OTHER_V2: &str =
    "AgETaHR0cDovL2V4YW1wbGUub3JnLwIFa2V5aWQAAAYgfN7nklEcW8b1KEhYBd_psk54XijiqZMB-dcRxgnjjvc";

pub(crate) const VERIFY: &str = "verify|--root|ROOT";

pub(crate) const SHOW: &str = "show";

pub(crate) const TO_V1: &str = "convert|--form|v1";

pub(crate) const TO_V2: &str = "convert|--form|v2";

pub(crate) const TO_JSON: &str = "convert|--form|json";

// Makes `TEXT` from `BARE_TEXT`.
pub(crate) const NARROW: &str = "narrow|--any|test = caveat";

// Makes `V2_TEXT`.
pub(crate) const MINT: &str =
    "mint|--root|ROOT|--id|we used our secret key|--location=http://mybank/|test = caveat";

pub(crate) const MALFORMED: End = Prints(3, "fault 2: malformed");

pub(crate) const TOO_MANY: End = Prints(3, "fault 4: too many caveats");

pub(crate) type Row = (&'static str, &'static str, End);

fn ended_by(rt: &impl Host, line: &str, reader: &mut impl Read, writer: &mut impl Write) -> Output {
    let arguments = arguments_of(rt, "passtool", line);
    match run(rt.alloc(), arguments.as_slice(), reader, writer) {
        Ok(outcome) => Output {
            status: outcome.status(),
            text: String::new(rt.alloc()),
        },
        Err(fault) => printed(rt, fault.status(), &fault),
    }
}

/// Fails if the run writes anything before a fault.
pub(crate) fn output_of<R: Read>(rt: &impl Host, line: &str, reader: &mut R) -> Output {
    let mut written = Vec::new(rt.alloc());
    let output = ended_by(rt, line, reader, &mut written);
    if output.text.is_empty() {
        let text = String::from_utf8(written).ok().expect(rt, "text");
        let status = output.status;
        return Output { status, text };
    }
    expect_case(rt, line, written.len(), 0);
    output
}

/// The run fails if it reads its input.
pub(crate) fn unread_output_of(rt: &impl Host, line: &str) -> Output {
    output_of(rt, line, &mut Slow::failing(rt.alloc(), b""))
}

pub(crate) fn expect(rt: &impl Host, line: &str, input: &[u8], end: End) {
    let mut reader = input;
    expect_end(rt, &output_of(rt, line, &mut reader), end, line);
}

pub(crate) fn expect_of(rt: &impl Host, line: &str, text: &str, more: &str, end: End) {
    expect(rt, line, joined(rt, &[text, more]).as_bytes(), end);
}

pub(crate) fn expect_rows(rt: &impl Host, rows: &[Row]) {
    for (line, input, end) in rows {
        expect(rt, line, input.as_bytes(), *end);
    }
}

/// Expects this end, and that the writer took these bytes.
pub(crate) fn expect_taken(
    rt: &impl Host,
    line: &str,
    reader: &mut impl Read,
    mut writer: Slow<'_>,
    end: End,
    taken: &[u8],
) {
    expect_end(rt, &ended_by(rt, line, reader, &mut writer), end, line);
    expect_case(rt, line, writer.taken.as_slice(), taken);
}

pub(crate) fn expect_unread(rt: &impl Host, before: &str, rest: &str, end: End) {
    let line = joined(rt, &[before, rest]);
    expect_end(rt, &unread_output_of(rt, line.as_str()), end, line.as_str());
}
