//! The pass of a request.

ghost use Rattle.std.specs.Prelude.{◌≡◌, length, map, All, option_map};
ghost use Rattle.httparse.specs.Spans.{IsHeaderWithin, header_bytes};
ghost use Rattle.http_request.specs.Pass as spec;

use crate::fields::{Values, values_of};
use httparse::spans::HeaderSpan;

/// The length of `Bearer` and one space, in bytes.
const SCHEME_LEN: usize = 7;

/// Returns the text of the pass in a field's value. The text comes after `Bearer` and one space.
fn bearer_text(value: &[u8]) -> Option<&[u8]>
    ensures { option_map (λ text. text.now) result ≡ spec.bearer_text value.now }
{
    if value.len() < SCHEME_LEN {
        return None;
    }
    let (scheme, text) = value.split_at(SCHEME_LEN);
    if scheme.eq_ignore_ascii_case(b"bearer ") {
        Some(text)
    } else {
        None
    }
}

/// Returns the text of the pass. Returns `None` unless the head has exactly one field
/// `Authorization`, and the field's value begins with `Bearer` and a space. The case of the letters
/// of `Bearer` doesn't matter.
pub(crate) fn pass_text_of<'a>(head: &'a [u8], fields: &[HeaderSpan]) -> Option<&'a [u8]>
    requires { All (IsHeaderWithin (length head.now)) fields.now }
    ensures { option_map (λ text. text.now) result
        ≡ spec.pass_text_of (map (header_bytes head.now) fields.now) }
{
    match values_of(head, fields, b"authorization") {
        Values::One(value) => bearer_text(value),
        _ => None,
    }
}
