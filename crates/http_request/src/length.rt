//! The length of a body.

ghost use Rattle.std.specs.Prelude.{◌≡◌, length, map, All};
ghost use Rattle.httparse.specs.Spans.{IsHeaderWithin, header_bytes};
ghost use Rattle.http_request.specs.Length as spec;

use crate::fields::{Values, values_of};
use club_values::digits::read_digits;
use httparse::spans::HeaderSpan;

/// The maximum number of bytes in a body.
pub const MAX_BODY_LEN: usize = 256;

/// The maximum number of digits in the length of a body.
const MAX_DIGITS: usize = 4;

/// Parses the length of a body. The text must have 1 to 4 digits, and the number must be at most
/// `MAX_BODY_LEN`.
fn length_in(value: &[u8]) -> Option<usize>
    ensures { result ≡ spec.length_in value.now }
{
    if value.len() > MAX_DIGITS {
        return None;
    }
    let len = read_digits(value)? as usize;
    if len <= MAX_BODY_LEN { Some(len) } else { None }
}

/// Returns the length of the body that a head announces, in bytes. Returns `None` if the desk
/// refuses the head.
pub(crate) fn asked_length(head: &[u8], fields: &[HeaderSpan], method: &[u8]) -> Option<usize>
    requires { All (IsHeaderWithin (length head.now)) fields.now }
    ensures { result ≡ spec.asked_length method.now (map (header_bytes head.now) fields.now) }
{
    let Values::None = values_of(head, fields, b"transfer-encoding") else {
        return None;
    };
    let len = match values_of(head, fields, b"content-length") {
        Values::None => 0,
        Values::One(value) => length_in(value)?,
        Values::More => return None,
    };
    if len == 0 || matches!(method, b"PUT") {
        Some(len)
    } else {
        None
    }
}
