//! Looks for a head at the start of the given bytes.

ghost use Rattle.std.specs.Prelude.{◌≡◌, ◌≤◌, length, map, take, All};
ghost use Rattle.http_request.specs.Frame.{HasNoPiece, IsHeadResultOf};

use crate::head::{MAX_FIELDS, piece_len, read_head};
use crate::length::asked_length;
use httparse::spans::{HeaderSpan, RequestSpans};

/// A head at the start of the given bytes.
#[derive(Clone, Copy)]
pub(crate) struct Head {
    /// The number of bytes of the head.
    pub(crate) len: usize,
    /// The positions of the head's parts.
    pub(crate) spans: RequestSpans,
    /// The number of bytes of the body.
    pub(crate) body_len: usize,
}

/// The result of looking for a head at the start of the given bytes.
#[derive(Clone, Copy)]
pub(crate) enum HeadResult {
    /// No head ends within the first `MAX_HEAD_LEN` bytes.
    NoPiece,
    /// The desk refuses the head, whatever bytes follow it.
    Refused,
    /// A complete head, which announces a body of a known length.
    Asking(Head),
}

/// Looks for a head at the start of the bytes. The caller has searched the first `searched` bytes
/// already, and no head ends there. Writes the positions of the head's fields to `fields`.
pub(crate) fn head_result_of(
    bytes: &[u8],
    searched: usize,
    fields: &mut [HeaderSpan; MAX_FIELDS],
) -> HeadResult
    requires inside { searched ≤ length bytes.now }
    requires open { HasNoPiece (take searched bytes.now) }
    ensures { IsHeadResultOf bytes.now fields.new result }
{
    let Some(len) = piece_len(bytes, searched) else {
        return HeadResult::NoPiece;
    };
    let piece = &bytes[..len];
    let Some(spans) = read_head(piece, fields) else {
        return HeadResult::Refused;
    };
    let method = spans.method.of(piece);
    let Some(body_len) = asked_length(piece, &fields[..spans.headers], method) else {
        return HeadResult::Refused;
    };
    HeadResult::Asking(Head {
        len,
        spans,
        body_len,
    })
}
