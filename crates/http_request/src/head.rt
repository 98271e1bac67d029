//! The head of a request.

ghost use Rattle.std.specs.Prelude.{◌≤◌, length, take, MatchOption};
ghost use Rattle.http_request.specs.Frame.{HasNoPiece, IsPiece, IsHeadOf};
ghost use Rattle.httparse.specs.{Grammar.RequestHead, Spans.{IsRequestWithin, IsRequestAt}};

use httparse::Status;
use httparse::spans::{HeaderSpan, RequestSpans, parse_request};

/// The maximum number of bytes in a head.
pub const MAX_HEAD_LEN: usize = 16_384;

/// The maximum number of fields in a head.
pub const MAX_FIELDS: usize = 32;

/// Returns the length of the head at the start of the bytes. A head ends with the first empty line,
/// CR LF CR LF. The caller has searched the first `searched` bytes already, and no head ends there.
/// This function therefore doesn't search these bytes again.
pub(crate) fn piece_len(bytes: &[u8], searched: usize) -> Option<usize>
    requires inside { searched ≤ length bytes.now }
    requires open { HasNoPiece (take searched bytes.now) }
    ensures { MatchOption result
        (HasNoPiece bytes.now)
        (λ n. (n ≤ length bytes.now) × IsPiece (take n bytes.now)) }
{
    let limit = bytes.len().min(MAX_HEAD_LEN);
    for end in searched + 1..limit + 1 {
        if bytes[..end].ends_with(b"\r\n\r\n") {
            return Some(end);
        }
    }
    None
}

/// Returns the positions of a head's parts. Returns `None` if the piece isn't exactly a head.
pub(crate) fn read_head(piece: &[u8], fields: &mut [HeaderSpan; MAX_FIELDS]) -> Option<RequestSpans>
    ensures { MatchOption result
        ((head : RequestHead) → ¬ (IsHeadOf piece.now head))
        (λ spans. IsRequestWithin piece.now fields.new spans
        × ((head : RequestHead) × IsHeadOf piece.now head
        × IsRequestAt piece.now fields.new spans head)) }
{
    match parse_request(piece, fields) {
        Ok(Status::Complete(spans)) if spans.len == piece.len() => Some(spans),
        _ => None,
    }
}
