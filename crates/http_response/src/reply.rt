//! Writes the text of a reply: the head and the body.

ghost use Rattle.std.specs.Prelude.{◌≡◌, ◌≤◌, ◌++◌, length, drop};
ghost use Rattle.http_response.specs.Text.{reply_text};

use crate::body::body_of;
use crate::head::head_of;
use club_core::Reply;

/// The maximum number of bytes in a reply.
pub const MAX_REPLY_LEN: usize = 512;

/// Writes the text of a reply to the front of the buffer `room`, and returns the text's length in
/// bytes. The rest of the buffer is unchanged. Every reply fits into the buffer.
///
/// The text is an HTTP/1.1 response (RFC 9112) with a JSON object as its body. The fields of a
/// reply are the content type, the content length and `Connection: close`. Status 401 adds the
/// challenge `Bearer` (RFC 6750). Status 405 adds the methods that the path's resource allows.
#[tactic(auto, unfolding(crate::specs::Text::reply_text, crate::specs::Text::head_text))]
pub fn reply_bytes(reply: &Reply, room: &mut [u8; MAX_REPLY_LEN]) -> usize
    ensures len { result ≡ length (reply_text reply.now) }
    ensures room { room.new ≡ reply_text reply.now ++ drop result room.old }
    ensures fits { result ≤ MAX_REPLY_LEN }
{
    let body = body_of(reply);
    let body = body.as_bytes();
    let head = head_of(reply, body.len());
    let head = head.as_bytes();
    let len = head.len() + body.len();
    room[..head.len()].copy_from_slice(head);
    room[head.len()..len].copy_from_slice(body);
    len
}
