//! Writes the head of a reply.

ghost use Rattle.std.specs.Prelude.{◌≡◌, ◌≤◌, ◌+◌, ◌++◌, length};
ghost use Rattle.http_response.specs.{Body.max_line_len, Text.status_of as number_of};
ghost use Rattle.http_response.specs.Text as spec;

use crate::line::Line;
use crate::status::{methods_of, status_of};
use club_core::{Refusal, Reply};
use http::StatusCode;

fn status_code(reply: &Reply) -> StatusCode
    ensures { result ≡ number_of reply.now }
{
    StatusCode::from_u16(status_of(reply)).unwrap()
}

/// Appends the field `Allow` with the methods of the path's resource, if the status is 405.
fn push_allow(line: &mut Line, reply: &Reply)
    requires { length line.old + 20 ≤ max_line_len }
    ensures text { line.new ≡ line.old ++ spec.allow_field reply.now }
    ensures len { length line.new ≤ length line.old + 20 }
{
    if let Reply::Refused(Refusal::MethodNotAllowed(resource)) = reply {
        line.push(b"Allow: ");
        line.push(methods_of(*resource));
        line.push(b"\r\n");
    }
}

/// Returns the field `WWW-Authenticate` if the status is 401, else no bytes.
fn challenge(reply: &Reply) -> &'static [u8]
    ensures text { result.now ≡ spec.challenge_field reply.now }
    ensures len { length result.now ≤ 26 }
{
    if status_code(reply) == StatusCode::UNAUTHORIZED {
        b"WWW-Authenticate: Bearer\r\n"
    } else {
        b""
    }
}

fn status_line(reply: &Reply) -> Line
    ensures text { result ≡ spec.status_line reply.now }
    ensures len { length result ≤ 35 }
{
    let status = status_code(reply);
    let mut line = Line::new();
    line.push(b"HTTP/1.1 ");
    line.push(status.as_str().as_bytes());
    line.push(b" ");
    line.push(status.canonical_reason().unwrap().as_bytes());
    line.push(b"\r\n");
    line
}

/// Returns the head of a reply whose body has `body_len` bytes.
#[tactic(auto, unfolding(crate::specs::Text::head_text))]
pub(crate) fn head_of(reply: &Reply, body_len: usize) -> Line
    ensures { result ≡ spec.head_text reply.now body_len }
{
    let mut line = status_line(reply);
    line.push(b"Content-Type: application/json\r\nContent-Length: ");
    line.push_number(body_len as u64);
    line.push(b"\r\n");
    line.push(challenge(reply));
    push_allow(&mut line, reply);
    line.push(b"Connection: close\r\n\r\n");
    line
}
