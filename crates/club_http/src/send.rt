//! Writes a reply to an outlet.

ghost use Rattle.club_http.specs.{Calls.ArePut, Exchange.TakesAll};
ghost use Rattle.http_response.specs.Text.{reply_text};

use crate::ends::Outlet;
use club_core::Reply;
use http_response::{MAX_REPLY_LEN, reply_bytes};

/// Writes all of the bytes, with as many calls to the writer as needed.
///
/// # Errors
///
/// Fails with the number of bytes that the writer took before a call failed or took no bytes.
pub fn put_all<W: Outlet>(writer: &mut W, bytes: &[u8]) -> Result<(), usize>
    ensures written { TakesAll (W.taken writer.old) (W.taken writer.new)
        (W.failures writer.old) (W.failures writer.new) bytes.now result }
    ensures calls { ArePut W.puts writer.old writer.new }
{
    let mut sent = 0;
    while sent < bytes.len() {
        match writer.put(&bytes[sent..]) {
            Some(taken) if taken > 0 => sent += taken,
            _ => return Err(sent),
        }
    }
    Ok(())
}

/// Writes the text of a reply.
///
/// # Errors
///
/// Fails with the number of bytes that the writer took before a call failed or took no bytes.
pub fn send_reply<W: Outlet>(reply: &Reply, writer: &mut W) -> Result<(), usize>
    ensures written { TakesAll (W.taken writer.old) (W.taken writer.new)
        (W.failures writer.old) (W.failures writer.new) (reply_text reply.now) result }
    ensures calls { ArePut W.puts writer.old writer.new }
{
    let mut room = [0; MAX_REPLY_LEN];
    let len = reply_bytes(reply, &mut room);
    put_all(writer, &room[..len])
}
