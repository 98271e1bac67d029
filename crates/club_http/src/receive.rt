//! Reads a request from an inlet.

ghost use Rattle.std.specs.Prelude.{◌≡◌, ◌≤◌, [], length, take, IfErr, IfOk, MatchResult};
ghost use Rattle.club_http.specs.{Calls.ReadsNoFurther, Exchange.{one_more, Receives, IsCutOff}};
ghost use Rattle.http_request.specs.{Frame.Covers, Length.max_request_len};

use crate::ends::Inlet;
use http_request::HeadScan;

/// Reads a request into the buffer `room`, and returns the number of bytes that arrived. Stops when
/// the request is complete or the input ends. Each call to the reader may fill the rest of the
/// buffer, so the buffer may also contain bytes after the request. When this function returns, the
/// scan covers all bytes that arrived.
///
/// # Errors
///
/// Fails with the number of arrived bytes if the reader failed before the request was complete.
pub(crate) fn receive<R: Inlet>(
    reader: &mut R,
    room: &mut [u8],
    scan: &mut HeadScan,
) -> Result<usize, usize>
    requires space { length room.old ≡ max_request_len }
    requires begins { Covers scan.old [] }
    ensures received { IfOk result (λ n. (n ≤ max_request_len) × Covers scan.new (take n room.new)
        × Receives (R.to_come reader.old) (R.to_come reader.new) (take n room.new)) }
    ensures cut_off { IfErr result (λ n. (n ≤ max_request_len)
        × IsCutOff (R.to_come reader.old) (R.to_come reader.new) (take n room.new)) }
    ensures calls { MatchResult result
        (λ n. ReadsNoFurther R.fills reader.old (take n room.new) reader.new)
        (λ n. ReadsNoFurther R.fills reader.old (take n room.new) reader.new) }
    ensures counted { MatchResult result
        (λ _. R.failures reader.new ≡ R.failures reader.old)
        (λ _. R.failures reader.new ≡ one_more (R.failures reader.old)) }
{
    let mut len = 0;
    while !scan.is_whole(&room[..len]) {
        match reader.fill(&mut room[len..]) {
            None => return Err(len),
            Some(0) => return Ok(len),
            Some(came) => {
                scan.go_on(&room[..len + came], len);
                len += came;
            }
        }
    }
    Ok(len)
}
