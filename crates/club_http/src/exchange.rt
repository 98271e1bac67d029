//! One exchange with a client: reads a request, asks the desk, and writes the reply.

ghost use Rattle.std.specs.{Io.KnownBytes.Appends, Prelude.{◌≡◌, Err}};
ghost use Rattle.club_http.specs.{Calls.ReadsNoFurther, Exchange.{Replies, Exchanges}};
ghost use Rattle.club_http.specs.Exchange.{reader_failures, writer_failures, IsCutOff};

use crate::ends::{Inlet, Outlet};
use crate::face::Face;
use crate::fault::AnswerFault;
use crate::responder::Responder;
use club_core::Reply;
use club_values::Moment;
use http_request::laws::{body_stays, whole_keeps_its_reading};

/// Reads a request, asks the desk, and writes the text of the desk's reply.
///
/// After the request is complete, this function doesn't call the reader again. If the input ends
/// early, the bytes that have arrived count as the request. The last call to the reader may also
/// return bytes after the request. Bytes after the request have no effect on the reply. In all,
/// this function reads at most `MAX_REQUEST_LEN` bytes, and the `Face` keeps these bytes. Parsing
/// the body and asking the desk need memory. Writing the reply needs no memory.
///
/// # Errors
///
/// - `Read` if the reader failed before the request was complete. The desk wasn't asked, and
///   nothing was written.
/// - `Write(n)` if the writer failed or took nothing after the first `n` bytes of the reply's text.
///   The desk's decision isn't undone.
pub fn answer<D: Responder, R: Inlet, W: Outlet>(
    face: &mut Face,
    desk: &mut D,
    moment: Moment,
    reader: &mut R,
    writer: &mut W,
) -> Result<Reply, AnswerFault>
    ensures exchanged { Exchanges (record {
      decides = λ reply. Replies (D.answers moment) (R.to_come reader.old) (R.to_come reader.new)
          face.new desk.old reply desk.new;
      unasked = desk.new ≡ desk.old;
      writes = Appends (W.taken writer.old) (W.taken writer.new);
    }) result }
    ensures cut_off { result ≡ Err AnswerFault.Read
        → IsCutOff (R.to_come reader.old) (R.to_come reader.new) face.new
        × (writer.new ≡ writer.old) }
    ensures calls { ReadsNoFurther R.fills reader.old face.new reader.new }
    ensures reads { R.failures reader.new ≡ reader_failures (R.failures reader.old) result }
    ensures writes { W.failures writer.new ≡ writer_failures (W.failures writer.old) result }
{
    let Some(scan) = face.receive(reader) else {
        return Err(AnswerFault::Read);
    };
    whole_keeps_its_reading();
    body_stays();
    face.respond(&scan, desk, moment, writer)
}
