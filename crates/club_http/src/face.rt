//! Defines `Face`: the routes and the buffer that all exchanges of a server share.

ghost use Rattle.std.specs.{Io.KnownBytes.Appends, Prelude.{◌≡◌, ◌↔◌, [], IfNone, IfOk, IfSome}};
ghost use Rattle.std.specs.Prelude.{IsTrue};
ghost use Rattle.club_http.specs.Exchange.{read_failures, Exchanges, writer_failures, IsCutOff};
ghost use Rattle.club_http.specs.{Exchange.{Receives, IsReplied}, Calls.{ArePut, ReadsNoFurther}};
ghost use Rattle.http_request.specs.Frame.{IsOneRequest, Covers};

use crate::ends::{Inlet, Outlet};
use crate::fault::AnswerFault;
use crate::receive::receive;
use crate::responder::Responder;
use crate::send::send_reply;
use club_core::Reply;
use club_values::Moment;
use http_request::{HeadScan, MAX_REQUEST_LEN, Routes, words_by_scan};
use std::alloc::{AllocError, Global};
use std::marker::Model;

/// The routes of the desk, and a buffer with room for any request. All exchanges of a server share
/// one `Face`. The buffer keeps the bytes that were read for the last request. Contracts represent
/// a `Face` by the bytes of the last request.
#[derive(Drop)]
pub struct Face {
    routes: Routes,
    buffer: Vec<u8>,
    len: usize,
}

impl Model for Face {
    ghost use Rattle.std.specs.Prelude.{◌≡◌, ℕ, ◌≤◌, List, take, vec_len};
    ghost use Rattle.http_request.specs.Length.{max_request_len};

    ghost Value = { List ℕ };

    ghost view = { λ face. take face.len face.buffer.items };

    ghost invariant = { λ face. (vec_len face.buffer ≡ max_request_len)
        × (face.len ≤ max_request_len) };
}

impl Face {
    /// Makes a `Face` that has no request yet. The `Face` contains the desk's routes, and a buffer
    /// of `MAX_REQUEST_LEN` bytes.
    ///
    /// # Errors
    ///
    /// Fails if there is no memory for the routes or the buffer.
    pub fn new(alloc: Global) -> Result<Face, AllocError>
        ensures { IfOk result (λ face. face ≡ []) }
    {
        let routes = Routes::new(alloc)?;
        let buffer = vec![in alloc; 0; MAX_REQUEST_LEN]?;
        Ok(Face {
            routes,
            buffer,
            len: 0,
        })
    }

    /// Returns the bytes that were read for the last request. These bytes may include bytes after
    /// the request. If the reader failed, returns the bytes that arrived before the failure.
    pub fn request(&self) -> &[u8]
        ensures { result.now ≡ self.now }
    {
        &self.buffer[..self.len]
    }

    /// Reads a request and keeps its bytes. Returns `None` if the reader fails before the request
    /// is complete.
    ///
    /// After the request is complete, this method doesn't call the reader again. If the input ends
    /// early, the bytes that have arrived count as the request. The last call to the reader may
    /// also return bytes after the request. In all, this method reads at most `MAX_REQUEST_LEN`
    /// bytes. The returned scan covers all of the bytes read.
    pub fn receive<R: Inlet>(&mut self, reader: &mut R) -> Option<HeadScan>
        ensures covered { IfSome result (λ scan. Covers scan self.new) }
        ensures received { IfSome result
            (λ _. Receives (R.to_come reader.old) (R.to_come reader.new) self.new) }
        ensures cut_off { IfNone result
            (IsCutOff (R.to_come reader.old) (R.to_come reader.new) self.new) }
        ensures calls { ReadsNoFurther R.fills reader.old self.new reader.new }
        ensures counted { R.failures reader.new ≡ read_failures (R.failures reader.old) result }
    {
        let mut scan = HeadScan::new();
        match receive(reader, &mut self.buffer, &mut scan) {
            Ok(len) => {
                self.len = len;
                Some(scan)
            }
            Err(len) => {
                self.len = len;
                None
            }
        }
    }

    /// Returns the reply to the last request. The scan must cover the bytes of this request. Bytes
    /// after the request have no effect on the reply.
    pub fn reply<D: Responder>(&self, scan: &HeadScan, desk: &mut D, moment: Moment) -> Reply
        requires { Covers scan.now self.now }
        ensures { IsReplied (D.answers moment) self.now desk.old result desk.new }
    {
        match words_by_scan(&self.routes, self.request(), scan) {
            Ok(words) => desk.ask(moment, &words),
            Err(refusal) => Reply::Refused(refusal),
        }
    }

    /// Asks the desk for the reply to the last request, and writes the text of the reply. The scan
    /// must cover the bytes of this request. In an exchange, the caller first calls `receive` and
    /// then `respond`.
    ///
    /// # Errors
    ///
    /// Fails with `Write(n)` if the writer failed or took nothing after the first `n` bytes of the
    /// reply's text. The desk's decision isn't undone.
    pub fn respond<D: Responder, W: Outlet>(
        &self,
        scan: &HeadScan,
        desk: &mut D,
        moment: Moment,
        writer: &mut W,
    ) -> Result<Reply, AnswerFault>
        requires { Covers scan.now self.now }
        ensures exchanged { Exchanges (record {
          decides = λ reply. IsReplied (D.answers moment) self.now desk.old reply desk.new;
          unasked = ⊥;
          writes = Appends (W.taken writer.old) (W.taken writer.new);
        }) result }
        ensures calls { ArePut W.puts writer.old writer.new }
        ensures writes { W.failures writer.new ≡ writer_failures (W.failures writer.old) result }
    {
        let reply = self.reply(scan, desk, moment);
        match send_reply(&reply, writer) {
            Ok(()) => Ok(reply),
            Err(sent) => Err(AnswerFault::Write(sent)),
        }
    }

    /// Returns true if and only if the bytes that were read are exactly one request, with no bytes
    /// after the request.
    pub fn is_over(&self, scan: &HeadScan) -> bool
        requires { Covers scan.now self.now }
        ensures { IsTrue result ↔ IsOneRequest self.now }
    {
        scan.is_over(self.request())
    }
}
