//! Connections of clients and of the office, and the source of these connections.

use crate::between::{Handover, Waits, receive_between};
use crate::limit::MonotonicClock;
use crate::log::Log;
use crate::office::Office;
use crate::stream::{ClientStream, Woken};
use crate::timed::Accepted;
use club_clock::Moments;
use club_http::laws::replies_to_all;
use club_http::{AnswerFault, Face, Moment, Reply};

/// A client's connection.
pub trait Connection {
    ghost use Rattle.std.specs.Prelude.{ℕ, List, Option};
    ghost use Rattle.desk_server.specs.Served.{ExchangesBetween, Talk};

    // The bytes that the client will still send, if they are known.
    ghost to_come: { Self → Option (List ℕ) };

    // The possible exchanges with the connection.
    ghost talks: { Talk Self };

    /// Carries out one exchange with the desk at the given moment. While waiting for the request,
    /// this method carries out commands of the office. For each command, this method reads the
    /// clock and logs the command. Returns the reply, or the fault that ended the exchange. The
    /// bytes read for the request stay in `face`. Bytes after a complete request have no effect on
    /// the reply.
    ///
    /// # Errors
    ///
    /// Fails as `club_http::answer` does.
    fn exchange<M: Moments, D: Office, G: Log>(
        &mut self,
        face: &mut Face,
        moments: &mut M,
        desk: &mut D,
        log: &mut G,
        moment: Moment,
    ) -> Result<Reply, AnswerFault>
        ensures exchanged { ExchangesBetween M.gives D.commands G.begins G.notes (D.answers moment)
            to_come talks face.new moments.old desk.old log.old self.old
            result moments.new desk.new log.new self.new };
}

/// If both the client's bytes and a command are ready, the client and the office take turns. The
/// client also gets the next turn if the server couldn't accept the office's connection. Carrying
/// out a command doesn't extend the client's time limit.
impl<S: ClientStream, C: MonotonicClock> Waits for Accepted<'_, S, C> {
    ghost use Rattle.desk_server.specs.Accepted.{HasWaited};

    type Command = S::Command;

    ghost waits = { HasWaited S.to_come S.taken };

    fn command_before(&mut self) -> Option<S::Command> {
        for _ in 0..u64::MAX {
            let left = self.reading.left();
            if left.is_zero() {
                return None;
            }
            match self.stream.wait_within(left, self.command_first) {
                Woken::Command(command) => {
                    self.command_first = false;
                    return Some(command);
                }
                Woken::Client => {
                    self.command_first = true;
                    return None;
                }
                Woken::Nobody => self.command_first = false,
            }
        }
        None
    }
}

/// Reads a request and writes the reply as `club_http::answer` does. The connection is both the
/// reader and the writer. While waiting for the request, the exchange also carries out commands.
impl<S: ClientStream, C: MonotonicClock> Connection for Accepted<'_, S, C> {
    ghost use Rattle.desk_server.specs.{Accepted.Talks, Served.ExchangesBetween};

    ghost to_come = { λ accepted. S.to_come accepted.stream };

    ghost talks = { Talks S.to_come S.taken C.shows S.reads S.writes };

    fn exchange<M: Moments, D: Office, G: Log>(
        &mut self,
        face: &mut Face,
        moments: &mut M,
        desk: &mut D,
        log: &mut G,
        moment: Moment,
    ) -> Result<Reply, AnswerFault>
        ensures exchanged { ExchangesBetween M.gives D.commands G.begins G.notes (D.answers moment)
            (λ accepted. S.to_come accepted.stream)
            (Talks S.to_come S.taken C.shows S.reads S.writes)
            face.new moments.old desk.old log.old self.old
            result moments.new desk.new log.new self.new }
    {
        let Some(scan) = receive_between(face, self, moments, desk, log) else {
            return Err(AnswerFault::Read);
        };
        replies_to_all::<D>();
        match face.respond(&scan, desk, moment, self) {
            Ok(reply) => {
                let over = face.is_over(&scan);
                self.end(over);
                Ok(reply)
            }
            Err(fault) => Err(fault),
        }
    }
}

impl<S: ClientStream, C: MonotonicClock> Accepted<'_, S, C> {
    ghost use Rattle.std.specs.Prelude.{◌≡◌, IsTrue};
    ghost use Rattle.desk_server.specs.Accepted.{TakesRest};

    // Ends a connection after its reply was written. If the server closed a socket with unread
    // bytes, TCP would reset the connection. A client that is still sending could then lose its
    // reply. If `over` is false, this function therefore shuts down the writing side, and then
    // reads the bytes that the client still sends. The caller passes true for `over` if the bytes
    // read so far are exactly one request.
    fn end(&mut self, over: bool)
        ensures over { IsTrue over → self.new ≡ self.old }
        ensures rest { TakesRest S.to_come S.taken self.old self.new }
    {
        if !over && self.stream.end_writing() {
            self.take_rest();
        }
    }
}

/// The result of waiting for an arrival.
#[derive(Drop)]
pub enum Arrival<C, O> {
    Client(C),
    Command(O),
    /// Waiting failed.
    Nobody,
}

/// The source of clients and commands.
pub trait Arrivals {
    type Client: Connection + Drop;

    type Command: Handover + Drop;

    ghost use Rattle.std.specs.Prelude.{◌≡◌, ℕ};
    ghost use Rattle.desk_server.specs.{RequestLine.failures_after, Served.CountsOn};

    // The number of calls of `next`.
    ghost waited: { Self → ℕ };

    // The number of calls of `next` that failed.
    ghost failures: { Self → ℕ };

    /// Waits for the next arrival.
    fn next(&mut self) -> Arrival<Self::Client, Self::Command>
        ensures waited { CountsOn (waited self.old) 1 (waited self.new) }
        ensures failure_count { failures self.new ≡ failures_after (failures self.old) result };
}
