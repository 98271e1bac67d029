//! The log of a server.

ghost use Rattle.std.specs.Prelude.{◌≡◌, ◌≤◌, length, IfSome};
ghost use Rattle.desk_server.specs.Log as spec;
ghost use Rattle.desk_server.specs.RequestLine.{word_bytes};

use crate::office::Carried;
use crate::request_line::RequestLine;
use club_http::{AnswerFault, Line, Moment, Outlet, Reply, put_all, status_of};
use std::time::{Clock, Instant};

/// The word that replaces the method in the line of a command.
const OFFICE: &[u8] = b"office";

/// An event that the server passes to the log.
#[derive(Drop)]
pub enum LogEvent {
    /// Waiting failed.
    Absent,
    /// The u64 counter of commands is full. The server counts one client, although no client came.
    Overrun,
    /// The server closed a client's connection without an answer, because the clock couldn't be
    /// read, or showed a year before 2000 or after 2099.
    Unanswered,
    /// The office connected at `moment`. `moment` is `None` if the clock showed no moment.
    /// `carried` is `None` if no complete command came.
    Commanded {
        moment: Option<Moment>,
        carried: Option<Carried>,
    },
    /// A client had an exchange at `moment`. `line` has the first bytes of the client's request.
    /// `outcome` is the result of the exchange: the reply or the fault.
    Exchanged {
        moment: Moment,
        line: RequestLine,
        outcome: Result<Reply, AnswerFault>,
    },
}

/// A log of clients and commands. The server calls `begin` when it starts to serve a client or a
/// command, and `note` when it has finished. The log has no effect on clients and commands. If a
/// command comes while the server waits for a client's request, the server makes both calls for the
/// command between the two calls for the client.
pub trait Log {
    ghost use Rattle.desk_server.specs.Served.{Notes};

    // The log before and after a call of `begin`.
    ghost begins: { Self → Self → Type 0 };

    // The log before and after a call of `note`.
    ghost notes: { Notes Self };

    /// Notes that the server accepted a client or a command.
    fn begin(&mut self)
        ensures { begins self.old self.new };

    /// Notes an event: how a client or a command ended, or why no client came.
    fn note(&mut self, event: &LogEvent)
        ensures { notes self.old event.now self.new };
}

/// A log that writes nothing.
#[derive(Drop)]
pub struct Unlogged;

impl Log for Unlogged {
    ghost begins = { λ _ _. Unit {0} };

    ghost notes = { λ _ _ _. Unit {0} };

    fn begin(&mut self) {}

    fn note(&mut self, _event: &LogEvent) {}
}

/// A log that writes a line for each client and each command. Spaces separate the words of a line.
///
/// - The line of a client has the moment, the method, the path, the status of the reply, and the
///   microseconds taken.
/// - The line of a command has the moment, `office`, the command's name, its exit status, and the
///   microseconds taken.
///
/// A dash replaces a missing value. A dash also replaces the status of a reply that wasn't
/// completely written. The log ignores failures of the writer.
#[derive(Drop)]
pub struct LogLines<'a, W, C> {
    /// The writer that takes the lines.
    pub writer: W,
    clock: &'a C,
    // `began` is the start time of the current client or command. During a command that interrupts
    // a client, `around` is the start time of that client.
    began: Option<Instant>,
    around: Option<Instant>,
}

impl<'a, W: Outlet, C: Clock> LogLines<'a, W, C> {
    /// Returns a log that writes lines to `writer` and reads times from `clock`.
    pub fn new(writer: W, clock: &'a C) -> LogLines<'a, W, C> {
        LogLines {
            writer,
            clock,
            began: None,
            around: None,
        }
    }

    // Returns the microseconds since the current client or command began. Returns 0 if the start
    // time is missing, or if the clock can't be read.
    fn microseconds(&self) -> u64 {
        let Some(began) = self.began else {
            return 0;
        };
        match began.elapsed(self.clock) {
            Ok(elapsed) => u64::try_from(elapsed.as_micros()).unwrap_or(u64::MAX),
            Err(_) => 0,
        }
    }
}

impl<'a, W: Outlet, C: Clock> Log for LogLines<'a, W, C> {
    ghost use Rattle.std.specs.Prelude.{◌≡◌, ℕ};
    ghost use Rattle.desk_server.specs.Log.{IsTextWritten, line_text};

    ghost begins = { λ old new. new.writer ≡ old.writer };

    ghost notes = { λ old event new. (microseconds : ℕ) × IsTextWritten
        (W.taken old.writer) (W.taken new.writer)
        (W.failures old.writer) (W.failures new.writer)
        (line_text event microseconds) };

    fn begin(&mut self) {
        self.around = self.began;
        self.began = Instant::now(self.clock).ok();
    }

    fn note(&mut self, event: &LogEvent) {
        let line = line_of(event, self.microseconds());
        self.began = self.around.take();
        let _ = put_all(&mut self.writer, line.as_bytes());
    }
}

// Returns the line of an event.
#[tactic(auto, unfolding(crate::specs::Log::line_text))]
fn line_of(event: &LogEvent, microseconds: u64) -> Line
    ensures { result ≡ spec.line_text event.now microseconds }
{
    match event {
        LogEvent::Absent | LogEvent::Overrun | LogEvent::Unanswered => {
            words(&None, None, None, None, microseconds)
        }
        LogEvent::Commanded { moment, carried } => match carried {
            Some(carried) => {
                let status = Some(u16::from(carried.status));
                words(
                    moment,
                    Some(OFFICE),
                    carried.line.path(),
                    status,
                    microseconds,
                )
            }
            None => words(moment, Some(OFFICE), None, None, microseconds),
        },
        LogEvent::Exchanged {
            moment,
            line,
            outcome,
        } => {
            let status = written_status(outcome);
            words(
                &Some(*moment),
                line.method(),
                line.path(),
                status,
                microseconds,
            )
        }
    }
}

// Returns a line of the given words, with a dash for each missing word.
#[tactic(auto, unfolding(crate::specs::Log::words_text))]
fn words(
    moment: &Option<Moment>,
    method: Option<&[u8]>,
    path: Option<&[u8]>,
    status: Option<u16>,
    microseconds: u64,
) -> Line
    requires method { IfSome method (λ word. length word.now ≤ 7) }
    requires path { IfSome path (λ word. length word.now ≤ 96) }
    ensures { result ≡ spec.words_text moment.now (word_bytes method.entry)
        (word_bytes path.entry) status microseconds }
{
    let mut line = Line::new();
    match moment {
        Some(moment) => line.push(&moment.text()),
        None => line.push(b"-"),
    }
    line.push(b" ");
    line.push(method.unwrap_or(b"-"));
    line.push(b" ");
    line.push(path.unwrap_or(b"-"));
    line.push(b" ");
    match status {
        Some(status) => line.push_number(u64::from(status)),
        None => line.push(b"-"),
    }
    line.push(b" ");
    line.push_number(microseconds);
    line.push(b"\n");
    line
}

// Returns the HTTP status of a completely written reply, else `None`.
fn written_status(outcome: &Result<Reply, AnswerFault>) -> Option<u16>
    ensures { result ≡ spec.written_status outcome.now }
{
    match outcome {
        Ok(reply) => Some(status_of(reply)),
        Err(_) => None,
    }
}
