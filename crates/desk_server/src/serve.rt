//! The server's loop, which serves the clients and commands that arrive.

ghost use Rattle.desk_server.specs.{Served.HasTalked, Server.{ServesLogged, ServesOn}};

use crate::between::carry_out;
use crate::connections::{Arrival, Arrivals, Connection};
use crate::log::{Log, LogEvent, Unlogged};
use crate::office::Office;
use crate::request_line::RequestLine;
use club_clock::Moments;
use club_http::Face;
use std::error::Error;
use std::fmt;

/// The error of a clock that can't be read, or that shows a year before 2000 or after 2099.
#[derive(Clone, Copy, Debug, PartialEq, Eq)]
pub struct ClockOutOfRange;

impl fmt::Display for ClockOutOfRange {
    ghost use Rattle.std.specs.Prelude.{Some, codes};

    ghost output = { λ _. Some (codes "clock out of range") };

    fn fmt<W: fmt::Write>(&self, f: &mut fmt::Formatter<W>) -> fmt::Result {
        f.write_str("clock out of range")
    }
}

impl Error for ClockOutOfRange {}

/// Serves `count` clients of a listener, one after the other. The server carries out commands of
/// the office before each client, and while it waits for a client's request. The moment of a
/// client's request is the clock's moment right after the server accepts the client. A client
/// counts toward `count` even if its connection or exchange fails, or if its request is refused.
/// Commands don't count as clients.
///
/// # Errors
///
/// Fails with `ClockOutOfRange` if a client comes and the clock can't be read, or shows a year
/// before 2000 or after 2099. In this case the server closes the client's connection without an
/// answer, and accepts no other client.
pub fn serve_on<L: Arrivals, M: Moments, D: Office>(
    listener: &mut L,
    count: u32,
    moments: &mut M,
    face: &mut Face,
    desk: &mut D,
) -> Result<(), ClockOutOfRange>
    ensures { ServesOn M.gives D.answers D.commands (HasTalked L.Client.talks)
        L.waited L.failures count listener.old moments.old desk.old
        result listener.new moments.new desk.new }
{
    serve_logged(listener, count, moments, face, desk, &mut Unlogged)
}

/// Serves as `serve_on` does, and logs each client and each command. The log has no effect on
/// clients and commands.
///
/// # Errors
///
/// Fails as `serve_on` does.
pub fn serve_logged<L: Arrivals, M: Moments, D: Office, G: Log>(
    arrivals: &mut L,
    count: u32,
    moments: &mut M,
    face: &mut Face,
    desk: &mut D,
    log: &mut G,
) -> Result<(), ClockOutOfRange>
    ensures { ServesLogged M.gives G.begins G.notes D.answers D.commands (HasTalked L.Client.talks)
        L.waited L.failures count arrivals.old moments.old desk.old log.old
        result arrivals.new moments.new desk.new log.new }
{
    let mut served = 0;
    let mut commanded = 0;
    while served < count {
        if commanded == u64::MAX {
            log.note(&LogEvent::Overrun);
            served += 1;
            continue;
        }
        match arrivals.next() {
            Arrival::Command(command) => {
                carry_out(command, moments, desk, log);
                commanded += 1;
            }
            Arrival::Client(mut client) => {
                log.begin();
                let Some(moment) = moments.now() else {
                    log.note(&LogEvent::Unanswered);
                    return Err(ClockOutOfRange);
                };
                // The server goes on after any outcome.
                let outcome = client.exchange(face, moments, desk, log, moment);
                drop(client);
                let line = RequestLine::of(face.request());
                log.note(&LogEvent::Exchanged {
                    moment,
                    line,
                    outcome,
                });
                served += 1;
            }
            Arrival::Nobody => {
                log.note(&LogEvent::Absent);
                served += 1;
            }
        }
    }
    Ok(())
}
