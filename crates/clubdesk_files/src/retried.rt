//! Sends a command to one server after another, until a server receives all of the command.

ghost use Rattle.std.specs.Prelude.{◌≡◌, ◌↔◌, ℕ, List, IsTrue, Some, is_some};
ghost use Rattle.clubdesk_files.specs.Retried.{IsHandedOn, IsHandedTo, IsNothingDone};
ghost use Rattle.clubdesk_files.specs.Retried.{IsNothingDoneOrNone, SendsOnce, SendsOver};
ghost use Rattle.desk_server.specs.Server.{in_bytes};

use crate::attempts::{ATTEMPTS_A_SECOND, SLEEP_MILLIS};
use crate::handover::{AnswerReader, CommandWriter, answered, limit_answer};
use crate::kinds::is_unread;
use desk_server::{MonotonicClock, NOTHING_DONE, NOTHING_DONE_TEXT};
use std::alloc::Global;
use std::io::{Read, Write};
use std::os::unix::net::UnixStream;
use std::thread;
use std::time::{Clock, Duration, Instant};

/// The time during which the program retries a command, in seconds.
const RETRY_SECONDS: u64 = 10;

/// The most retries of a command.
const MAX_RETRIES: u32 = 10 * ATTEMPTS_A_SECOND;

/// The servers that can receive a command, one after another.
pub trait Servers {
    ghost use Rattle.clubdesk_files.specs.Retried.{Handing};
    ghost use Rattle.desk_server.specs.Server.{in_bytes};

    // The effect of sending a command to the next server.
    ghost hands: { Handing Self };

    /// Sends a command to the next server, and returns the status and the text of the answer. The
    /// status is `NOTHING_DONE` if there is no server, or if the server didn't receive all of the
    /// command. Returns `None` if it is unknown whether a server carried out the command.
    fn hand_over(&mut self, command: &[u8]) -> Option<(u8, String)>
        ensures { hands self.old command.now (in_bytes result) self.new };
}

/// Sends a command to a server, and returns the status and the text of the last answer. If the
/// status is `NOTHING_DONE`, the function sends the command again, for at most ten seconds. The
/// function never resends a command that a server may have carried out. Returns `None` if it is
/// unknown whether a server carried out the command.
pub fn hand_over_until_done<S: Servers, C: Clock>(
    clock: &C,
    servers: &mut S,
    command: &[u8],
) -> Option<(u8, String)>
    ensures { IsHandedOn S.hands command.now servers.old (in_bytes result) servers.new }
{
    let until = match clock.instant_now() {
        Some(now) => now.checked_add(Duration::from_secs(RETRY_SECONDS)),
        None => None,
    };
    for tried in 0..MAX_RETRIES {
        let answer = servers.hand_over(command);
        if !is_nothing_done(&answer) || !is_before(clock, until) {
            return answer;
        }
        thread::sleep(clock, Duration::from_millis(SLEEP_MILLIS));
    }
    servers.hand_over(command)
}

// Returns true if the answer's status is `NOTHING_DONE`.
fn is_nothing_done(answer: &Option<(u8, String)>) -> bool
    ensures { IsTrue result ↔ IsNothingDone (in_bytes answer.now) }
{
    match answer {
        Some((status, _)) => *status == NOTHING_DONE,
        None => false,
    }
}

// Returns true if the clock's time is before `until`. Returns false if `until` or the clock's time
// is missing.
fn is_before<C: Clock>(clock: &C, until: Option<Instant>) -> bool {
    match (until, clock.instant_now()) {
        (Some(until), Some(now)) => now < until,
        _ => false,
    }
}

/// Sends a command once to `server`, which has sent its greeting. If `server` is `None`, the
/// function sends nothing.
pub fn hand_over_to(
    alloc: Global,
    server: Option<UnixStream>,
    command: &[u8],
) -> Option<(u8, String)>
    ensures { IsHandedTo (SendsOver ⟦<&'static UnixStream as Read>⟧.remaining
        ⟦<&'static UnixStream as Write>⟧.contents
        ⟦<&'static UnixStream as CommandWriter>⟧.ends
        ⟦<&'static UnixStream as AnswerReader>⟧.fails
        ⟦<&'static UnixStream as CommandWriter>⟧.fails command.now)
        (is_some server) (in_bytes result) }
{
    let Some(stream) = server else {
        return nothing_done(alloc);
    };
    match limit_answer(&stream) {
        Ok(()) => hand_over_by(alloc, &mut &stream, &mut &stream, command),
        Err(_) => None,
    }
}

/// Sends a command once through a writer, and reads the answer. If an error shows that the server
/// didn't read all of the command, the answer has the status `NOTHING_DONE`. Returns `None` after
/// any other error, because the server may have carried out the command.
pub fn hand_over_by<R: AnswerReader, W: CommandWriter>(
    alloc: Global,
    reader: &mut R,
    writer: &mut W,
    command: &[u8],
) -> Option<(u8, String)>
    ensures { SendsOnce R.remaining W.contents W.ends R.AnswerReader.fails W.CommandWriter.fails
        command.now reader.old writer.old (in_bytes result) reader.new writer.new }
{
    match answered(alloc, reader, writer, command) {
        Ok(answer) => Some(answer),
        Err(error) => {
            if is_unread(error.kind()) {
                nothing_done(alloc)
            } else {
                None
            }
        }
    }
}

// Returns the answer for a command that no server received completely.
fn nothing_done(alloc: Global) -> Option<(u8, String)>
    ensures { IsNothingDoneOrNone (in_bytes result) }
{
    let text = format!(in alloc; "{NOTHING_DONE_TEXT}").ok()?;
    Some((NOTHING_DONE, text))
}
