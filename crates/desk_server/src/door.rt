//! The server's side of the door, where commands of the office arrive.

ghost use Rattle.std.specs.Io.KnownBytes.{Appends, Consumes, IsAtEnd};
ghost use Rattle.std.specs.Prelude.{◌≡◌, ◌≤◌, ℕ, length, take, IfSome};
ghost use Rattle.desk_server.specs.Served.{AnswersCommand, answer_bytes};

use crate::between::Handover;
use crate::limit::MonotonicClock;
use crate::office::{Answer, Carried, Office};
use crate::timed::Accepted;
use club_http::{Inlet, Outlet, put_all};
use std::io;
use std::os::unix::net::{UnixListener, UnixStream};
use std::time::Duration;

/// The byte that the server sends after it accepts a connection of the office. The office sends its
/// command only after it receives this byte. If the office disconnects earlier, it has therefore
/// sent no command.
pub const GREETING: [u8; 1] = *b"!";

/// The size of the buffer for a command, in bytes. The longest command is one byte shorter than the
/// buffer.
pub const MAX_COMMAND_LEN: usize = 8_192;

/// The last byte of an answer, after the answer's text. The text has no zero byte, because
/// command-line arguments have no zero bytes. If the bytes after the status don't end with a zero
/// byte, the answer is therefore truncated.
pub const ANSWER_END: [u8; 1] = [0];

/// The status of the answer to bytes that aren't a complete command. The status 9 means that the
/// server did nothing, and will do nothing.
pub const NOTHING_DONE: u8 = 9;

/// The text of the answer with status `NOTHING_DONE`.
pub const NOTHING_DONE_TEXT: &str = "nothing was done";

/// The timeout for the office to send its command, in milliseconds. The timeout for reading the
/// answer is equally long. Clients wait while the office sends its command or reads the answer.
const OFFICE_MILLISECONDS: u64 = 200;

/// A connection of the office that the server accepted at its door.
#[derive(Drop)]
pub struct Handed<'c, C> {
    stream: UnixStream,
    clock: &'c C,
}

impl<'c, C: MonotonicClock> Handed<'c, C> {
    // Accepts the next connection at a door.
    pub(crate) fn accept(door: &UnixListener, clock: &'c C) -> io::Result<Handed<'c, C>> {
        let (stream, _) = door.accept()?;
        Ok(Handed { stream, clock })
    }

    // Returns the connection as a reader and a writer with time limits. The time limit for reading
    // starts with this call. The time limit for writing starts with the first write.
    fn ends(&self) -> Accepted<'c, &UnixStream, C> {
        let patience = Duration::from_millis(OFFICE_MILLISECONDS);
        Accepted::new(&self.stream, self.clock, patience)
    }
}

/// Reads the bytes of a command up to the end of the input, and returns the number of bytes.
/// Returns `None` if the reader fails, or if the buffer is full before the end of the input.
pub fn read_command<R: Inlet>(reader: &mut R, room: &mut [u8]) -> Option<usize>
    ensures { IfSome result (λ n. (n ≤ length room.new)
        × Consumes (R.to_come reader.old) (R.to_come reader.new) (take n room.new)
        × IsAtEnd (R.to_come reader.new)) }
{
    let mut len = 0;
    while len < room.len() {
        match reader.fill(&mut room[len..]) {
            None => return None,
            Some(0) => return Some(len),
            Some(came) => len += came,
        }
    }
    None
}

/// Has the desk carry out a command, and writes the command's answer. A failure of the writer
/// doesn't undo the command.
pub fn answer_command<D: Office, W: Outlet>(desk: &mut D, bytes: &[u8], writer: &mut W) -> Carried
    ensures { AnswersCommand D.commands bytes.now desk.old (W.taken writer.old)
        result desk.new (W.taken writer.new) }
{
    let Answer { carried, text } = desk.command(bytes);
    put_answer(writer, carried.status, text.as_str());
    carried
}

/// Writes an answer: the status, the text and the end byte. If the writer fails, the writer has
/// taken only a prefix of the answer.
pub fn put_answer<W: Outlet>(writer: &mut W, status: u8, text: &str)
    ensures { (n : ℕ) × Appends (W.taken writer.old) (W.taken writer.new)
        (take n (answer_bytes status text.now)) }
{
    match put_all(writer, &[status]) {
        Ok(()) => match put_all(writer, text.as_bytes()) {
            Ok(()) => {
                let _ = put_all(writer, &ANSWER_END);
            }
            Err(_) => {}
        },
        Err(_) => {}
    }
}

/// Sends the greeting, reads a command, and writes the answer. If no complete command arrives after
/// the greeting, the answer has the status `NOTHING_DONE`.
impl<C: MonotonicClock> Handover for Handed<'_, C> {
    fn carry_out<D: Office>(&mut self, desk: &mut D) -> Option<Carried> {
        if put_all(&mut self.ends(), &GREETING).is_err() {
            return None;
        }
        let mut room = [0; MAX_COMMAND_LEN];
        match read_command(&mut self.ends(), &mut room) {
            Some(len) => Some(answer_command(desk, &room[..len], &mut self.ends())),
            None => {
                put_answer(&mut self.ends(), NOTHING_DONE, NOTHING_DONE_TEXT);
                None
            }
        }
    }
}
