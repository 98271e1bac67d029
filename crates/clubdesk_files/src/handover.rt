//! Sends a command to a server, through a reader and a writer.

ghost use Rattle.std.specs.{Io.KnownBytes.Consumes, IoError.error_kind};
ghost use Rattle.std.specs.{Prelude.{◌*◌, IfErr, IfOk, OnOk, codes}, String.string_bytes};
ghost use Rattle.clubdesk_files.specs.Retried.{IsNoAnswer, LacksAnswer, ReadsAnswer};
ghost use Rattle.clubdesk_files.specs.Retried.{SendsCommand, SpellsAnswer};

use desk_server::{ANSWER_END, GREETING};
use std::alloc::Global;
use std::io::{self, ErrorKind, Read, Write};
use std::net::Shutdown;
use std::os::unix::net::UnixStream;
use std::time::Duration;

/// The time that a server has to read a command and to answer it, in seconds.
const ANSWER_SECONDS: u64 = 600;

/// A reader of a server's answer. Contracts name the reader's errors.
pub trait AnswerReader: Read {
    ghost use Rattle.std.specs.{Io.KnownBytes.{Consumes, IsAtEnd}, IoError.error_kind};
    ghost use Rattle.std.specs.Prelude.{IfErr, IfOk};
    ghost use Rattle.clubdesk_files.specs.Retried.{Failing};

    // The effect of a call that fails.
    ghost fails: { Failing Self };

    /// Reads all bytes up to the end of the stream.
    fn receive(&mut self, alloc: Global) -> io::Result<Vec<u8>>
        ensures received { IfOk result (λ bytes. IsAtEnd (Self.remaining self.new)
            × Consumes (Self.remaining self.old) (Self.remaining self.new) bytes.items) }
        ensures failed { IfErr result (λ error. fails self.old (error_kind error) self.new) };
}

/// A writer of a command. The writer can end its stream. Contracts name the writer's errors.
pub trait CommandWriter: Write {
    ghost use Rattle.std.specs.{Io.KnownBytes.Appends, IoError.error_kind};
    ghost use Rattle.std.specs.Prelude.{IfErr, OnOk};
    ghost use Rattle.clubdesk_files.specs.Retried.{Failing};

    // The effect of ending the stream, given the writer before and after the call.
    ghost ends: { Self → Self → Type 0 };

    // The effect of a call that fails.
    ghost fails: { Failing Self };

    /// Writes all of the bytes.
    fn send(&mut self, bytes: &[u8]) -> io::Result<()>
        ensures sent { OnOk result
            (Appends (Self.contents self.old) (Self.contents self.new) bytes.now) }
        ensures failed { IfErr result (λ error. fails self.old (error_kind error) self.new) };

    /// Ends the stream, so that the reader at the other end expects no more bytes.
    fn end(&mut self) -> io::Result<()>
        ensures ended { OnOk result (ends self.old self.new) }
        ensures failed { IfErr result (λ error. fails self.old (error_kind error) self.new) };
}

/// A socket whose reads and writes can have timeouts.
pub trait LimitedSocket {
    ghost use Rattle.std.specs.{Duration.as_nanos, Prelude.{ℕ, OnOk}};

    // Each read from the socket has this timeout, in nanoseconds.
    ghost reads_within: { Self → ℕ → Type 0 };

    // Each write to the socket has this timeout, in nanoseconds.
    ghost writes_within: { Self → ℕ → Type 0 };

    /// Sets the timeout of each read.
    fn limit_reads(&self, timeout: Duration) -> io::Result<()>
        ensures { OnOk result (reads_within self.now (as_nanos timeout)) };

    /// Sets the timeout of each write.
    fn limit_writes(&self, timeout: Duration) -> io::Result<()>
        ensures { OnOk result (writes_within self.now (as_nanos timeout)) };
}

/// No contract states what a socket does.
impl AnswerReader for &UnixStream {
    ghost fails = { λ _ _ _. Unit {0} };

    fn receive(&mut self, alloc: Global) -> io::Result<Vec<u8>> {
        let mut bytes = Vec::new(alloc);
        self.read_to_end(&mut bytes)?;
        Ok(bytes)
    }
}

/// No contract states what a socket does.
impl CommandWriter for &UnixStream {
    ghost ends = { λ _ _. Unit {0} };

    ghost fails = { λ _ _ _. Unit {0} };

    fn send(&mut self, bytes: &[u8]) -> io::Result<()> {
        self.write_all(bytes)
    }

    fn end(&mut self) -> io::Result<()> {
        self.shutdown(Shutdown::Write)
    }
}

/// No contract states what a socket does.
impl LimitedSocket for UnixStream {
    ghost reads_within = { λ _ _. Unit {0} };

    ghost writes_within = { λ _ _. Unit {0} };

    fn limit_reads(&self, timeout: Duration) -> io::Result<()> {
        self.set_read_timeout(Some(timeout))
    }

    fn limit_writes(&self, timeout: Duration) -> io::Result<()> {
        self.set_write_timeout(Some(timeout))
    }
}

/// Sets the timeouts for sending a command and for receiving the answer: ten minutes each.
pub fn limit_answer<S: LimitedSocket>(socket: &S) -> io::Result<()>
    ensures { OnOk result (S.reads_within socket.now (600 * 1_000_000_000)
        × S.writes_within socket.now (600 * 1_000_000_000)) }
{
    let timeout = Duration::from_secs(ANSWER_SECONDS);
    socket.limit_reads(timeout)?;
    socket.limit_writes(timeout)
}

/// Reads the greeting that a server sends first.
///
/// # Errors
///
/// Returns the reader's error, or `InvalidData` if the bytes aren't the greeting.
pub fn greeted<R: Read>(reader: &mut R) -> io::Result<()>
    ensures { OnOk result
        (Consumes (R.remaining reader.old) (R.remaining reader.new) (codes "!")) }
{
    let mut greeting = [0; 1];
    reader.read_exact(&mut greeting)?;
    if greeting == GREETING {
        Ok(())
    } else {
        Err(io::Error::from(ErrorKind::InvalidData))
    }
}

/// Sends a command, ends the stream, and reads the answer. An answer consists of a status, a text
/// and an end byte.
///
/// # Errors
///
/// - Returns the writer's error if sending the command or ending the stream fails.
/// - Returns the reader's error if the reader fails, or `UnexpectedEof` if the answer is
///   incomplete. After a failed read, it is unknown whether the server carried out the command.
pub fn answered<R: AnswerReader, W: CommandWriter>(
    alloc: Global,
    reader: &mut R,
    writer: &mut W,
    command: &[u8],
) -> io::Result<(u8, String)>
    ensures sent { OnOk result
        (SendsCommand W.contents W.ends command.now writer.old writer.new) }
    ensures read { IfOk result (λ answer. ReadsAnswer (R.remaining reader.old)
        (R.remaining reader.new) answer.0 (string_bytes answer.1)) }
    ensures failed { IfErr result (λ error. LacksAnswer R.remaining W.contents W.ends
        R.AnswerReader.fails W.CommandWriter.fails command.now reader.old writer.old
        (error_kind error) reader.new writer.new) }
{
    if let Err(error) = writer.send(command) {
        return Err(error);
    }
    if let Err(error) = writer.end() {
        return Err(error);
    }
    match reader.receive(alloc) {
        Ok(bytes) => read_answer(alloc, bytes.as_slice()),
        Err(error) => Err(error),
    }
}

// Decodes an answer. Fails with `UnexpectedEof` if the answer is incomplete.
fn read_answer(alloc: Global, bytes: &[u8]) -> io::Result<(u8, String)>
    ensures decoded { IfOk result
        (λ answer. SpellsAnswer bytes.now answer.0 (string_bytes answer.1)) }
    ensures failed { IfErr result (λ error. IsNoAnswer (error_kind error)) }
{
    match bytes.split_first() {
        Some((status, rest)) => match rest.split_last() {
            Some((end, text)) if [*end] == ANSWER_END => {
                match String::from_utf8_lossy(alloc, text) {
                    Ok(text) => Ok((*status, text)),
                    Err(error) => Err(io::Error::from(error)),
                }
            }
            _ => Err(io::Error::from(ErrorKind::UnexpectedEof)),
        },
        None => Err(io::Error::from(ErrorKind::UnexpectedEof)),
    }
}
