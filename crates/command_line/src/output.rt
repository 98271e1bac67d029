//! Writes texts to a writer.

ghost use Rattle.std.specs.{Io.KnownBytes.{Appends, Keeps}, IoError.error_kind, Prelude.{◌≢◌, ◌+◌}};
ghost use Rattle.std.specs.Prelude.{◌≤◌, IfErr, IfOk, OnErr, OnOk, drop, length, take};
ghost use Rattle.command_line.specs.Process.{AppendsFront};

use crate::signal::is_interrupted;
use std::io::{self, ErrorKind, Write};

/// Writes a text and flushes the writer. If a signal interrupts a write or a flush, the function
/// retries it.
///
/// # Errors
///
/// Returns the writer's error, unless the error is an interruption by a signal. Before an error,
/// the writer may have written a prefix of the text, or all of the text.
pub fn write_text<W: Write>(writer: &mut W, text: &str) -> io::Result<()>
    ensures ok { OnOk result (Appends (W.contents writer.old) (W.contents writer.new) text.now) }
    ensures err { OnErr result
        (AppendsFront (W.contents writer.old) (W.contents writer.new) text.now) }
    ensures retried { IfErr result (λ error. error_kind error ≢ ErrorKind.Interrupted) }
{
    write_bytes(writer, text.as_bytes())?;
    flush(writer)
}

/// Flushes the writer. If a signal interrupts the flush, the function retries it.
///
/// # Errors
///
/// Returns the writer's error, unless the error is an interruption by a signal.
pub fn flush<W: Write>(writer: &mut W) -> io::Result<()>
    ensures bytes { Keeps (W.contents writer.old) (W.contents writer.new) }
    ensures retried { IfErr result (λ error. error_kind error ≢ ErrorKind.Interrupted) }
{
    'flushing: for _ in 0..u64::MAX {
        match writer.flush() {
            Err(error) if is_interrupted(&error) => {}
            flushed => return flushed,
        }
    }
    Err(io::Error::from(ErrorKind::TimedOut))
}

// Writes all of the bytes. The contract of this function states that the writer has written a
// prefix of the bytes before an error. The contract of `write_all` doesn't state this.
fn write_bytes<W: Write>(writer: &mut W, bytes: &[u8]) -> io::Result<()>
    ensures ok { OnOk result (Appends (W.contents writer.old) (W.contents writer.new) bytes.now) }
    ensures err { OnErr result
        (AppendsFront (W.contents writer.old) (W.contents writer.new) bytes.now) }
    ensures retried { IfErr result (λ error. error_kind error ≢ ErrorKind.Interrupted) }
{
    let mut written = 0;
    'writing: for _ in 0..u64::MAX {
        if written == bytes.len() {
            return Ok(());
        }
        match write_after(writer, bytes, written) {
            Ok(0) => return Err(io::Error::from(ErrorKind::WriteZero)),
            Ok(count) => written += count,
            Err(error) => {
                if !is_interrupted(&error) {
                    return Err(error);
                }
            }
        }
    }
    Err(io::Error::from(ErrorKind::TimedOut))
}

// Writes once, starting after the first `written` bytes.
fn write_after<W: Write>(writer: &mut W, bytes: &[u8], written: usize) -> io::Result<usize>
    requires { written ≤ length bytes.now }
    ensures fits { IfOk result (λ count. written + count ≤ length bytes.now) }
    ensures ok { IfOk result (λ count. Appends (W.contents writer.old) (W.contents writer.new)
        (take count (drop written bytes.now))) }
    ensures err { OnErr result (Keeps (W.contents writer.old) (W.contents writer.new)) }
{
    writer.write(&bytes[written..])
}
