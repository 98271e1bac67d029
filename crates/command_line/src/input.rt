//! Reads the input of a program.

ghost use Rattle.std.specs.Io.{BufRead.strip_last, KnownBytes.{Consumes, IsAtEnd, Keeps}};
ghost use Rattle.std.specs.{IoError.error_kind, Prelude.{◌≡◌, ◌≢◌, ◌+◌, ◌<◌, ◌≤◌, take, drop}};
ghost use Rattle.std.specs.Prelude.{length, IfErr, IfOk, OnErr};
ghost use Rattle.command_line.specs.Process.{ReadsAtMost};

use crate::signal::is_interrupted;
use std::io::{self, ErrorKind, Read};

/// Reads to the end of the input, or until the buffer is full. Returns the number of bytes read. If
/// a signal interrupts a read, the function retries the read.
///
/// # Errors
///
/// Returns the reader's error, unless the error is an interruption by a signal.
pub fn fill<R: Read>(reader: &mut R, buffer: &mut [u8]) -> io::Result<usize>
    ensures bytes { IfOk result (λ count. (count ≤ length buffer.new)
        × ReadsAtMost (length buffer.new) (R.remaining reader.old) (R.remaining reader.new)
        (take count buffer.new)) }
    ensures retried { IfErr result (λ error. error_kind error ≢ ErrorKind.Interrupted) }
{
    let mut filled = 0;
    'filling: for _ in 0..u64::MAX {
        if filled == buffer.len() {
            return Ok(filled);
        }
        match read_after(reader, buffer, filled) {
            Ok(0) => return Ok(filled),
            Ok(count) => filled += count,
            Err(error) => {
                if !is_interrupted(&error) {
                    return Err(error);
                }
            }
        }
    }
    Err(io::Error::from(ErrorKind::TimedOut))
}

// Reads once into the part of the buffer after its first `filled` bytes.
fn read_after<R: Read>(reader: &mut R, buffer: &mut [u8], filled: usize) -> io::Result<usize>
    requires { filled < length buffer.old }
    ensures front { take filled buffer.new ≡ take filled buffer.old }
    ensures fits { IfOk result (λ count. filled + count ≤ length buffer.new) }
    ensures bytes { IfOk result (λ count. Consumes (R.remaining reader.old)
        (R.remaining reader.new) (take count (drop filled buffer.new))) }
    ensures end { IfOk result (λ count. count ≡ 0 → IsAtEnd (R.remaining reader.new)) }
    ensures err { OnErr result (Keeps (R.remaining reader.old) (R.remaining reader.new)) }
{
    reader.read(&mut buffer[filled..])
}

/// Returns the bytes with one trailing line feed removed. Bytes without a trailing line feed stay
/// unchanged.
pub fn without_line_feed(bytes: &[u8]) -> &[u8]
    ensures { result.now ≡ strip_last 10 bytes.now }
{
    match bytes {
        [front @ .., b'\n'] => front,
        _ => bytes,
    }
}
