//! The two ends of a connection: the reader of a request and the writer of a reply.

use std::io::{Read, Write};

/// The reader from which an exchange receives a request.
pub trait Inlet {
    ghost use Rattle.std.specs.Prelude.{◌≡◌, ◌≤◌, ℕ, List, length, Option, IfSome};
    ghost use Rattle.club_http.specs.{Calls.Call, Exchange.{Fills, read_failures}};

    // The bytes that the reader hasn't returned yet, if these bytes are known.
    ghost to_come: { Self → Option (List ℕ) };

    // The number of calls that failed.
    ghost failures: { Self → ℕ };

    // The effects that one call of `fill` may have.
    ghost fills: { Call Self };

    /// Reads the next bytes into the start of the buffer `room`, and returns the number of bytes
    /// read. The result 0 means the end of the input, unless the buffer is empty. The result `None`
    /// means that the call failed.
    fn fill(&mut self, room: &mut [u8]) -> Option<usize>
        ensures within { IfSome result (λ n. n ≤ length room.new) }
        ensures bytes { Fills (to_come self.old) (to_come self.new) result room.new }
        ensures counted { failures self.new ≡ read_failures (failures self.old) result }
        ensures called { fills self.old result room.new self.new };
}

/// A writer that takes the bytes of a reply.
pub trait Outlet {
    ghost use Rattle.std.specs.Prelude.{◌≡◌, ◌≤◌, ℕ, List, length, Option, IfSome};
    ghost use Rattle.club_http.specs.{Calls.Call, Exchange.{Takes, put_failures}};

    // The bytes that the writer has taken, if these bytes are known.
    ghost taken: { Self → Option (List ℕ) };

    // The number of calls that failed, or took no bytes although there were bytes to write.
    ghost failures: { Self → ℕ };

    // The effects that one call of `put` may have.
    ghost puts: { Call Self };

    /// Takes a prefix of the bytes, and returns the length of the prefix. The result `None` means
    /// that the call failed.
    fn put(&mut self, bytes: &[u8]) -> Option<usize>
        ensures within { IfSome result (λ n. n ≤ length bytes.now) }
        ensures bytes { Takes (taken self.old) (taken self.new) result bytes.now }
        ensures counted { failures self.new ≡ put_failures (failures self.old) result bytes.now }
        ensures called { puts self.old result bytes.now self.new };
}

/// An inlet that reads from a `std::io::Read`, such as a connection.
#[derive(Drop)]
pub struct ReadInlet<R> {
    reader: R,
    failures: u64,
}

impl<R: Read> ReadInlet<R> {
    ghost use Rattle.std.specs.Prelude.{◌≡◌};

    /// Makes an inlet whose count of failures is 0.
    pub fn new(reader: R) -> ReadInlet<R>
        ensures { result ≡ record { reader = reader; failures = 0 } }
    {
        ReadInlet {
            reader,
            failures: 0,
        }
    }
}

impl<R: Read> Inlet for ReadInlet<R> {
    ghost use Rattle.club_http.specs.Exchange.{Fills};

    ghost to_come = { λ inlet. R.remaining inlet.reader };

    ghost failures = { λ inlet. inlet.failures };

    ghost fills = { λ old result room new.
        Fills (R.remaining old.reader) (R.remaining new.reader) result room };

    fn fill(&mut self, room: &mut [u8]) -> Option<usize> {
        match self.reader.read(room) {
            Ok(n) => Some(n),
            Err(_) => {
                self.failures = self.failures.saturating_add(1);
                None
            }
        }
    }
}

/// An outlet that writes to a `std::io::Write`, such as a connection.
#[derive(Drop)]
pub struct WriteOutlet<W> {
    writer: W,
    failures: u64,
}

impl<W: Write> WriteOutlet<W> {
    ghost use Rattle.std.specs.Prelude.{◌≡◌};

    /// Makes an outlet whose count of failures is 0.
    pub fn new(writer: W) -> WriteOutlet<W>
        ensures { result ≡ record { writer = writer; failures = 0 } }
    {
        WriteOutlet {
            writer,
            failures: 0,
        }
    }
}

impl<W: Write> Outlet for WriteOutlet<W> {
    ghost use Rattle.club_http.specs.Exchange.{Takes};

    ghost taken = { λ outlet. W.contents outlet.writer };

    ghost failures = { λ outlet. outlet.failures };

    ghost puts = { λ old result bytes new.
        Takes (W.contents old.writer) (W.contents new.writer) result bytes };

    fn put(&mut self, bytes: &[u8]) -> Option<usize> {
        match self.writer.write(bytes) {
            Ok(taken) if taken > 0 || bytes.is_empty() => Some(taken),
            outcome => {
                self.failures = self.failures.saturating_add(1);
                outcome.ok()
            }
        }
    }
}
