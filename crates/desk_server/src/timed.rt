//! A connection with time limits.

ghost use Rattle.std.specs.{Io.KnownBytes.Keeps, Prelude.{◌≡◌, length, MatchResult, None}};
ghost use Rattle.club_http.specs.Exchange.{Fills, Takes};
ghost use Rattle.desk_server.specs.Limits.{EndsUnder, moved};

use crate::limit::{Limit, MonotonicClock};
use crate::polled::{is_readable, is_writable};
use club_http::{Inlet, Outlet};
use std::io;
use std::io::{ErrorKind, Read, Write};
use std::os::fd::AsRawFd;
use std::os::unix::net::UnixStream;
use std::time::Duration;

/// The result of a call that waits for a limited time.
#[derive(Clone, Copy, Debug, PartialEq, Eq)]
pub enum Waited {
    /// The call read or wrote the given number of bytes.
    Moved(usize),
    /// A signal interrupted the call before any byte was read or written.
    Interrupted,
    /// The call failed, or its time limit was over before any byte was read or written.
    Failed,
}

/// A stream whose reads and writes have a time limit, such as a socket. With a time limit of zero,
/// a read returns the bytes that have already arrived. With a time limit of zero, a write takes as
/// many bytes as the stream has room for.
pub trait TimedStream {
    ghost use Rattle.std.specs.{Duration.as_nanos, Io.KnownBytes.Keeps, Prelude.{◌≤◌, ℕ, List}};
    ghost use Rattle.std.specs.Prelude.{length, Option, IfSome};
    ghost use Rattle.club_http.specs.Exchange.{Fills, Takes};
    ghost use Rattle.desk_server.specs.Limits.{Calls, moved};

    // The bytes that the stream will still return, if they are known.
    ghost to_come: { Self → Option (List ℕ) };

    // The bytes that the stream took, if they are known.
    ghost taken: { Self → Option (List ℕ) };

    // The possible results of a read that waits at most for the given time, with the stream before
    // and after the read.
    ghost reads: { Calls Self };

    // The possible results of a write that waits at most for the given time, with the stream before
    // and after the write.
    ghost writes: { Calls Self };

    /// Reads the next bytes into the front of the buffer, and returns the number of bytes read. If
    /// the buffer isn't empty, the number 0 means the end of the input.
    fn read_within(&mut self, limit: Duration, room: &mut [u8]) -> Waited
        ensures within { IfSome (moved result) (λ n. n ≤ length room.new) }
        ensures bytes { Fills (to_come self.old) (to_come self.new) (moved result) room.new }
        ensures writes_nothing { Keeps (taken self.old) (taken self.new) }
        ensures limited { reads self.old (as_nanos limit) result self.new };

    /// Writes a prefix of the bytes, and returns the length of the prefix.
    fn write_within(&mut self, limit: Duration, bytes: &[u8]) -> Waited
        ensures within { IfSome (moved result) (λ n. n ≤ length bytes.now) }
        ensures bytes { Takes (taken self.old) (taken self.new) (moved result) bytes.now }
        ensures reads_nothing { Keeps (to_come self.old) (to_come self.new) }
        ensures limited { writes self.old (as_nanos limit) result self.new };
}

/// The shortest timeout that a socket accepts, in microseconds. A write with a time limit of zero
/// uses this timeout, because a write without a timeout could block.
pub(crate) const LEAST_MICROSECONDS: u64 = 1;

/// No contract states which bytes a socket returns or takes.
impl TimedStream for &UnixStream {
    ghost use Rattle.std.specs.Prelude.{None};

    ghost to_come = { λ _. None };

    ghost taken = { λ _. None };

    ghost reads = { λ _ _ _ _. Unit {0} };

    ghost writes = { λ _ _ _ _. Unit {0} };

    fn read_within(&mut self, limit: Duration, room: &mut [u8]) -> Waited {
        let may_read = if limit.is_zero() {
            is_readable(self.as_raw_fd())
        } else {
            self.set_read_timeout(Some(limit)).is_ok()
        };
        if may_read {
            outcome_of(self.read(room))
        } else {
            Waited::Failed
        }
    }

    fn write_within(&mut self, limit: Duration, bytes: &[u8]) -> Waited {
        let least = Duration::from_micros(LEAST_MICROSECONDS);
        let may_write = !limit.is_zero() || is_writable(self.as_raw_fd());
        if may_write && self.set_write_timeout(Some(limit.max(least))).is_ok() {
            outcome_of(self.write(bytes))
        } else {
            Waited::Failed
        }
    }
}

/// Converts the result of a `std` read or write to a `Waited`.
pub(crate) fn outcome_of(returned: io::Result<usize>) -> Waited
    ensures { MatchResult returned (λ n. result ≡ Waited.Moved n) (λ _. moved result ≡ None) }
{
    match returned {
        Ok(count) => Waited::Moved(count),
        Err(error) if error.kind() == ErrorKind::Interrupted => Waited::Interrupted,
        Err(_) => Waited::Failed,
    }
}

// Reads, and waits at most until the deadline `limit`. After the deadline, a read doesn't wait, but
// still returns bytes that have arrived. For example, bytes may have arrived while the server's
// process was stopped.
fn read_under<R: TimedStream, C: MonotonicClock>(
    reader: &mut R,
    limit: &Limit<'_, C>,
    room: &mut [u8],
) -> Option<usize>
    ensures { EndsUnder C.shows R.reads limit.now reader.old result reader.new (length room.new)
        (Fills (R.to_come reader.old) (R.to_come reader.new) result room.new)
        (Keeps (R.taken reader.old) (R.taken reader.new)) }
{
    for interrupted in 0..u64::MAX {
        match reader.read_within(limit.left(), room) {
            Waited::Moved(came) => return Some(came),
            Waited::Interrupted => {}
            Waited::Failed => return None,
        }
    }
    None
}

// Writes, and waits at most until the deadline `limit`. After the deadline, a write doesn't wait.
fn write_under<W: TimedStream, C: MonotonicClock>(
    writer: &mut W,
    limit: &Limit<'_, C>,
    bytes: &[u8],
) -> Option<usize>
    ensures { EndsUnder C.shows W.writes limit.now writer.old result writer.new (length bytes.now)
        (Takes (W.taken writer.old) (W.taken writer.new) result bytes.now)
        (Keeps (W.to_come writer.old) (W.to_come writer.new)) }
{
    for interrupted in 0..u64::MAX {
        match writer.write_within(limit.left(), bytes) {
            Waited::Moved(taken) => return Some(taken),
            Waited::Interrupted => {}
            Waited::Failed => return None,
        }
    }
    None
}

/// The maximum number of bytes that `take_rest` reads.
pub const MAX_REST: usize = 65_536;

/// The longest time that `take_rest` waits for the next bytes or the end of the input, in
/// milliseconds.
const REST_MILLISECONDS: u64 = 200;

/// The maximum number of bytes that `take_rest` reads in one call.
const MAX_REST_AT_ONCE: usize = 4_096;

/// An accepted connection as a reader and a writer with time limits. All calls of `fill` share one
/// time limit, which starts with the call of `new`. All calls of `put` share another time limit,
/// which starts with the first call of `put`. Each of the two time limits is `patience`. A call
/// waits at most until its time limit expires.
///
/// If no time is left or the clock can't be read, the server still makes the call, but the call
/// doesn't wait. If a signal interrupts a call, the server repeats the call with the time that is
/// left.
#[derive(Drop)]
pub struct Accepted<'c, S, C> {
    pub(crate) stream: S,
    clock: &'c C,
    patience: Duration,
    // The time limit of all reads.
    pub(crate) reading: Limit<'c, C>,
    // The time limit of all writes, which starts with the first write.
    writing: Option<Limit<'c, C>>,
    read_failures: u64,
    write_failures: u64,
    // True if a command goes before the client's bytes when both are ready.
    pub(crate) command_first: bool,
}

impl<'c, S: TimedStream, C: MonotonicClock> Accepted<'c, S, C> {
    ghost use Rattle.std.specs.{Duration.as_nanos, Io.KnownBytes.Keeps, Prelude.{◌≡◌, None, false}};
    ghost use Rattle.desk_server.specs.Accepted.{HasMoved};
    ghost use Rattle.desk_server.specs.Limits.{AtShown, TakesAtMost, due_after, nanos_of};

    /// Adds time limits to the stream of a connection that the server has just accepted.
    pub fn new(stream: S, clock: &'c C, patience: Duration) -> Accepted<'c, S, C>
        ensures new { result ≡ record {
          stream = stream;
          clock = clock.entry;
          patience = patience;
          reading = result.reading;
          writing = None;
          read_failures = 0;
          write_failures = 0;
          command_first = false;
        } }
        ensures clock { result.reading.clock ≡ clock.entry }
        ensures due { AtShown (C.shows clock.entry.now)
            (λ shown. nanos_of result.reading.due ≡ due_after (as_nanos patience) shown) }
    {
        Accepted {
            stream,
            clock,
            patience,
            reading: Limit::after(clock, patience),
            writing: None,
            read_failures: 0,
            write_failures: 0,
            command_first: false,
        }
    }

    /// Returns the stream.
    pub fn into_stream(self) -> S
        ensures { result ≡ self.entry.stream }
    {
        self.stream
    }

    /// Reads the bytes that the client still sends, at most `MAX_REST`. Reading stops at the end of
    /// the input, or once no byte has come for 200 milliseconds. Reading also stops if a read
    /// fails. When the time `patience` has passed since the start of this call, this method reads
    /// only bytes that have already arrived.
    pub fn take_rest(&mut self)
        ensures taken { TakesAtMost 65_536 (S.to_come self.old.stream) (S.to_come self.new.stream) }
        ensures writes_nothing { Keeps (S.taken self.old.stream) (S.taken self.new.stream) }
        ensures kept { HasMoved self.old self.new }
    {
        let all = Limit::after(self.clock, self.patience);
        let mut room = [0; MAX_REST_AT_ONCE];
        let mut taken = 0;
        while taken < MAX_REST {
            let most = MAX_REST_AT_ONCE.min(MAX_REST - taken);
            let brief = Duration::from_millis(REST_MILLISECONDS).min(all.left());
            let limit = Limit::after(self.clock, brief);
            match read_under(&mut self.stream, &limit, &mut room[..most]) {
                Some(came) if came > 0 => taken += came,
                _ => return,
            }
        }
    }
}

impl<S: TimedStream, C: MonotonicClock> Inlet for Accepted<'_, S, C> {
    ghost use Rattle.desk_server.specs.Accepted.{IsRead};

    ghost to_come = { λ accepted. S.to_come accepted.stream };

    ghost failures = { λ accepted. accepted.read_failures };

    ghost fills = { IsRead C.shows S.reads S.taken };

    fn fill(&mut self, room: &mut [u8]) -> Option<usize> {
        let came = read_under(&mut self.stream, &self.reading, room);
        if came.is_none() {
            self.read_failures = self.read_failures.saturating_add(1);
        }
        came
    }
}

impl<S: TimedStream, C: MonotonicClock> Outlet for Accepted<'_, S, C> {
    ghost use Rattle.desk_server.specs.Accepted.{IsWritten};

    ghost taken = { λ accepted. S.taken accepted.stream };

    ghost failures = { λ accepted. accepted.write_failures };

    ghost puts = { IsWritten C.shows S.writes S.to_come };

    fn put(&mut self, bytes: &[u8]) -> Option<usize> {
        let limit = match self.writing.take() {
            Some(limit) => limit,
            None => Limit::after(self.clock, self.patience),
        };
        let taken = write_under(&mut self.stream, &limit, bytes);
        self.writing = Some(limit);
        if taken.is_none() || (taken == Some(0) && !bytes.is_empty()) {
            self.write_failures = self.write_failures.saturating_add(1);
        }
        taken
    }
}
