//! Test doubles: connections in memory, and clocks.

ghost use Rattle.std.specs.Prelude.{◌≤◌, length, IfSome};
ghost use Rattle.desk_server.specs.Limits.{moved};

use super::journal::{Call, Journal};
use desk_server::{
    Accepted, Answer, Arrival, Arrivals, Carried, ClientStream, Handover, Office, TimedStream,
    Waited, Woken,
};
use std::cell::Cell;
use std::io::{self, ErrorKind, Read, Write};
use std::time::{Clock, Duration};

/// The next event for a server that waits for a client, and the milliseconds before the event.
#[derive(Clone, Copy, Drop)]
pub enum Step<'a> {
    Bytes(u64, &'a [u8]),
    /// A complete command has bytes, and an incomplete command has `None`.
    Command(u64, Option<&'a [u8]>),
    /// A command whose sender closed its connection before the server accepted it.
    Gone(u64),
    End(u64),
    Fails(u64),
}

/// The result of a wait for an arrival.
#[derive(Clone, Copy, Drop)]
pub enum Wire<'a> {
    Absent,
    Command(Option<&'a [u8]>),
    Client(&'a [Step<'a>]),
    /// A client whose stream fails at each write.
    Deaf(&'a [Step<'a>]),
}

#[derive(Drop)]
pub struct Broken;

impl Write for Broken {
    fn write(&mut self, _bytes: &[u8]) -> io::Result<usize> {
        Err(io::Error::from(ErrorKind::BrokenPipe))
    }

    fn flush(&mut self) -> io::Result<()> {
        Ok(())
    }
}

/// The stream of a client in memory, which records its calls in a journal.
pub struct Played<'a> {
    journal: &'a Journal,
    steps: &'a [Step<'a>],
    deaf: bool,
    came: usize,
}

fn milliseconds(limit: Duration) -> u64 {
    u64::try_from(limit.as_millis()).unwrap_or(u64::MAX)
}

impl<'a> Played<'a> {
    // Returns `None` if the next step comes after the limit.
    fn next_within(&self, limit: Duration) -> Option<Step<'a>> {
        let most = milliseconds(limit);
        let next = self.steps.get(self.came).copied();
        let after = match next {
            Some(Step::Bytes(after, _) | Step::Command(after, _)) => after,
            Some(Step::Gone(after) | Step::End(after) | Step::Fails(after)) => after,
            None => u64::MAX,
        };
        self.journal.clock.advance(after.min(most));
        if after <= most { next } else { None }
    }
}

fn read_from(bytes: &[u8], room: &mut [u8]) -> Waited
    ensures { IfSome (moved result) (λ n. n ≤ length room.new) }
{
    let mut left = bytes;
    match left.read(room) {
        Ok(came) => Waited::Moved(came),
        Err(_) => Waited::Failed,
    }
}

impl TimedStream for Played<'_> {
    ghost use Rattle.std.specs.Prelude.{None};

    ghost to_come = { λ _. None };

    ghost taken = { λ _. None };

    ghost reads = { λ _ _ _ _. Unit {0} };

    ghost writes = { λ _ _ _ _. Unit {0} };

    // The wait before this call has advanced the clock to the next step.
    fn read_within(&mut self, limit: Duration, room: &mut [u8]) -> Waited {
        self.journal.note(Call::Read(milliseconds(limit)));
        match self.steps.get(self.came) {
            Some(Step::Bytes(_, bytes)) => {
                self.came = self.came.saturating_add(1);
                read_from(bytes, room)
            }
            Some(Step::End(_)) => Waited::Moved(0),
            _ => Waited::Failed,
        }
    }

    fn write_within(&mut self, limit: Duration, bytes: &[u8]) -> Waited {
        if self.deaf {
            return Waited::Failed;
        }
        self.journal
            .note(Call::Wrote(milliseconds(limit), bytes.len()));
        Waited::Moved(bytes.len())
    }
}

impl<'a> ClientStream for Played<'a> {
    type Command = Letter<'a>;

    fn wait_within(&mut self, limit: Duration, command_first: bool) -> Woken<Letter<'a>> {
        let left = milliseconds(limit);
        self.journal.note(if command_first {
            Call::WaitedCommandFirst(left)
        } else {
            Call::WaitedBytesFirst(left)
        });
        let woken = match self.next_within(limit) {
            Some(Step::Command(_, bytes)) => Woken::Command(Letter(bytes)),
            Some(Step::Gone(_)) => Woken::Nobody,
            _ => return Woken::Client,
        };
        self.came = self.came.saturating_add(1);
        woken
    }

    fn end_writing(&mut self) -> bool {
        self.journal.note(Call::EndedWriting);
        true
    }
}

impl Drop for Played<'_> {
    fn drop(self) {
        let Played {
            journal,
            steps: _,
            deaf: _,
            came: _,
        } = self;
        journal.note(Call::Closed);
    }
}

#[derive(Drop)]
pub struct Letter<'a>(pub Option<&'a [u8]>);

impl Handover for Letter<'_> {
    fn carry_out<D: Office>(&mut self, desk: &mut D) -> Option<Carried> {
        match self.0 {
            Some(bytes) => {
                let Answer { carried, text: _ } = desk.command(bytes);
                Some(carried)
            }
            None => None,
        }
    }
}

/// Arrivals in their order, with the journal's clock and a patience (timeout) of ten seconds.
#[derive(Drop)]
pub struct Script<'a> {
    journal: &'a Journal,
    wires: &'a [Wire<'a>],
    pub waited: u64,
    failures: u64,
}

impl<'a> Script<'a> {
    pub fn new(journal: &'a Journal, wires: &'a [Wire<'a>]) -> Script<'a> {
        Script {
            journal,
            wires,
            waited: 0,
            failures: 0,
        }
    }

    fn client(&self, steps: &'a [Step<'a>], deaf: bool) -> Accepted<'a, Played<'a>, HandSet> {
        let stream = Played {
            journal: self.journal,
            steps,
            deaf,
            came: 0,
        };
        Accepted::new(stream, &self.journal.clock, Duration::from_secs(10))
    }
}

impl<'a> Arrivals for Script<'a> {
    type Client = Accepted<'a, Played<'a>, HandSet>;

    type Command = Letter<'a>;

    ghost waited = { λ script. script.waited };

    ghost failures = { λ script. script.failures };

    fn next(&mut self) -> Arrival<Accepted<'a, Played<'a>, HandSet>, Letter<'a>> {
        let place = self.waited as usize;
        self.waited = self.waited.saturating_add(1);
        match self.wires.get(place) {
            None | Some(Wire::Absent) => {
                self.failures = self.failures.saturating_add(1);
                Arrival::Nobody
            }
            Some(Wire::Command(bytes)) => Arrival::Command(Letter(*bytes)),
            Some(Wire::Client(steps)) => Arrival::Client(self.client(steps, false)),
            Some(Wire::Deaf(steps)) => Arrival::Client(self.client(steps, true)),
        }
    }
}

/// A clock that always shows one time. A clock with `None` can't be read.
#[derive(Drop)]
pub struct Stopped(pub Option<Duration>);

impl Clock for Stopped {
    fn monotonic(&self) -> io::Result<Duration> {
        self.since_1970()
    }

    fn since_1970(&self) -> io::Result<Duration> {
        self.0.ok_or(io::Error::from(ErrorKind::Unsupported))
    }
}

/// A clock that a test sets, and that advances by a step at each reading. A sleep of the server
/// advances the clock, too.
#[derive(Drop)]
pub struct HandSet {
    microseconds: Cell<u64>,
    step: u64,
    /// The number of readings after which the clock fails.
    pub readable: Cell<u64>,
}

impl HandSet {
    /// Makes a clock whose first reading is `from` plus one step, in microseconds.
    pub fn new(from: u64, step: u64) -> HandSet {
        HandSet {
            microseconds: Cell::new(from),
            step,
            readable: Cell::new(u64::MAX),
        }
    }

    pub fn elapsed(&self) -> u64 {
        self.microseconds.get() / 1_000
    }

    pub fn advance(&self, milliseconds: u64) {
        self.add(milliseconds.saturating_mul(1_000));
    }

    fn add(&self, microseconds: u64) {
        let shown = self.microseconds.get().saturating_add(microseconds);
        self.microseconds.set(shown);
    }
}

impl Clock for HandSet {
    fn monotonic(&self) -> io::Result<Duration> {
        let readable = self.readable.get();
        self.readable.set(readable.saturating_sub(1));
        if readable == 0 {
            return Err(io::Error::from(ErrorKind::Unsupported));
        }
        self.add(self.step);
        Ok(Duration::from_micros(self.microseconds.get()))
    }

    fn since_1970(&self) -> io::Result<Duration> {
        self.monotonic()
    }

    fn sleep(&self, duration: Duration) {
        self.advance(milliseconds(duration));
    }
}

/// A client that sends or receives one byte after each pause. Signals interrupt the first
/// `interruptions` waits, halfway through the pause.
#[derive(Drop)]
pub struct Slow<'a> {
    pub clock: &'a HandSet,
    /// The milliseconds before each byte.
    pub pause: u64,
    pub bytes: &'a [u8],
    pub interruptions: u32,
    pub calls: u64,
}

impl Slow<'_> {
    // Returns whether the pause is over. A wait that a signal interrupts returns `None`.
    fn wait(&mut self, limit: Duration) -> Option<bool> {
        let most = milliseconds(limit);
        if self.interruptions > 0 {
            self.interruptions -= 1;
            self.clock.advance(most.min(self.pause / 2));
            return None;
        }
        self.clock.advance(most.min(self.pause));
        Some(self.pause <= most)
    }

    fn send(&mut self, room: &mut [u8]) -> usize
        ensures { result ≤ length room.new }
    {
        match (self.bytes.split_first(), room.first_mut()) {
            (Some((byte, rest)), Some(place)) => {
                *place = *byte;
                self.bytes = rest;
                1
            }
            _ => 0,
        }
    }
}

impl TimedStream for Slow<'_> {
    ghost use Rattle.std.specs.Prelude.{None};

    ghost to_come = { λ _. None };

    ghost taken = { λ _. None };

    ghost reads = { λ _ _ _ _. Unit {0} };

    ghost writes = { λ _ _ _ _. Unit {0} };

    fn read_within(&mut self, limit: Duration, room: &mut [u8]) -> Waited {
        self.calls = self.calls.saturating_add(1);
        if self.bytes.is_empty() {
            return Waited::Moved(0);
        }
        match self.wait(limit) {
            None => Waited::Interrupted,
            Some(true) => Waited::Moved(self.send(room)),
            Some(false) => Waited::Failed,
        }
    }

    fn write_within(&mut self, limit: Duration, bytes: &[u8]) -> Waited {
        self.calls = self.calls.saturating_add(1);
        match self.wait(limit) {
            None => Waited::Interrupted,
            Some(true) => Waited::Moved(bytes.len().min(1)),
            Some(false) => Waited::Failed,
        }
    }
}
