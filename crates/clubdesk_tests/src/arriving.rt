//! Test doubles of the clients and commands that reach a server.

ghost use Rattle.std.specs.Prelude.{◌≤◌, length, IfSome};
ghost use Rattle.desk_server.specs.Limits.{moved};

use crate::callers::Machine;
use club_clock::Moments;
use club_http::WriteOutlet;
use club_values::Moment;
use desk_server::{
    Accepted, Arrival, Arrivals, Carried, ClientStream, Handover, Office, TimedStream, Waited,
    Woken, answer_command,
};
use std::alloc::Global;
use std::cell::RefCell;
use std::io::{self, Read, Write};
use std::time::Duration;

/// Keeps replies and answers in the order in which the server writes them.
#[derive(Drop)]
pub struct Written(RefCell<Vec<u8>>);

impl Written {
    pub fn new(alloc: Global) -> Written {
        Written(RefCell::new(Vec::new(alloc)))
    }

    /// If memory runs out, the bytes are missing, and the test fails.
    fn add(&self, bytes: &[u8]) {
        if let Ok(mut written) = self.0.try_borrow_mut() {
            let _ = written.extend_from_slice(bytes);
        }
    }

    pub fn bytes(&self, alloc: Global) -> Vec<u8> {
        self.0
            .try_replace(Vec::new(alloc))
            .unwrap_or(Vec::new(alloc))
    }
}

impl Write for &Written {
    fn write(&mut self, bytes: &[u8]) -> io::Result<usize> {
        self.add(bytes);
        Ok(bytes.len())
    }

    fn flush(&mut self) -> io::Result<()> {
        Ok(())
    }
}

/// A request, a command, or both. If there are both, the command comes between the two halves of
/// the request.
#[derive(Drop)]
pub struct Arriving {
    pub request: Vec<u8>,
    pub command: Vec<u8>,
}

/// A connection of the office that brings one command.
#[derive(Drop)]
pub struct Letter<'a> {
    command: &'a [u8],
    written: &'a Written,
}

impl Handover for Letter<'_> {
    fn carry_out<D: Office>(&mut self, desk: &mut D) -> Option<Carried> {
        let mut writer = WriteOutlet::new(self.written);
        Some(answer_command(desk, self.command, &mut writer))
    }
}

/// A client's stream. Its next two reads return `half` and `rest`.
#[derive(Drop)]
pub struct Sender<'a> {
    half: &'a [u8],
    rest: &'a [u8],
    command: &'a [u8],
    was_read: bool,
    written: &'a Written,
}

fn read_from(bytes: &[u8], room: &mut [u8]) -> Waited
    ensures { IfSome (moved result) (λ n. n ≤ length room.new) }
{
    let mut left = bytes;
    match left.read(room) {
        Ok(came) => Waited::Moved(came),
        Err(_) => Waited::Failed,
    }
}

impl TimedStream for Sender<'_> {
    ghost use Rattle.std.specs.Prelude.{None};

    ghost to_come = { λ _. None };

    ghost taken = { λ _. None };

    ghost reads = { λ _ _ _ _. Unit {0} };

    ghost writes = { λ _ _ _ _. Unit {0} };

    fn read_within(&mut self, _limit: Duration, room: &mut [u8]) -> Waited {
        let half = self.half;
        self.half = self.rest;
        self.rest = b"";
        self.was_read = true;
        read_from(half, room)
    }

    fn write_within(&mut self, _limit: Duration, bytes: &[u8]) -> Waited {
        self.written.add(bytes);
        Waited::Moved(bytes.len())
    }
}

impl<'a> ClientStream for Sender<'a> {
    type Command = Letter<'a>;

    fn wait_within(&mut self, _limit: Duration, _command_first: bool) -> Woken<Letter<'a>> {
        let command = self.command;
        let written = self.written;
        if command.is_empty() || !self.was_read {
            return Woken::Client;
        }
        self.command = b"";
        Woken::Command(Letter { command, written })
    }

    fn end_writing(&mut self) -> bool {
        false
    }
}

#[derive(Drop)]
pub struct Queue<'a> {
    arriving: &'a [Arriving],
    machine: &'a Machine,
    written: &'a Written,
    waited: u64,
    failures: u64,
}

impl<'a> Queue<'a> {
    pub fn new(arriving: &'a [Arriving], machine: &'a Machine, written: &'a Written) -> Queue<'a> {
        Queue {
            arriving,
            machine,
            written,
            waited: 0,
            failures: 0,
        }
    }
}

impl<'a> Arrivals for Queue<'a> {
    type Client = Accepted<'a, Sender<'a>, Machine>;

    type Command = Letter<'a>;

    ghost waited = { λ queue. queue.waited };

    ghost failures = { λ queue. queue.failures };

    fn next(&mut self) -> Arrival<Accepted<'a, Sender<'a>, Machine>, Letter<'a>> {
        let place = self.waited as usize;
        self.waited = self.waited.saturating_add(1);
        let written = self.written;
        let Some(Arriving { request, command }) = self.arriving.get(place) else {
            self.failures = self.failures.saturating_add(1);
            return Arrival::Nobody;
        };
        let command = command.as_slice();
        if request.is_empty() {
            return Arrival::Command(Letter { command, written });
        }
        let (half, rest) = request.as_slice().split_at(request.len() / 2);
        let sender = Sender {
            half,
            rest,
            command,
            was_read: false,
            written,
        };
        Arrival::Client(Accepted::new(sender, self.machine, Duration::from_secs(10)))
    }
}

#[derive(Drop)]
pub struct Given<'a>(pub &'a [Moment]);

impl Moments for Given<'_> {
    ghost gives = { λ _ _ _. Unit {0} };

    fn now(&mut self) -> Option<Moment> {
        let (moment, rest) = self.0.split_first()?;
        self.0 = rest;
        Some(*moment)
    }
}
