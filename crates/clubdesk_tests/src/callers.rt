//! Test doubles for a run: its input and writer, its server's clients, and its clock.

use crate::runs::Fixture;
use std::cell::Cell;
use std::fs;
use std::io::{self, ErrorKind, Read, Write};
use std::net::TcpStream;
use std::time::{Clock, Duration};

#[derive(Clone, Copy)]
pub enum Input<'a> {
    Bytes(&'a [u8]),
    Broken,
}

impl Read for Input<'_> {
    fn read(&mut self, room: &mut [u8]) -> io::Result<usize> {
        match self {
            Input::Bytes(left) => left.read(room),
            Input::Broken => Err(io::Error::from(ErrorKind::ConnectionReset)),
        }
    }
}

/// Counts of the calls to a database in memory.
#[derive(Default, Drop)]
pub struct Notes {
    pub opened: Cell<u64>,
    pub closed: Cell<u64>,
    /// The number of closings before the run's first write, and the number of closings before a
    /// server removes its door.
    pub written: Cell<Option<u64>>,
    pub removed: Cell<Option<u64>>,
    /// The length of the last command that was handed over.
    pub handed: Cell<usize>,
}

/// A writer with limited room. When the server flushes its `listening on` line, the clients connect
/// and send their requests at once. So one thread is enough for the server and its clients.
#[derive(Drop)]
pub struct Caller<'a> {
    rt: &'a HostRuntime,
    scene: Fixture<'a>,
    notes: &'a Notes,
    written: Vec<u8>,
    clients: Vec<TcpStream>,
}

impl<'a> Caller<'a> {
    pub fn new(rt: &'a HostRuntime, scene: &Fixture<'a>, notes: &'a Notes) -> Caller<'a> {
        Caller {
            rt,
            scene: *scene,
            notes,
            written: Vec::new(rt.alloc()),
            clients: Vec::new(rt.alloc()),
        }
    }

    pub fn written_bytes(&self) -> &[u8] {
        self.written.as_slice()
    }

    fn port(&self) -> Option<u16> {
        let line = str::from_utf8(self.written_bytes()).ok()?;
        let port = line.strip_prefix("listening on 127.0.0.1:")?;
        port.strip_suffix("\n")?.parse().ok()
    }

    // Fails if the server also listens at another address of the machine.
    fn send(&self, port: u16, request: &str) -> io::Result<TcpStream> {
        if TcpStream::connect(self.rt, ("127.0.0.2", port)).is_ok() {
            return Err(io::Error::from(ErrorKind::AddrInUse));
        }
        let mut client = TcpStream::connect(self.rt, ("127.0.0.1", port))?;
        client.write_all(request.as_bytes())?;
        Ok(client)
    }

    /// The server may close a connection early, so a read may end with an error.
    pub fn reply(self) -> Vec<u8> {
        let Caller { rt, clients, .. } = self;
        let mut reply = Vec::new(rt.alloc());
        for mut client in clients {
            let _ = client.read_to_end(&mut reply);
        }
        reply
    }
}

impl Write for Caller<'_> {
    fn write(&mut self, bytes: &[u8]) -> io::Result<usize> {
        if self.notes.written.get().is_none() {
            self.notes.written.set(Some(self.notes.closed.get()));
        }
        let room = self.scene.room.saturating_sub(self.written.len());
        if room == 0 {
            return Err(io::Error::from(ErrorKind::StorageFull));
        }
        let count = bytes.len().min(room);
        let (front, _) = bytes.split_at(count);
        match self.written.extend_from_slice(front) {
            Ok(()) => Ok(count),
            Err(_) => Err(io::Error::from(ErrorKind::OutOfMemory)),
        }
    }

    fn flush(&mut self) -> io::Result<()> {
        if !self.scene.flushes {
            return Err(io::Error::from(ErrorKind::BrokenPipe));
        }
        let Some(port) = self.port() else {
            return Ok(());
        };
        if let Some(path) = self.scene.removed {
            fs::remove_file(self.rt, path)?;
        }
        for request in self.scene.requests {
            let client = self.send(port, request)?;
            self.clients.push(client)?;
        }
        self.written.clear();
        Ok(())
    }
}

/// If `second` is `None`, every reading of the clock fails. The first two monotonic readings are 0.
/// They are the start of a connection's time limit, and the connection's start time in the log.
/// Later readings are `later` microseconds.
#[derive(Drop)]
pub struct Machine {
    second: Option<u64>,
    later: u64,
    read: Cell<u64>,
    /// The sum of all sleeps in milliseconds.
    pub slept: Cell<u64>,
}

impl Machine {
    pub fn new(second: Option<u64>, later: u64) -> Machine {
        Machine {
            second,
            later,
            read: Cell::new(0),
            slept: Cell::new(0),
        }
    }
}

impl Clock for Machine {
    fn monotonic(&self) -> io::Result<Duration> {
        let _ = self.since_1970()?;
        let read = self.read.get();
        self.read.set(read.saturating_add(1));
        let slept = self.slept.get().saturating_mul(1_000);
        let later = if read < 2 { 0 } else { self.later };
        Ok(Duration::from_micros(slept.saturating_add(later)))
    }

    fn since_1970(&self) -> io::Result<Duration> {
        match self.second {
            Some(second) => Ok(Duration::from_secs(second)),
            None => Err(io::Error::from(ErrorKind::Unsupported)),
        }
    }

    fn sleep(&self, duration: Duration) {
        let millis = u64::try_from(duration.as_millis()).unwrap_or(u64::MAX);
        self.slept.set(self.slept.get().saturating_add(millis));
    }
}
