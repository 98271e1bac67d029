//! A reader that gives a request and a writer that takes a reply. Both may fail.

ghost use Rattle.std.specs.Prelude.{◌≤◌, length};

use club_http::MAX_REPLY_LEN;
use std::io::{self, ErrorKind, Read, Write};

pub(crate) const WHOLE: usize = 65_536;

/// After the request's end, a read returns no byte or fails.
#[derive(Drop)]
pub(crate) struct Giver<'a> {
    pub left: &'a [u8],
    step: usize,
    fails: bool,
    pub calls: u64,
}

impl<'a> Giver<'a> {
    pub fn new(bytes: &'a [u8], step: usize, fails: bool) -> Giver<'a> {
        Giver {
            left: bytes,
            step,
            fails,
            calls: 0,
        }
    }
}

impl Read for Giver<'_> {
    fn read(&mut self, room: &mut [u8]) -> io::Result<usize> {
        self.calls = self.calls.saturating_add(1);
        if self.left.is_empty() && self.fails {
            return Err(io::Error::from(ErrorKind::ConnectionReset));
        }
        let n = self.step.min(room.len()).min(self.left.len());
        let (front, rest) = self.left.split_at(n);
        room[..n].copy_from_slice(front);
        self.left = rest;
        Ok(n)
    }
}

/// At the writer's limit, a write takes no byte if `stalls` is true, and fails otherwise.
#[derive(Drop)]
pub(crate) struct Taker {
    bytes: [u8; MAX_REPLY_LEN],
    len: usize,
    step: usize,
    limit: usize,
    stalls: bool,
    pub calls: u64,
    ghost within: { len ≤ 512 },
}

impl Taker {
    pub fn new(step: usize, limit: usize, stalls: bool) -> Taker {
        Taker {
            bytes: [0; MAX_REPLY_LEN],
            len: 0,
            step,
            limit,
            stalls,
            calls: 0,
        }
    }

    pub fn whole() -> Taker {
        Taker::new(MAX_REPLY_LEN, MAX_REPLY_LEN, false)
    }

    pub fn take(&mut self, bytes: &[u8]) -> usize
        ensures { result ≤ length bytes.now }
    {
        let room = self.limit.min(MAX_REPLY_LEN).saturating_sub(self.len);
        let n = self.step.min(room).min(bytes.len());
        self.bytes[self.len..self.len + n].copy_from_slice(&bytes[..n]);
        self.len += n;
        n
    }

    pub fn written_bytes(&self) -> &[u8] {
        &self.bytes[..self.len]
    }
}

impl Write for Taker {
    fn write(&mut self, bytes: &[u8]) -> io::Result<usize> {
        self.calls = self.calls.saturating_add(1);
        let n = self.take(bytes);
        if n == 0 && !bytes.is_empty() && !self.stalls {
            return Err(io::Error::from(ErrorKind::BrokenPipe));
        }
        Ok(n)
    }

    fn flush(&mut self) -> io::Result<()> {
        Ok(())
    }
}
