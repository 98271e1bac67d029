//! Test doubles: a reader and a writer in memory.

ghost use Rattle.std.specs.Prelude.{◌≤◌};

use club_http::{Inlet, Outlet};

/// A reader that returns a few bytes per call. After the last byte, a call returns no bytes or
/// fails.
#[derive(Drop)]
pub struct Pieces<'a> {
    pub left: &'a [u8],
    /// One less than the largest number of bytes that a call returns.
    behind_first: usize,
    fails: bool,
    pub calls: u64,
    pub failures: u64,
}

impl<'a> Pieces<'a> {
    pub fn new(bytes: &'a [u8], step: usize, fails: bool) -> Pieces<'a> {
        Pieces {
            left: bytes,
            behind_first: step.saturating_sub(1),
            fails,
            calls: 0,
            failures: 0,
        }
    }
}

impl Inlet for Pieces<'_> {
    ghost use Rattle.std.specs.Prelude.{◌≡◌, Some};
    ghost use Rattle.club_http.specs.Exchange.{one_more};

    ghost to_come = { λ reader. Some reader.left.now };

    ghost failures = { λ reader. reader.failures };

    ghost fills = { λ old _ _ new. new.calls ≡ one_more old.calls };

    fn fill(&mut self, room: &mut [u8]) -> Option<usize> {
        self.calls = self.calls.saturating_add(1);
        if self.left.is_empty() && self.fails {
            self.failures = self.failures.saturating_add(1);
            return None;
        }
        let step = self.behind_first.saturating_add(1);
        let n = step.min(room.len()).min(self.left.len());
        let (front, rest) = self.left.split_at(n);
        room[..n].copy_from_slice(front);
        self.left = rest;
        Some(n)
    }
}

pub const ROOM: usize = 512;

/// A writer that accepts a few bytes per call. After `limit` bytes, a call fails or accepts no
/// bytes.
#[derive(Drop)]
pub struct Narrow {
    bytes: [u8; ROOM],
    len: usize,
    step: usize,
    limit: usize,
    pub stalls: bool,
    pub calls: u64,
    pub failures: u64,
    ghost within: { len ≤ 512 },
}

impl Narrow {
    pub fn new(step: usize, limit: usize) -> Narrow {
        Narrow {
            bytes: [0; ROOM],
            len: 0,
            step,
            limit,
            stalls: false,
            calls: 0,
            failures: 0,
        }
    }

    pub fn written_bytes(&self) -> &[u8] {
        &self.bytes[..self.len]
    }
}

impl Outlet for Narrow {
    ghost use Rattle.std.specs.Prelude.{◌≡◌, Some, take};
    ghost use Rattle.club_http.specs.Exchange.{one_more};

    ghost taken = { λ writer. Some (take writer.len writer.bytes) };

    ghost failures = { λ writer. writer.failures };

    ghost puts = { λ old _ _ new. new.calls ≡ one_more old.calls };

    fn put(&mut self, bytes: &[u8]) -> Option<usize> {
        self.calls = self.calls.saturating_add(1);
        let room = self.limit.min(ROOM).saturating_sub(self.len);
        let n = self.step.min(room).min(bytes.len());
        if n == 0 && !bytes.is_empty() {
            self.failures = self.failures.saturating_add(1);
            return if self.stalls { Some(0) } else { None };
        }
        self.bytes[self.len..self.len + n].copy_from_slice(&bytes[..n]);
        self.len += n;
        Some(n)
    }
}
