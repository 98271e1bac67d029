//! Runs HTTP exchanges in memory, without a network.

ghost use Rattle.std.specs.Prelude.{◌≤◌};

use crate::sent::Sent;
use anyhow::{Result, anyhow};
use club_core::{ClubStore, Reply};
use club_http::{Desk, Face, MAX_REPLY_LEN, Outlet, ReadInlet, answer};
use std::rt::Clock;
use std::time::{Duration, Instant};

/// A writer that keeps the bytes of the last reply.
#[derive(Drop)]
pub(crate) struct Kept {
    bytes: [u8; MAX_REPLY_LEN],
    len: usize,
    failures: u64,
    ghost within: { len ≤ 512 },
}

impl Kept {
    /// Makes a writer without bytes.
    pub(crate) fn new() -> Kept {
        Kept {
            bytes: [0; MAX_REPLY_LEN],
            len: 0,
            failures: 0,
        }
    }

    /// Returns the bytes of the last reply.
    pub(crate) fn bytes(&self) -> &[u8] {
        &self.bytes[..self.len]
    }
}

impl Outlet for Kept {
    ghost use Rattle.std.specs.Prelude.{Some, take};

    ghost taken = { λ writer. Some (take writer.len writer.bytes) };

    ghost failures = { λ writer. writer.failures };

    ghost puts = { λ _ _ _ _. Unit {0} };

    fn put(&mut self, bytes: &[u8]) -> Option<usize> {
        let n = bytes.len().min(MAX_REPLY_LEN - self.len);
        if n == 0 && !bytes.is_empty() {
            self.failures = self.failures.saturating_add(1);
            return None;
        }
        self.bytes[self.len..self.len + n].copy_from_slice(&bytes[..n]);
        self.len += n;
        Some(n)
    }
}

/// Runs all exchanges, one after another, and returns their total time. Afterwards, the last reply
/// is in the writer.
///
/// # Errors
///
/// Fails if the desk refused a request, if an exchange failed, or if the clock failed.
pub(crate) fn exchanges<S: ClubStore>(
    rt: &impl Clock,
    face: &mut Face,
    desk: &mut Desk<S>,
    sent: &[Sent],
    kept: &mut Kept,
) -> Result<Duration> {
    let start = Instant::now(rt)?;
    for each in sent {
        exchange(face, desk, each, kept)?;
    }
    Ok(start.elapsed(rt)?)
}

// Runs one exchange. The new reply replaces the previous reply.
fn exchange<S: ClubStore>(
    face: &mut Face,
    desk: &mut Desk<S>,
    sent: &Sent,
    kept: &mut Kept,
) -> Result<()> {
    kept.len = 0;
    let mut reader = ReadInlet::new(sent.text.as_bytes());
    match answer(face, desk, sent.moment, &mut reader, kept) {
        Err(_) | Ok(Reply::Refused(_)) => Err(anyhow!("a request isn't served")),
        Ok(_) => Ok(()),
    }
}
