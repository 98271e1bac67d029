//! A file in memory that keeps each change since its last sync, for tests that lose or tear
//! changes. After a torn write, each byte is old or new.

ghost use Rattle.std.specs.Prelude.{◌≡◌, ◌∷◌, length, true, false, refl, reverse, map, is_ok, OnOk};
ghost use Rattle.std.specs.Prelude.{OnErr};
ghost use Rattle.std.proofs.Common.{inl};
ghost use Rattle.sqlite_disk.specs.{Disk.{Holds, Mixed, Cut, CountsFault}, History.MayLeave};
ghost use Rattle.sqlite_disk.specs.Refusal.{finds_no_room};
ghost use Rattle.club_gate_tests.specs.Steps.{step_from};

use sqlite_disk::{Disk, Tally, digest_of};
use std::alloc::{AllocError, Global};
use std::io;

/// Without `at`, the change is a new length.
#[derive(Drop)]
pub(crate) struct Change {
    pub at: Option<usize>,
    pub len: usize,
    pub bytes: Vec<u8>,
    pub digest: u64,
}

#[derive(Drop)]
pub(crate) struct Recorded {
    pub bytes: Vec<u8>,
    /// The bytes at the last sync, and the changes since that sync.
    pub synced: Vec<u8>,
    pub synced_digest: u64,
    pub changes: Vec<Change>,
    usable: bool,
    faults: u64,
    caught: u64,
}

impl Recorded {
    pub fn of(alloc: Global, bytes: &[u8]) -> Result<Recorded, AllocError> {
        Ok(Recorded {
            bytes: Vec::from_slice(alloc, bytes)?,
            synced: Vec::from_slice(alloc, bytes)?,
            synced_digest: digest_of(0, bytes),
            changes: Vec::new(alloc),
            usable: true,
            faults: 0,
            caught: 0,
        })
    }
}

impl Disk for Recorded {
    ghost seen = { λ m. m.bytes.items };

    ghost may_leave = { λ m. MayLeave true m.bytes.items m.synced.items
        (reverse (map (λ it. step_from it.at it.len it.bytes.items) m.changes.items)) };

    ghost is_usable = { λ m. m.usable };

    ghost faults = { λ m. m.faults };

    ghost is_clean = { λ _. true };

    ghost tally_of = { λ m. record { caught = m.caught; refused = 0 } };

    ghost key_of = { λ _. 0 };

    ghost is_fair = { λ _ _. true };

    ghost fair_if_clean = { λ _ _ _. refl };

    ghost seen_may_stay = { λ m. inl refl };

    ghost is_mixing = { λ _. true };

    fn mixes(&self) -> bool {
        true
    }

    fn key(&self) -> u64 {
        0
    }

    fn tally(&self) -> Tally {
        Tally {
            caught: self.caught,
            refused: 0,
        }
    }

    fn may_be_used(&self) -> bool {
        self.usable
    }

    fn len(&mut self) -> io::Result<usize> {
        Ok(self.bytes.len())
    }

    fn read_at(&mut self, at: usize, buf: &mut [u8]) -> io::Result<()> {
        if at > self.bytes.len() || buf.len() > self.bytes.len() - at {
            return Err(io::ErrorKind::UnexpectedEof.into());
        }
        buf.copy_from_slice(&self.bytes[at..at + buf.len()]);
        Ok(())
    }

    fn read_checked(&mut self, key: u64, want: u64, at: usize, buf: &mut [u8]) -> io::Result<()> {
        self.read_at(at, buf)?;
        if digest_of(key, buf) != want {
            self.faults = self.faults.saturating_add(1);
            self.caught = self.caught.saturating_add(1);
            return Err(io::ErrorKind::InvalidData.into());
        }
        Ok(())
    }

    fn write_at(&mut self, at: usize, bytes: &[u8]) -> io::Result<()> {
        count(
            note(&mut self.changes, Some(at), bytes.len(), bytes),
            &mut self.faults,
        )?;
        count(overwrite(&mut self.bytes, at, bytes), &mut self.faults)
    }

    fn set_len(&mut self, len: usize) -> io::Result<()> {
        count(note(&mut self.changes, None, len, &[]), &mut self.faults)?;
        count(resize(&mut self.bytes, len), &mut self.faults)
    }

    fn sync(&mut self) -> io::Result<()> {
        self.usable = false;
        count(replace(&mut self.synced, &self.bytes), &mut self.faults)?;
        self.synced_digest = digest_of(0, &self.synced);
        self.changes.clear();
        self.usable = true;
        Ok(())
    }
}

fn count(outcome: Result<(), AllocError>, faults: &mut u64) -> io::Result<()>
    ensures variant { is_ok result ≡ is_ok outcome }
    ensures kind { finds_no_room result ≡ false }
    ensures faults { CountsFault result faults.old faults.new }
{
    if outcome.is_err() {
        *faults = faults.saturating_add(1);
        return Err(io::Error::from(io::ErrorKind::OutOfMemory));
    }
    Ok(())
}

fn note(
    changes: &mut Vec<Change>,
    at: Option<usize>,
    len: usize,
    bytes: &[u8],
) -> Result<(), AllocError>
    ensures ok { OnOk result
        (reverse (map (λ it. step_from it.at it.len it.bytes.items) changes.new.items)
        ≡ step_from at len bytes.now
        ∷ reverse (map (λ it. step_from it.at it.len it.bytes.items) changes.old.items)) }
    ensures err { OnErr result (changes.new.items ≡ changes.old.items) }
{
    let place = at.unwrap_or(usize::MAX) as u64;
    let change = Change {
        at,
        len,
        bytes: Vec::from_slice(*changes.allocator(), bytes)?,
        digest: digest_of(place ^ (len as u64).rotate_left(32), bytes),
    };
    changes.push(change)?;
    Ok(())
}

fn replace(file: &mut Vec<u8>, bytes: &[u8]) -> Result<(), AllocError>
    ensures ok { OnOk result (file.new.items ≡ bytes.now) }
    ensures err { OnErr result (file.new.items ≡ file.old.items) }
{
    *file = Vec::from_slice(*file.allocator(), bytes)?;
    Ok(())
}

pub(crate) fn resize(file: &mut Vec<u8>, len: usize) -> Result<(), AllocError>
    ensures len { OnOk result (length file.new.items ≡ len) }
    ensures others { Cut len file.old.items file.new.items }
    ensures err { OnErr result (file.new.items ≡ file.old.items) }
{
    file.resize(len, 0)
}

pub(crate) fn overwrite(file: &mut Vec<u8>, at: usize, bytes: &[u8]) -> Result<(), AllocError>
    ensures written { OnOk result (Holds file.new.items at bytes.now) }
    ensures mixed { Mixed at bytes.now file.old.items file.new.items }
{
    let end = at.checked_add(bytes.len()).ok_or(AllocError)?;
    if end > file.len() {
        resize(file, end)?;
    }
    file[at..end].copy_from_slice(bytes);
    Ok(())
}
