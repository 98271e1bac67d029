//! Laws of stores. Each law is the contract of a function with an empty body.

ghost use Rattle.std.specs.Prelude.{List};
ghost use Rattle.club_core.specs.Club.{Club};
ghost use Rattle.club_store.specs.Opening.{CrashLeaves, HoldsOneOf, RepresentsOne, OpensFrom};
ghost use Rattle.sqlite.specs.{Files.file_state, Held.state, Recovery.Image, State.HasCleanDisk};
ghost use Rattle.sqlite.specs.Steps.{over_memory};

use crate::Store;
use sqlite::{FileFrom, FileStore, MemStore, Start};
use sqlite_disk::{Disk, Fuse, Memory};

/// After a crash, the store's file and log contain the database of one of the clubs in `clubs`.
pub fn files_hold_one_of<D: Disk>(store: &FileStore<D>)
    ensures { (clubs : List Club) (left : Image) → CrashLeaves store.now clubs left →
        ∥ HoldsOneOf left clubs ∥₁ }
{}

/// The crash law. After a crash, the reopened store represents one of the clubs that the crash
/// could leave. Until the next change, another crash leaves the same club.
pub fn one_club_recovered<D: Disk, Q: Start>(
    before: &FileStore<D>,
    after: &Store<FileStore<FileFrom<Q>>>,
)
    ensures { (clubs : List Club) (left : Image) → CrashLeaves before.now clubs left →
        OpensFrom left after.now → ∥ RepresentsOne (file_state after.now) clubs ∥₁ }
{}

/// The disk of a store in memory is clean: reads return the bytes that were written, and no other
/// program writes to the disk.
pub fn memory_disk_is_clean(store: &Store<MemStore>)
    ensures { HasCleanDisk (state over_memory store.now) }
{}

/// The disk of a store over files in memory is clean: reads return the bytes that were written, and
/// no other program writes to the disk.
pub fn disk_of_files_in_memory_is_clean(store: &Store<FileStore<Memory>>)
    ensures { HasCleanDisk (file_state store.now) }
{}

/// The disk of a store over files in memory stays clean, even if all calls to the disk fail from
/// some point on. Such failures model a crash of the machine. A read that succeeds returns the
/// bytes that were written.
pub fn disk_of_files_that_stop_is_clean(store: &Store<FileStore<Fuse<Memory>>>)
    ensures { HasCleanDisk (file_state store.now) }
{}
