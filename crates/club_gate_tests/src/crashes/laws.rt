//! Calls the laws of crashes for stores over two real files and for a store in memory.

use crate::store::files::{path_of, remove};
use club_store::Store;
use club_store::laws::{files_hold_one_of, memory_disk_is_clean, one_club_recovered};
use desk_theorem::served_survives_a_crash;
use sqlite::{FileFrom, FileStore, Start, Unknown};
use sqlite_disk::Disk;
use std::process::Abort;
use std::test::Fail;

type TwoFiles = FileStore<FileFrom<Unknown>>;

fn open(rt: &HostRuntime, test: &impl Abort, path: &str) -> Store<TwoFiles> {
    match Store::open_file(rt, path, Unknown) {
        Ok(store) => store,
        Err(_) => panic!(test; "no store opens at {path}"),
    }
}

/// Only this function takes a store apart, because each proof that does so takes half a minute.
fn into_files(store: Store<TwoFiles>) -> TwoFiles {
    store.into_store()
}

/// The function is generic because a proof with the stores' own types takes much longer.
fn call_laws<D: Disk + Drop, Q: Start>(
    before: FileStore<D>,
    after: &Store<FileStore<FileFrom<Q>>>,
) {
    files_hold_one_of(&before);
    one_club_recovered(&before, after);
    served_survives_a_crash(&before, after);
}

fn call_law_of_memory(rt: &impl AllocGlobal, test: &impl Abort) {
    memory_disk_is_clean(&Store::open_in_memory(rt.alloc()).expect(test, "a store"));
}

#[test]
fn laws_of_crashes(rt: HostRuntime) -> Result<(), Fail> {
    let (first, second) = (path_of(&rt, "first")?, path_of(&rt, "second")?);
    let after = open(&rt, &rt, second.as_str());
    call_laws(into_files(open(&rt, &rt, first.as_str())), &after);
    into_files(after).close();
    call_law_of_memory(&rt, &rt);
    remove(&rt, first.as_str())?;
    remove(&rt, second.as_str())
}
