//! Openings of a store while memory is refused. `tests/desk/refused_memory_tests.py` refuses one
//! allocation per run. An opening that runs out of memory leaves the database unchanged, and a
//! second opening succeeds.

use super::databases::{Contents, database, version};
use super::files::{do_in_file, make_file, path_of, remove};
use super::listing::{adopt, shows};
use crate::prelude::*;
use sqlite::MemStore;
use std::test::Fail;

fn adopted_store<S: Alter + Drop>(
    rt: &impl Host,
    connection: Connection<S>,
    contents: Contents,
) -> Store<S> {
    match Store::adopt(rt.alloc(), connection) {
        Ok(store) => store,
        Err((fault, mut left)) => {
            expect_eq(rt, fault, StoreFault::Memory);
            expect_eq(rt, version(&mut left), contents.version());
            adopt(rt, left)
        }
    }
}

fn opens_in_memory(rt: &impl Host, contents: Contents) {
    let mut store = adopted_store(rt, database(rt, contents), contents);
    shows(rt, &mut store, contents);
}

static VERSIONS: [Contents; 3] = [Contents::First, Contents::Unindexed, Contents::Second];

#[test]
fn databases_in_memory(rt: HostRuntime) {
    opens_in_memory(&rt, Contents::Nothing);
    for contents in &VERSIONS {
        opens_in_memory(&rt, *contents);
    }
}

fn new_store(rt: &impl Host) -> Store<MemStore> {
    match Store::open_in_memory(rt.alloc()) {
        Ok(store) => store,
        Err(fault) => {
            expect_eq(rt, fault, StoreFault::Memory);
            Store::open_in_memory(rt.alloc()).expect(rt, "a store")
        }
    }
}

#[test]
fn store_in_memory(rt: HostRuntime) {
    shows(&rt, &mut new_store(&rt), Contents::Nothing);
}

/// The second opening must succeed if the first runs out of memory.
fn opens_at(host: &HostRuntime, rt: &impl Host, path: &str, contents: Contents) {
    if let Err((fault, _)) = do_in_file(host, rt, path, &contents) {
        expect_eq(rt, fault, StoreFault::Memory);
        expect_eq(rt, do_in_file(host, rt, path, &contents), Ok(()));
    }
}

#[test]
fn new_file(rt: HostRuntime) -> Result<(), Fail> {
    let path = path_of(&rt, "refused")?;
    opens_at(&rt, &rt, path.as_str(), Contents::Nothing);
    opens_at(&rt, &rt, path.as_str(), Contents::Nothing);
    remove(&rt, path.as_str())
}

fn opens_file(host: &HostRuntime, rt: &impl Host, contents: Contents) -> Result<(), Fail> {
    let path = path_of(host, "opened")?;
    make_file(host, rt, path.as_str(), &contents.statements());
    opens_at(host, rt, path.as_str(), contents);
    remove(host, path.as_str())
}

#[test]
fn files_of_each_version(rt: HostRuntime) -> Result<(), Fail> {
    for contents in &VERSIONS {
        opens_file(&rt, &rt, *contents)?;
    }
    Ok(())
}
