//! Openings of real files. Only `do_in_file` and `make_file` open stores in files, because the
//! proof of each function that names such a store's type is long.

use super::databases::{Contents, bookings, runs};
use super::listing::shows;
use crate::prelude::*;
use club_store::FailedOpening;
use sqlite::{FileStore, Unknown};
use sqlite_disk::Disk;
use std::test::Fail;
use std::{env, fs, process};
use test_kit::version_1::STATEMENTS;

/// The value that `do_in_file` returns with the fault of a failed opening.
#[derive(Clone, Copy, Debug, PartialEq, Eq)]
pub enum Left {
    Files,
    /// Another connection has the file open.
    Held,
    /// The number of bookings, or `None` if the file has no table of bookings.
    Open(Option<i64>),
    Nothing,
}

pub fn path_of(host: &HostRuntime, name: &str) -> Result<String, Fail> {
    let folder = env::temp_dir(host)?;
    let folder = folder.as_str();
    let id = process::id(host.process());
    Ok(format!(in host.alloc(); "{folder}/club-{name}-{id}")?)
}

/// Removes a file and its log.
pub fn remove(host: &HostRuntime, path: &str) -> Result<(), Fail> {
    fs::remove_file(host, path)?;
    let log = format!(in host.alloc(); "{path}-wal")?;
    let _ = fs::remove_file(host, log.as_str());
    Ok(())
}

pub trait FileWork {
    fn work<S: Alter>(&self, rt: &impl Host, store: &mut Store<S>);
}

fn worked<S: Alter + Drop>(
    rt: &impl Host,
    opened: Result<Store<S>, (StoreFault, Connection<S>)>,
    work: &impl FileWork,
) -> Result<(), (StoreFault, Left)> {
    match opened {
        Ok(mut store) => {
            work.work(rt, &mut store);
            Ok(())
        }
        Err((fault, mut left)) => Err((fault, Left::Open(bookings(&mut left)))),
    }
}

/// Makes only one call with the store's type, because each of these calls has a long proof.
fn worked_in_file<D: Disk + Drop>(
    rt: &impl Host,
    opened: Result<Store<FileStore<D>>, (StoreFault, FailedOpening<D>)>,
    work: &impl FileWork,
) -> Result<(), (StoreFault, Left)> {
    let opened = match opened {
        Ok(store) => Ok(store),
        Err((fault, FailedOpening::InUse)) => return Err((fault, Left::Held)),
        Err((fault, FailedOpening::Files(None))) => return Err((fault, Left::Nothing)),
        Err((fault, FailedOpening::Files(Some(_)))) => return Err((fault, Left::Files)),
        Err((fault, FailedOpening::Connection(connection))) => Err((fault, connection)),
    };
    worked(rt, opened, work)
}

pub fn do_in_file(
    host: &HostRuntime,
    rt: &impl Host,
    path: &str,
    work: &impl FileWork,
) -> Result<(), (StoreFault, Left)> {
    worked_in_file(rt, Store::open_file(host, path, Unknown), work)
}

pub fn make_file(host: &HostRuntime, rt: &impl Host, path: &str, lists: &[&[&str]]) {
    let mut connection = Connection::open(host, path).expect(rt, "a file");
    for texts in lists {
        runs(rt, &mut connection, texts);
    }
    connection.close().expect(rt, "closed");
}

impl FileWork for Contents {
    fn work<S: Alter>(&self, rt: &impl Host, store: &mut Store<S>) {
        shows(rt, store, *self);
    }
}

#[derive(Clone, Copy)]
struct OpensOnly;

impl FileWork for OpensOnly {
    fn work<S: Alter>(&self, _rt: &impl Host, _store: &mut Store<S>) {}
}

/// `want` is `None` if the opening must succeed.
fn expect_left(host: &HostRuntime, rt: &impl Host, path: &str, want: Option<Left>) {
    let opened = do_in_file(host, rt, path, &OpensOnly);
    expect_eq(rt, opened.err().map(|(_, left)| left), want);
}

#[derive(Clone, Copy)]
struct Reopening<'a> {
    host: &'a HostRuntime,
    path: &'a str,
}

impl FileWork for Reopening<'_> {
    fn work<S: Alter>(&self, rt: &impl Host, _first: &mut Store<S>) {
        expect_left(self.host, rt, self.path, Some(Left::Held));
    }
}

#[test]
fn a_held_file(rt: HostRuntime) -> Result<(), Fail> {
    let rt = &rt;
    let path = path_of(rt, "file")?;
    let path = path.as_str();
    let second = Reopening { host: rt, path };
    expect_eq(rt, do_in_file(rt, rt, path, &second), Ok(()));
    expect_left(rt, rt, path, None);
    remove(rt, path)?;
    expect_left(rt, rt, "/", Some(Left::Nothing));
    fs::write(rt, path, [b'x'; 100])?;
    expect_left(rt, rt, path, Some(Left::Files));
    let _ = fs::remove_file(rt, path);
    Ok(())
}

static NINTH: [&str; 1] = ["UPDATE desk SET version = 9"];

/// A refused opening doesn't change the rows, so opening the file again has the same result.
#[test]
fn a_file_of_refused_tables(rt: HostRuntime) -> Result<(), Fail> {
    let rt = &rt;
    let path = path_of(rt, "file")?;
    let path = path.as_str();
    make_file(rt, rt, path, &[&STATEMENTS, &NINTH]);
    expect_left(rt, rt, path, Some(Left::Open(Some(2))));
    expect_left(rt, rt, path, Some(Left::Open(Some(2))));
    remove(rt, path)
}
