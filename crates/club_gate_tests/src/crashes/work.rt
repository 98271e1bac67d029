//! Tasks over a database in two files.

use crate::crashes::desk::{Event, replies_over};
use crate::crashes::disk::{Bytes, Stop, Stops, has_calls_left};
use crate::crashes::tables::lines_in;
use crate::expect::{Host, append};
use club_store::Store;
use sqlite::{Alter, Connection, FileStore, Files, Options};
use sqlite_disk::Disk;

#[derive(Clone, Copy)]
pub(crate) enum Work {
    Runs(&'static [&'static str]),
    /// A desk answers the events of both lists.
    Serves(&'static [Event], &'static [Event]),
    /// A desk answers both lists between two readings of all rows.
    Inspects(&'static [Event], &'static [Event]),
}

/// Returns `None` if no store adopts the database.
fn replies_of_desk<S: Alter + Drop>(
    rt: &impl Host,
    connection: Connection<S>,
    events: &[Event],
    then: &[Event],
) -> (Option<Vec<String>>, Connection<S>) {
    match Store::adopt(rt.alloc(), connection) {
        Ok(store) => {
            let (replies, store) = replies_over(rt, store, events, then);
            (Some(replies), store.into_connection())
        }
        Err((_, connection)) => (None, connection),
    }
}

fn do_work<S: Alter + Drop>(
    rt: &impl Host,
    mut connection: Connection<S>,
    work: Work,
) -> (Option<Vec<String>>, Connection<S>) {
    match work {
        Work::Runs(statements) => {
            for statement in statements {
                connection.execute_batch(statement).expect(rt, statement);
            }
            (Some(Vec::new(rt.alloc())), connection)
        }
        Work::Serves(events, then) => replies_of_desk(rt, connection, events, then),
        Work::Inspects(events, then) => {
            let mut lines = lines_in(rt, &mut connection);
            let (replies, mut connection) = replies_of_desk(rt, connection, events, then);
            append(rt, &mut lines, replies.expect(rt, "a store"));
            append(rt, &mut lines, lines_in(rt, &mut connection));
            (Some(lines), connection)
        }
    }
}

fn close<D: Disk + Drop>(connection: Connection<FileStore<D>>) -> Files<D> {
    match connection.close_files() {
        Ok(files) => files,
        Err((_, left)) => left.close(),
    }
}

/// The function is generic because a proof with the files' own type takes much longer.
fn over_files<D: Disk + Drop>(
    rt: &impl Host,
    files: Files<D>,
    work: Work,
) -> (Option<Vec<String>>, Files<D>) {
    if !files.may_be_used() {
        return (None, files);
    }
    match Connection::open_files(rt.alloc(), files, Options::new(7)) {
        Ok(connection) => {
            let (lines, connection) = do_work(rt, connection, work);
            (lines, close(connection))
        }
        Err((_, left)) => (None, left.into_files()),
    }
}

#[derive(Drop)]
pub(crate) struct Done {
    /// `None` if no store opened the database.
    pub lines: Option<Vec<String>>,
    /// True if the file that may fail had calls left at the end. In this case, no call failed.
    pub has_calls_left: bool,
    pub files: Files<Stops>,
}

pub(crate) fn do_over(rt: &impl Host, bytes: &Bytes, stop: Stop, work: Work) -> Done {
    let (lines, mut files) = over_files(rt, bytes.files(rt, stop), work);
    Done {
        lines,
        has_calls_left: has_calls_left(&mut files, stop.part),
        files,
    }
}
