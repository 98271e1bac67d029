//! Databases before a store opens them.

use crate::prelude::*;
use sqlite::MemStore;
use test_kit::version_1::{OLDER_ROOTS, STATEMENTS};

#[derive(Clone, Copy)]
pub(crate) enum Contents {
    Nothing,
    First,
    /// Version 2 without the index `bookings_by_key`.
    Unindexed,
    Second,
}

static INDEX: [&str; 1] = [
    "CREATE INDEX bookings_by_key \
    ON bookings (pass_key, cancelled, day, hour, number, charge, refund)",
];

impl Contents {
    pub fn statements(self) -> [&'static [&'static str]; 3] {
        match self {
            Contents::Nothing => [&[], &[], &[]],
            Contents::First => [&STATEMENTS, &[], &[]],
            Contents::Unindexed => [&STATEMENTS, &OLDER_ROOTS, &[]],
            Contents::Second => [&STATEMENTS, &OLDER_ROOTS, &INDEX],
        }
    }

    pub fn version(self) -> Option<i64> {
        match self {
            Contents::Nothing => None,
            Contents::First => Some(1),
            Contents::Unindexed | Contents::Second => Some(2),
        }
    }
}

pub(crate) fn runs<S: Alter>(rt: &impl Host, connection: &mut Connection<S>, texts: &[&str]) {
    for text in texts {
        connection.execute_batch(text).expect(rt, text);
    }
}

pub(crate) fn database_after(rt: &impl Host, lists: &[&[&str]]) -> Connection<MemStore> {
    let mut connection = Connection::open_in_memory(rt.alloc()).expect(rt, "memory");
    for texts in lists {
        runs(rt, &mut connection, texts);
    }
    connection
}

pub(crate) fn database(rt: &impl Host, contents: Contents) -> Connection<MemStore> {
    database_after(rt, &contents.statements())
}

/// Returns `None` if the database has no table of bookings.
pub(crate) fn bookings<S: Alter>(connection: &mut Connection<S>) -> Option<i64> {
    let row = connection
        .query_row("SELECT count(*) FROM bookings", &[])
        .ok()?;
    row.get(0).ok()
}

pub(crate) fn version<S: Alter>(connection: &mut Connection<S>) -> Option<i64> {
    let row = connection.query_row("SELECT version FROM desk", &[]).ok()?;
    row.get(0).ok()
}
