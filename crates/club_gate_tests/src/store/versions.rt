//! Tables of version 1, tables of version 2 without the index `bookings_by_key`, and other
//! databases.

use super::databases::Contents::{self, First, Nothing, Unindexed};
use super::databases::{database, runs, version};
use super::listing::{adopt, shows_key};
use super::rows::{AMY_1, Kept, Older};
use super::write::{Write, change};
use crate::prelude::*;
use test_kit::version_1::{DESK, WITHOUT_TOTALS};

fn indexes<S: Alter>(rt: &impl Host, connection: &mut Connection<S>) -> i64 {
    let listed = "SELECT count(*) FROM sqlite_schema \
        WHERE type = 'index' AND name = 'bookings_by_key' AND tbl_name = 'bookings'";
    let row = connection.query_row(listed, &[]).expect(rt, "a count");
    row.get(0).expect(rt, "a number")
}

/// The first opening must create the index, and a second opening must keep the index.
fn gets_the_index(rt: &impl Host, contents: Contents) {
    let mut connection = database(rt, contents);
    expect_eq(rt, indexes(rt, &mut connection), 0);
    for _ in 0..2 {
        connection = adopt(rt, connection).into_connection();
        expect_eq(rt, indexes(rt, &mut connection), 1);
    }
}

#[test]
fn makes_the_index_of_the_bookings(rt: HostRuntime) {
    gets_the_index(&rt, Nothing);
    gets_the_index(&rt, First);
    gets_the_index(&rt, Unindexed);
}

#[test]
fn has_no_older_root_once_migrated(rt: HostRuntime) {
    let rt = &rt;
    let mut store = adopt(rt, database(rt, First));
    shows_key(rt, &mut store, AMY_1);
    shows_key(rt, &mut adopt(rt, store.into_connection()), AMY_1);
}

const OLDER: Older = Older(ROOT, "2026-04-25T00:00");

const ROTATES: Write = Write::Rotate("amy-1", OLDER, SECOND_ROOT);

const ROTATED: Kept = Kept {
    root: SECOND_ROOT,
    older: Some(OLDER),
    ..AMY_1
};

#[test]
fn rotates_a_key_once_migrated(rt: HostRuntime) {
    let rt = &rt;
    let mut store = adopt(rt, database(rt, First));
    expect_eq(rt, store.apply(&change(rt, ROTATES)), Ok(()));
    shows_key(rt, &mut adopt(rt, store.into_connection()), ROTATED);
}

/// The contents of a database, the statements that change the contents, and the version of the
/// tables.
type Other = (Contents, &'static [&'static str], Option<i64>);

const NAMED_LIKE_THE_INDEX: &[&str] = &["CREATE TABLE bookings_by_key (name TEXT) STRICT"];

static OTHERS: [Other; 9] = [
    (
        Nothing,
        &[DESK, "INSERT INTO desk (version) VALUES (9)"],
        Some(9),
    ),
    (
        Nothing,
        &[DESK, "INSERT INTO desk (version) VALUES (1)"],
        Some(1),
    ),
    (Nothing, &["CREATE TABLE keys (name TEXT) STRICT"], None),
    (Nothing, &["BEGIN"], None),
    (First, &["UPDATE desk SET version = 9"], Some(9)),
    (First, &["DROP TABLE slots"], Some(1)),
    (First, NAMED_LIKE_THE_INDEX, Some(1)),
    (Unindexed, &["DROP TABLE slots"], Some(2)),
    (Unindexed, NAMED_LIKE_THE_INDEX, Some(2)),
];

/// Returns the fault, and the version after the refused opening.
fn refusal<S: Alter + Drop>(
    rt: &impl Host,
    connection: Connection<S>,
) -> (StoreFault, Option<i64>) {
    let refused = Store::adopt(rt.alloc(), connection).err();
    let (fault, mut left) = refused.expect(rt, "a refusal");
    (fault, version(&mut left))
}

fn is_refused(rt: &impl Host, row: usize, other: Other) {
    let (contents, texts, version) = other;
    let mut connection = database(rt, contents);
    runs(rt, &mut connection, texts);
    let want = (StoreFault::Storage, version);
    expect_row(rt, row, refusal(rt, connection), want);
}

#[test]
fn refuses_other_databases(rt: HostRuntime) {
    for (row, other) in OTHERS.iter().enumerate() {
        is_refused(&rt, row, *other);
    }
}

#[test]
fn refuses_tables_without_totals(rt: HostRuntime) {
    is_refused(&rt, 0, (Nothing, &WITHOUT_TOTALS, Some(1)));
}
