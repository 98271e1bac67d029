//! Reading a row with a value outside its limits fails with `Storage`. The tables of these tests
//! have no `CHECK` constraints, so the tables accept such rows.

use super::databases::{database_after, runs};
use super::listing::adopt;
use crate::prelude::*;

static TABLES: [&str; 8] = [
    "CREATE TABLE desk (version INTEGER NOT NULL) STRICT",
    "CREATE TABLE members (name TEXT NOT NULL PRIMARY KEY, credited INTEGER NOT NULL, \
        quota INTEGER NOT NULL, used INTEGER NOT NULL) STRICT",
    "CREATE TABLE facilities (name TEXT NOT NULL PRIMARY KEY, kind TEXT NOT NULL, \
        places INTEGER NOT NULL, price INTEGER NOT NULL, opens INTEGER NOT NULL, \
        shuts INTEGER NOT NULL) STRICT",
    "CREATE TABLE keys (name TEXT NOT NULL PRIMARY KEY, member TEXT NOT NULL, \
        root BLOB NOT NULL, revoked INTEGER NOT NULL) STRICT",
    "CREATE TABLE slots (facility TEXT NOT NULL, day INTEGER NOT NULL, hour INTEGER NOT NULL, \
        closed INTEGER NOT NULL, taken INTEGER NOT NULL, PRIMARY KEY (facility, day, hour)) STRICT",
    "CREATE TABLE bookings (pass_key TEXT NOT NULL, number INTEGER NOT NULL, \
        facility TEXT NOT NULL, day INTEGER NOT NULL, hour INTEGER NOT NULL, \
        guests INTEGER NOT NULL, charge INTEGER NOT NULL, remains INTEGER NOT NULL, \
        cancelled INTEGER NOT NULL, refund INTEGER NOT NULL, \
        PRIMARY KEY (pass_key, number)) STRICT",
    "CREATE TABLE old_roots (pass_key TEXT NOT NULL PRIMARY KEY, root BLOB NOT NULL, \
        until INTEGER NOT NULL) STRICT",
    "INSERT INTO desk (version) VALUES (2)",
];

static ROWS: [&str; 6] = [
    "INSERT INTO members VALUES ('amy', 10000, 5, 600)",
    "INSERT INTO keys VALUES ('amy-1', 'amy', X'00112233445566778899AABBCCDDEEFF', 0)",
    "INSERT INTO old_roots VALUES ('amy-1', X'00112233445566778899AABBCCDDEEFF', 15778080)",
    "INSERT INTO facilities VALUES ('court-1', 'court', 4, 200, 8, 22)",
    "INSERT INTO slots VALUES ('court-1', 20574, 18, 0, 3)",
    "INSERT INTO bookings VALUES ('amy-1', 7, 'court-1', 20574, 18, 2, 600, 1, 0, 0)",
];

#[derive(Clone, Copy, Debug)]
enum Read {
    Member,
    Key,
    Facility,
    Slot,
    Day,
    View,
}

const MEMBERS: &str = "credited = -1; credited = 1000000000; quota = -1; quota = 100; used = -1; \
    used = 1000000000";

const KEYS: &str = "member = ''; member = 'Amy'; revoked = -1; revoked = 2";

const OLDER_ROOTS: &str = "until = 15778079; until = 68374080";

/// Roots of 15 and of 65 bytes, for both tables of roots.
const ROOTS: &str = "root = X'303132333435363738396162636465'; \
    root = X'070707070707070707070707070707070707070707070707070707070707070707\
    0707070707070707070707070707070707070707070707070707070707070707'";

const FACILITIES: &str = "kind = 'pool'; places = 0; places = 51; price = -1; price = 10000; \
    opens = -1; opens = 22; opens = 24, shuts = 25; shuts = 8; shuts = 25";

const SLOTS: &str = "closed = -1; closed = 2; taken = -1; taken = 51";

/// The last setting is a refund of a booking that isn't cancelled.
const DAYS: &str = "pass_key = 'Amy-1'; number = 0; number = 1000000000; facility = 'Court-1'; \
    hour = -1; guests = 50; charge = -1; remains = 50; refund = 1";

/// The last settings are a refund above the charge, and a refund of an open booking.
const VIEWS: &str = "facility = ''; day = 10956; day = 47482; hour = 24; guests = -1; \
    charge = 499951; remains = -1; cancelled = 2; cancelled = 1, refund = -1; \
    cancelled = 1, refund = 601; refund = 1";

const LAST_MEMBER: &str = "credited = 999999999, quota = 99, used = 0";

const LAST_OLDER_ROOT: &str = "until = 68374079, \
    root = X'070707070707070707070707070707070707070707070707070707070707070707\
    07070707070707070707070707070707070707070707070707070707070707'";

const LAST_FACILITY: &str = "places = 50, price = 9999, opens = 0, shuts = 24";

const LAST_BOOKING: &str = "guests = 49, charge = 499950, remains = 49";

fn fault_of<S: Alter>(rt: &impl Host, store: &mut Store<S>, read: Read) -> Option<StoreFault> {
    match read {
        Read::Member => store.member(&name(rt, "amy")).err(),
        Read::Key => store.key(&name(rt, "amy-1")).err(),
        Read::Facility => store.facility(&name(rt, "court-1")).err(),
        Read::Slot => store.slot(&slot(rt, COURT_AT_18)).err(),
        Read::Day => store.day(day(rt, "2026-05-01")).err(),
        Read::View => {
            let (key, asked) = (name(rt, "amy-1"), request(rt, CANCEL_7));
            store.view(&key, &asked, at(rt, NOON)).err()
        }
    }
}

fn ends(rt: &impl Host, text: &str, read: Read, want: Option<StoreFault>) {
    let mut connection = database_after(rt, &[&TABLES, &ROWS]);
    runs(rt, &mut connection, &[text]);
    let fault = fault_of(rt, &mut adopt(rt, connection), read);
    expect_row(rt, text, fault, want);
}

/// For each setting, updates the table. Then the read must fail with `want`, or must succeed if
/// `want` is `None`.
fn end(rt: &impl Host, read: Read, table: &str, settings: &str, want: Option<StoreFault>) {
    for setting in settings.split(';') {
        let text = format!(in rt.alloc(); "UPDATE {table} SET {setting}").expect(rt, "memory");
        ends(rt, text.as_str(), read, want);
    }
}

#[test]
fn rows_out_of_their_limits(rt: HostRuntime) {
    let fault = Some(StoreFault::Storage);
    end(&rt, Read::Member, "members", MEMBERS, fault);
    end(&rt, Read::Key, "keys", KEYS, fault);
    end(&rt, Read::Key, "keys", ROOTS, fault);
    end(&rt, Read::Key, "old_roots", ROOTS, fault);
    end(&rt, Read::Key, "old_roots", OLDER_ROOTS, fault);
    end(&rt, Read::Facility, "facilities", FACILITIES, fault);
    end(&rt, Read::Slot, "slots", SLOTS, fault);
    end(&rt, Read::Day, "bookings", DAYS, fault);
    end(&rt, Read::View, "bookings", VIEWS, fault);
}

#[test]
fn rows_at_their_limits(rt: HostRuntime) {
    end(&rt, Read::Member, "members", LAST_MEMBER, None);
    end(&rt, Read::Key, "old_roots", LAST_OLDER_ROOT, None);
    end(&rt, Read::Facility, "facilities", LAST_FACILITY, None);
    end(&rt, Read::Slot, "slots", "closed = 1, taken = 50", None);
    end(&rt, Read::Day, "bookings", LAST_BOOKING, None);
    let cancelled = "cancelled = 1, refund = 600";
    end(&rt, Read::View, "bookings", cancelled, None);
}
