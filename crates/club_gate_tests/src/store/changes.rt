//! The rows after each change, and changes that the store refuses with `Storage`. A refused change
//! contradicts the rows or breaks a rule of the club.

use super::rows::{AMY_1, Kept, Older, facility, key};
use super::write::Write::{
    self, Book, Cancel, Close, Credit, Debit, Facility, Key, Member, Numbers, Open, Quota, Revoke,
    Rotate,
};
use super::write::change;
use crate::prelude::*;
use crate::values::{booked, number};
use club_core::MemberAccount;
use test_kit::moments::START;
use test_kit::{COURT, PlainFacility};

/// The rows of a club. For a member: the credited points, the cost of the bookings, and the quota.
/// For a slot: the number of persons, and whether the slot is closed. All bookings are under
/// `amy-1`.
#[derive(Clone, Copy)]
struct Seen {
    amy: Option<(u32, u32, u8)>,
    ben: Option<(u32, u32, u8)>,
    key: Option<Kept>,
    court: Option<PlainFacility>,
    at_18: (u32, bool),
    at_19: (u32, bool),
    seventh: Option<PlainBooking>,
    open: u64,
}

/// The changes, the club after these changes, and further changes that the store must then refuse.
type Row = (&'static [Write], Seen, &'static [Write]);

const EMPTY: Seen = Seen {
    amy: None,
    ben: None,
    key: None,
    court: None,
    at_18: (0, false),
    at_19: (0, false),
    seventh: None,
    open: 0,
};

static FILLS: [Write; 5] = [
    Member("amy", 9_000),
    Credit("amy", 1_000),
    Key(AMY_1),
    Facility(COURT),
    Book("amy-1", 7, COURT_AT_18, 2, "amy", 600),
];

const FILLED: Seen = Seen {
    amy: Some((10_000, 600, 5)),
    key: Some(AMY_1),
    court: Some(COURT),
    at_18: (3, false),
    seventh: Some(BOOKING_7),
    open: 1,
    ..EMPTY
};

const REFUNDED_7: PlainBooking = PlainBooking {
    refund: Some(300),
    ..BOOKING_7
};

const OTHER_PERSONS: PlainBooking = PlainBooking {
    guests: 0,
    ..BOOKING_7
};

const OTHER_SLOT: PlainBooking = PlainBooking {
    slot: COURT_AT_19,
    ..BOOKING_7
};

const UNKNOWN_KEY: PlainBooking = PlainBooking {
    key: "amy-2",
    ..BOOKING_7
};

const NOWHERE: PlainSlot = PlainSlot {
    facility: "court-9",
    ..COURT_AT_18
};

/// The court isn't open at hour 22.
const COURT_AT_22: PlainSlot = PlainSlot {
    hour: 22,
    ..COURT_AT_18
};

const OLDER: Older = Older(ROOT, "2026-04-25T00:00");

const SECOND_KEY_WITH_OLDER: Kept = Kept {
    name: "amy-2",
    older: Some(OLDER),
    ..AMY_1
};

/// Amy has 9,400 points. The court has one free place at 18 and four free places at 19.
const UNFIT: &[Write] = &[
    Cancel(UNKNOWN_KEY, "amy", 300),
    Book("amy-2", 7, COURT_AT_19, 2, "amy", 600),
    Cancel(OTHER_PERSONS, "amy", 300),
    Cancel(OTHER_SLOT, "amy", 300),
    Cancel(BOOKING_7, "amy", 601),
    Book("amy-1", 7, COURT_AT_18, 2, "amy", 600),
    Book("amy-1", 9, NOWHERE, 0, "amy", 200),
    // The slot at 18 has one free place, and the slot at 19 has four.
    Book("amy-1", 9, COURT_AT_18, 1, "amy", 200),
    Book("amy-1", 9, COURT_AT_19, 4, "amy", 200),
    Book("amy-1", 9, COURT_AT_18, 0, "amy", 9_401),
    Member("amy", 0),
    Facility(COURT),
    Key(AMY_1),
    Key(SECOND_KEY_WITH_OLDER),
    Credit("amy", 999_990_000),
    Debit("cy", 1),
    Debit("amy", 10_001),
    Debit("amy", 9_401),
    Numbers("court-9", 4, 200, 8, 22),
    Numbers("court-1", 51, 200, 8, 22),
    Numbers("court-1", 4, 10_000, 8, 22),
    Numbers("court-1", 4, 200, 22, 22),
    Numbers("court-1", 4, 200, 8, 25),
    Numbers("court-1", 2, 200, 8, 22),
    Quota("amy", 100),
    Quota("cy", 5),
    Close(NOWHERE),
    Open(NOWHERE),
    Rotate("amy-1", Older(SECOND_ROOT, "2026-04-25T00:00"), THIRD_ROOT),
    Rotate("amy-2", OLDER, SECOND_ROOT),
];

/// Ben has 1,000 points. A member can't pay for a booking under another member's key, and can't get
/// the refund of such a booking.
const UNFIT_OF_BEN: &[Write] = &[
    Book("amy-1", 9, COURT_AT_19, 2, "ben", 600),
    Cancel(BOOKING_7, "ben", 300),
    Debit("ben", 1_001),
];

const WITH_BEN: Seen = Seen {
    ben: Some((1_000, 0, 5)),
    ..FILLED
};

const UNFIT_ONCE_CANCELLED: &[Write] = &[
    Cancel(BOOKING_7, "amy", 300),
    Cancel(REFUNDED_7, "amy", 300),
    Numbers("court-1", 0, 200, 8, 22),
];

const CANCELLED: Seen = Seen {
    amy: Some((10_000, 300, 5)),
    at_18: (0, false),
    seventh: Some(REFUNDED_7),
    open: 0,
    ..FILLED
};

const DEBITED: Seen = Seen {
    amy: Some((600, 600, 5)),
    ..FILLED
};

const CLOSED_AT_18: Seen = Seen {
    at_18: (3, true),
    ..FILLED
};

const CLOSED_AT_19: Seen = Seen {
    at_19: (0, true),
    ..FILLED
};

static ROWS: [Row; 7] = [
    (&[], FILLED, UNFIT),
    (&[Member("ben", 1_000)], WITH_BEN, UNFIT_OF_BEN),
    (
        &[Cancel(BOOKING_7, "amy", 300)],
        CANCELLED,
        UNFIT_ONCE_CANCELLED,
    ),
    (&[Debit("amy", 9_400)], DEBITED, &[Debit("amy", 1)]),
    (&[Close(COURT_AT_18)], CLOSED_AT_18, &[Close(COURT_AT_18)]),
    // A slot can be opened again, even at an hour when the court is shut.
    (&[Open(COURT_AT_18), Open(COURT_AT_22)], FILLED, &[]),
    (
        &[Close(COURT_AT_18), Close(COURT_AT_19), Open(COURT_AT_18)],
        CLOSED_AT_19,
        &[Close(COURT_AT_19)],
    ),
];

fn account<C: ClubStore>(rt: &impl Host, store: &mut C, text: &str) -> Option<(u32, u32, u8)> {
    let account = store.account(&name(rt, text)).expect(rt, "an answer")?;
    let MemberAccount { member, balance } = account;
    let used = member.credited.saturating_sub(balance);
    Some((member.credited, used, member.quota))
}

fn expect_accounts<C: ClubStore>(rt: &impl Host, store: &mut C, row: usize, seen: &Seen) {
    expect_row(rt, row, account(rt, store, "amy"), seen.amy);
    expect_row(rt, row, account(rt, store, "ben"), seen.ben);
    let used = seen.amy.unwrap_or((0, 0, 0)).1;
    let spent = store.spent(&name(rt, "amy-1"));
    expect_row(rt, row, spent, Ok(u64::from(used)));
    expect_row(rt, row, store.spent(&name(rt, "amy-2")), Ok(0));
}

fn expect_key<C: ClubStore>(
    rt: &impl Host,
    store: &mut C,
    row: usize,
    text: &str,
    want: Option<Kept>,
) {
    let name = name(rt, text);
    let (bare, older) = match want {
        Some(kept) => {
            let want = key(rt, kept);
            (Some(want.row()), want.older)
        }
        None => (None, None),
    };
    expect_row(rt, row, store.key_row(&name), Ok(bare));
    expect_row(rt, row, store.older_root(&name), Ok(older));
}

/// There must be no second key.
fn expect_keys<C: ClubStore>(rt: &impl Host, store: &mut C, row: usize, seen: &Seen) {
    expect_key(rt, store, row, "amy-1", seen.key);
    expect_key(rt, store, row, "amy-2", None);
}

fn expect_slots<C: ClubStore>(rt: &impl Host, store: &mut C, row: usize, seen: &Seen) {
    for (at, want) in [
        (COURT_AT_18, seen.at_18),
        (COURT_AT_19, seen.at_19),
        (COURT_AT_22, (0, false)),
    ] {
        let held = store.slot(&slot(rt, at)).expect(rt, "an answer");
        expect_row(rt, row, (held.taken, held.closed), want);
    }
}

/// There must be no second court.
fn expect_court<C: ClubStore>(rt: &impl Host, store: &mut C, row: usize, seen: &Seen) {
    let court_1 = name(rt, "court-1");
    let want = seen.court.map(|court| facility(rt, court));
    expect_row(rt, row, store.facility(&court_1), Ok(want));
    expect_row(rt, row, store.facility(&name(rt, "court-2")), Ok(None));
    expect_row(rt, row, store.most_taken(&court_1), Ok(seen.at_18.0));
}

/// The next day must have no booking.
fn expect_days<C: ClubStore>(rt: &impl Host, store: &mut C, row: usize, seen: &Seen) {
    let rows = store.day(day(rt, "2026-05-01")).expect(rt, "a day");
    expect_row(rt, row, rows.len() as u64, seen.open);
    let first = match seen.open {
        0 => None,
        _ => booked(rt, seen.seventh),
    };
    expect_row(rt, row, rows.first().copied(), first);
    let next = store.day(day(rt, "2026-05-02")).expect(rt, "a day");
    expect_row(rt, row, next.len(), 0);
}

const BEFORE: &str = "2026-05-01T17:59";

/// A booking is open until its slot begins.
fn expect_bookings<C: ClubStore>(rt: &impl Host, store: &mut C, row: usize, seen: &Seen) {
    let amy_1 = name(rt, "amy-1");
    let seventh = booked(rt, seen.seventh);
    for (numbered, want) in [(7, seventh), (8, None), (9, None)] {
        let found = store.booking(&amy_1, number(rt, numbered));
        expect_row(rt, row, found, Ok(want));
    }
    let open = [
        ("amy", BEFORE, seen.open),
        ("amy", START, 0),
        ("bob", BEFORE, 0),
    ];
    for (member, at, want) in open {
        let count = store.open_count(&name(rt, member), moment(rt, at));
        expect_row(rt, row, count, Ok(want));
    }
}

fn expect_seen<C: ClubStore>(rt: &impl Host, store: &mut C, row: usize, seen: &Seen) {
    expect_accounts(rt, store, row, seen);
    expect_keys(rt, store, row, seen);
    expect_court(rt, store, row, seen);
    expect_slots(rt, store, row, seen);
    expect_bookings(rt, store, row, seen);
    expect_days(rt, store, row, seen);
}

fn apply<C: ClubStore>(rt: &impl Host, store: &mut C, writes: &[Write], want: Option<StoreFault>) {
    for (row, write) in writes.iter().enumerate() {
        expect_row(rt, row, store.apply(&change(rt, *write)).err(), want);
    }
}

/// The changes before the row, and the row with its number.
#[derive(Clone, Copy)]
struct Played<'a>(&'a [Write], usize, &'a Row);

impl Fixture for Played<'_> {
    fn play<S: ClubStore + Drop>(&self, rt: &impl Host, desk: Desk<S>) {
        let Played(before, number, row) = *self;
        let (writes, seen, refused) = (row.0, &row.1, row.2);
        let mut store = desk.into_store();
        apply(rt, &mut store, before, None);
        apply(rt, &mut store, writes, None);
        expect_seen(rt, &mut store, number, seen);
        apply(rt, &mut store, refused, Some(StoreFault::Storage));
        expect_seen(rt, &mut store, number, seen);
    }
}

fn plays_rows(rt: &impl Host, before: &[Write], rows: &[Row]) {
    for (number, row) in rows.iter().enumerate() {
        play(rt, &Played(before, number, row));
    }
}

static OF_NOBODY: [Row; 1] = [(&[], EMPTY, &[Credit("amy", 5), Revoke("amy-1")])];

#[test]
fn of_an_empty_club(rt: HostRuntime) {
    plays_rows(&rt, &[], &OF_NOBODY);
}

#[test]
fn of_a_filled_club(rt: HostRuntime) {
    plays_rows(&rt, &FILLS, &ROWS);
}
