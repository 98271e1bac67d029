//! Rows parsed from columns, and column values outside their limits.

use crate::expect::expect_eq;
use crate::values::{booking, facility};
use club_rows::{
    Booking, BookingColumns, BookingNumber, Facility, FacilityColumns, Guests, Member, Root,
};
use test_kit::{BOOKING_7, COURT, PlainBooking};

static NUMBERS: [(u32, bool); 4] = [
    (0, false),
    (1, true),
    (999_999_999, true),
    (1_000_000_000, false),
];

static GUESTS: [(u8, Option<u8>); 2] = [(49, Some(50)), (50, None)];

static ROOT_LENGTHS: [(usize, bool); 4] = [(15, false), (16, true), (64, true), (65, false)];

fn is_root(len: usize) -> bool {
    let bytes = [9; 65];
    match bytes.get(..len) {
        Some(bytes) => Root::new(bytes).is_some(),
        None => false,
    }
}

#[test]
fn limits(rt: HostRuntime) {
    for (row, (number, within)) in NUMBERS.iter().enumerate() {
        expect_eq(&rt, BookingNumber::new(*number).is_some(), *within, &row);
    }
    for (row, (guests, want)) in GUESTS.iter().enumerate() {
        let persons = Guests::new(*guests).map(|guests| guests.persons());
        expect_eq(&rt, persons, *want, &row);
    }
    for (row, (len, within)) in ROOT_LENGTHS.iter().enumerate() {
        expect_eq(&rt, is_root(*len), *within, &row);
    }
}

static MEMBERS: [(&[u8], i64, i64, bool); 4] = [
    (b"amy", 999_999_999, 99, true),
    (b"amy", 1_000_000_000, 99, false),
    (b"amy", -1, 5, false),
    (b"Amy", 0, 5, false),
];

#[test]
fn columns_of_members(rt: HostRuntime) {
    for (row, (name, credited, quota, within)) in MEMBERS.iter().enumerate() {
        let member = Member::from_columns(name, *credited, *quota);
        expect_eq(&rt, member.is_some(), *within, &row);
    }
}

#[test]
fn columns_of_a_facility(rt: HostRuntime) {
    let columns = FacilityColumns {
        name: b"court-1",
        kind: b"court",
        places: 4,
        price: 200,
        opens: 8,
        shuts: 22,
    };
    let read = Facility::from_columns(&columns);
    expect_eq(&rt, read, facility(&rt, &Some(COURT)), &"court-1");
}

const CANCELLED: PlainBooking = PlainBooking {
    refund: Some(1),
    ..BOOKING_7
};

static BOOKINGS: [(i64, i64, Option<PlainBooking>); 4] = [
    (0, 0, Some(BOOKING_7)),
    (0, 1, None),
    (1, 1, Some(CANCELLED)),
    (1, 601, None),
];

fn columns_of(cancelled: i64, refund: i64) -> BookingColumns<'static> {
    BookingColumns {
        key: b"amy-1",
        number: 7,
        facility: b"court-1",
        day: 20_574,
        hour: 18,
        guests: 2,
        charge: 600,
        left: 1,
        cancelled,
        refund,
    }
}

#[test]
fn columns_of_bookings(rt: HostRuntime) {
    for (row, (cancelled, refund, want)) in BOOKINGS.iter().enumerate() {
        let read = Booking::from_columns(&columns_of(*cancelled, *refund));
        expect_eq(&rt, read, booking(&rt, want), &row);
    }
}
