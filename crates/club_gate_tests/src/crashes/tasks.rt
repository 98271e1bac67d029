//! The tasks during which a file fails. The scenarios test the replies to these tasks.

use crate::crashes::crash::Beginning::{self, First, Made, Nothing, Unindexed};
use crate::crashes::crash::Trial;
use crate::crashes::desk::Event::{self, Asks, Exchanges, Gives};
use test_kit::PlainCommand::{
    AddKey, CancelBooking, CloseSlot, Debit, OpenSlot, RotateKey, SetFacility, SetQuota,
};
use test_kit::exchanges::{ACCOUNT, BOOK_7, BOOK_8, CANCEL_7, CANCEL_8};
use test_kit::moments::{LATER, NOON};
use test_kit::roots::{ROOT, SECOND_ROOT};
use test_kit::{COURT_AT_18, COURT_AT_19, minutes};

const BOOK: Event = Asks(NOON, BOOK_7);

const CANCEL: Event = Asks(NOON, CANCEL_7);

const BOOK_ROOM: Event = Asks(NOON, BOOK_8);

const SHOW: Event = Asks(NOON, ACCOUNT);

const FRESH: Beginning = Made(&[]);

const BOOKED: Beginning = Made(&[BOOK]);

static BOOKS: Trial = Trial(FRESH, &[BOOK], &[SHOW], [54, 66]);

#[test]
fn books_whole_or_not_at_all(rt: HostRuntime) {
    BOOKS.holds(&rt);
}

const EXCHANGE: Event = Exchanges(NOON, BOOK_7);

static EXCHANGES: Trial = Trial(FRESH, &[EXCHANGE], &[Exchanges(NOON, ACCOUNT)], [54, 66]);

#[test]
fn exchanges_a_booking_whole_or_not_at_all(rt: HostRuntime) {
    EXCHANGES.holds(&rt);
}

static CANCELS: Trial = Trial(BOOKED, &[CANCEL], &[BOOK, SHOW], [50, 64]);

#[test]
fn cancels_whole_or_not_at_all(rt: HostRuntime) {
    CANCELS.holds(&rt);
}

/// The first commit syncs the log twice, and writes zeros after its pages. The second commit writes
/// over these zeros, so one sync must be enough for the second commit.
static BOOKS_AND_CANCELS: Trial = Trial(FRESH, &[BOOK, CANCEL], &[SHOW], [58, 66]);

#[test]
fn books_and_cancels_whole_or_not_at_all(rt: HostRuntime) {
    BOOKS_AND_CANCELS.holds(&rt);
}

const ADD_KEY: Event = Gives(AddKey("amy-2", "amy", ROOT));

static ADDS_A_KEY: Trial = Trial(FRESH, &[ADD_KEY], &[], [48, 63]);

#[test]
fn adds_a_key_whole_or_not_at_all(rt: HostRuntime) {
    ADDS_A_KEY.holds(&rt);
}

const CLOSE_AT_19: Event = Gives(CloseSlot(COURT_AT_19));

static CLOSES: Trial = Trial(BOOKED, &[CLOSE_AT_19], &[], [46, 62]);

#[test]
fn closes_a_slot_or_not(rt: HostRuntime) {
    CLOSES.holds(&rt);
}

const CLOSE_AT_18: Event = Gives(CloseSlot(COURT_AT_18));

const CLOSED: Beginning = Made(&[CLOSE_AT_18, CLOSE_AT_19]);

const OPEN_AT_19: Event = Gives(OpenSlot(COURT_AT_19));

static OPENS: Trial = Trial(CLOSED, &[OPEN_AT_19], &[CLOSE_AT_18], [44, 61]);

#[test]
fn opens_a_slot_or_not(rt: HostRuntime) {
    OPENS.holds(&rt);
}

const DEBIT: Event = Gives(Debit("amy", 9_400));

/// The debit takes all points that remain after the booking, so a second debit is refused.
static DEBITS: Trial = Trial(BOOKED, &[DEBIT], &[BOOK], [44, 61]);

#[test]
fn debits_a_member_or_not(rt: HostRuntime) {
    DEBITS.holds(&rt);
}

const SET_FACILITY: Event = Gives(SetFacility("court-1", 3, 100, 9, 20));

/// The facility keeps exactly as many places as the slot has persons.
static SETS_A_FACILITY: Trial = Trial(BOOKED, &[SET_FACILITY], &[BOOK], [44, 61]);

#[test]
fn sets_a_facility_whole_or_not_at_all(rt: HostRuntime) {
    SETS_A_FACILITY.holds(&rt);
}

const CANCEL_BOOKING: Event = Gives(CancelBooking("amy-1", 7));

/// The office refunds the whole charge. The member's later cancellation gets a reply with this
/// refund.
static CANCELS_FOR_A_MEMBER: Trial = Trial(
    BOOKED,
    &[CANCEL_BOOKING],
    &[CANCEL, BOOK, SHOW],
    [50, 64],
);

#[test]
fn cancels_for_a_member_whole_or_not_at_all(rt: HostRuntime) {
    CANCELS_FOR_A_MEMBER.holds(&rt);
}

const SET_QUOTA: Event = Gives(SetQuota("amy", 1));

/// The member keeps open bookings beyond the new quota.
static SETS_A_QUOTA: Trial = Trial(Made(&[BOOK, BOOK_ROOM]), &[SET_QUOTA], &[BOOK], [44, 61]);

#[test]
fn sets_a_quota_or_not(rt: HostRuntime) {
    SETS_A_QUOTA.holds(&rt);
}

const ROTATE: Event = Gives(RotateKey("amy-1", SECOND_ROOT, minutes::UNTIL));

static ROTATES: Trial = Trial(FRESH, &[ROTATE], &[SHOW], [48, 63]);

#[test]
fn rotates_a_key_whole_or_not_at_all(rt: HostRuntime) {
    ROTATES.holds(&rt);
}

static MAKES_TABLES: Trial = Trial(Nothing, &[], &[], [61, 32]);

#[test]
fn makes_all_tables_or_none(rt: HostRuntime) {
    MAKES_TABLES.holds(&rt);
}

const TWICE: &[Event] = &[BOOK, BOOK_ROOM, Asks(LATER, CANCEL_8)];

/// Opening the database changes the tables.
static MIGRATES: Trial = Trial(First(TWICE), &[], &[BOOK, BOOK_ROOM, SHOW], [52, 56]);

#[test]
fn migrates_whole_or_not_at_all(rt: HostRuntime) {
    MIGRATES.holds(&rt);
}

static ADDS_THE_INDEX: Trial = Trial(Unindexed(TWICE), &[], &[BOOK, BOOK_ROOM, SHOW], [46, 59]);

#[test]
fn adds_the_index_or_not(rt: HostRuntime) {
    ADDS_THE_INDEX.holds(&rt);
}
