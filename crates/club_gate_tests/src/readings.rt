//! The desk reads from its store only what the answer needs. If the desk changes the store, it does
//! so by its last call to the store. The desk reads the older root if the current root didn't sign
//! the pass.

use crate::passes::{AMY, BOB, FORMS, PresentedPass};
use crate::prelude::*;
use crate::refusing::Call::{
    self, Account, Change, Facility, Key, MostTaken, OlderRoot, OpenCount, Record, Slot, Spent,
};
use crate::refusing::Refusing;
use club_core::OfficeFault::{Exists, OutOfRange, Unknown};
use club_values::Kind::Boat;
use pass_forms::Form;
use test_kit::PlainCommand::{
    AddFacility, AddKey, AddMember, CancelBooking, CloseSlot, Credit, Debit, OpenSlot, RevokeKey,
    RotateKey, SetFacility, SetQuota,
};
use test_kit::replies::{NO_SUCH_BOOKING, NO_SUCH_FACILITY};

const BOTH_ROOTS: &[Call] = &[Key, OlderRoot];

const SLOT: &[Call] = &[Key, Facility, Slot];

const RECORD: &[Call] = &[Key, Record, Facility];

const BOOKING: &[Call] = &[Key, Record, Facility, Slot, Account, OpenCount, Change];

/// If the spend limit covers the charge and all points that the member has used, the desk doesn't
/// read the points that the key has spent.
const LIMITED: &[Call] = &[
    Key, Record, Facility, Account, Slot, Account, OpenCount, Change,
];

/// If the limit is lower, the desk reads the points that the key has spent.
const SUMMED: &[Call] = &[
    Key, Record, Facility, Account, Spent, Slot, Account, OpenCount, Change,
];

const OVER_THE_LIMIT: &[Call] = &[Key, Record, Facility, Account, Spent];

const SUMS: &[Call] = &[Key, Account, OpenCount, Spent];

/// For a repeated booking, the desk reads the facility only if a caveat restricts the kind.
const REPEAT: &[Call] = &[Key, Record];

const CANCELLATION: &[Call] = &[Key, Record, Change];

const CANCELLATION_BY_KIND: &[Call] = &[Key, Record, Facility, Change];

const BOOKING_BY_OLDER: &[Call] = &[
    Key, OlderRoot, Record, Facility, Slot, Account, OpenCount, Change,
];

/// A pass, a request under this pass, the reply, and the calls to the store.
type Row = (PresentedPass, PlainRequest, PlainReply, &'static [Call]);

const NOBODY: PresentedPass = PresentedPass::Of("nobody", ROOT, &[]);

const UNDER_SECOND: PresentedPass = PresentedPass::Of("amy-1", SECOND_ROOT, &[]);

const UNDER_THIRD: PresentedPass = PresentedPass::Of("amy-1", THIRD_ROOT, &[]);

const VIEWS: PresentedPass = PresentedPass::Of("amy-1", ROOT, &["actions = view"]);

const VIEWS_THEN_SPENDS: PresentedPass = PresentedPass::Of(
    "amy-1",
    ROOT,
    &["actions = view", "spend <= 700"],
);

const SPENDS_700: PresentedPass = PresentedPass::Of("amy-1", ROOT, &["spend <= 700"]);

const COURTS: PresentedPass = PresentedPass::Of("amy-1", ROOT, &["hours = 18-20", "kind = court"]);

const BOATS: PresentedPass = PresentedPass::Of("amy-1", ROOT, &["kind = boat"]);

const NOWHERE: PlainSlot = PlainSlot {
    facility: "court-9",
    ..COURT_AT_18
};

const CANCEL_8: PlainRequest = PlainRequest::Cancel(COURT_AT_18, 8);

const BOOK_NOWHERE: PlainRequest = PlainRequest::Book(NOWHERE, 7, 2);

static REFUSED: [Row; 4] = [
    // The identifier of this pass names no key.
    (PresentedPass::Unnamed, BOOK_7, NOT_VERIFIED, &[]),
    (NOBODY, BOOK_7, NOT_VERIFIED, &[Key]),
    (PresentedPass::Changed, BOOK_7, NOT_VERIFIED, BOTH_ROOTS),
    (BOB, BOOK_7, KEY_REVOKED, &[Key]),
];

static FIRST: [Row; 8] = [
    (AMY, VIEW, PlainReply::SlotShown(0, false), SLOT),
    (AMY, ACCOUNT, ACCOUNT_BEFORE, SUMS),
    (AMY, BOOK_7, BOOKED_7, BOOKING),
    (SPENDS_700, BOOK_7, BOOKED_7, LIMITED),
    // A caveat refuses the next two requests before the desk reads any sum.
    (VIEWS_THEN_SPENDS, BOOK_7, DENIED_1, RECORD),
    (VIEWS, ACCOUNT, DENIED_1, &[Key]),
    (AMY, CANCEL_7, NO_SUCH_BOOKING, RECORD),
    (AMY, BOOK_NOWHERE, NO_SUCH_FACILITY, RECORD),
];

// Amy has made booking 7 for 600 points.
static AGAIN: [Row; 10] = [
    (AMY, BOOK_7, BOOKED_7, REPEAT),
    // A repeat costs nothing, so a spend limit doesn't refuse it.
    (SPENDS_700, BOOK_7, BOOKED_7, REPEAT),
    (COURTS, BOOK_7, BOOKED_7, RECORD),
    (BOATS, BOOK_7, DENIED_1, RECORD),
    (COURTS, CANCEL_7, CANCELLED_7, CANCELLATION_BY_KIND),
    (BOATS, CANCEL_7, DENIED_1, RECORD),
    (AMY, CANCEL_7, CANCELLED_7, CANCELLATION),
    (SPENDS_700, CANCEL_7, CANCELLED_7, CANCELLATION),
    (AMY, ACCOUNT, ACCOUNT_AFTER, SUMS),
    // With booking 8, the key would have spent 800 points.
    (SPENDS_700, BOOK_8, DENIED_1, OVER_THE_LIMIT),
];

// Amy's key has a new root, and passes under the older root are still good.
static ROTATED: [Row; 3] = [
    (UNDER_SECOND, BOOK_7, BOOKED_7, BOOKING),
    (AMY, BOOK_7, BOOKED_7, BOOKING_BY_OLDER),
    (UNDER_THIRD, BOOK_7, NOT_VERIFIED, BOTH_ROOTS),
];

type Limited = (
    &'static str,
    &'static [&'static str],
    PlainReply,
    &'static [Call],
);

const BOOKED_BY_1: PlainReply = PlainReply::Booked("amy-1", 8, 200, 0);

const BOOKED_BY_2: PlainReply = PlainReply::Booked("amy-2", 8, 200, 0);

const THREE_LIMITS: &[&str] = &["spend <= 900", "spend <= 799", "spend <= 901"];

// Booking 7 under `amy-1` cost 600 points. Booking 8 costs 200 points.
static LIMITS: [Limited; 6] = [
    ("amy-1", &["spend <= 799"], DENIED_1, OVER_THE_LIMIT),
    ("amy-1", &["spend <= 800"], BOOKED_BY_1, LIMITED),
    ("amy-2", &["spend <= 799"], BOOKED_BY_2, SUMMED),
    ("amy-2", &["spend <= 800"], BOOKED_BY_2, LIMITED),
    // The lowest of the limits decides whether the desk reads a sum.
    ("amy-2", THREE_LIMITS, BOOKED_BY_2, SUMMED),
    // A limit below the charge refuses the booking, however little was spent before.
    ("amy-2", &["spend <= 199"], DENIED_1, RECORD),
];

/// A command, the fault if the desk refuses the command, and the calls to the store.
type Commanded = (PlainCommand, Option<OfficeFault>, &'static [Call]);

const PLACED: &[Call] = &[Facility, Change];

const MEASURED: &[Call] = &[Facility, MostTaken, Change];

const KEYED: &[Call] = &[Key, OlderRoot, Change];

const RECORDED: &[Call] = &[Key, OlderRoot, Record];

const CANCELS: &[Call] = &[Key, OlderRoot, Record, Change];

const ADD_AGAIN: PlainCommand = AddFacility("court-1", Boat, 2, 100, 8, 20);

const SET_NOWHERE: PlainCommand = SetFacility("court-9", 2, 100, 8, 20);

const ADD_KEY_AGAIN: PlainCommand = AddKey("amy-1", "amy", ROOT);

const ROTATE_TO_THE_SAME: PlainCommand = RotateKey("amy-1", ROOT, UNTIL);

static DONE: [Commanded; 11] = [
    (AddMember("cy", 1), None, &[Account, Change]),
    (Credit("amy", 1), None, &[Account, Change]),
    (Debit("amy", 1), None, &[Account, Change]),
    (SetQuota("amy", 1), None, &[Account, Change]),
    (AddFacility("boat-1", Boat, 2, 100, 8, 20), None, PLACED),
    (SetFacility("court-1", 1, 0, 0, 24), None, MEASURED),
    (AddKey("amy-3", "amy", ROOT), None, &[Account, Key, Change]),
    (RevokeKey("amy-1"), None, KEYED),
    (RotateKey("amy-1", SECOND_ROOT, UNTIL), None, KEYED),
    (CloseSlot(COURT_AT_18), None, &[Facility, Slot, Change]),
    (OpenSlot(COURT_AT_18), None, PLACED),
];

static REFUSED_COMMANDS: [Commanded; 12] = [
    (AddMember("amy", 1), Some(Exists), &[Account]),
    (Credit("cy", 1), Some(Unknown), &[Account]),
    (Debit("cy", 1), Some(Unknown), &[Account]),
    (Debit("amy", 10_001), Some(OutOfRange), &[Account]),
    (SetQuota("cy", 1), Some(Unknown), &[Account]),
    (ADD_AGAIN, Some(Exists), &[Facility]),
    (SET_NOWHERE, Some(Unknown), &[Facility, MostTaken]),
    (ADD_KEY_AGAIN, Some(Exists), &[Account, Key, OlderRoot]),
    (RevokeKey("amy-9"), Some(Unknown), &[Key]),
    (ROTATE_TO_THE_SAME, Some(Exists), BOTH_ROOTS),
    (CloseSlot(NOWHERE), Some(Unknown), &[Facility, Slot]),
    (OpenSlot(NOWHERE), Some(Unknown), &[Facility]),
];

/// Amy has made the bookings 7 and 8, and has cancelled 8.
static CANCELLED: [Commanded; 4] = [
    (CancelBooking("amy-1", 7), None, CANCELS),
    (CancelBooking("amy-1", 8), None, RECORDED),
    (CancelBooking("amy-1", 9), Some(Unknown), RECORDED),
    (CancelBooking("amy-9", 7), Some(Unknown), &[Key, Record]),
];

/// The last events before a row. Before these events, the office revokes bob's key, and adds a
/// second key for amy.
#[derive(Clone, Copy)]
enum Before {
    Requests(&'static [PlainRequest]),
    Rotation,
}

const NOTHING: Before = Before::Requests(&[]);

const BOOKED: Before = Before::Requests(&[BOOK_7]);

const BOOKED_AND_CANCELLED: Before = Before::Requests(&[BOOK_7, BOOK_8, CANCEL_8]);

fn ask_all<S: ClubStore>(rt: &impl Host, desk: &mut Desk<S>, requests: &[PlainRequest]) {
    for asked in requests {
        let served = reply(rt, desk, NOON, AMY_V2.as_bytes(), *asked);
        expect_eq(rt, matches!(served, Reply::Refused(_)), false);
    }
}

impl Before {
    fn happen<S: ClubStore>(self, rt: &impl Host, desk: &mut Desk<S>) {
        carry_out(rt, desk, RevokeKey("bob-1"));
        carry_out(rt, desk, AddKey("amy-2", "amy", ROOT));
        match self {
            Before::Requests(requests) => ask_all(rt, desk, requests),
            Before::Rotation => {
                carry_out(rt, desk, RotateKey("amy-1", SECOND_ROOT, UNTIL));
            }
        }
    }
}

#[derive(Clone, Copy)]
enum Asked {
    Request(Form, PresentedPass, PlainRequest, PlainReply),
    Command(PlainCommand, Option<OfficeFault>),
}

impl Asked {
    fn store_after<S: ClubStore>(&self, rt: &impl Host, store: S, place: usize) -> S {
        let mut desk = Desk::new(rt.alloc(), store);
        self.is_answered(rt, &mut desk, place);
        desk.into_store()
    }

    fn is_answered<S: ClubStore>(&self, rt: &impl Host, desk: &mut Desk<S>, place: usize) {
        match *self {
            Asked::Request(form, shown, asked, want) => {
                let text = shown.text(rt, form);
                let returned = reply(rt, desk, NOON, text.as_bytes(), asked);
                expect_row(rt, place, returned, replied(rt, want));
            }
            Asked::Command(plain, fault) => {
                let returned = match answer(rt, desk, plain) {
                    OfficeReply::Refused(fault) => Some(fault),
                    _ => None,
                };
                let want = fault.map(|fault| Fault::from(fault));
                expect_row(rt, place, returned, want);
            }
        }
    }
}

/// The number of the row, and the calls to the store.
#[derive(Clone, Copy)]
struct Reading(Before, Asked, usize, &'static [Call]);

impl Fixture for Reading {
    fn play<S: ClubStore + Drop>(&self, rt: &impl Host, desk: Desk<S>) {
        let Reading(before, asked, place, calls) = *self;
        let mut desk = furnish(rt, desk);
        before.happen(rt, &mut desk);
        let store = asked.store_after(rt, Refusing::never(desk.into_store()), place);
        store.expect_calls(rt, place, calls);
    }
}

fn reads(rt: &impl Host, before: Before, place: usize, row: Row) {
    let (shown, request, want, calls) = row;
    for form in &FORMS {
        let asked = Asked::Request(*form, shown, request, want);
        play(rt, &Reading(before, asked, place, calls));
    }
}

fn reads_each(rt: &impl Host, before: Before, rows: &[Row]) {
    for (place, row) in rows.iter().enumerate() {
        reads(rt, before, place, *row);
    }
}

fn are_called(rt: &impl Host, before: Before, rows: &[Commanded]) {
    for (place, row) in rows.iter().enumerate() {
        let asked = Asked::Command(row.0, row.1);
        play(rt, &Reading(before, asked, place, row.2));
    }
}

#[test]
fn a_pass_reads_its_key_and_perhaps_the_older_root(rt: HostRuntime) {
    reads_each(&rt, NOTHING, &REFUSED);
    reads_each(&rt, Before::Rotation, &ROTATED);
}

#[test]
fn an_answer_reads_what_it_needs(rt: HostRuntime) {
    reads_each(&rt, NOTHING, &FIRST);
}

#[test]
fn a_repeat_and_a_cancellation_read_no_sum(rt: HostRuntime) {
    reads_each(&rt, BOOKED, &AGAIN);
}

#[test]
fn a_sum_is_read_only_where_the_limit_lies_below_what_the_member_has_used(rt: HostRuntime) {
    for (place, row) in LIMITS.iter().enumerate() {
        let pass = PresentedPass::Of(row.0, ROOT, row.1);
        reads(&rt, BOOKED, place, (pass, BOOK_8, row.2, row.3));
    }
}

#[test]
fn the_change_of_a_command_is_the_last_call(rt: HostRuntime) {
    are_called(&rt, NOTHING, &DONE);
    are_called(&rt, NOTHING, &REFUSED_COMMANDS);
    are_called(&rt, BOOKED_AND_CANCELLED, &CANCELLED);
}
