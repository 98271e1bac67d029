//! The rows and views of the club in `databases`. Amy has booked the court and the room, and has
//! cancelled the room.

use super::databases::{Contents, database};
use super::rows::{AMY_1, Kept, key, member};
use crate::prelude::*;
use crate::values::{booked, number};
use club_core::{KeyView, MemberAccount};
use test_kit::{BOOKING_8, ROOM_AT_18};

const CANCELLED_8: PlainBooking = PlainBooking {
    refund: Some(300),
    ..BOOKING_8
};

static VIEWS: [(PlainRequest, u64, Option<PlainBooking>); 6] = [
    (ACCOUNT, 0, None),
    (VIEW, 3, None),
    (PlainRequest::View(ROOM_AT_18), 0, None),
    (CANCEL_7, 3, Some(BOOKING_7)),
    (PlainRequest::Cancel(COURT_AT_18, 8), 3, Some(CANCELLED_8)),
    (PlainRequest::Cancel(COURT_AT_18, 9), 3, None),
];

static BOOKINGS: [(u32, Option<PlainBooking>); 3] = [
    (7, Some(BOOKING_7)),
    (8, Some(CANCELLED_8)),
    (9, None),
];

const DAY_BEFORE: &str = "2026-04-30T17:00";

pub(crate) fn adopt<S: Alter + Drop>(rt: &impl Host, connection: Connection<S>) -> Store<S> {
    Store::adopt(rt.alloc(), connection)
        .ok()
        .expect(rt, "adopted")
}

fn view<S: Alter>(rt: &impl Host, store: &mut Store<S>, asked: PlainRequest) -> KeyView {
    let at = moment(rt, DAY_BEFORE);
    let found = store.view(&name(rt, "amy-1"), &request(rt, asked), at);
    found.expect(rt, "an answer").expect(rt, "a view")
}

/// `Store::key` and `Store::view` must both return the key and its older root.
pub(crate) fn shows_key<S: Alter>(rt: &impl Host, store: &mut Store<S>, kept: Kept) {
    let want = key(rt, kept);
    expect_eq(rt, store.key(&want.name), Ok(Some(want)));
    let seen = view(rt, store, ACCOUNT);
    expect_eq(rt, seen.key, want);
    expect_eq(rt, seen.view.key, want.row());
}

/// Amy had 10,000 points. The court cost 600. The room cost 601, with a refund of 300.
fn shows_views<S: Alter>(rt: &impl Host, store: &mut Store<S>) {
    for (row, view_of) in VIEWS.iter().enumerate() {
        let (asked, taken, want) = *view_of;
        let seen = view(rt, store, asked).view;
        let account = (seen.spent, seen.balance, seen.open_count);
        expect_row(rt, row, account, (901, 9_099, 1));
        expect_row(rt, row, (seen.taken, seen.closed), (taken, false));
        expect_row(rt, row, seen.booking, booked(rt, want));
    }
}

/// Reads the rows and sums of the views with separate methods of the store.
fn shows_rows<C: ClubStore>(rt: &impl Host, store: &mut C) {
    let amy = name(rt, "amy");
    let account = MemberAccount {
        member: member(rt, "amy", 10_000),
        balance: 9_099,
    };
    expect_eq(rt, store.account(&amy), Ok(Some(account)));
    let at = moment(rt, DAY_BEFORE);
    expect_eq(rt, store.open_count(&amy, at), Ok(1));
    let amy_1 = name(rt, "amy-1");
    expect_eq(rt, store.spent(&amy_1), Ok(901));
    for row in &BOOKINGS {
        let found = store.booking(&amy_1, number(rt, row.0));
        expect_row(rt, row.0, found, Ok(booked(rt, row.1)));
    }
}

pub(crate) fn shows<S: Alter>(rt: &impl Host, store: &mut Store<S>, contents: Contents) {
    let amy = store.member(&name(rt, "amy"));
    if let Contents::Nothing = contents {
        expect_eq(rt, amy, Ok(None));
        return;
    }
    expect_eq(rt, amy, Ok(Some(member(rt, "amy", 10_000))));
    shows_key(rt, store, AMY_1);
    shows_views(rt, store);
    shows_rows(rt, store);
}

#[test]
fn shows_what_a_key_sees(rt: HostRuntime) {
    let rt = &rt;
    let mut store = adopt(rt, database(rt, Contents::Second));
    shows(rt, &mut store, Contents::Second);
    let mut again = adopt(rt, store.into_connection());
    shows(rt, &mut again, Contents::Second);
}
