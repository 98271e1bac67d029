//! The values that caveats test, and a decision in a state that no club reaches.

use crate::expect::{Host, expect_eq};
use crate::values::{booking, facility, key, moment, slot};
use club_core::{Refusal, Verdict, View, decide};
use club_values::{Action, Kind};
use pass_caveats::Ask;
use test_kit::moments::{NOON, START};
use test_kit::requests::{ACCOUNT, BOOK_7, BOOK_7_ALONE};
use test_kit::{BOOKING_7, COURT, COURT_AT_18, PlainRequest, amy};

fn fresh(rt: &impl Host) -> View {
    View {
        key: key(rt, false).row(),
        spent: 0,
        member: amy(10_000, 5).expect(rt, "a member"),
        balance: 10_000,
        open_count: 0,
        facility: facility(rt, &Some(COURT)),
        taken: 0,
        closed: false,
        booking: None,
    }
}

fn nowhere(rt: &impl Host) -> View {
    View {
        facility: None,
        ..fresh(rt)
    }
}

fn recorded(rt: &impl Host) -> View {
    View {
        booking: booking(rt, &Some(BOOKING_7)),
        ..fresh(rt)
    }
}

/// A view with only the key's row, and with the member's name from this row.
fn bare(rt: &impl Host) -> View {
    View {
        member: amy(0, 0).expect(rt, "a member"),
        balance: 0,
        ..nowhere(rt)
    }
}

static ORDER: [(&str, Refusal); 2] = [(NOON, Refusal::SlotClosed), (START, Refusal::NotBookable)];

/// The test's view has a slot that is closed and full, although no club has such a slot.
#[test]
fn order_of_refusals(rt: HostRuntime) {
    let view = View {
        balance: 0,
        open_count: 5,
        taken: 4,
        closed: true,
        ..fresh(&rt)
    };
    let request = BOOK_7_ALONE.request().expect(&rt, "a request");
    for (row, (at, refusal)) in ORDER.iter().enumerate() {
        let verdict = decide(&view, &request, moment(&rt, at));
        expect_eq(&rt, verdict, Verdict::refuse(*refusal), &row);
    }
}

fn account(rt: &impl Host) -> Ask {
    Ask {
        action: Action::Account,
        slot: None,
        kind: None,
        guests: 0,
        moment: moment(rt, NOON),
        owed: 0,
        spent: 0,
    }
}

fn booking_for(rt: &impl Host, owed: u64) -> Ask {
    Ask {
        action: Action::Book,
        slot: Some(slot(rt, &COURT_AT_18)),
        kind: Some(Kind::Court),
        guests: 2,
        owed,
        ..account(rt)
    }
}

fn ask(rt: &impl Host, view: &View, asked: &PlainRequest) -> Ask {
    let request = asked.request().expect(rt, "a request");
    view.ask(&request, moment(rt, NOON))
}

#[test]
fn asks(rt: HostRuntime) {
    let first = ask(&rt, &fresh(&rt), &BOOK_7);
    expect_eq(&rt, first, booking_for(&rt, 600), &"first");
    let again = ask(&rt, &recorded(&rt), &BOOK_7);
    expect_eq(&rt, again, booking_for(&rt, 0), &"again");
    let of_account = ask(&rt, &nowhere(&rt), &ACCOUNT);
    expect_eq(&rt, of_account, account(&rt), &"account");
}

#[test]
fn a_bare_view(rt: HostRuntime) {
    let of_key = View::of_key(&key(&rt, false).row());
    expect_eq(&rt, of_key, bare(&rt), &"bare");
}

/// A booking is new only if it isn't recorded and its facility is known.
#[test]
fn new_bookings(rt: HostRuntime) {
    expect_eq(&rt, fresh(&rt).books_anew(), true, &"fresh");
    let after_another = View {
        spent: 600,
        balance: 9_400,
        open_count: 1,
        taken: 3,
        ..nowhere(&rt)
    };
    expect_eq(&rt, after_another.books_anew(), false, &"nowhere");
    expect_eq(&rt, recorded(&rt).books_anew(), false, &"recorded");
    expect_eq(&rt, bare(&rt).books_anew(), false, &"bare");
}
