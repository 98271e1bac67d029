//! Very high spend limits, and the faults of caveats.

use super::calls::{answer, fault_at};
use crate::expect::{Host, expect_eq};
use crate::values::{moment, slot};
use club_values::{Action, Kind};
use pass_caveats::{Ask, CaveatFault};
use test_kit::COURT_AT_18;
use test_kit::moments::NOON;

/// Returns the `Ask` for a booking of `court-1`. The request comes at noon, and its key has already
/// spent `spent` points.
fn booking(rt: &impl Host, spent: u64) -> Ask {
    Ask {
        action: Action::Book,
        slot: Some(slot(rt, &COURT_AT_18)),
        kind: Some(Kind::Court),
        guests: 2,
        moment: moment(rt, NOON),
        owed: 600,
        spent,
    }
}

/// The spent points, a caveat, and whether the caveat allows the booking.
static SPENT: [(u64, &str, bool); 4] = [
    (999_999_399, "spend <= 999999999", true),
    (999_999_399, "spend <= 999999998", false),
    (999_999_400, "spend <= 999999999", false),
    (u64::MAX, "spend <= 999999999", false),
];

#[test]
fn limits_of_points(rt: HostRuntime) {
    for (spent, text, want) in &SPENT {
        let allowed = answer(text, &booking(&rt, *spent));
        expect_eq(&rt, allowed, Some(*want), spent);
    }
}

// A caveat, and its fault if it is the second caveat of a pass.
static SECOND: [(&str, Option<CaveatFault>); 2] = [
    ("shoe = red", Some(CaveatFault::NotUnderstood(2))),
    ("weekday = fri", None),
];

static PRINTED: [(CaveatFault, &str); 2] = [
    (CaveatFault::NotUnderstood(2), "caveat 2 not understood"),
    (CaveatFault::Denied(2), "caveat 2 denies"),
];

#[test]
fn faults_at_a_place(rt: HostRuntime) {
    let ask = booking(&rt, 0);
    for (text, want) in &SECOND {
        expect_eq(&rt, fault_at(text.as_bytes(), 2, &ask), *want, text);
    }
    for (fault, want) in &PRINTED {
        let text = format!(in rt.alloc(); "{fault}").expect(&rt, "memory");
        expect_eq(&rt, text.as_str(), *want, fault);
    }
}
