//! Answers to commands, the texts of values, and the expiry of an older root.

use crate::expect::{Host, expect_eq};
use crate::values::{key, moment, name, root};
use club_core::{OfficeAnswer, Refusal};
use club_rows::OlderRoot;
use test_kit::PlainCommand::{
    self, AddKey, CancelBooking, Debit, OpenSlot, RevokeKey, RotateKey, SetFacility, SetQuota,
};
use test_kit::moments::{BEFORE_UNTIL, UNTIL};
use test_kit::roots::{ROOT, SECOND_ROOT};
use test_kit::{COURT_AT_18, minutes};

/// A command, and the root in its answer.
static DONE: [(PlainCommand, Option<&[u8]>); 8] = [
    (RevokeKey("amy-1"), None),
    (OpenSlot(COURT_AT_18), None),
    (CancelBooking("amy-1", 7), None),
    (SetQuota("amy", 1), None),
    (Debit("amy", 1), None),
    (SetFacility("court-1", 4, 200, 8, 22), None),
    (AddKey("amy-1", "amy", ROOT), Some(ROOT)),
    (RotateKey("amy-1", ROOT, minutes::UNTIL), Some(ROOT)),
];

fn answer(rt: &impl Host, bytes: &Option<&[u8]>) -> OfficeAnswer {
    match bytes {
        Some(bytes) => OfficeAnswer::NewKey {
            name: name(rt, "amy-1"),
            root: root(rt, bytes),
        },
        None => OfficeAnswer::Done,
    }
}

#[test]
fn answers_done_commands(rt: HostRuntime) {
    for (row, (plain, bytes)) in DONE.iter().enumerate() {
        let command = plain.command().expect(&rt, "a command");
        let outcome = OfficeAnswer::done(&command);
        expect_eq(&rt, outcome, answer(&rt, bytes), &row);
    }
}

#[test]
fn displays_a_refusal(rt: HostRuntime) {
    let text = Refusal::CaveatDenies(2).to_string(rt.alloc());
    let text = text.expect(&rt, "memory");
    expect_eq(&rt, text.as_str(), "caveat denies", &"a refusal");
}

static ROOTS: [&[u8]; 2] = [&[7; 16], &[8; 64]];

/// A root is a secret, so its debug output must show none of its bytes.
#[test]
fn prints_no_root(rt: HostRuntime) {
    for (row, bytes) in ROOTS.iter().enumerate() {
        let root = root(&rt, bytes);
        let text = format!(in rt.alloc(); "{root:?}").expect(&rt, "memory");
        expect_eq(&rt, text.as_str(), "Root(..)", &row);
    }
}

static OLDER: [(bool, &str, bool); 3] = [
    (true, BEFORE_UNTIL, true),
    (true, UNTIL, false),
    (false, BEFORE_UNTIL, false),
];

#[test]
fn older_roots(rt: HostRuntime) {
    for (row, (is_rotated, at, is_good)) in OLDER.iter().enumerate() {
        let second = root(&rt, SECOND_ROOT);
        let older = OlderRoot {
            root: second,
            until: moment(&rt, UNTIL),
        };
        let mut key = key(&rt, false);
        key.older = is_rotated.then_some(older);
        let found = key.older_root_at(moment(&rt, at)).copied();
        expect_eq(&rt, found, is_good.then_some(second), &row);
    }
}
