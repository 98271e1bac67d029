//! A member's part of a club, and copies of a club.

use crate::expect::{Host, expect_eq};
use crate::values::{moment, name, slot};
use club_core::{OfficeAnswer, Refusal, SlotUse};
use club_reference::{Club, Words};
use test_kit::moments::NOON;
use test_kit::replies::{
    ACCOUNT_AFTER, ACCOUNT_BEFORE, BOOKED_2, BOOKED_7, CANCELLED_7, FILLED_BY_7, NOT_VERIFIED,
};
use test_kit::requests::{ACCOUNT, BOOK_2, BOOK_7, CANCEL_7};
use test_kit::roots::ROOT;
use test_kit::{COURT_AT_18, FIXTURE, PlainCommand, PlainReply, PlainRequest, signed_pass};

/// The key of a pass, a request at noon, and the reply.
type Step = (&'static str, PlainRequest, PlainReply);

fn words(rt: &impl Host, key: &str, asked: &PlainRequest) -> Words {
    let pass = signed_pass(rt.alloc(), Some(name(rt, key)), ROOT, &[]);
    Words {
        pass: Ok(pass.expect(rt, "a pass")),
        request: asked.request().expect(rt, "a request"),
    }
}

/// If `others` is given, the club is one member's part, and `others` is the use of the slot by
/// other members.
fn plays(rt: &impl Host, club: &mut Club, others: Option<SlotUse>, steps: &[Step]) {
    for (row, (key, asked, want)) in steps.iter().enumerate() {
        let (words, at) = (words(rt, key, asked), moment(rt, NOON));
        let returned = match others {
            Some(others) => club.ask_alone(&words, at, others),
            None => club.ask(&words, at),
        };
        let want = want.reply().expect(rt, "a reply");
        expect_eq(rt, returned.expect(rt, "memory"), want, &row);
    }
}

fn carry_out(rt: &impl Host, club: &mut Club, plain: &PlainCommand) {
    let command = plain.command().expect(rt, "a command");
    let answer = club.office(&command).expect(rt, "memory");
    expect_eq(rt, answer, OfficeAnswer::done(&command), &"a command");
}

fn fixture_club(rt: &impl Host) -> Club {
    let mut club = Club::new(rt.alloc());
    for plain in &FIXTURE {
        carry_out(rt, &mut club, plain);
    }
    club
}

fn expect_use(rt: &impl Host, slot: &SlotUse, held: (u32, bool)) {
    expect_eq(rt, (slot.taken, slot.closed), held, &"a slot");
}

static BOB_IS_UNKNOWN: [Step; 1] = [("bob-1", ACCOUNT, NOT_VERIFIED)];

/// `held` has the number of other members' persons in the slot at 18, and whether the slot is
/// closed.
fn part_plays(rt: &impl Host, club: &Club, held: (u32, bool), steps: &[Step]) {
    let amy = name(rt, "amy");
    let nothing = club.outside(&amy, None);
    expect_use(rt, &nothing, (0, false));
    let others = club.outside(&amy, Some(slot(rt, &COURT_AT_18)));
    expect_use(rt, &others, held);
    let mut part = club.part(&amy).expect(rt, "memory");
    plays(rt, &mut part, Some(others), steps);
    // A part doesn't have the keys of other members.
    plays(rt, &mut part, None, &BOB_IS_UNKNOWN);
}

const BEFORE: Step = ("amy-1", ACCOUNT, ACCOUNT_BEFORE);

const AFTER: Step = ("amy-1", ACCOUNT, ACCOUNT_AFTER);

const AMY_CANCELS: Step = ("amy-1", CANCEL_7, CANCELLED_7);

static BOB_BOOKS: [Step; 1] = [("bob-1", BOOK_2, BOOKED_2)];

/// Bob has already booked one place of the slot.
static AMY_FILLS: [Step; 4] = [BEFORE, ("amy-1", BOOK_7, FILLED_BY_7), AFTER, AMY_CANCELS];

#[test]
fn a_part_sees_what_others_hold(rt: HostRuntime) {
    let mut club = fixture_club(&rt);
    plays(&rt, &mut club, None, &BOB_BOOKS);
    part_plays(&rt, &club, (1, false), &AMY_FILLS);
}

static IT_IS_CLOSED: [Step; 1] = [("amy-1", BOOK_7, PlainReply::Refused(Refusal::SlotClosed))];

static AMY_BOOKS: [Step; 1] = [("amy-1", BOOK_7, BOOKED_7)];

#[test]
fn opens_a_slot_for_all(rt: HostRuntime) {
    let mut club = fixture_club(&rt);
    carry_out(&rt, &mut club, &PlainCommand::CloseSlot(COURT_AT_18));
    part_plays(&rt, &club, (0, true), &IT_IS_CLOSED);
    carry_out(&rt, &mut club, &PlainCommand::OpenSlot(COURT_AT_18));
    part_plays(&rt, &club, (0, false), &AMY_BOOKS);
}

static CANCELLED: [Step; 2] = [AMY_CANCELS, BEFORE];

static BOOKED: [Step; 1] = [AFTER];

#[test]
fn a_duplicate_is_independent(rt: HostRuntime) {
    let mut club = fixture_club(&rt);
    plays(&rt, &mut club, None, &AMY_BOOKS);
    let mut other = club.duplicate().expect(&rt, "memory");
    plays(&rt, &mut other, None, &CANCELLED);
    plays(&rt, &mut club, None, &BOOKED);
}
