//! The office's commands and a booking, while memory is refused.
//! `tests/desk/refused_memory_tests.py` refuses one allocation per run. A call that runs out of
//! memory changes nothing, and a second call succeeds.

use crate::fixture::try_to_play;
use crate::happens::SIGNED;
use crate::prelude::*;
use club_gate::{Event, EventReply, Words};
use test_kit::passes::AMY_1_SECOND_SIGNATURE;

const UNAVAILABLE: Reply = Reply::Refused(Refusal::Unavailable);

/// If the first call runs out of memory, asks a second time.
fn reply_at_noon<S: ClubStore>(
    rt: &impl Host,
    desk: &mut Desk<S>,
    pass: &str,
    asked: PlainRequest,
) -> Reply {
    match reply(rt, desk, NOON, pass.as_bytes(), asked) {
        Reply::Refused(Refusal::Unavailable) => reply(rt, desk, NOON, pass.as_bytes(), asked),
        first => first,
    }
}

fn amys_view<S: ClubStore>(rt: &impl Host, desk: &mut Desk<S>) -> [Reply; 3] {
    [
        reply_at_noon(rt, desk, AMY_V2, ACCOUNT),
        reply_at_noon(rt, desk, AMY_V2, VIEW),
        reply_at_noon(rt, desk, AMY_V2, PlainRequest::View(COURT_AT_19)),
    ]
}

type Commanded = (PlainCommand, OfficeReply);

const OUT_OF_MEMORY: OfficeReply = OfficeReply::Refused(Fault::Store(StoreFault::Memory));

/// A command that runs out of memory must leave the club unchanged.
fn expect_answers<S: ClubStore>(rt: &impl Host, desk: &mut Desk<S>, commands: &[Commanded]) {
    for (plain, want) in commands {
        let before = amys_view(rt, desk);
        let mut returned = answer(rt, desk, *plain);
        if returned == OUT_OF_MEMORY {
            expect_eq(rt, amys_view(rt, desk), before);
            returned = answer(rt, desk, *plain);
        }
        expect_eq(rt, returned, *want);
    }
}

const DONE: OfficeReply = OfficeReply::Done;

const EXISTS: OfficeReply = OfficeReply::Refused(Fault::Refused(OfficeFault::Exists));

const SIGNED_ANEW: OfficeReply = OfficeReply::Key {
    signature: AMY_1_SECOND_SIGNATURE,
};

static FIXTURE: [Commanded; 4] = [
    (PlainCommand::AddMember("amy", 5), DONE),
    (PlainCommand::Credit("amy", 10_000), DONE),
    (PlainCommand::AddKey("amy-1", "amy", ROOT), SIGNED),
    (
        PlainCommand::AddFacility("court-1", Kind::Court, 4, 200, 8, 22),
        DONE,
    ),
];

/// The older root stays valid, so amy's pass still works.
static COMMANDS: [Commanded; 9] = [
    (PlainCommand::SetFacility("court-1", 3, 100, 9, 20), DONE),
    (PlainCommand::Debit("amy", 1), DONE),
    (PlainCommand::SetQuota("amy", 4), DONE),
    (PlainCommand::CancelBooking("amy-1", 7), DONE),
    (PlainCommand::CloseSlot(COURT_AT_19), DONE),
    (PlainCommand::OpenSlot(COURT_AT_19), DONE),
    (PlainCommand::CloseSlot(COURT_AT_19), DONE),
    (
        PlainCommand::RotateKey("amy-1", SECOND_ROOT, START),
        SIGNED_ANEW,
    ),
    (PlainCommand::RevokeKey("amy-1"), DONE),
];

/// The office has already carried out the same commands, so the answers are `EXISTS`.
static REVOKED: [Commanded; 2] = [
    (PlainCommand::AddMember("amy", 5), EXISTS),
    (PlainCommand::CloseSlot(COURT_AT_19), EXISTS),
];

fn carries_out_commands<S: ClubStore>(rt: &impl Host, desk: &mut Desk<S>) {
    expect_replies(rt, desk, AMY_V2, &UNBOOKED);
    books(rt, desk, AMY_V2);
    expect_answers(rt, desk, &COMMANDS);
    expect_answers(rt, desk, &REVOKED);
    expect_replies(rt, desk, AMY_V2, &REFUSED);
}

type Asked = (PlainRequest, PlainReply);

static UNBOOKED: [Asked; 2] = [
    (ACCOUNT, ACCOUNT_BEFORE),
    (VIEW, PlainReply::SlotShown(0, false)),
];

static REFUSED: [Asked; 1] = [(ACCOUNT, KEY_REVOKED)];

static BOOKED: [Asked; 2] = [(BOOK_7, BOOKED_7), (ACCOUNT, ACCOUNT_AFTER)];

fn expect_replies<S: ClubStore>(rt: &impl Host, desk: &mut Desk<S>, pass: &str, rows: &[Asked]) {
    for row in rows {
        let returned = reply_at_noon(rt, desk, pass, row.0);
        expect_eq(rt, returned, replied(rt, row.1));
    }
}

/// A booking with the reply `Unavailable` must change nothing. A second request must succeed.
fn is_booked<S: ClubStore>(rt: &impl Host, desk: &mut Desk<S>, pass: &str, first: Reply) {
    if first == UNAVAILABLE {
        expect_replies(rt, desk, pass, &UNBOOKED);
    } else {
        expect_eq(rt, first, replied(rt, BOOKED_7));
    }
    expect_replies(rt, desk, pass, &BOOKED);
}

fn books<S: ClubStore>(rt: &impl Host, desk: &mut Desk<S>, pass: &str) {
    let first = reply(rt, desk, NOON, pass.as_bytes(), BOOK_7);
    is_booked(rt, desk, pass, first);
}

/// Returns `Unavailable` if `Desk::run` runs out of memory.
fn reply_of_a_run<S: ClubStore>(rt: &impl Host, desk: &mut Desk<S>, pass: &str) -> Reply {
    let words = Words {
        pass: pass.as_bytes(),
        request: request(rt, BOOK_7),
    };
    let moment = at(rt, NOON);
    let Ok(replies) = desk.run(&[Event::Asked { words, moment }]) else {
        return UNAVAILABLE;
    };
    match replies.as_slice() {
        [EventReply::Replied(reply)] => *reply,
        _ => panic!(rt; "one reply"),
    }
}

fn books_in_a_run<S: ClubStore>(rt: &impl Host, desk: &mut Desk<S>, pass: &str) {
    let first = reply_of_a_run(rt, desk, pass);
    is_booked(rt, desk, pass, first);
}

#[derive(Clone, Copy)]
enum Task {
    Commands,
    Ask(&'static str),
    Run(&'static str),
}

impl Fixture for Task {
    fn play<S: ClubStore + Drop>(&self, rt: &impl Host, mut desk: Desk<S>) {
        expect_answers(rt, &mut desk, &FIXTURE);
        match *self {
            Task::Commands => carries_out_commands(rt, &mut desk),
            Task::Ask(pass) => books(rt, &mut desk, pass),
            Task::Run(pass) => books_in_a_run(rt, &mut desk, pass),
        }
    }
}

/// Tries once more if there was no memory for the tables.
fn perform(rt: &impl Host, task: &Task) {
    match try_to_play(rt, task) {
        Err(StoreFault::Memory) => try_to_play(rt, task).expect(rt, "a store"),
        first => first.expect(rt, "a store"),
    }
}

#[test]
fn commands(rt: HostRuntime) {
    perform(&rt, &Task::Commands);
}

static PASSES: [&str; 3] = [AMY_V1, AMY_V2, AMY_JSON];

#[test]
fn ask_in_each_form(rt: HostRuntime) {
    for pass in &PASSES {
        perform(&rt, &Task::Ask(*pass));
    }
}

#[test]
fn run_in_each_form(rt: HostRuntime) {
    for pass in &PASSES {
        perform(&rt, &Task::Run(*pass));
    }
}
