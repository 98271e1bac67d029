//! Tests that the desk has enough memory for long passes, long runs of events and long sheets.

use crate::happens::{Happens, events_and_replies};
use crate::passes::PresentedPass;
use crate::prelude::*;
use pass_forms::Form;

/// Amy's pass in JSON with 64 caveats `guests <= 49`. The second text has the caveats, the
/// identifier and the location in base64. A program in another language made both texts.
static TEXTS: [[Piece; 4]; 2] = [
    [
        (1, "{\"c\":[{\"i\":\"guests <= 49\"}"),
        (63, ",{\"i\":\"guests <= 49\"}"),
        (
            1,
            "],\"i\":\"key:amy-1\",\"l\":\"club-desk\",\
            \"s64\":\"jCSpJgMr5YUx6PCR4OlJ7e-9I14_9EdSPtydQqP6Auw\",\"v\":2}",
        ),
        (6_751, " "),
    ],
    [
        (1, "{\"c\":[{\"i64\":\"Z3Vlc3RzIDw9IDQ5\"}"),
        (63, ",{\"i64\":\"Z3Vlc3RzIDw9IDQ5\"}"),
        (
            1,
            "],\"i64\":\"a2V5OmFteS0x\",\"l64\":\"Y2x1Yi1kZXNr\",\
            \"s64\":\"jCSpJgMr5YUx6PCR4OlJ7e-9I14_9EdSPtydQqP6Auw\",\"v\":2}",
        ),
        (6_357, " "),
    ],
];

fn shows_account<S: ClubStore>(rt: &impl Host, desk: &mut Desk<S>, place: usize, pieces: &[Piece]) {
    let text = join(rt.alloc(), pieces).expect(rt, "memory");
    expect_eq(rt, text.len(), 8_192);
    let returned = reply(rt, desk, NOON, text.as_bytes(), ACCOUNT);
    expect_row(rt, place, returned, replied(rt, ACCOUNT_BEFORE));
}

struct LongTexts;

impl Fixture for LongTexts {
    fn play<S: ClubStore + Drop>(&self, rt: &impl Host, desk: Desk<S>) {
        let mut desk = furnish(rt, desk);
        for (place, pieces) in TEXTS.iter().enumerate() {
            shows_account(rt, &mut desk, place, pieces);
        }
    }
}

#[test]
fn serves_the_longest_json(rt: HostRuntime) {
    play(&rt, &LongTexts);
}

fn repeated<T: Copy>(rt: &impl Host, values: &[T], times: usize) -> Vec<T> {
    let mut all = Vec::new(rt.alloc());
    for _ in 0..times {
        all.extend_from_slice(values).expect(rt, "memory");
    }
    all
}

/// Rows, and the number of their repeats.
#[derive(Clone, Copy)]
struct LongRun(&'static [Happens], usize);

impl Fixture for LongRun {
    fn play<S: ClubStore + Drop>(&self, rt: &impl Host, desk: Desk<S>) {
        let (events, replies) = events_and_replies(rt, self.0);
        let events = repeated(rt, events.as_slice(), self.1);
        let want = repeated(rt, replies.as_slice(), self.1);
        let returned = furnish(rt, desk).run(events.as_slice());
        expect_eq(
            rt,
            returned.expect(rt, "replies").as_slice(),
            want.as_slice(),
        );
    }
}

static NO_PASS: [Happens; 1] = [Happens::Asked(
    "x",
    ACCOUNT,
    PlainReply::Refused(Refusal::PassMalformed),
)];

#[test]
fn runs_of_any_length(rt: HostRuntime) {
    for times in [0, 1, 101, 100_000] {
        play(&rt, &LongRun(&NO_PASS, times));
    }
}

/// The credit to bob doesn't change amy's account.
static IN_TURN: [Happens; 2] = [
    Happens::Commanded(PlainCommand::Credit("bob", 1), OfficeReply::Done),
    Happens::Asked(AMY_V2, ACCOUNT, ACCOUNT_BEFORE),
];

#[test]
fn runs_two_hundred_events(rt: HostRuntime) {
    play(&rt, &LongRun(&IN_TURN, 100));
}

/// The names have 24 letters, the greatest length.
const FACILITY: &str = "a-facility-of-24-letters";

const KEY: &str = "a-key-name-of-24-letters";

const OTHER_KEY: &str = "key-2-name-of-24-letters";

static MEMBERS: [PlainCommand; 5] = [
    PlainCommand::AddMember("a", 99),
    PlainCommand::AddKey(KEY, "a", ROOT),
    PlainCommand::AddMember("b", 99),
    PlainCommand::AddKey(OTHER_KEY, "b", ROOT),
    PlainCommand::AddFacility(FACILITY, Kind::Room, 50, 0, 0, 24),
];

const BOOKINGS: u8 = 60;

fn booking(number: u8) -> PlainRequest {
    let slot = PlainSlot {
        facility: FACILITY,
        day: FRIDAY,
        hour: number % 24,
    };
    PlainRequest::Book(slot, 999_999_000 + u32::from(number), 0)
}

fn book_all<S: ClubStore>(rt: &impl Host, desk: &mut Desk<S>, key: &'static str) {
    let text = PresentedPass::Of(key, ROOT, &[]).text(rt, Form::V2);
    for number in 0..BOOKINGS {
        let returned = reply(rt, desk, NOON, text.as_bytes(), booking(number));
        let refused = matches!(returned, Reply::Refused(_));
        expect_row(rt, usize::from(number), refused, false);
    }
}

const HEAD: &str = "Day sheet 2026-05-01\na-facility-of-24-letters 00:00 ";

const END: &str = "\nTotal bookings 120, persons 120, charge 0\n";

/// The sheet has a line of 76 bytes for each booking.
fn prints_all<S: ClubStore>(rt: &impl Host, desk: &mut Desk<S>) {
    let sheet = desk.sheet(day(rt, "2026-05-01")).expect(rt, "a sheet");
    expect_eq(rt, sheet.len(), 21 + 120 * 76 + 42);
    expect_eq(rt, sheet.starts_with(HEAD), true);
    expect_eq(rt, sheet.ends_with(END), true);
}

struct LongSheet;

impl Fixture for LongSheet {
    fn play<S: ClubStore + Drop>(&self, rt: &impl Host, mut desk: Desk<S>) {
        for plain in &MEMBERS {
            carry_out(rt, &mut desk, *plain);
        }
        book_all(rt, &mut desk, KEY);
        book_all(rt, &mut desk, OTHER_KEY);
        prints_all(rt, &mut desk);
    }
}

#[test]
fn prints_a_long_sheet(rt: HostRuntime) {
    play(&rt, &LongSheet);
}
