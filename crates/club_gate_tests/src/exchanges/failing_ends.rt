//! Requests that end too early, and failing writers.

use crate::exchanges::ends::{Giver, Taker, WHOLE};
use crate::exchanges::fixture::{KEPT, NOT_YET, Served};
use crate::expect::{Host, expect_eq, expect_row};
use crate::fixture::{Fixture, play};
use club_core::ClubStore;
use club_http::{AnswerFault, Desk, MAX_REPLY_LEN};
use test_kit::exchanges::{BAD_REQUEST, BOOK_7, BOOKED_7};
use test_kit::join;
use test_kit::passes::AMY_V2;

const REPLY_LEN: usize = 133;

const _: () = prove!(BOOKED_7.len() == REPLY_LEN);

/// The number of bytes after the booking, the number per read and the number per write. Then the
/// numbers of unread bytes, of reads and of writes.
#[derive(Clone, Copy)]
struct Whole(usize, usize, usize, usize, u64, u64);

/// The request has 203 bytes. The exchange reads bytes after a request only until the buffer is
/// full.
static WHOLE_ONES: [Whole; 7] = [
    Whole(0, 1, MAX_REPLY_LEN, 0, 203, 1),
    Whole(0, 2, MAX_REPLY_LEN, 0, 102, 1),
    Whole(0, WHOLE, MAX_REPLY_LEN, 0, 1, 1),
    Whole(1, 200_000, MAX_REPLY_LEN, 0, 1, 1),
    Whole(1_000, 200_000, MAX_REPLY_LEN, 0, 1, 1),
    Whole(100_000, 200_000, MAX_REPLY_LEN, 83_563, 1, 1),
    Whole(0, WHOLE, 1, 0, 1, 133),
];

impl Fixture for Whole {
    fn play<S: ClubStore + Drop>(&self, rt: &impl Host, desk: Desk<S>) {
        let mut front = Served::new(rt, desk);
        let Whole(behind, gives, takes, stay, reads, writes) = *self;
        let text = join(rt.alloc(), &[(1, BOOK_7), (behind, "x")]).expect(rt, "memory");
        let mut giver = Giver::new(text.as_bytes(), gives, true);
        let mut taker = Taker::new(takes, MAX_REPLY_LEN, false);
        expect_eq(rt, front.exchange(rt, &mut giver, &mut taker), None);
        expect_row(rt, BOOK_7, taker.written_bytes(), BOOKED_7.as_bytes());
        let counts = (giver.left.len(), giver.calls, taker.calls);
        expect_eq(rt, counts, (stay, reads, writes));
    }
}

#[test]
fn whole_exchanges(rt: HostRuntime) {
    for scene in &WHOLE_ONES {
        play(&rt, scene);
    }
}

/// If the input ends too early, the exchange replies that the request is bad. If a read fails, the
/// exchange writes nothing.
struct CutInput;

impl Fixture for CutInput {
    fn play<S: ClubStore + Drop>(&self, rt: &impl Host, desk: Desk<S>) {
        let mut front = Served::new(rt, desk);
        let bytes = BOOK_7.as_bytes();
        for len in 0..bytes.len() {
            let taker = front.written_to(rt, &bytes[..len]);
            expect_row(rt, "cut", taker.written_bytes(), BAD_REQUEST.as_bytes());
            let mut giver = Giver::new(&bytes[..len], WHOLE, true);
            let mut taker = Taker::whole();
            let fault = front.exchange(rt, &mut giver, &mut taker);
            expect_eq(rt, (fault, taker.calls), (Some(AnswerFault::Read), 0));
        }
        front.asks_in_turn(rt, AMY_V2, &NOT_YET);
    }
}

#[test]
fn cut_input(rt: HostRuntime) {
    play(&rt, &CutInput);
}

/// The writer gets a prefix of the reply, and the booking is kept.
#[derive(Clone, Copy)]
struct ShortWriter {
    len: usize,
    stalls: bool,
}

impl Fixture for ShortWriter {
    fn play<S: ClubStore + Drop>(&self, rt: &impl Host, desk: Desk<S>) {
        let mut front = Served::new(rt, desk);
        let mut giver = Giver::new(BOOK_7.as_bytes(), WHOLE, true);
        let mut taker = Taker::new(MAX_REPLY_LEN, self.len, self.stalls);
        let fault = front.exchange(rt, &mut giver, &mut taker);
        expect_eq(rt, fault, Some(AnswerFault::Write(self.len)));
        expect_eq(rt, taker.written_bytes().len(), self.len);
        let is_first = BOOKED_7.as_bytes().starts_with(taker.written_bytes());
        expect_eq(rt, is_first, true);
        front.asks_in_turn(rt, AMY_V2, &KEPT);
    }
}

#[test]
fn failing_writers(rt: HostRuntime) {
    for len in 0..REPLY_LEN {
        play(&rt, &ShortWriter { len, stalls: false });
    }
}

#[test]
fn stalled_writers(rt: HostRuntime) {
    for len in [0, 1, REPLY_LEN - 1] {
        play(&rt, &ShortWriter { len, stalls: true });
    }
}
