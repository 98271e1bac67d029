//! Exchanges in which an allocation is refused. `tests/desk/refused_memory_tests.py` refuses each
//! allocation in turn. If the refused allocation is outside the tested exchanges, the test ends
//! with a report that memory ran out.

use crate::exchanges::fixture::{KEPT, NOT_YET, Served, Step};
use crate::expect::{Host, expect_row};
use crate::fixture::{Fixture, play};
use club_core::ClubStore;
use club_http::Desk;
use test_kit::exchanges::{ACCOUNT, BOOK_7, BOOKED_7, UNAVAILABLE};
use test_kit::passes::{AMY_JSON, AMY_V1, AMY_V2};

/// Tests the first exchange. If its reply is `Unavailable`, nothing is booked, and a second try
/// succeeds. Otherwise, the booking is kept.
#[derive(Clone, Copy)]
struct Exchange(&'static str);

impl Fixture for Exchange {
    fn play<S: ClubStore + Drop>(&self, rt: &impl Host, desk: Desk<S>) {
        let mut front = Served::new(rt, desk);
        let taker = front.reply_under(rt, self.0, BOOK_7);
        if taker.written_bytes() == UNAVAILABLE.as_bytes() {
            front.asks_in_turn(rt, self.0, &NOT_YET);
            return;
        }
        expect_row(rt, BOOK_7, taker.written_bytes(), BOOKED_7.as_bytes());
        for Step(asked, want) in &KEPT {
            let taker = front.reply_under(rt, self.0, asked);
            // The refused allocation is in this later exchange, which isn't tested.
            if taker.written_bytes() == UNAVAILABLE.as_bytes() {
                panic!(rt; "Memory");
            }
            expect_row(rt, asked, taker.written_bytes(), want.as_bytes());
        }
    }
}

#[test]
fn exchange_in_each_form(rt: HostRuntime) {
    for pass in [AMY_V1, AMY_V2, AMY_JSON] {
        play(&rt, &Exchange(pass));
    }
}

const PASS_MALFORMED: &str =
    "HTTP/1.1 400 Bad Request\r\nContent-Type: application/json\r\nContent-Length: 35\r\n\
    Connection: close\r\n\r\n{\"fault\":6,\"text\":\"pass malformed\"}";

const THIRD_PARTY_CAVEAT: &str =
    "HTTP/1.1 400 Bad Request\r\nContent-Type: application/json\r\nContent-Length: 39\r\n\
    Connection: close\r\n\r\n{\"fault\":7,\"text\":\"third-party caveat\"}";

/// Each text gets its fault whichever allocation is refused, because none of the texts is JSON.
static FAULTS: [(&str, &str); 4] = [
    (
        "MDAxN2xvY2F0aW9uIGNsdWItZGVzawowMDE5aWRlbnRpZmllciBrZXk6YW15LTEKMDAyZnNpZ25hdHVyZSAOxT68x\
        WmrcTHn8FCToPlVfpOKYLQh8KTsOfqe_tM",
        PASS_MALFORMED,
    ),
    (
        "AgEJY2x1Yi1kZXNrAglrZXk6YW15LTEAAAYgDsU-vMVpq3Ex5_BQk6D5VX6TimC0IfCk7Dn6nv7",
        PASS_MALFORMED,
    ),
    (
        "MDAxN2xvY2F0aW9uIGNsdWItZGVzawowMDE5aWRlbnRpZmllciBrZXk6YW15LTEKMDAwYWNpZCB4CjAwMDl2aWQgC\
        jAwMDhjbCAKMDAyZnNpZ25hdHVyZSAAAAAAAAAAAAAAAAAAAAAAAAAAAAAAAAAAAAAAAAAAAAo",
        THIRD_PARTY_CAVEAT,
    ),
    (
        "AgEJY2x1Yi1kZXNrAglrZXk6YW15LTEAAgF4BAAAAAYgAAAAAAAAAAAAAAAAAAAAAAAAAAAAAAAAAAAAAAAAAAA",
        THIRD_PARTY_CAVEAT,
    ),
];

struct Faults;

impl Fixture for Faults {
    fn play<S: ClubStore + Drop>(&self, rt: &impl Host, desk: Desk<S>) {
        let mut front = Served::new(rt, desk);
        for (pass, want) in &FAULTS {
            let taker = front.reply_under(rt, pass, ACCOUNT);
            expect_row(rt, pass, taker.written_bytes(), want.as_bytes());
        }
    }
}

#[test]
fn faults_of_bytes(rt: HostRuntime) {
    play(&rt, &Faults);
}
