//! Exchanges over a connection that a listener accepted. Each test sets the clock. Only these tests
//! fail if an exchange has wrong time limits, or reads or writes too few bytes.

use super::{Journal, client_at, desk_at_noon, exchange, patience, slot_shown};
use crate::desk::Desk;
use crate::expect::{Runtime, expect_row, moment};
use crate::sockets::{client_of, expect_reply, loopback_listener};
use club_core::{Reply, Request};
use club_http::AnswerFault;
use std::net::TcpListener;
use test_kit::{PlainReply, PlainRequest, PlainSlot, exchanges, moments, replies, requests};

const FIRST_HOUR: PlainSlot = PlainSlot {
    facility: "court-1",
    day: 10_957,
    hour: 0,
};

const LAST_HOUR: PlainSlot = PlainSlot {
    day: 47_481,
    hour: 23,
    ..FIRST_HOUR
};

/// A request, its moment, the decoded request, the reply, and the text of the reply. If the reply
/// is `None`, the desk replies that the slot is free.
static ROWS: [(&str, &str, PlainRequest, Option<PlainReply>, &str); 5] = [
    (
        exchanges::BOOK_7,
        moments::NOON,
        requests::BOOK_7,
        Some(replies::BOOKED_7),
        exchanges::BOOKED_7,
    ),
    (
        exchanges::CANCEL_7,
        moments::BEGUN,
        requests::CANCEL_7,
        Some(replies::CANCELLED_7),
        exchanges::CANCELLED_7,
    ),
    (
        exchanges::ACCOUNT,
        "2000-01-01T00:00",
        requests::ACCOUNT,
        Some(replies::ACCOUNT_AFTER),
        exchanges::BALANCE_9400,
    ),
    (
        "GET /slots/court-1/2000-01-01/00 HTTP/1.1\r\nAuthorization: Bearer AgEJ\r\n\r\n",
        "2000-01-01T00:00",
        PlainRequest::View(FIRST_HOUR),
        None,
        "HTTP/1.1 200 OK\r\nContent-Type: application/json\r\nContent-Length: 113\r\n\
        Connection: close\r\n\r\n\
        {\"facility\":\"court-1\",\"day\":\"2000-01-01\",\"hour\":0,\"kind\":\"court\",\
        \"price\":200,\"places\":4,\"taken\":0,\"closed\":false}",
    ),
    (
        "GET /slots/court-1/2099-12-31/23 HTTP/1.1\r\nAuthorization: Bearer AgEJ\r\n\r\n",
        "2099-12-31T23:59",
        PlainRequest::View(LAST_HOUR),
        None,
        "HTTP/1.1 200 OK\r\nContent-Type: application/json\r\nContent-Length: 114\r\n\
        Connection: close\r\n\r\n\
        {\"facility\":\"court-1\",\"day\":\"2099-12-31\",\"hour\":23,\"kind\":\"court\",\
        \"price\":200,\"places\":4,\"taken\":0,\"closed\":false}",
    ),
];

/// The exchange begins `waited` milliseconds after the server accepted the connection.
fn exchange_after<'x>(
    rt: &impl Runtime,
    listener: &'x TcpListener,
    journal: &'x Journal,
    desk: &mut Desk<'_>,
    waited: u64,
) -> Result<Reply, AnswerFault> {
    let mut connection = client_at(rt, listener, None, &journal.clock, patience());
    journal.clock.advance(waited);
    exchange(rt, &mut connection, desk)
}

fn reply_to(rt: &impl Runtime, asked: &PlainRequest, reply: &Option<PlainReply>) -> Reply {
    let reply = match (reply, asked.request()) {
        (Some(reply), _) => reply.reply(),
        (None, Some(Request::View { slot })) => Some(slot_shown(slot, 200, 0)),
        _ => None,
    };
    reply.expect(rt, "a reply")
}

#[test]
fn exchanges_of_each_day(rt: HostRuntime) {
    for (request, at, asked, returned, reply) in &ROWS {
        let listener = loopback_listener(&rt);
        let client = client_of(&rt, &listener, request.as_bytes());
        let journal = Journal::new(rt.alloc());
        journal.clock.advance(1_000);
        let mut desk = Desk::new(rt.alloc(), moment(&rt, at));
        desk.reply = reply_to(&rt, asked, returned);
        desk.journal = Some(&journal);
        let outcome = exchange_after(&rt, &listener, &journal, &mut desk, 7);
        let returned = (outcome, desk.asked, desk.last);
        let want = (Ok(desk.reply), 1, asked.request());
        expect_row(&rt, returned, want, *request);
        let calls = journal.calls(&rt);
        expect_row(&rt, calls.as_str(), "[(1007, Asked)]", *request);
        expect_reply(&rt, client, reply);
    }
}

const WHOLE: usize = exchanges::BOOK_7.len();

/// The number of sent bytes, the milliseconds before the exchange, the milliseconds that the desk
/// takes, the number of the desk's requests, and the fault. The client has ten seconds after its
/// connection is accepted, and ten more seconds after the reply's first byte. The server serves a
/// late request if the request is complete.
static LIMITS: [(usize, u64, u64, u64, Option<AnswerFault>); 6] = [
    (WHOLE, 0, 0, 1, None),
    (WHOLE, 9_999, 0, 1, None),
    (WHOLE, 9_999, 1_000_000, 1, None),
    (WHOLE, 10_000, 0, 1, None),
    (WHOLE - 1, 10_000, 0, 0, Some(AnswerFault::Read)),
    (0, 1_000_000, 0, 0, Some(AnswerFault::Read)),
];

#[test]
fn limits_begin_with_the_connection_and_with_the_reply(rt: HostRuntime) {
    for row in &LIMITS {
        let (sent, waited, takes, asked, fault) = *row;
        let listener = loopback_listener(&rt);
        let request = exchanges::BOOK_7.as_bytes().get(..sent);
        let _client = client_of(&rt, &listener, request.expect(&rt, "a prefix"));
        let journal = Journal::new(rt.alloc());
        let mut desk = desk_at_noon(&rt);
        desk.journal = Some(&journal);
        desk.asking_takes = takes;
        let outcome = exchange_after(&rt, &listener, &journal, &mut desk, waited);
        let returned = (desk.asked, outcome.err());
        expect_row(&rt, returned, (asked, fault), (sent, waited));
    }
}
