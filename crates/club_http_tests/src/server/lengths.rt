//! Requests and replies of many lengths over sockets. No contract states which bytes a socket sends
//! or receives.

use super::by_the_door::Sockets;
use super::{REQUEST, client_at, desk_at_noon, exchange, patience, slot_shown};
use crate::desk::Sender;
use crate::expect::{Runtime, expect_eq, expect_row, join};
use crate::sockets::{client_of, expect_reply};
use club_core::{Reply, Request};
use club_values::{Name, Slot};
use std::net::{Net, TcpListener, TcpStream};
use std::os::unix::net::UnixStream;
use test_kit::{COURT_AT_18, exchanges, replies, requests};

fn offices(rt: &(impl Runtime + Net), sockets: &Sockets, sender: &Sender<'_>) -> Vec<UnixStream> {
    let mut offices = Vec::new(rt.alloc());
    for _ in sender.left.chunks(sender.step.max(1)) {
        let office = sockets.office(rt, b"a command");
        offices.push(office).expect(rt, "memory");
    }
    offices
}

fn asked_by<'x>(
    rt: &'x (impl Runtime + Net),
    sockets: &'x Sockets,
    sender: Sender<'_>,
    reply: Reply,
) -> Option<Request> {
    let (listener, door) = (&sockets.listener, Some(&sockets.door));
    let mut connection = client_at(rt, listener, door, rt, patience());
    let _offices = offices(rt, sockets, &sender);
    let mut desk = desk_at_noon(rt);
    desk.reply = reply;
    desk.sender = Some(sender);
    let outcome = exchange(rt, &mut connection, &mut desk);
    expect_eq(rt, &outcome, &Ok(desk.reply));
    desk.last
}

/// The client sends the request in pieces of `step` bytes. A command comes before each piece except
/// the first.
fn asked_in_pieces(
    rt: &(impl Runtime + Net<Listener = TcpListener, Stream = TcpStream>),
    sockets: &Sockets,
    request: &[u8],
    step: usize,
    reply: Reply,
    text: &str,
) -> Option<Request> {
    let peer = client_of(rt, &sockets.listener, b"");
    let (client, left) = (&peer, request);
    let mut sender = Sender { client, left, step };
    sender.send();
    let last = asked_by(rt, sockets, sender, reply);
    expect_reply(rt, peer, text);
    last
}

fn booking_of(rt: &impl Runtime, head: usize, body: usize, length: &'static str) -> String {
    let start = "PUT /slots/court-1/2026-05-01/18/bookings/7 HTTP/1.1\r\n\
        Authorization: Bearer AgEJ\r\nContent-Length: ";
    let others = start.len() + length.len() + 9;
    let field = (head.saturating_sub(others), "x");
    let spaces = (body.saturating_sub(12), " ");
    let (name, end, close) = ((1, "\r\nX: "), (1, "\r\n\r\n{\"guests\":2"), (1, "}"));
    join(
        rt,
        &[(1, start), (1, length), name, field, end, spaces, close],
    )
}

/// The number of bytes of a head and of a body, the body's number as a text, and the number of
/// bytes of each piece of the request.
static BOOKINGS: [(usize, usize, &str, usize); 6] = [
    (200, 12, "12", 7),
    (8_192, 256, "256", 500),
    (16_384, 12, "12", 20_000),
    (16_384, 256, "256", 20_000),
    (16_384, 256, "256", 8_193),
    (16_384, 256, "256", 520),
];

#[test]
fn requests_of_each_length(rt: HostRuntime) {
    let sockets = Sockets::new(&rt).expect(&rt, "sockets");
    for row in &BOOKINGS {
        let (head, body, length, step) = *row;
        let reply = replies::BOOKED_7.reply().expect(&rt, "a reply");
        let request = booking_of(&rt, head, body, length);
        let bytes = request.as_bytes();
        expect_row(
            &rt,
            bytes.len(),
            head.saturating_add(body),
            (head, body, step),
        );
        let last = asked_in_pieces(&rt, &sockets, bytes, step, reply, exchanges::BOOKED_7);
        expect_row(&rt, &last, &requests::BOOK_7.request(), (head, body, step));
    }
    sockets.remove(&rt);
}

const NAME: &str = "abcdefghijklmnopqrstuvwx";

/// A price, and the number of persons. The replies have 195 to 226 bytes.
static FIGURES: [(u16, u64); 3] = [(0, 0), (200, 3), (10_000, 999)];

fn text_of(rt: &impl Runtime, name: &str, (price, taken): (u16, u64)) -> String {
    let body = format!(in rt.alloc();
        "{{\"facility\":\"{name}\",\"day\":\"2026-05-01\",\"hour\":18,\"kind\":\"court\",\
        \"price\":{price},\"places\":4,\"taken\":{taken},\"closed\":false}}"
    );
    let body = body.expect(rt, "memory");
    let len = body.len();
    let text = format!(in rt.alloc();
        "HTTP/1.1 200 OK\r\nContent-Type: application/json\r\nContent-Length: {len}\r\n\
        Connection: close\r\n\r\n{body}"
    );
    text.expect(rt, "memory")
}

#[test]
fn replies_of_each_length(rt: HostRuntime) {
    let sockets = Sockets::new(&rt).expect(&rt, "sockets");
    for letters in 1..=24 {
        let name = NAME.get(..letters).expect(&rt, "a name");
        for figures in &FIGURES {
            let facility = Name::read(name.as_bytes()).expect(&rt, "a name");
            let court = COURT_AT_18.slot().expect(&rt, "a slot");
            let reply = slot_shown(Slot { facility, ..court }, figures.0, figures.1);
            let text = text_of(&rt, name, *figures);
            let _ = asked_in_pieces(&rt, &sockets, REQUEST, 100, reply, text.as_str());
        }
    }
    sockets.remove(&rt);
}
