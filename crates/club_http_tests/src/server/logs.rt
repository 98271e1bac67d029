//! Tests of the server's log.

use super::clocks::{clock_in, noons};
use super::doubles::{Broken, HandSet, Step, Wire};
use super::{Served, WHOLE, always, desk_at_noon, new_face, serves_script};
use crate::expect::{Runtime, expect_bytes, expect_eq, noon};
use crate::sockets::{client_of, loopback_listener};
use club_http::WriteOutlet;
use desk_server::{ClockOutOfRange, Listening, Log, LogEvent, LogLines, RequestLine, serve_logged};
use std::io::{ErrorKind, Read, Write};
use std::net::{TcpListener, TcpStream};
use std::time::Duration;

/// One request comes in two pieces, with commands before it and between its pieces.
static SCRIPT: [Wire<'static>; 11] = [
    Wire::Command(Some(b"an order")),
    Wire::Client(WHOLE),
    Wire::Command(None),
    Wire::Absent,
    Wire::Client(&[
        Step::Command(0, Some(b"an order")),
        Step::Bytes(0, b"GET /account HTTP/1.1\r\nAuthorization:"),
        Step::Command(0, None),
        Step::Gone(0),
        Step::Command(0, Some(b"an order")),
        Step::Bytes(0, b" Bearer AgEJ\r\n\r\n"),
        Step::End(0),
    ]),
    Wire::Client(&[Step::Fails(0)]),
    Wire::Deaf(WHOLE),
    Wire::Client(&[Step::Bytes(0, b"x"), Step::End(0)]),
    Wire::Client(&[
        Step::Bytes(
            0,
            b"PUT /slots/court-1/2026-05-01/18/bookings/7 HTTP/1.1\r\n\r\n",
        ),
        Step::End(0),
    ]),
    Wire::Client(&[
        Step::Bytes(0, b"GET /AgEJY2x1Yi1kZXNr HTTP/1.1\r\n\r\n"),
        Step::End(0),
    ]),
    Wire::Client(&[
        Step::Bytes(0, b"AgEJY2x1Yi1kZXNr /account HTTP/1.1\r\n\r\n"),
        Step::End(0),
    ]),
];

const LINES: &str = "2026-04-20T12:00 office credit 1 1533
2026-04-20T12:00 GET /account 503 1533
2026-04-20T12:00 office - - 1533
- - - - 0
2026-04-20T12:00 office credit 1 1533
2026-04-20T12:00 office - - 1533
2026-04-20T12:00 office credit 1 1533
2026-04-20T12:00 GET /account 503 10731
2026-04-20T12:00 - - - 1533
2026-04-20T12:00 GET /account - 1533
2026-04-20T12:00 - - 400 1533
2026-04-20T12:00 PUT /slots/court-1/2026-05-01/18/bookings/7 400 1533
2026-04-20T12:00 GET - 404 1533
2026-04-20T12:00 - /account 405 1533
";

/// The clock fails after `left` readings.
fn log_script<W: Write>(rt: &impl Runtime, left: u64, writer: &mut W) -> Served {
    let noons = noons(left);
    let mut moments = clock_in(rt, "UTC0", &noons);
    let clock = HandSet::new(0, 1_533);
    let mut log = LogLines::new(WriteOutlet::new(writer), &clock);
    serves_script(rt, &SCRIPT, 9, &mut moments, &mut log)
}

#[test]
fn a_log_has_its_lines() {
    desk_server::laws::a_log_has_its_lines::<WriteOutlet<Broken>, HandSet>();
}

fn expect_lines(rt: &impl Runtime, left: u64, want: Served, lines: &str) {
    let mut written = Vec::new(rt.alloc());
    let returned = log_script(rt, left, &mut written);
    expect_eq(rt, returned, want);
    expect_bytes(rt, &written, lines.as_bytes(), "the script");
}

#[test]
fn a_line_for_each_connection(rt: HostRuntime) {
    expect_lines(&rt, u64::MAX, (Ok(()), 11, 3), LINES);
}

#[test]
fn a_line_for_a_connection_without_a_moment(rt: HostRuntime) {
    let lines = "- office credit 1 1533\n- - - - 1533\n";
    expect_lines(&rt, 0, (Err(ClockOutOfRange), 2, 0), lines);
}

// The clients get their replies even if the log fails.
#[test]
fn a_log_that_fails(rt: HostRuntime) {
    let returned = log_script(&rt, u64::MAX, &mut Broken);
    expect_eq(&rt, returned, (Ok(()), 11, 3));
}

/// The first bytes of a request, and the method and the path in the log. The log keeps the first 96
/// bytes of a request. The longest request line that the desk serves has 80 bytes.
static REQUEST_LINES: [(&str, Option<&str>, Option<&str>); 10] = [
    ("GET /account HTTP/1.1\r\n", Some("GET"), Some("/account")),
    ("OPTIONS * HTTP/1.1", Some("OPTIONS"), None),
    ("PROPFIND / HTTP/1.1", None, Some("/")),
    ("GET /account", None, None),
    ("GET  HTTP/1.1", Some("GET"), None),
    (" / HTTP/1.1", None, Some("/")),
    ("get /a?b HTTP/1.1", None, None),
    (
        "DELETE /slots/abcdefghijklmnopqrstuvwx/2026-05-01/18/bookings/999999999 HTTP/1.1\r\n\
        Host: a-host-whose-name-is-long.example\r\n",
        Some("DELETE"),
        Some("/slots/abcdefghijklmnopqrstuvwx/2026-05-01/18/bookings/999999999"),
    ),
    (
        "GET /aaaaaaaaaaaaaaaaaaaaaaaaaaaaaaaaaaaaaaaaaaaaaaaaaaaaaaaaaaaaaaaaaaaaaaaaaaaaaaaaaaaaaaaaaa \
        HTTP/1.1",
        Some("GET"),
        Some(
            "/aaaaaaaaaaaaaaaaaaaaaaaaaaaaaaaaaaaaaaaaaaaaaaaaaaaaaaaaaaaaaaaaaaaaaaaaaaaaaaaaaaaaaaaaaa",
        ),
    ),
    (
        "GET /aaaaaaaaaaaaaaaaaaaaaaaaaaaaaaaaaaaaaaaaaaaaaaaaaaaaaaaaaaaaaaaaaaaaaaaaaaaaaaaaaaaaaaaaaaa \
        HTTP/1.1",
        None,
        None,
    ),
];

fn expect_word(rt: &impl Runtime, word: Option<&[u8]>, want: &Option<&str>) {
    expect_eq(rt, word.is_some(), want.is_some());
    let wanted = want.unwrap_or("").as_bytes();
    expect_bytes(rt, word.unwrap_or(b""), wanted, "a word");
}

#[test]
fn request_lines(rt: HostRuntime) {
    for (request, method, path) in &REQUEST_LINES {
        let line = RequestLine::of(request.as_bytes());
        expect_word(&rt, line.method(), method);
        expect_word(&rt, line.path(), path);
    }
}

#[derive(Drop)]
struct Closings {
    client: TcpStream,
    lines: u64,
    closed: u64,
}

impl Closings {
    fn is_closed(&mut self) -> bool {
        let patience = Duration::from_millis(500);
        if self.client.set_read_timeout(Some(patience)).is_err() {
            return false;
        }
        match self.client.read(&mut [0]) {
            Ok(came) => came == 0,
            Err(error) => error.kind() == ErrorKind::ConnectionReset,
        }
    }
}

impl Log for Closings {
    ghost begins = { λ _ _. Unit {0} };

    ghost notes = { λ _ _ _. Unit {0} };

    fn begin(&mut self) {}

    fn note(&mut self, _event: &LogEvent) {
        self.lines = self.lines.saturating_add(1);
        if self.is_closed() {
            self.closed = self.closed.saturating_add(1);
        }
    }
}

/// The server cuts these clients off without a reply.
static CUT: [&[u8]; 3] = [b"", b"G", b"GET /account HTTP/1.1\r\nHost: club\r\n"];

fn closes_before_its_line<'x>(rt: &'x impl Runtime, listener: &'x TcpListener, client: TcpStream) {
    let log = &mut Closings {
        client,
        lines: 0,
        closed: 0,
    };
    let mut arrivals = Listening::new(listener, None, rt, Duration::from_millis(20));
    let mut moments = always(noon(rt));
    let mut face = new_face(rt);
    let mut desk = desk_at_noon(rt);
    let served = serve_logged(&mut arrivals, 1, &mut moments, &mut face, &mut desk, log);
    expect_eq(rt, (served, log.lines, log.closed), (Ok(()), 1, 1));
}

#[test]
fn closed_before_its_line(rt: HostRuntime) {
    for sent in &CUT {
        let listener = loopback_listener(&rt);
        let client = client_of(&rt, &listener, sent);
        closes_before_its_line(&rt, &listener, client);
    }
}
