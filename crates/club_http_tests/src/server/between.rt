//! Commands that come while the server waits for a request. No contract states how long a server
//! waits, or whether it serves a command or a client first.

use super::doubles::{Script, Step, Wire};
use super::journal::{Entries, Journal};
use super::{REQUEST, always, desk_at_noon, new_face};
use crate::expect::{Runtime, expect_eq, expect_row, noon};
use desk_server::serve_logged;

/// The steps of a client and of the office, the milliseconds that each command takes, and the
/// server's calls with their times. The server's patience (timeout) is ten seconds.
struct Row {
    steps: &'static [Step<'static>],
    command_takes: u64,
    calls: &'static str,
}

const REST: &[u8] = b"ET /account HTTP/1.1\r\nAuthorization: Bearer AgEJ\r\n\r\n";

static ROWS: [Row; 6] = [
    // The request has arrived before the command, so the server handles the request first.
    Row {
        steps: &[Step::Bytes(0, REQUEST), Step::Command(0, Some(b"an order"))],
        command_takes: 0,
        calls: "[(0, Began), (0, WaitedBytesFirst(10000)), (0, Read(10000)), (0, Asked), \
            (0, Wrote(10000, 140)), (0, Closed), (0, NotedClient)]",
    },
    // A command between two pieces of the request uses up some of the client's time.
    Row {
        steps: &[
            Step::Bytes(1_000, b"G"),
            Step::Command(500, Some(b"an order")),
            Step::Bytes(2_000, REST),
        ],
        command_takes: 100,
        calls: "[(0, Began), (0, WaitedBytesFirst(10000)), (1000, Read(9000)), \
            (1000, WaitedCommandFirst(9000)), (1500, Began), (1500, Commanded(8)), \
            (1600, NotedCommand), (1600, WaitedBytesFirst(8400)), (3600, Read(6400)), \
            (3600, Asked), (3600, Wrote(10000, 140)), (3600, Closed), (3600, NotedClient)]",
    },
    // A silent client delays no command. The server cuts the client off after ten seconds.
    Row {
        steps: &[
            Step::Command(3_000, Some(b"an order")),
            Step::Gone(1_000),
            Step::Command(2_000, Some(b"another order")),
        ],
        command_takes: 0,
        calls: "[(0, Began), (0, WaitedBytesFirst(10000)), (3000, Began), (3000, Commanded(8)), \
            (3000, NotedCommand), (3000, WaitedBytesFirst(7000)), (4000, WaitedBytesFirst(6000)), \
            (6000, Began), (6000, Commanded(13)), (6000, NotedCommand), \
            (6000, WaitedBytesFirst(4000)), (10000, Read(0)), (10000, Closed), \
            (10000, NotedClient)]",
    },
    // A command uses up all of the client's time.
    Row {
        steps: &[Step::Command(1_000, Some(b"an order"))],
        command_takes: 20_000,
        calls: "[(0, Began), (0, WaitedBytesFirst(10000)), (1000, Began), (1000, Commanded(8)), \
            (21000, NotedCommand), (21000, Read(0)), (21000, Closed), (21000, NotedClient)]",
    },
    Row {
        steps: &[
            Step::Command(1_000, Some(b"an order")),
            Step::Bytes(0, REQUEST),
        ],
        command_takes: 20_000,
        calls: "[(0, Began), (0, WaitedBytesFirst(10000)), (1000, Began), (1000, Commanded(8)), \
            (21000, NotedCommand), (21000, Read(0)), (21000, Asked), (21000, Wrote(10000, 140)), \
            (21000, Closed), (21000, NotedClient)]",
    },
    // The server reads the bytes after a bad request before it closes the stream.
    Row {
        steps: &[
            Step::Bytes(0, b"x"),
            Step::Command(0, Some(b"an order")),
            Step::End(0),
        ],
        command_takes: 0,
        calls: "[(0, Began), (0, WaitedBytesFirst(10000)), (0, Read(10000)), \
            (0, WaitedCommandFirst(10000)), (0, Began), (0, Commanded(8)), (0, NotedCommand), \
            (0, WaitedBytesFirst(10000)), (0, Read(10000)), (0, Wrote(10000, 131)), \
            (0, EndedWriting), (0, Read(200)), (0, Closed), (0, NotedClient)]",
    },
];

fn plays(rt: &impl Runtime, row: &Row) {
    let journal = Journal::new(rt.alloc());
    let wires = [Wire::Client(row.steps)];
    let mut arrivals = Script::new(&journal, &wires);
    let mut desk = desk_at_noon(rt);
    desk.journal = Some(&journal);
    desk.command_takes = row.command_takes;
    let mut moments = always(noon(rt));
    let mut face = new_face(rt);
    let log = &mut Entries(&journal);
    let served = serve_logged(&mut arrivals, 1, &mut moments, &mut face, &mut desk, log);
    expect_row(rt, served, Ok(()), row.calls);
    let calls = journal.calls(rt);
    expect_eq(rt, calls.as_str(), row.calls);
}

#[test]
fn commands_between_the_pieces_of_a_request(rt: HostRuntime) {
    for row in &ROWS {
        plays(&rt, row);
    }
}
