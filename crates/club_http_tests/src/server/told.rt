//! Exchanges over a stream whose ghost values are the bytes to come and the bytes written. The
//! contract of an exchange covers each byte of this stream.

use super::doubles::{Letter, Stopped};
use super::{REPLY, REQUEST, desk_at_noon, exchange, patience};
use crate::counted::doubles::{Narrow, Pieces, ROOM};
use crate::expect::{Runtime, expect_bytes, expect_row};
use club_http::{AnswerFault, Inlet, Outlet};
use desk_server::{Accepted, ClientStream, TimedStream, Waited, Woken};
use std::time::Duration;

/// A client that sends and receives a few bytes per call. A write beyond the writer's limit fails.
#[derive(Drop)]
struct Told<'a> {
    reader: Pieces<'a>,
    writer: Narrow,
}

impl TimedStream for Told<'_> {
    ghost use Rattle.std.specs.Prelude.{Some, take};

    ghost to_come = { λ told. Some told.reader.left.now };

    ghost taken = { λ told. Some (take told.writer.len told.writer.bytes) };

    ghost reads = { λ _ _ _ _. Unit {0} };

    ghost writes = { λ _ _ _ _. Unit {0} };

    fn read_within(&mut self, _limit: Duration, room: &mut [u8]) -> Waited {
        match self.reader.fill(room) {
            Some(came) => Waited::Moved(came),
            None => Waited::Failed,
        }
    }

    fn write_within(&mut self, _limit: Duration, bytes: &[u8]) -> Waited {
        match self.writer.put(bytes) {
            Some(taken) => Waited::Moved(taken),
            None => Waited::Failed,
        }
    }
}

impl<'a> ClientStream for Told<'a> {
    type Command = Letter<'a>;

    fn wait_within(&mut self, _limit: Duration, _command_first: bool) -> Woken<Letter<'a>> {
        Woken::Client
    }

    fn end_writing(&mut self) -> bool {
        true
    }
}

/// The fault, and the numbers of reads, of unread bytes, and of bytes that the client received.
type Outcome = (Option<AnswerFault>, u64, usize, usize);

/// The largest number of bytes per call, the number of bytes that the client accepts, and the
/// outcome. The request has 53 bytes and its reply 140.
static OUTCOMES: [((usize, usize), Outcome); 5] = [
    ((ROOM, ROOM), (None, 1, 0, 140)),
    ((1, ROOM), (None, 53, 0, 140)),
    ((ROOM, 139), (Some(AnswerFault::Write(139)), 1, 0, 139)),
    ((1, 1), (Some(AnswerFault::Write(1)), 53, 0, 1)),
    ((ROOM, 0), (Some(AnswerFault::Write(0)), 1, 0, 0)),
];

fn exchange_told(rt: &impl Runtime, (step, limit): (usize, usize)) -> (Outcome, Narrow) {
    let told = Told {
        reader: Pieces::new(REQUEST, step, false),
        writer: Narrow::new(step, limit),
    };
    let clock = Stopped(Some(Duration::ZERO));
    let mut connection = Accepted::new(told, &clock, patience());
    let fault = exchange(rt, &mut connection, &mut desk_at_noon(rt)).err();
    let Told { reader, writer } = connection.into_stream();
    let taken = writer.written_bytes().len();
    ((fault, reader.calls, reader.left.len(), taken), writer)
}

#[test]
fn takes_the_reply_and_nothing_else(rt: HostRuntime) {
    for (client, want) in &OUTCOMES {
        let (outcome, writer) = exchange_told(&rt, *client);
        expect_row(&rt, outcome, *want, *client);
        let taken = writer.written_bytes();
        let prefix = REPLY.as_bytes().get(..taken.len());
        expect_bytes(&rt, taken, prefix.expect(&rt, "a prefix"), "the reply");
    }
}
