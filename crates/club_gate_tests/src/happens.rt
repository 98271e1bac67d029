//! Events with their expected replies, as plain values.

use crate::prelude::*;
use club_gate::{Event, EventReply, Words};

/// The answer to `AddKey` for `amy-1` with `ROOT`.
pub(crate) const SIGNED: OfficeReply = OfficeReply::Key {
    signature: AMY_1_SIGNATURE,
};

#[derive(Clone, Copy)]
pub(crate) enum Happens {
    Commanded(PlainCommand, OfficeReply),
    /// A request at noon, with the text of its pass.
    Asked(&'static str, PlainRequest, PlainReply),
}

pub(crate) fn events_and_replies(
    rt: &impl Host,
    rows: &[Happens],
) -> (Vec<Event<'static>>, Vec<EventReply>) {
    let mut events = Vec::new(rt.alloc());
    let mut replies = Vec::new(rt.alloc());
    for row in rows {
        let (event, reply) = row.event_and_reply(rt);
        push(rt, &mut events, event);
        push(rt, &mut replies, reply);
    }
    (events, replies)
}

impl Happens {
    fn event_and_reply(&self, rt: &impl Host) -> (Event<'static>, EventReply) {
        match *self {
            Happens::Commanded(plain, answer) => {
                let event = Event::Commanded(command(rt, plain));
                (event, EventReply::Answered(answer))
            }
            Happens::Asked(pass, asked, want) => {
                let words = Words {
                    pass: pass.as_bytes(),
                    request: request(rt, asked),
                };
                let moment = at(rt, NOON);
                let reply = EventReply::Replied(replied(rt, want));
                (Event::Asked { words, moment }, reply)
            }
        }
    }
}
