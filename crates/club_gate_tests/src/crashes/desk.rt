//! Events at a desk, and the texts of their replies.

use crate::expect::{Host, expect_text, push, text};
use crate::values::{command, moment};
use club_core::{ClubStore, Reply};
use club_gate::OfficeReply;
use club_http::{
    Desk, Face, MAX_REPLY_LEN, ReadInlet, Routes, Words, WriteOutlet, answer, reply_bytes, words_of,
};
use club_values::Kind;
use test_kit::PlainCommand;
use test_kit::roots::ROOT;

#[derive(Clone, Copy)]
pub(crate) enum Event {
    Gives(PlainCommand),
    /// A moment, and a request for `Desk::ask`.
    Asks(&'static str, &'static str),
    /// A moment, and a request for `answer`.
    Exchanges(&'static str, &'static str),
}

/// The commands of `test_kit::FIXTURE`, as events.
pub(crate) static FIXTURE: [Event; 8] = [
    Event::Gives(PlainCommand::AddMember("amy", 5)),
    Event::Gives(PlainCommand::Credit("amy", 10_000)),
    Event::Gives(PlainCommand::AddKey("amy-1", "amy", ROOT)),
    Event::Gives(PlainCommand::AddMember("bob", 5)),
    Event::Gives(PlainCommand::Credit("bob", 10_000)),
    Event::Gives(PlainCommand::AddKey("bob-1", "bob", ROOT)),
    Event::Gives(PlainCommand::AddFacility("court-1", Kind::Court, 4, 200, 8, 22)),
    Event::Gives(PlainCommand::AddFacility("room-1", Kind::Room, 1, 601, 8, 22)),
];

pub(crate) fn reply_text(rt: &impl Host, reply: &Reply) -> String {
    let mut room = [0; MAX_REPLY_LEN];
    let len = reply_bytes(reply, &mut room);
    let bytes = room[..len].to_vec(rt.alloc()).expect(rt, "memory");
    String::from_utf8(bytes).ok().expect(rt, "a text")
}

pub(crate) fn office_text(rt: &impl Host, reply: &OfficeReply) -> String {
    match reply {
        OfficeReply::Done => text(rt, format!(in rt.alloc(); "done")),
        OfficeReply::Key { signature } => text(rt, hex::encode(rt.alloc(), *signature)),
        OfficeReply::Refused(fault) => text(rt, format!(in rt.alloc(); "{fault}")),
    }
}

pub(crate) fn words_in<'a>(rt: &impl Host, bytes: &'a str) -> Words<'a> {
    let routes = Routes::new(rt.alloc()).expect(rt, "routes");
    match words_of(&routes, bytes.as_bytes()) {
        Ok(words) => words,
        Err(_) => panic!(rt; "no words"),
    }
}

fn exchange<S: ClubStore>(rt: &impl Host, desk: &mut Desk<S>, at: &str, bytes: &str) -> String {
    let mut face = Face::new(rt.alloc()).expect(rt, "a face");
    let mut reader = ReadInlet::new(bytes.as_bytes());
    let mut output = Vec::new(rt.alloc());
    let mut writer = WriteOutlet::new(&mut output);
    let reply = answer(&mut face, desk, moment(rt, at), &mut reader, &mut writer);
    let reply = reply.ok().expect(rt, "a reply");
    let written = String::from_utf8(output).ok().expect(rt, "a text");
    expect_text(rt, "written", &written, &reply_text(rt, &reply));
    written
}

fn reply<S: ClubStore>(rt: &impl Host, desk: &mut Desk<S>, event: &Event) -> String {
    match event {
        Event::Gives(plain) => office_text(rt, &desk.office(&command(rt, *plain))),
        Event::Asks(at, bytes) => {
            let words = words_in(rt, bytes);
            reply_text(rt, &desk.ask(moment(rt, at), &words))
        }
        Event::Exchanges(at, bytes) => exchange(rt, desk, at, bytes),
    }
}

fn add_replies<S: ClubStore>(
    rt: &impl Host,
    replies: &mut Vec<String>,
    desk: &mut Desk<S>,
    events: &[Event],
) {
    for event in events {
        push(rt, replies, reply(rt, desk, event));
    }
}

pub(crate) fn replies_over<S: ClubStore>(
    rt: &impl Host,
    store: S,
    events: &[Event],
    then: &[Event],
) -> (Vec<String>, S) {
    let mut desk = Desk::new(rt.alloc(), store);
    let mut replies = Vec::new(rt.alloc());
    add_replies(rt, &mut replies, &mut desk, events);
    add_replies(rt, &mut replies, &mut desk, then);
    (replies, desk.into_store())
}
