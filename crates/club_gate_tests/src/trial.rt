//! Compares a desk with the reference machine, and with the solo machine of amy's part.

use crate::passes::text_of_asking;
use crate::prelude::*;
use crate::values::office_reply;
use club_core::OfficeAnswer;
use club_gate::{Event as SentEvent, EventReply, Words as SentWords};
use club_reference::{Club, Words};
use test_kit::drawn::{AMY, Asking, BEGINNING, Event};
use test_kit::signed_pass;

#[derive(Drop)]
pub(crate) struct Trial<S: ClubStore> {
    desk: Desk<S>,
    reference: Club,
    part: Club,
    own_keys: Vec<&'static str>,
}

/// Returns the text of the event's pass, or an empty text for a command.
fn text_of(rt: &impl Host, event: &Event) -> String {
    match event {
        Event::Asked(asking) => text_of_asking(rt, asking),
        Event::Commanded(_) => String::new(rt.alloc()),
    }
}

fn sent_event<'a>(rt: &impl Host, event: &Event, text: &'a str) -> SentEvent<'a> {
    match event {
        Event::Asked(asking) => SentEvent::Asked {
            words: SentWords {
                pass: text.as_bytes(),
                request: request(rt, asking.asked),
            },
            moment: at(rt, asking.moment),
        },
        Event::Commanded(plain) => SentEvent::Commanded(command(rt, *plain)),
    }
}

fn texts_of(rt: &impl Host, events: &[Event]) -> Vec<String> {
    let mut texts = Vec::new(rt.alloc());
    for event in events {
        push(rt, &mut texts, text_of(rt, event));
    }
    texts
}

fn sent_events<'a>(rt: &impl Host, events: &[Event], texts: &'a [String]) -> Vec<SentEvent<'a>> {
    let mut sent = Vec::new(rt.alloc());
    for (place, event) in events.iter().enumerate() {
        let text = texts.get(place).expect(rt, "a text");
        push(rt, &mut sent, sent_event(rt, event, text.as_str()));
    }
    sent
}

fn words_of(rt: &impl Host, asking: &Asking) -> Words {
    let key = name(rt, asking.key);
    let pass = signed_pass(rt.alloc(), Some(key), asking.root, asking.caveats);
    Words {
        pass: Ok(pass.expect(rt, "a pass")),
        request: request(rt, asking.asked),
    }
}

fn desk_reply<S: ClubStore>(rt: &impl Host, desk: &mut Desk<S>, asking: &Asking) -> Reply {
    let text = text_of_asking(rt, asking);
    reply(rt, desk, asking.moment, text.as_bytes(), asking.asked)
}

fn office_answer(rt: &impl Host, club: &mut Club, plain: &PlainCommand) -> OfficeAnswer {
    club.office(&command(rt, *plain)).expect(rt, "memory")
}

fn event_reply(rt: &impl Host, reference: &mut Club, event: &Event) -> EventReply {
    match event {
        Event::Asked(asking) => {
            let reply = reference.ask(&words_of(rt, asking), at(rt, asking.moment));
            EventReply::Replied(reply.expect(rt, "memory"))
        }
        Event::Commanded(plain) => {
            EventReply::Answered(office_reply(&office_answer(rt, reference, plain)))
        }
    }
}

fn event_replies(rt: &impl Host, reference: &mut Club, events: &[Event]) -> Vec<EventReply> {
    let mut replies = Vec::new(rt.alloc());
    for event in events {
        push(rt, &mut replies, event_reply(rt, reference, event));
    }
    replies
}

impl<S: ClubStore> Trial<S> {
    /// `desk` must be the desk of an empty club.
    pub fn begin(rt: &impl Host, desk: Desk<S>) -> Trial<S> {
        let mut trial = Trial {
            desk,
            reference: Club::new(rt.alloc()),
            part: Club::new(rt.alloc()),
            own_keys: Vec::new(rt.alloc()),
        };
        for plain in &BEGINNING {
            trial.give(rt, plain);
        }
        trial
    }

    /// Continues with this club, a desk with an empty cache, and a new copy of amy's part.
    fn reopened(self, rt: &impl Host) -> Trial<S> {
        let part = self.reference.part(&name(rt, AMY)).expect(rt, "memory");
        let desk = Desk::new(rt.alloc(), self.desk.into_store());
        Trial { desk, part, ..self }
    }

    fn is_own_key(&self, key: &str) -> bool {
        self.own_keys.iter().any(|own| *own == key)
    }

    fn is_own(&self, plain: &PlainCommand) -> bool {
        match *plain {
            PlainCommand::AddMember(member, _)
            | PlainCommand::Credit(member, _)
            | PlainCommand::Debit(member, _)
            | PlainCommand::SetQuota(member, _)
            | PlainCommand::AddKey(_, member, _) => member == AMY,
            PlainCommand::AddFacility(..) | PlainCommand::SetFacility(..) => true,
            PlainCommand::RevokeKey(key)
            | PlainCommand::RotateKey(key, _, _)
            | PlainCommand::CancelBooking(key, _) => self.is_own_key(key),
            PlainCommand::CloseSlot(_) | PlainCommand::OpenSlot(_) => false,
        }
    }

    /// Gives the command to the desk and to the reference machine. A command that is carried out
    /// and concerns amy's part goes to her part, too.
    fn give(&mut self, rt: &impl Host, plain: &PlainCommand) {
        let want = office_answer(rt, &mut self.reference, plain);
        let returned = answer(rt, &mut self.desk, *plain);
        expect_eq(rt, returned, office_reply(&want));
        if matches!(want, OfficeAnswer::NotDone(_)) || !self.is_own(plain) {
            return;
        }
        expect_eq(rt, office_answer(rt, &mut self.part, plain), want);
        if let PlainCommand::AddKey(key, _, _) = *plain {
            push(rt, &mut self.own_keys, key);
        }
    }

    /// Asks the desk and the reference machine. Also asks amy's part if the request's key is one of
    /// amy's keys.
    fn ask(&mut self, rt: &impl Host, asking: &Asking) {
        let returned = desk_reply(rt, &mut self.desk, asking);
        let (words, moment) = (words_of(rt, asking), at(rt, asking.moment));
        let others = self.reference.outside(&name(rt, AMY), words.request.slot());
        let want = self.reference.ask(&words, moment).expect(rt, "memory");
        expect_eq(rt, &returned, &want);
        if self.is_own_key(asking.key) {
            let alone = self.part.ask_alone(&words, moment, others);
            expect_eq(rt, returned, alone.expect(rt, "memory"));
        }
    }

    fn play(&mut self, rt: &impl Host, event: &Event) {
        match event {
            Event::Asked(asking) => self.ask(rt, asking),
            Event::Commanded(plain) => self.give(rt, plain),
        }
    }

    fn desk_replies(&mut self, rt: &impl Host, events: &[Event]) -> Vec<EventReply> {
        let texts = texts_of(rt, events);
        let sent = sent_events(rt, events, texts.as_slice());
        self.desk.run(sent.as_slice()).expect(rt, "memory")
    }

    fn run(&mut self, rt: &impl Host, events: &[Event]) {
        let returned = self.desk_replies(rt, events);
        let want = event_replies(rt, &mut self.reference, events);
        expect_eq(rt, returned.as_slice(), want.as_slice());
    }

    /// Plays the events, and reopens. If `are_run` is true, the desk gets all events in one call.
    pub fn after(mut self, rt: &impl Host, events: &[Event], are_run: bool) -> Trial<S> {
        if are_run {
            self.run(rt, events);
        } else {
            for event in events {
                self.play(rt, event);
            }
        }
        self.reopened(rt)
    }
}
