//! Runs: lists of events that the desk answers in order.

ghost use Rattle.std.specs.Prelude.{◌≡◌, All, List, IfOk, OnOk, OnErr};
ghost use Rattle.club_core.specs.{Club.Club, Run.IsEvent, Store.Returns};
ghost use Rattle.club_gate.specs.Runs.{AreEventsOf, IsEventOfBytes, AreHandled, IsFollowed};
ghost use Rattle.club_gate.specs.Runs.{IsLawfulRun, LeavesClub, responses_of};
ghost use Rattle.club_gate.specs.computed.DecodedPass.{machine_events, machine_event};
ghost use Rattle.club_core.specs.Run as machine;

use crate::desk::{Desk, are_bytes};
use crate::event::{Event, EventReply};
use crate::laws::{decodes, followed_runs_are_lawful, follows_one_more, sees_events};
use club_core::ClubStore;
use std::alloc::AllocError;

/// Proves that every value in an event is within its limits.
fn event_within(event: &Event)
    ensures within { IsEvent (machine_event event.now) }
    ensures bytes { IsEventOfBytes event.now }
{
    match event {
        Event::Asked { words, .. } => {
            are_bytes(words.pass);
            words.request.within()
        }
        Event::Commanded(command) => command.within(),
    }
}

impl<S: ClubStore> Desk<S> {
    /// Answers events in order. Each event is answered for the club after the previous event.
    ///
    /// # Errors
    ///
    /// Fails if there is no memory for the replies. In this case no event was answered, and the
    /// desk is unchanged.
    pub fn run(&mut self, events: &[Event]) -> Result<Vec<EventReply>, AllocError>
        ensures was_clean { S.ghosts.is_clean self.new → S.ghosts.is_clean self.old }
        ensures err { OnErr result (self.new ≡ self.old) }
        ensures lawful { S.ghosts.is_clean self.new → Returns S.ghosts.represents self.old result
            (λ club replies. (seen : List machine.Event) → AreEventsOf events.now seen
            → IsLawfulRun club seen (responses_of replies.items)) }
        // Each event was answered by one step of the rules' state machine, or failed. If an event
        // failed, the contract of `ask` or `office` allows the cause.
        ensures handled { IfOk result (λ replies. AreHandled S.ghosts
            self.old events.now replies.items self.new) }
        // After a crash, the store has the club after the answered events, or the club after one
        // more event. The additional event failed after the last change of the run. If the run
        // changed nothing, the store may also have a club that a crash before the run could have
        // left. An accepted repeat of a served booking or cancellation gets the same reply and
        // changes nothing. This holds directly after the answered events, and also after one more
        // event.
        ensures represents { S.ghosts.is_clean self.new → (club : Club) (others : List Club)
            → S.ghosts.represents self.old club others
            → IfOk result (λ replies. (seen : List machine.Event) → AreEventsOf events.now seen
            → LeavesClub S.ghosts.represents self.new club others seen
            (responses_of replies.items)) }
    {
        sees_events();
        followed_runs_are_lawful::<S>();
        self.follow(events)
    }

    /// Answers events in order, and returns the replies.
    fn follow(&mut self, events: &[Event]) -> Result<Vec<EventReply>, AllocError>
        ensures was_clean { S.ghosts.is_clean self.new → S.ghosts.is_clean self.old }
        ensures err { OnErr result (self.new ≡ self.old) }
        ensures within { OnOk result (All IsEvent (machine_events events.now)) }
        ensures bytes { OnOk result (All IsEventOfBytes events.now) }
        ensures handled { IfOk result (λ replies. AreHandled S.ghosts
            self.old events.now replies.items self.new) }
        ensures followed { S.ghosts.is_clean self.new → (club : Club) (others : List Club)
            → S.ghosts.represents self.old club others
            → IfOk result (λ replies. IsFollowed S.ghosts self.new club others
            (machine_events events.now) (responses_of replies.items)) }
    {
        decodes();
        follows_one_more::<S>();
        let mut replies = Vec::with_capacity(self.alloc, events.len())?;
        for event in events {
            event_within(event);
            replies.push(self.event(event))?;
        }
        Ok(replies)
    }
}
