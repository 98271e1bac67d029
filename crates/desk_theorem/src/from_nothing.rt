//! Laws about a desk over an empty database in memory. The laws have no preconditions on the desk
//! or its tables.

ghost use Rattle.std.specs.Prelude.{IfErr, IfOk, List};
ghost use Rattle.club_core.specs.Club.{empty_club};
ghost use Rattle.club_gate.specs.Runs.{AreEventsOf, IsLawfulRun, club_left, responses_of};
ghost use Rattle.club_gate.specs.Served.{IsLawful, RefusesByFormFault};
ghost use Rattle.club_store.specs.Opening.{IsMemoryFault};
ghost use Rattle.desk_theorem.specs.FromNothing.{HandlesFromNothing, RepliesFromNothing};
ghost use Rattle.club_core.specs.Run as machine;

use club_core::{Reply, StoreFault};
use club_gate::{Desk, Event, EventReply, Words};
use club_laws::sound::empty_is_sound;
use club_store::Store;
use club_values::Moment;
use std::alloc::Global;

/// Runs a list of events at a desk over an empty database, and returns the responses.
///
/// # Errors
///
/// Fails if there was no memory before the first event, or if the tables couldn't be created.
pub fn run_from_nothing(alloc: Global, events: &[Event]) -> Result<Vec<EventReply>, StoreFault>
    ensures lawful { IfOk result (λ replies. (seen : List machine.Event)
        → AreEventsOf events.now seen
        → IsLawfulRun empty_club seen (responses_of replies.items)) }
    // Each event was answered by a step of the machine, or failed. An event failed only if the
    // store failed, or if there was no memory for a pass in JSON.
    ensures handled { IfOk result (λ replies. HandlesFromNothing events.now replies.items) }
    ensures fault { IfErr result IsMemoryFault }
{
    empty_is_sound();
    let store = Store::open_in_memory(alloc)?;
    let mut desk = Desk::new(alloc, store);
    match desk.run(events) {
        Ok(replies) => Ok(replies),
        Err(_) => Err(StoreFault::Memory),
    }
}

/// The responses to a list of events, and the reply to a later request.
#[derive(Drop)]
pub struct RunAndReply {
    pub replies: Vec<EventReply>,
    pub reply: Reply,
}

/// Runs a list of events and then a request at a desk over an empty database. Returns the responses
/// and the reply.
///
/// # Errors
///
/// Fails if there was no memory before the first event, or if the tables couldn't be created.
pub fn reply_from_nothing(
    alloc: Global,
    events: &[Event],
    moment: Moment,
    words: &Words,
) -> Result<RunAndReply, StoreFault>
    ensures run { IfOk result (λ returned. (seen : List machine.Event)
        → AreEventsOf events.now seen
        → IsLawfulRun empty_club seen (responses_of returned.replies.items)) }
    // The reply satisfies the law of the desk for the club after the answered events.
    ensures lawful { IfOk result (λ returned. (seen : List machine.Event)
        → AreEventsOf events.now seen
        → IsLawful (club_left empty_club seen (responses_of returned.replies.items))
        words.now.pass.now words.now.request moment returned.reply) }
    // Each event was answered by a step of the machine, or failed. An event failed only if the
    // store failed, or if there was no memory for a pass in JSON. The same causes apply if the
    // reply is `Unavailable`.
    ensures handled { IfOk result (λ returned. RepliesFromNothing events.now
        returned.replies.items words.now.pass.now words.now.request moment returned.reply) }
    ensures fault { IfErr result IsMemoryFault }
    // Even without memory, a text that is neither JSON nor a pass gets the refusal for its own
    // fault.
    ensures in_place { IfOk result
        (λ returned. RefusesByFormFault words.now.pass.now returned.reply) }
{
    empty_is_sound();
    let store = Store::open_in_memory(alloc)?;
    let mut desk = Desk::new(alloc, store);
    let replies = match desk.run(events) {
        Ok(replies) => replies,
        Err(_) => return Err(StoreFault::Memory),
    };
    let reply = desk.ask(moment, words);
    Ok(RunAndReply { replies, reply })
}
