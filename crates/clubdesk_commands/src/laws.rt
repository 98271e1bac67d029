//! A law about the events of a server's trace.

ghost use Rattle.clubdesk_commands.specs.Laws.{OneListOfEvents};

use club_clock::Instants;
use club_gate::laws::seen_alike;
use clubdesk_arguments::laws::ask_for_one_job;
use http_request::laws::one_reading;
use pass_json::laws::one_reading_for_each_text;

/// All that happened at a server has only one list of events, but for the requests with the reply
/// `Unavailable` and the commands with the status 4.
#[tactic(auto, using(crate::proofs::OneList::one_list))]
pub fn one_list_of_events<C: Instants>(machine: &C)
    ensures { OneListOfEvents (C.shows machine.now) }
{
    let _machine = machine;
    one_reading();
    ask_for_one_job();
    seen_alike();
    one_reading_for_each_text();
}
