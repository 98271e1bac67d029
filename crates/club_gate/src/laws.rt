//! Laws about decoded passes and about events at the desk. Each law is the contract of a function
//! with an empty body.

ghost use Rattle.club_gate.specs.{DecodedPass.FindsNames, Laws.{Decodes, NamesItsRows}};
ghost use Rattle.club_gate.specs.Laws.{FollowedRunsAreLawful, FollowsNoEvent, FollowsOneMore};
ghost use Rattle.club_gate.specs.Laws.{ReadsNoLackOfMemory, SeenAlike, SeesEvents};
ghost use Rattle.club_gate.specs.Listing.{ShowsSlotsToKeys};

use crate::event::OfficeReply;
use club_core::ClubStore;
use club_laws::conservation::sound_clubs_have_places;
use club_laws::failed::leaves_out_failed;
use club_laws::runs_with_failures::{
    cancellations_return_the_record, conserves_points, keeps_sound, repeats_after_one_more,
    repeats_return_the_same, solo_law, solo_law_of_two,
};
use club_values::laws::reads_names;
use pass_caveats::laws::reads_what_is_understood;
use pass_forms::laws::decides_signed;
use pass_json::laws::reads_any_form_exactly;

/// `key_name_in` finds a name in an identifier if and only if the name is valid and the identifier
/// is `key:` followed by this name.
pub fn finds_names()
    ensures { FindsNames }
{
    reads_names();
}

/// The specified result of reading a text is never the fault `Memory`.
pub fn reads_no_lack_of_memory()
    ensures { ReadsNoLackOfMemory }
{}

/// `Desk::show_slot` lists the reply to a request to view the slot. An accepted request gets the
/// same reply under every key of the club.
pub fn shows_slots_to_keys()
    ensures { ShowsSlotsToKeys }
{}

/// `IsSeenAs` relates each pass to exactly one value, which `machine_pass` computes.
pub fn seen_alike()
    ensures { SeenAlike }
{
    finds_names();
    reads_what_is_understood();
    decides_signed();
}

/// A text decodes to exactly one pass or fault, which `decoded_pass` computes.
pub fn decodes()
    ensures { Decodes }
{
    reads_any_form_exactly();
    seen_alike();
}

/// Each list of events at the desk corresponds to exactly one list of machine events, which
/// `machine_events` computes.
pub fn sees_events()
    ensures { SeesEvents }
{
    decodes();
}

/// If a pass names a key of the club, the basis of the request is computed from this key. A basis
/// is the set of rows that a reply may depend on.
pub fn names_its_rows()
    ensures { NamesItsRows }
{
    reads_any_form_exactly();
    finds_names();
    decodes();
}

/// A store that represents a club has followed the run without events. If the store then answers
/// one more event, or the event fails, the store has followed the run with this event.
pub fn follows_one_more<S: ClubStore>()
    ensures none { FollowsNoEvent S.ghosts }
    ensures more { FollowsOneMore S.ghosts }
{}

/// A run that a store followed from a sound club obeys the laws of runs. The store represents the
/// club after the answered events.
pub fn followed_runs_are_lawful<S: ClubStore>()
    ensures { FollowedRunsAreLawful S.ghosts }
{
    leaves_out_failed::<OfficeReply>();
    keeps_sound::<OfficeReply>();
    solo_law::<OfficeReply>();
    solo_law_of_two::<OfficeReply>();
    repeats_return_the_same::<OfficeReply>();
    cancellations_return_the_record::<OfficeReply>();
    repeats_after_one_more::<OfficeReply>();
    conserves_points::<OfficeReply>();
    sound_clubs_have_places();
}
