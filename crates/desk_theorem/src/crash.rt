//! Laws about crashes of a desk that stores the club in a file.

ghost use Rattle.std.specs.Prelude.{List, All, IfOk};
ghost use Rattle.club_core.specs.Club.{Club};
ghost use Rattle.club_gate.specs.Runs.{AreEventsOf, IsAnsweredRun, DeskResponse, LeavesClub};
ghost use Rattle.club_gate.specs.Runs.{responses_of};
ghost use Rattle.club_laws.specs.RunsWithFailures.{RepeatsServedReplies};
ghost use Rattle.club_store.specs.Opening.{leaves_sound_in};
ghost use Rattle.desk_theorem.specs.Crash.{OpensAgain, SurvivesCrash};
ghost use Rattle.sqlite.specs.{View.IsClean};
ghost use Rattle.sqlite.specs.FileStore as file;
ghost use Rattle.club_core.specs.Run as machine;

use club_core::StoreFault;
use club_gate::{Desk, Event, EventReply};
use club_store::laws::{files_hold_one_of, one_club_recovered};
use club_store::{OverStorage, Store};
use sqlite::{Alter, FileFrom, FileStore, Start};
use sqlite_disk::Disk;

/// States the crash law. Suppose that `clubs` are the clubs that the store `before` may have after
/// a crash. Reopening the files after the crash recovers exactly one of these clubs, and no later
/// crash changes the club. If a repeat of a served request gets the first reply in each of these
/// clubs, the repeat also gets the first reply in the recovered club.
pub fn served_survives_a_crash<D: Disk, Q: Start>(
    before: &FileStore<D>,
    after: &Store<FileStore<FileFrom<Q>>>,
)
    ensures { (clubs : List Club) (events : List machine.Event) (returned : List DeskResponse)
        → All (λ club. RepeatsServedReplies club events returned) clubs
        → SurvivesCrash before.now after.now clubs events returned }
{
    one_club_recovered(before, after);
}

// Runs a list of events at a desk over any store with a storage of the `sqlite` crate. Returns the
// responses and the storage. The function is generic because a proof only for files would take
// twice as long.
fn run_to_end<S: Alter, T: OverStorage<S> + Drop>(
    mut desk: Desk<T>,
    events: &[Event],
) -> Result<(Vec<EventReply>, S), StoreFault>
    ensures answered { IfOk result (λ left. IsClean (S.Store.view left.1)
        → (club : Club) (others : List Club)
        → T.ghosts.represents desk club others
        → (seen : List machine.Event) → AreEventsOf events.now seen
        → IsAnsweredRun club seen (responses_of left.0.items)) }
    ensures leaves { IfOk result (λ left. IsClean (S.Store.view left.1)
        → (club : Club) (others : List Club)
        → T.ghosts.represents desk club others
        → (seen : List machine.Event) → AreEventsOf events.now seen
        → LeavesClub (leaves_sound_in S.Store) left.1 club others seen
        (responses_of left.0.items)) }
{
    match desk.run(events) {
        Ok(replies) => Ok((replies, desk.into_store().into_storage())),
        Err(_) => Err(StoreFault::Memory),
    }
}

/// Runs a list of events at a desk over a file, and returns the responses and the storage of the
/// file. The desk's store is a `Store` over the file, or another store over a `Store`. The computer
/// may crash during the run or after the run. After a crash during a call of the disk,
/// every later call of the disk fails. A store that is opened on the files after the crash, over a
/// disk `E`, has the changes of all answered events.
///
/// # Errors
///
/// Fails without answering an event if there is no memory for the replies.
pub fn run_and_leave<D: Disk + Drop, E: Disk, T: OverStorage<FileStore<D>> + Drop>(
    desk: Desk<T>,
    events: &[Event],
) -> Result<(Vec<EventReply>, FileStore<D>), StoreFault>
    // For the events that didn't fail, the responses are the responses of the specified machine.
    ensures answered { IfOk result (λ left. IsClean (file.view left.1)
        → (club : Club) (others : List Club)
        → T.ghosts.represents desk club others
        → (seen : List machine.Event) → AreEventsOf events.now seen
        → IsAnsweredRun club seen (responses_of left.0.items)) }
    // After any crash, a store that `open_file` or `adopt` opens has one of these clubs:
    //
    // - The club after the answered events.
    // - The club after the answered events and one more event. The additional event failed after
    //   the last change.
    // - If the run changed nothing, a club that a crash before the run could have left.
    //
    // Suppose that the store's club is the club after the answered events, or after one more event.
    // Then accepted repeats of served requests get the first reply and change nothing.
    ensures again { IfOk result (λ left. (club : Club) (others : List Club)
        → T.ghosts.represents desk club others
        → (seen : List machine.Event) → AreEventsOf events.now seen
        → OpensAgain E.Disk left.1 club others seen (responses_of left.0.items)) }
{
    let (replies, store) = run_to_end(desk, events)?;
    files_hold_one_of(&store);
    Ok((replies, store))
}
