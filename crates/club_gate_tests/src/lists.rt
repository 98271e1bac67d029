//! Random lists of events. The desk must reply like the reference machine. To amy, the desk must
//! reply like the solo machine, which has only her part of the club.

use crate::prelude::*;
use crate::trial::Trial;
use test_kit::drawn::{AUDIT_AMY, AUDITORS, Asking, Event, Numbers, SLOTS, audit};

// The second list of a pair starts with the club after the first list. A test may take a minute,
// and a hundred lists would take most of that minute.
const PAIRS: u32 = 10;

const EVENTS: u32 = 60;

/// Two lists of events. If `are_run` is true, the desk gets each list in one call, else event by
/// event.
#[derive(Drop)]
struct Pair {
    first: Vec<Event>,
    second: Vec<Event>,
    are_run: bool,
}

impl Fixture for Pair {
    fn play<S: ClubStore + Drop>(&self, rt: &impl Host, desk: Desk<S>) {
        let trial = Trial::begin(rt, desk).after(rt, self.first.as_slice(), self.are_run);
        let _last = trial.after(rt, self.second.as_slice(), self.are_run);
    }
}

/// The last events of a list ask for all accounts and slots.
fn draw(rt: &impl Host, numbers: &mut Numbers) -> Vec<Event> {
    let mut events = Vec::new(rt.alloc());
    for _ in 0..EVENTS {
        push(rt, &mut events, numbers.event());
    }
    for key in &AUDITORS {
        push(rt, &mut events, Event::Asked(audit(key)));
    }
    for slot in &SLOTS {
        let asking = Asking {
            asked: PlainRequest::View(*slot),
            ..audit(AUDIT_AMY)
        };
        push(rt, &mut events, Event::Asked(asking));
    }
    events
}

fn play_lists(rt: &impl Host, first: u64, pairs: u32, are_run: bool) {
    let mut numbers = Numbers::new(first);
    for _ in 0..pairs {
        let pair = Pair {
            first: draw(rt, &mut numbers),
            second: draw(rt, &mut numbers),
            are_run,
        };
        play(rt, &pair);
    }
}

#[test]
fn answers_as_the_reference(rt: HostRuntime) {
    play_lists(&rt, 2_026, PAIRS, false);
    play_lists(&rt, 2_027, PAIRS, false);
}

#[test]
fn answers_more_lists_as_the_reference(rt: HostRuntime) {
    play_lists(&rt, 2_028, PAIRS, false);
    play_lists(&rt, 2_029, PAIRS, false);
}

// The reference machine never replies `Unavailable`, so the desk must never reply `Unavailable`.
#[test]
fn no_unavailable_with_ample_memory(rt: HostRuntime) {
    play_lists(&rt, 2_030, PAIRS, false);
    play_lists(&rt, 2_031, 1, false);
}

#[test]
fn runs_as_the_reference(rt: HostRuntime) {
    play_lists(&rt, 2_026, PAIRS, true);
    play_lists(&rt, 2_027, PAIRS, true);
}
