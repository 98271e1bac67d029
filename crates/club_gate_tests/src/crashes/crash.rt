//! Tasks over two files. Each task runs once for each call to a file, and the file fails at this
//! call. The club must stay undamaged.

use crate::crashes::desk::{Event, FIXTURE};
use crate::crashes::disk::{Bytes, NEVER, Part, Stop, Stops};
use crate::crashes::reference_club::{Version, lines_of, replies};
use crate::crashes::torn::{Case, KEPT, LOST, changes_in, digest_of_left, left, tried_of};
use crate::crashes::work::{Work, do_over};
use crate::expect::{Host, append, expect_lines, expect_row, push};
use club_reference::Club;
use sqlite::Files;
use test_kit::exchanges::UNAVAILABLE;
use test_kit::version_1::{OLDER_ROOTS, STATEMENTS};

#[derive(Clone, Copy)]
pub(crate) enum Beginning {
    Nothing,
    /// A desk makes the fixture's club and plays these events.
    Made(&'static [Event]),
    /// SQL statements make the same club in tables of version 1.
    First(&'static [Event]),
    /// SQL statements make the same club in tables of version 2 without the bookings' index.
    Unindexed(&'static [Event]),
}

/// The files, the task's events, later events, and the numbers of calls to the log and to the
/// database. If the task has no events, it only opens the database. A task of one event with a
/// commit makes 42 calls to the log and 60 to the database. Each page of the commit adds 2 calls to
/// the log and 1 to the database.
pub(crate) struct Trial(
    pub Beginning,
    pub &'static [Event],
    pub &'static [Event],
    pub [u64; 2],
);

impl Beginning {
    fn version(&self) -> Version {
        match self {
            Beginning::Nothing => Version::None,
            Beginning::Made(_) | Beginning::Unindexed(_) => Version::Second,
            Beginning::First(_) => Version::First,
        }
    }

    fn club(&self, rt: &impl Host) -> Club {
        let mut club = Club::new(rt.alloc());
        match *self {
            Beginning::Nothing => {}
            Beginning::Made(events) | Beginning::First(events) | Beginning::Unindexed(events) => {
                replies(rt, &mut club, &FIXTURE);
                replies(rt, &mut club, events);
            }
        }
        club
    }

    fn bytes(&self, rt: &impl Host) -> Bytes {
        let none = Bytes::none(rt);
        match *self {
            Beginning::Nothing => none,
            Beginning::Made(events) => {
                let made = after(rt, &none, Work::Serves(&FIXTURE, &[]));
                after(rt, &made, Work::Serves(events, &[]))
            }
            Beginning::First(_) => after(rt, &none, Work::Runs(&STATEMENTS)),
            Beginning::Unindexed(_) => {
                let first = after(rt, &none, Work::Runs(&STATEMENTS));
                after(rt, &first, Work::Runs(&OLDER_ROOTS))
            }
        }
    }
}

fn after(rt: &impl Host, bytes: &Bytes, work: Work) -> Bytes {
    Bytes::of_files(rt, &do_over(rt, bytes, NEVER, work).files)
}

fn alike(replies: &[String], wanted: &[String]) -> usize {
    for (place, reply) in replies.iter().enumerate() {
        if wanted.get(place) != Some(reply) {
            return place;
        }
    }
    replies.len()
}

impl Trial {
    /// Returns the expected lines: the rows, the replies to the repeated task and to later events,
    /// and the rows after these events.
    fn lines(&self, rt: &impl Host, club: &Club, version: Version) -> Vec<String> {
        let Trial(_, task, then, _) = self;
        let mut lines = lines_of(rt, club, version);
        let mut club = club.duplicate().expect(rt, "memory");
        append(rt, &mut lines, replies(rt, &mut club, task));
        append(rt, &mut lines, replies(rt, &mut club, then));
        append(rt, &mut lines, lines_of(rt, &club, Version::Second));
        lines
    }

    /// Returns the lines of the club before the task, then of the club after each event.
    fn clubs(&self, rt: &impl Host) -> Vec<Vec<String>> {
        let Trial(beginning, task, _, _) = self;
        let mut club = beginning.club(rt);
        let mut clubs = Vec::new(rt.alloc());
        push(rt, &mut clubs, self.lines(rt, &club, beginning.version()));
        for event in *task {
            replies(rt, &mut club, &[*event]);
            push(rt, &mut clubs, self.lines(rt, &club, Version::Second));
        }
        if task.is_empty() {
            push(rt, &mut clubs, self.lines(rt, &club, Version::Second));
        }
        clubs
    }

    /// Returns the numbers of the first and the last club that the files may contain.
    fn may_be_found(&self, done: Option<usize>) -> (usize, usize) {
        let task = self.1;
        match done {
            None if task.is_empty() => (0, 1),
            None => (0, 0),
            Some(events) if events < task.len() => (events, events.saturating_add(1)),
            Some(events) => (events.max(1), events.max(1)),
        }
    }

    fn found_in(&self, rt: &impl Host, bytes: &Bytes) -> Vec<String> {
        let found = do_over(rt, bytes, NEVER, Work::Inspects(self.1, self.2));
        found.lines.expect(rt, "a database")
    }

    pub fn holds(&self, rt: &impl Host) {
        let wanted = replies(rt, &mut self.0.club(rt), self.1);
        let mut crashes = Crashes {
            trial: self,
            bytes: self.0.bytes(rt),
            clubs: self.clubs(rt),
            replies: wanted,
            tried: Vec::new(rt.alloc()),
        };
        let found = self.found_in(rt, &crashes.bytes);
        let before = crashes.clubs.first().expect(rt, "a club");
        expect_lines(rt, "the club before the task", &found, before);
        let log = crashes.calls_of(rt, Part::Log);
        let database = crashes.calls_of(rt, Part::Database);
        expect_row(rt, "calls", [log, database], self.3);
    }
}

/// `tried` has a digest of each case that was tried: the contents of the files and the number of
/// done events.
#[derive(Drop)]
struct Crashes<'a> {
    trial: &'a Trial,
    bytes: Bytes,
    clubs: Vec<Vec<String>>,
    replies: Vec<String>,
    tried: Vec<u64>,
}

impl Crashes<'_> {
    /// Returns the number of done events, or `None` if no store opened the database.
    fn done_by(&self, rt: &impl Host, replies: &Option<Vec<String>>) -> Option<usize> {
        let Some(replies) = replies else {
            return None;
        };
        let done = alike(replies, &self.replies);
        if let Some(reply) = replies.get(done) {
            let has_failed = reply.as_str() == UNAVAILABLE || reply.as_str() == "storage failed";
            expect_row(rt, reply.as_str(), has_failed, true);
        }
        Some(done)
    }

    /// Returns whether these files are tried for the first time.
    fn expect_left(
        &mut self,
        rt: &impl Host,
        done: Option<usize>,
        files: &Files<Stops>,
        case: &Case,
    ) -> bool {
        let key = match done {
            None => 0,
            Some(events) => (events as u64).saturating_add(1),
        };
        let digest = digest_of_left(key, files, case);
        if self.tried.contains(&digest) {
            return false;
        }
        push(rt, &mut self.tried, digest);
        let found = self.trial.found_in(rt, &left(rt, files, case));
        let (first, last) = self.trial.may_be_found(done);
        if self.clubs.get(first) != Some(&found) {
            let wanted = self.clubs.get(last).expect(rt, "a club");
            expect_lines(rt, "the club after the crash", &found, wanted);
        }
        true
    }

    /// Files that were tried at an earlier stop aren't tried again.
    fn expect_each_left(
        &mut self,
        rt: &impl Host,
        done: Option<usize>,
        files: &Files<Stops>,
        turn: usize,
    ) {
        if !self.expect_left(rt, done, files, &KEPT) {
            return;
        }
        self.expect_left(rt, done, files, &LOST);
        for number in 0..changes_in(files) {
            for survivals in tried_of(files, number, turn) {
                self.expect_left(rt, done, files, &Case(number, *survivals));
            }
        }
    }

    /// Returns true if the task made fewer calls than `stop` allows. In this case, no call failed.
    fn survives(&mut self, rt: &impl Host, stop: Stop) -> bool {
        let work = do_over(rt, &self.bytes, stop, Work::Serves(self.trial.1, &[]));
        let done = self.done_by(rt, &work.lines);
        self.expect_each_left(rt, done, &work.files, stop.calls as usize);
        let is_done = done == Some(self.trial.1.len());
        let is_done_or_stopped = is_done || !work.has_calls_left;
        expect_row(rt, "done or stopped", is_done_or_stopped, true);
        work.has_calls_left
    }

    /// Lets the file fail at each of its calls in turn. Returns the number of these calls.
    fn calls_of(&mut self, rt: &impl Host, part: Part) -> u64 {
        self.tried.clear();
        for calls in 0..1_000u64 {
            if self.survives(rt, Stop { part, calls }) {
                return calls.saturating_sub(1);
            }
        }
        1_000
    }
}
