//! Two files in memory. One of them may fail after a number of calls.

use crate::crashes::recorded::Recorded;
use crate::expect::Host;
use sqlite::Files;
use sqlite_disk::{Disk, Fuse};

pub(crate) type Stops = Fuse<Recorded>;

#[derive(Clone, Copy)]
pub(crate) enum Part {
    Log,
    Database,
}

/// `part` fails after `calls` calls.
#[derive(Clone, Copy)]
pub(crate) struct Stop {
    pub part: Part,
    pub calls: u64,
}

pub(crate) const NEVER: Stop = Stop {
    part: Part::Log,
    calls: u64::MAX,
};

#[derive(Drop)]
pub(crate) struct Bytes {
    pub log: Vec<u8>,
    pub db: Vec<u8>,
}

impl Bytes {
    pub fn none(rt: &impl Host) -> Bytes {
        Bytes {
            log: Vec::new(rt.alloc()),
            db: Vec::new(rt.alloc()),
        }
    }

    pub fn of_files(rt: &impl Host, files: &Files<Stops>) -> Bytes {
        Bytes {
            log: Vec::from_slice(rt.alloc(), &files.log.inner().bytes).expect(rt, "memory"),
            db: Vec::from_slice(rt.alloc(), &files.db.inner().bytes).expect(rt, "memory"),
        }
    }

    pub fn files(&self, rt: &impl Host, stop: Stop) -> Files<Stops> {
        let (log_calls, db_calls) = match stop.part {
            Part::Log => (stop.calls, u64::MAX),
            Part::Database => (u64::MAX, stop.calls),
        };
        let log = Recorded::of(rt.alloc(), self.log.as_slice()).expect(rt, "memory");
        let db = Recorded::of(rt.alloc(), self.db.as_slice()).expect(rt, "memory");
        Files {
            log: Fuse::new(log, log_calls),
            db: Fuse::new(db, db_calls),
        }
    }
}

pub(crate) fn has_calls_left(files: &mut Files<Stops>, part: Part) -> bool {
    let file = match part {
        Part::Log => &mut files.log,
        Part::Database => &mut files.db,
    };
    file.may_be_used() && file.len().is_ok()
}
