//! A journal of the calls to a client's stream, to the desk and to the log, with the time of each
//! call.

use super::doubles::HandSet;
use crate::expect::Runtime;
use desk_server::{Log, LogEvent};
use std::alloc::Global;
use std::cell::RefCell;

/// A call. The numbers are the time limit in milliseconds, and the number of bytes of a write or a
/// command.
#[derive(Clone, Copy, Debug)]
pub enum Call {
    /// This wait returns the command if both the client and the office are ready.
    WaitedCommandFirst(u64),
    WaitedBytesFirst(u64),
    Read(u64),
    Wrote(u64, usize),
    EndedWriting,
    Closed,
    Asked,
    Commanded(usize),
    Began,
    NotedCommand,
    NotedClient,
    NotedOther,
}

#[derive(Drop)]
pub struct Journal {
    pub clock: HandSet,
    calls: RefCell<Vec<(u64, Call)>>,
}

impl Journal {
    pub fn new(alloc: Global) -> Journal {
        Journal {
            clock: HandSet::new(0, 0),
            calls: RefCell::new(Vec::new(alloc)),
        }
    }

    pub fn note(&self, call: Call) {
        if let Ok(mut calls) = self.calls.try_borrow_mut() {
            let _ = calls.push((self.clock.elapsed(), call));
        }
    }

    /// Removes the calls from the journal, and returns them as a text.
    pub fn calls(&self, rt: &impl Runtime) -> String {
        let calls = self.calls.try_replace(Vec::new(rt.alloc()));
        let calls = calls.unwrap_or(Vec::new(rt.alloc()));
        format!(in rt.alloc(); "{calls:?}").expect(rt, "memory")
    }
}

#[derive(Drop)]
pub struct Entries<'j>(pub &'j Journal);

impl Log for Entries<'_> {
    ghost begins = { λ _ _. Unit {0} };

    ghost notes = { λ _ _ _. Unit {0} };

    fn begin(&mut self) {
        self.0.note(Call::Began);
    }

    fn note(&mut self, event: &LogEvent) {
        self.0.note(match event {
            LogEvent::Commanded { .. } => Call::NotedCommand,
            LogEvent::Exchanged { .. } => Call::NotedClient,
            _ => Call::NotedOther,
        });
    }
}
