//! A player that uses the desk over tables. The desk gets each request as decoded words or as the
//! bytes of an exchange.

use crate::fault::Fault;
use crate::machine::{text_in, text_of};
use crate::player::{Maker, Player};
use club_core::{OfficeFault, StoreFault};
use club_gate::{Fault as DeskFault, OfficeReply};
use club_http::{
    Command, Day, Desk, Face, Moment, Name, ReadInlet, Reply, Routes, Slot, WriteOutlet, answer,
    words_of,
};
use club_store::Store;
use sqlite::{Alter, Connection, MemStore};
use std::alloc::Global;

/// The SQL that turns tables into tables of version 1. That version has no older roots, and no
/// index of bookings.
const AS_VERSION_1: &str = "DROP TABLE old_roots; DROP INDEX IF EXISTS bookings_by_key; \
    UPDATE desk SET version = 1";

/// The way in which a desk gets a request.
#[derive(Clone, Copy)]
pub(crate) enum AskedBy {
    /// The desk gets the decoded words of a request.
    Words,
    /// The desk gets the bytes of a request, and returns the bytes of the reply.
    Bytes,
}

/// Makes players that are desks over tables in memory.
#[derive(Clone, Copy)]
pub(crate) struct InMemory {
    pub(crate) asked_by: AskedBy,
}

/// A desk, and the routes for decoding requests.
#[derive(Drop)]
pub(crate) struct Counter<S: Alter> {
    alloc: Global,
    asked_by: AskedBy,
    face: Face,
    routes: Routes,
    desk: Desk<Store<S>>,
}

fn fault_of(fault: StoreFault) -> Fault {
    match fault {
        StoreFault::Memory => Fault::Memory,
        StoreFault::Storage => Fault::Player("storage failed"),
    }
}

/// Returns the lines of a listing, or `None` if the desk doesn't know the name.
fn shown(shown: Result<String, DeskFault>) -> Result<Option<String>, Fault> {
    match shown {
        Ok(text) => Ok(Some(text)),
        Err(DeskFault::Refused(OfficeFault::Unknown)) => Ok(None),
        Err(DeskFault::Refused(_)) => Err(Fault::Player("another refusal of a listing")),
        Err(DeskFault::Store(fault)) => Err(fault_of(fault)),
    }
}

/// Returns a desk over the tables that a connection has open.
fn desk_over<S: Alter + Drop>(
    alloc: Global,
    connection: Connection<S>,
) -> Result<Desk<Store<S>>, Fault> {
    match Store::adopt(alloc, connection) {
        Ok(store) => Ok(Desk::new(alloc, store)),
        Err((fault, _)) => Err(fault_of(fault)),
    }
}

fn counter_over<S: Alter + Drop>(
    alloc: Global,
    asked_by: AskedBy,
    connection: Connection<S>,
) -> Result<Counter<S>, Fault> {
    Ok(Counter {
        alloc,
        asked_by,
        face: Face::new(alloc)?,
        routes: Routes::new(alloc)?,
        desk: desk_over(alloc, connection)?,
    })
}

impl Maker for InMemory {
    type Made = Counter<MemStore>;

    fn make(&self, alloc: Global) -> Result<Counter<MemStore>, Fault> {
        match Connection::open_in_memory(alloc) {
            Ok(connection) => counter_over(alloc, self.asked_by, connection),
            Err(_) => Err(Fault::Memory),
        }
    }
}

impl<S: Alter + Drop> Counter<S> {
    fn by_words(&mut self, moment: Moment, request: &[u8]) -> Result<String, Fault> {
        let reply = match words_of(&self.routes, request) {
            Ok(words) => self.desk.ask(moment, &words),
            Err(refusal) => Reply::Refused(refusal),
        };
        text_of(self.alloc, &reply)
    }

    fn by_bytes(&mut self, moment: Moment, request: &[u8]) -> Result<String, Fault> {
        let mut output = Vec::new(self.alloc);
        let mut reader = ReadInlet::new(request);
        let mut writer = WriteOutlet::new(&mut output);
        let face = &mut self.face;
        match answer(face, &mut self.desk, moment, &mut reader, &mut writer) {
            Ok(_) => text_in(self.alloc, &output),
            Err(_) => Err(Fault::Player("an exchange failed")),
        }
    }
}

impl<S: Alter + Drop> Player for Counter<S> {
    fn reply(&mut self, moment: Moment, request: &[u8]) -> Result<String, Fault> {
        match self.asked_by {
            AskedBy::Words => self.by_words(moment, request),
            AskedBy::Bytes => self.by_bytes(moment, request),
        }
    }

    fn command(&mut self, command: &Command) -> Result<OfficeReply, Fault> {
        Ok(self.desk.office(command))
    }

    fn sheet(&mut self, day: Day) -> Result<String, Fault> {
        match self.desk.sheet(day) {
            Ok(text) => Ok(text),
            Err(_) => Err(Fault::Player("no sheet")),
        }
    }

    fn account(&mut self, key: &Name, moment: Moment) -> Result<Option<String>, Fault> {
        shown(self.desk.show_account(key, moment))
    }

    fn slot(&mut self, slot: &Slot) -> Result<Option<String>, Fault> {
        shown(self.desk.show_slot(slot))
    }

    fn reopened(self, as_version_1: bool) -> Result<Counter<S>, Fault> {
        let Counter {
            alloc,
            asked_by,
            face: _,
            routes: _,
            desk,
        } = self;
        let mut connection = desk.into_store().into_connection();
        if as_version_1 && connection.execute_batch(AS_VERSION_1).is_err() {
            return Err(Fault::Player("no tables of version 1"));
        }
        counter_over(alloc, asked_by, connection)
    }
}
