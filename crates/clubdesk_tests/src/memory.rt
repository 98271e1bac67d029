//! A database in memory, and runs of the program over it.

use crate::callers::{Machine, Notes};
use crate::runs::{Fixture, Output, ServerAnswer, expect_end, parts_of, play_over};
use club_core::{ClubStore, StoreFault};
use club_store::Store;
use desk_server::{Databases, Door, Reached, Visit};
use std::cell::Cell;
use std::os::unix::net::UnixListener;
use std::test::Fail;
use test_kit::exchanges::BOOK_7;

const NAME: &str = "club";

fn count(cell: &Cell<u64>) {
    cell.set(cell.get().saturating_add(1));
}

pub struct ShutDoor<'a>(&'a Notes);

impl Door for ShutDoor<'_> {
    fn listener(&self) -> Option<&UnixListener> {
        None
    }
}

impl Drop for ShutDoor<'_> {
    fn drop(self) {
        let ShutDoor(notes) = self;
        notes.removed.set(Some(notes.closed.get()));
    }
}

#[derive(Drop)]
pub struct Greeted<'a> {
    rt: &'a HostRuntime,
    answer: ServerAnswer<'a>,
    notes: &'a Notes,
}

impl Visit for Greeted<'_> {
    ghost gives = { λ _ _ _. Unit {0} };

    fn give(self, command: &[u8]) -> Option<(u8, String)> {
        self.notes.handed.set(command.len());
        let (status, text) = self.answer?;
        Some((status, format!(in self.rt.alloc(); "{text}").ok()?))
    }
}

/// The only database. An opening may fail, or a server may have the database open.
#[derive(Drop)]
struct InMemory<'a, S: ClubStore + Drop> {
    rt: &'a HostRuntime,
    store: Option<S>,
    fault: Option<StoreFault>,
    server: Option<ServerAnswer<'a>>,
    notes: &'a Notes,
}

impl<'a, S: ClubStore + Drop> Databases for InMemory<'a, S> {
    type Store = S;

    type Door = ShutDoor<'a>;

    type Visit = Greeted<'a>;

    ghost opens = { λ _ _ _ _. Unit {0} };

    ghost reaches = { λ _ _ _ _. Unit {0} };

    ghost closes = { λ _ _ _. Unit {0} };

    // An open database can't be opened again.
    fn open(&mut self, name: &str) -> Result<S, StoreFault> {
        count(&self.notes.opened);
        if name != NAME {
            return Err(StoreFault::Storage);
        }
        match self.fault {
            Some(fault) => Err(fault),
            None => self.store.take().ok_or(StoreFault::Storage),
        }
    }

    fn reach(&mut self, name: &str) -> Result<Reached<S, Greeted<'a>>, StoreFault> {
        match self.server {
            Some(answer) => Ok(Reached::Served(Greeted {
                rt: self.rt,
                answer,
                notes: self.notes,
            })),
            None => match self.open(name) {
                Ok(store) => Ok(Reached::Opened(store)),
                Err(fault) => Err(fault),
            },
        }
    }

    fn close(&mut self, store: S) {
        count(&self.notes.closed);
        self.store = Some(store);
    }

    fn make_door(&self, name: &str) -> Result<ShutDoor<'a>, StoreFault> {
        if name == NAME {
            Ok(ShutDoor(self.notes))
        } else {
            Err(StoreFault::Storage)
        }
    }
}

/// `notes` also counts the calls that the rows before and after the run make.
#[derive(Drop)]
pub struct Played {
    pub output: Output,
    pub notes: Notes,
}

impl Played {
    pub fn expect_openings(&self, opened: u64, closed: u64) -> Result<(), Fail> {
        if self.notes.opened.get() == opened && self.notes.closed.get() == closed {
            return Ok(());
        }
        Err("opened or closed too often or too seldom".into())
    }
}

// A proof for any type of store takes less time than a proof for one particular type.
fn play_in<S: ClubStore + Drop>(
    rt: &HostRuntime,
    store: S,
    scene: &Fixture<'_>,
    words: &str,
) -> Result<Played, Fail> {
    let notes = Notes::default();
    let mut databases = InMemory {
        rt,
        store: Some(store),
        fault: scene.fault,
        server: scene.server,
        notes: &notes,
    };
    let machine = Machine::new(scene.second, scene.later);
    let output = play_over(rt, &machine, &notes, &mut databases, NAME, scene, words)?;
    drop(databases);
    Ok(Played { output, notes })
}

pub fn play_words(rt: &HostRuntime, scene: &Fixture<'_>, words: &str) -> Result<Played, Fail> {
    play_in(rt, Store::open_in_memory(rt.alloc())?, scene, words)
}

pub fn play(rt: &HostRuntime, scene: &Fixture<'_>, row: &str) -> Result<Played, Fail> {
    let played = play_words(rt, scene, parts_of(row)?.0)?;
    expect_end(rt, row, played.output.returned.as_str())?;
    Ok(played)
}

/// Plays a row, and fails if the database was opened or closed another number of times.
pub fn run_row(rt: &HostRuntime, scene: &Fixture<'_>, row: &str, times: u64) -> Result<(), Fail> {
    play(rt, scene, row)?.expect_openings(times, times)
}

static FAILING: [&str; 4] = [
    "sheet 2026-05-01 => 4 out of memory",
    "serve --port 0 --count 1 => 4 out of memory",
    "sheet 2026-05-01 => 5 storage failed",
    "serve --port 0 --count 1 => 5 storage failed",
];

#[test]
fn openings_that_fail(rt: HostRuntime) -> Result<(), Fail> {
    for row in &FAILING {
        let fault = if row.ends_with("out of memory") {
            StoreFault::Memory
        } else {
            StoreFault::Storage
        };
        let mut scene = Fixture::after(&[]);
        scene.fault = Some(fault);
        play(&rt, &scene, row)?.expect_openings(1, 0)?;
    }
    Ok(())
}

static ANSWERED: [&str; 2] = [
    "add-member amy 5 => 0 done\n",
    "sheet 2026-05-01 => 0 Day sheet 2026-05-01\nNo bookings.\n",
];

// A stopped pager or terminal must not keep the database open.
#[test]
fn closed_before_the_answer_is_written(rt: HostRuntime) -> Result<(), Fail> {
    for row in &ANSWERED {
        let played = play(&rt, &Fixture::after(&[]), row)?;
        if played.notes.written.get() != Some(1) {
            return Err("written to while the database was open".into());
        }
    }
    Ok(())
}

// The next program that opens the database may make a door, so the earlier door must be gone.
#[test]
fn a_door_is_removed_before_the_database_is_closed(rt: HostRuntime) -> Result<(), Fail> {
    let scene = Fixture::between(&["add-member amy 5 => 0 done\n"], &[BOOK_7], &[]);
    let row = "serve --port 0 --count 1 --at 2026-04-20T12:00 => 0 ";
    let played = play(&rt, &scene, row)?;
    played.expect_openings(2, 2)?;
    if played.notes.removed.get() != Some(1) {
        return Err("the door was there when the database was closed".into());
    }
    Ok(())
}
