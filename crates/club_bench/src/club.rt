//! The club of the benchmarks, which has a court and fifty members. Each member has a key.

use crate::known::known;
use anyhow::{Result, anyhow};
use club_core::{ClubStore, Command};
use club_gate::{Desk, OfficeReply, key_signature, minted};
use club_rows::Root;
use club_store::Store;
use club_values::{Kind, Name};
use pass_forms::{Form, FormFault, Pass, narrow};
use pass_json::write_any;
use std::alloc::Global;

/// The number of members. Each member has one key. The desk's cache of derived keys has room for
/// all of these keys.
pub(crate) const KEYS: u16 = 50;

pub(crate) const COURT: &[u8] = b"court-1";

/// Caveats that allow every request of the benchmarks.
pub(crate) const CAVEATS: [&[u8]; 3] = [
    b"guests <= 4",
    b"until < 2099-12-31T23:59",
    b"spend <= 999999999",
];

/// A benchmark that uses two desks, each with a new club.
pub(crate) trait Benchmark {
    fn run<S: ClubStore + Drop>(
        &self,
        rt: &HostRuntime,
        first: Desk<S>,
        second: Desk<S>,
    ) -> Result<()>;
}

/// Runs a benchmark with two desks, whose tables are in memory. Only this function names the type
/// of the tables, because proofs about this type take a long time.
pub(crate) fn run_in_memory(rt: &HostRuntime, benchmark: &impl Benchmark) -> Result<()> {
    let first = Store::open_in_memory(rt.alloc())?;
    let second = Store::open_in_memory(rt.alloc())?;
    run_over(rt, first, second, benchmark)
}

// Runs the benchmark with two desks. The desks use the stores `first` and `second`, which must be
// empty.
fn run_over<S: ClubStore + Drop>(
    rt: &HostRuntime,
    first: S,
    second: S,
    benchmark: &impl Benchmark,
) -> Result<()> {
    let first = filled_desk(rt.alloc(), first)?;
    let second = filled_desk(rt.alloc(), second)?;
    benchmark.run(rt, first, second)
}

// Makes a desk with empty tables, then adds the court, the members and their keys.
fn filled_desk<S: ClubStore + Drop>(alloc: Global, store: S) -> Result<Desk<S>> {
    let mut desk = Desk::new(alloc, store);
    give(&mut desk, &known(court(), "a court")?)?;
    for index in 0..KEYS {
        join(&mut desk, index)?;
    }
    Ok(desk)
}

// Adds a member with points and a key.
fn join<S: ClubStore>(desk: &mut Desk<S>, index: u16) -> Result<()> {
    let commands = known(joining(index), "a member")?;
    for command in &commands {
        give(desk, command)?;
    }
    Ok(())
}

fn give<S: ClubStore>(desk: &mut Desk<S>, command: &Command) -> Result<()> {
    match desk.office(command) {
        OfficeReply::Refused(fault) => Err(anyhow!("a command is refused: {fault}")),
        _ => Ok(()),
    }
}

fn court() -> Option<Command> {
    Some(Command::AddFacility {
        name: Name::read(COURT)?,
        kind: Kind::Court,
        places: 4,
        price: 1,
        opens: 8,
        shuts: 22,
    })
}

fn joining(index: u16) -> Option<[Command; 3]> {
    let name = name_of(index)?;
    let root = root()?;
    Some([
        Command::AddMember { name, quota: 99 },
        Command::Credit {
            member: name,
            points: 1_000_000,
        },
        Command::AddKey {
            name,
            member: name,
            root,
        },
    ])
}

fn root() -> Option<Root> {
    Root::new(b"0123456789abcdef")
}

/// Returns a member's name, which consists of two digits. The member's key has the same name.
fn name_of(index: u16) -> Option<Name> {
    Name::read(&[digit(index / 10), digit(index)])
}

fn digit(value: u16) -> u8 {
    b'0' + (value % 10) as u8
}

/// Returns the text of each key's pass, in this form and with this number of caveats.
pub(crate) fn passes(alloc: Global, form: Form, caveats: usize) -> Result<Vec<String>> {
    let mut texts = Vec::new(alloc);
    for index in 0..KEYS {
        let mut pass = pass(alloc, index)?;
        narrow_by(alloc, &mut pass, caveats)?;
        texts.push(write_any(alloc, form, &pass)?)?;
    }
    Ok(texts)
}

// Returns the pass of the key with this index.
fn pass(alloc: Global, index: u16) -> Result<Pass> {
    let name = known(name_of(index), "a name")?;
    let root = known(root(), "a root")?;
    Ok(minted(alloc, &name, key_signature(&name, &root))?)
}

fn narrow_by(alloc: Global, pass: &mut Pass, caveats: usize) -> Result<(), FormFault> {
    for caveat in CAVEATS.iter().cycle().take(caveats) {
        narrow(alloc, pass, caveat)?;
    }
    Ok(())
}
