//! Plays the scenarios in the data folder. The lines of a scenario state a desk's answers. Three
//! kinds of players play each file:
//!
//! - The reference machine.
//! - The desk over tables in memory.
//! - The desk with exchanges, which read the bytes of a request and write the bytes of the reply.
//!   The player plays the file three times, once for each form of pass.
//!
//! For each file, the program prints the numbers of clubs and lines, or the first fault.
#![tactic(auto)]

mod command;
mod fault;
mod known;
mod machine;
mod odd;
mod page;
mod passes;
mod play;
mod player;
mod reply;
mod request;
mod tables;
mod text;

use anyhow::{Result, anyhow};
use machine::Machines;
use pass_forms::Form;
use play::{Count, FaultAt, Way, play};
use std::alloc::{AllocError, Global};
use std::fs;
use tables::{AskedBy, InMemory};

/// The suffix of the scenario files.
const ENDING: &str = ".txt";

static FORMS: [Form; 3] = [Form::V1, Form::V2, Form::Json];

/// A fault at a line, and the name of the player that found the fault.
#[derive(Drop)]
struct Found {
    player: &'static str,
    at: FaultAt,
}

/// Returns the names of the scenario files in sorted order.
fn names(rt: &HostRuntime) -> Result<Vec<String>> {
    let mut names = Vec::new(rt.alloc());
    for entry in fs::read_dir(rt, ".")? {
        let entry = entry?;
        if entry.file_name().ends_with(ENDING) {
            names.push(String::from_str(rt.alloc(), entry.file_name())?)?;
        }
    }
    names.sort()?;
    Ok(names)
}

/// Plays lines with each player. If a crash stops a line, `keeps` decides whether the line takes
/// effect before the crash.
fn play_each(alloc: Global, lines: &[&str], keeps: bool) -> Result<Count, Found> {
    let form = Form::V2;
    let way = Way { form, keeps };
    let player = "the machine";
    let count = play(alloc, &Machines, way, lines).map_err(|at| Found { player, at })?;
    let player = "the desk";
    let asked_by = AskedBy::Words;
    play(alloc, &InMemory { asked_by }, way, lines).map_err(|at| Found { player, at })?;
    let player = "an exchange";
    let asked_by = AskedBy::Bytes;
    for form in &FORMS {
        let way = Way { form: *form, keeps };
        play(alloc, &InMemory { asked_by }, way, lines).map_err(|at| Found { player, at })?;
    }
    Ok(count)
}

fn lines_of<'a>(alloc: Global, text: &'a str) -> Result<Vec<&'a str>, AllocError> {
    text.lines().collect(alloc)
}

/// Plays a text. If the text has a crash, plays the text once more. This time, if a crash stops a
/// line, the line takes effect before the crash.
fn play_text(alloc: Global, lines: &[&str]) -> Result<Count, Found> {
    let count = play_each(alloc, lines, false)?;
    if lines.iter().any(|line| line.starts_with("crash")) {
        play_each(alloc, lines, true)?;
    }
    Ok(count)
}

/// Plays a file, and prints its numbers of clubs and lines, or its fault. Returns true if the file
/// has no fault.
fn play_file(rt: &HostRuntime, name: &str) -> Result<bool> {
    let text = fs::read_to_string(rt, name)?;
    let lines = lines_of(rt.alloc(), text.as_str())?;
    match play_text(rt.alloc(), &lines) {
        Ok(Count { clubs, lines }) => {
            println!(rt; "{name}: {clubs} clubs, {lines} lines")?;
            Ok(true)
        }
        Err(Found { player, at }) => {
            println!(rt; "{name}:{}: by {player}: {}", at.line, at.fault)?;
            Ok(false)
        }
    }
}

/// Checks that the player refuses all odd texts, and prints the result. Returns true if the player
/// refuses all odd texts.
fn refuse_odd_texts(rt: &HostRuntime) -> Result<bool> {
    match odd::first_played_of_all(rt.alloc())? {
        None => {
            println!(rt; "odd texts: refused")?;
            Ok(true)
        }
        Some(text) => {
            println!(rt; "odd texts: not refused at its line: {text:?}")?;
            Ok(false)
        }
    }
}

fn main(rt: HostRuntime) -> Result<()> {
    let mut faults = u32::from(!refuse_odd_texts(&rt)?);
    for name in &names(&rt)? {
        if !play_file(&rt, name.as_str())? {
            faults = faults.saturating_add(1);
        }
    }
    if faults > 0 {
        return Err(anyhow!("{faults} faults"));
    }
    Ok(())
}
