//! Measures how many passes per second the program signs, reads and verifies. Each pass has three
//! caveats, and each task runs COUNT times. The benchmark measures reading and verifying in two
//! ways: with a `Pass` in memory, and field by field without a `Pass`.

mod task;

use crate::rate::rate;
use anyhow::Result;
use pass_forms::{Form, FormFault, MAX_BYTES, Pass, narrow, unwrap_text};
use pass_json::write_any;
use std::alloc::Global;
use std::rt::Clock;
use std::time::Instant;
use task::{CAVEATS, ROOT, Task, Written};

static TASKS: [(&str, Task); 5] = [
    ("signed", Task::Sign),
    ("read whole", Task::ReadWhole),
    ("read by fields", Task::ReadFields),
    ("read and verified whole", Task::VerifyWhole),
    ("read and verified by fields", Task::VerifyFields),
];

static FORMS: [(&str, Form); 2] = [("V1", Form::V1), ("V2", Form::V2)];

/// Prints the rates for each form of pass.
pub(crate) fn compare(rt: &HostRuntime, count: u32) -> Result<()> {
    let pass = new_pass(rt.alloc())?;
    for &(name, form) in &FORMS {
        let text = write_any(rt.alloc(), form, &pass)?;
        compare_tasks(rt, name, text.as_bytes(), count)?;
    }
    Ok(())
}

fn new_pass(alloc: Global) -> Result<Pass, FormFault> {
    let mut pass = Pass::mint(alloc, ROOT, b"club-desk", b"key:amy-1")?;
    for caveat in &CAVEATS {
        narrow(alloc, &mut pass, caveat)?;
    }
    Ok(pass)
}

fn compare_tasks(rt: &HostRuntime, name: &str, text: &[u8], count: u32) -> Result<()> {
    println!(rt; "a pass of three caveats in {name}, times a second")?;
    let mut buffer = [0; MAX_BYTES];
    let unwrapped = unwrap_text(text, &mut buffer)?;
    let written = Written {
        form: unwrapped.form,
        text,
        bytes: unwrapped.bytes(text, &buffer),
    };
    for (what, task) in &TASKS {
        measure(rt, what, *task, &written, count)?;
    }
    Ok(())
}

// Measures a task, and prints its number of runs per second.
fn measure(
    rt: &(impl Alloc<A = Global> + Clock + Print),
    what: &str,
    task: Task,
    written: &Written<'_>,
    count: u32,
) -> Result<()> {
    let start = Instant::now(rt)?;
    let folded = fold(rt.alloc(), task, written, count)?;
    print_row(rt, what, rate(count as usize, start.elapsed(rt)?), folded)
}

fn print_row(rt: &impl Print, what: &str, rate: u128, folded: u8) -> Result<()> {
    Ok(println!(rt; "{what:>28} {rate:>9} (folded to {folded:02x})")?)
}

// Runs a task `count` times, and combines the returned bytes by exclusive or.
fn fold(alloc: Global, task: Task, written: &Written<'_>, count: u32) -> Result<u8, FormFault> {
    let mut folded = 0;
    for _ in 0..count {
        folded ^= task.once(alloc, written)?;
    }
    Ok(folded)
}
