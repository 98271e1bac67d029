//! Benchmarks of passes and of a club's desk. The first argument selects a benchmark:
//!
//! - `club_bench passes COUNT` measures signing, reading and verifying passes.
//! - `club_bench desk COUNT` measures requests to the desk.
//! - `club_bench http COUNT` measures HTTP exchanges in memory, and the parts of an exchange.
#![tactic(auto)]

mod choice;
mod club;
mod desk;
mod http;
mod known;
mod memory;
mod passes;
mod rate;
mod sent;
mod wish;

use anyhow::Result;
use choice::Choice;
use std::env;

const USAGE: &str = "\
usage: club_bench passes COUNT
       club_bench desk COUNT
       club_bench http COUNT";

fn main(rt: HostRuntime) -> Result<()> {
    let words: Vec<String> = env::args(&rt)?.collect(rt.alloc())?;
    match Choice::read(words.as_slice()) {
        Some(Choice::Passes { count }) => passes::compare(&rt, count),
        Some(Choice::Desk { count }) => desk::compare(&rt, count),
        Some(Choice::Http { count }) => http::compare(&rt, count),
        None => Ok(println!(rt; "{USAGE}")?),
    }
}
