//! Measures HTTP exchanges in memory: the exchanges per second, and the time of each part.
//!
//! The output has three rows: bookings, the same bookings again, and accounts. For each row, a desk
//! with tables in memory serves COUNT exchanges. With a second desk, the benchmark measures the
//! parts separately: decoding the requests, answering the requests, and writing the replies. For
//! comparison, the benchmark also prints the time that `httparse` takes to parse the heads of the
//! requests.

mod parts;

use crate::club::{Benchmark, run_in_memory};
use crate::memory::{Kept, exchanges};
use crate::rate::{nanos_each, rate};
use crate::sent::{ROWS, Requests, Sent};
use anyhow::{Result, anyhow};
use club_core::{ClubStore, Request};
use club_http::{Desk, Face, MAX_REPLY_LEN, Routes};
use std::alloc::Global;
use std::rt::Clock;
use std::time::Duration;

/// The number of times that the benchmark measures decoding the requests and parsing their heads.
/// The benchmark prints the shortest decoding time and the shortest parsing time.
const ROUNDS: u8 = 5;

const HEAD: &str = "asked for  a second | ns whole    words httparse     desk    reply";

/// Prints a line for each kind of request.
pub(crate) fn compare(rt: &HostRuntime, count: u16) -> Result<()> {
    println!(rt; "{HEAD}")?;
    run_in_memory(rt, &Requests::new(rt.alloc(), count)?)
}

impl Benchmark for Requests {
    fn run<S: ClubStore + Drop>(
        &self,
        rt: &HostRuntime,
        whole: Desk<S>,
        part: Desk<S>,
    ) -> Result<()> {
        let mut bench = Bench::new(rt.alloc(), whole, part)?;
        for &(name, wish) in &ROWS {
            bench.print_row(rt, name, self.of(wish))?;
        }
        Ok(())
    }
}

/// The benchmark with two desks. The desk `whole` serves whole exchanges, and the desk `part`
/// answers requests for the separate measurements.
#[derive(Drop)]
struct Bench<S: ClubStore> {
    face: Face,
    routes: Routes,
    whole: Desk<S>,
    part: Desk<S>,
}

impl<S: ClubStore + Drop> Bench<S> {
    fn new(alloc: Global, whole: Desk<S>, part: Desk<S>) -> Result<Bench<S>> {
        Ok(Bench {
            face: Face::new(alloc)?,
            routes: Routes::new(alloc)?,
            whole,
            part,
        })
    }

    // Prints the times for all requests of a kind. The requests are sent one after another.
    fn print_row(
        &mut self,
        rt: &(impl Clock + Print + AllocGlobal),
        name: &str,
        sent: &[Sent],
    ) -> Result<()> {
        let mut kept = Kept::new();
        let whole = exchanges(rt, &mut self.face, &mut self.whole, sent, &mut kept)?;
        let mut asked = Vec::with_capacity(rt.alloc(), sent.len())?;
        let read = shortest_words(rt, &self.routes, sent, &mut asked)?;
        let heads = shortest_heads(rt, sent)?;
        let (decided, written) = self.decided_and_written(rt, sent, &asked, kept.bytes())?;
        print_times(
            rt,
            name,
            sent.len(),
            &[whole, read, heads, decided, written],
        )
    }

    // Returns how long the desk takes to answer all requests, and how long it takes to write the
    // replies' texts. Fails if the last text doesn't begin with `last`. This argument must be the
    // last reply of the desk `whole`.
    fn decided_and_written(
        &mut self,
        rt: &(impl Clock + AllocGlobal),
        sent: &[Sent],
        asked: &[Request],
        last: &[u8],
    ) -> Result<(Duration, Duration)> {
        let mut replies = Vec::with_capacity(rt.alloc(), sent.len())?;
        let decided = parts::replies(rt, &mut self.part, sent, asked, &mut replies)?;
        let mut room = [0; MAX_REPLY_LEN];
        let written = parts::texts(rt, &replies, &mut room)?;
        if room.starts_with(last) {
            Ok((decided, written))
        } else {
            Err(anyhow!("the parts give another reply"))
        }
    }
}

// Prints the times for `count` requests. `times[0]` is the time of the whole exchanges.
fn print_times(rt: &impl Print, name: &str, count: usize, times: &[Duration; 5]) -> Result<()> {
    print!(rt; "{name:>9} {:>9} |", rate(count, times[0]))?;
    for time in times {
        print!(rt; " {:>8}", nanos_each(count, *time))?;
    }
    Ok(println!(rt)?)
}

fn shortest_words(
    rt: &impl Clock,
    routes: &Routes,
    sent: &[Sent],
    asked: &mut Vec<Request>,
) -> Result<Duration> {
    let mut shortest = Duration::MAX;
    for _ in 0..ROUNDS {
        asked.clear();
        shortest = shortest.min(parts::words(rt, routes, sent, asked)?);
    }
    Ok(shortest)
}

fn shortest_heads(rt: &impl Clock, sent: &[Sent]) -> Result<Duration> {
    let mut shortest = Duration::MAX;
    for _ in 0..ROUNDS {
        shortest = shortest.min(parts::heads(rt, sent)?);
    }
    Ok(shortest)
}
