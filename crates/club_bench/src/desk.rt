//! Measures how many requests per second a desk with tables in memory answers. For each line of the
//! output, the benchmark sends COUNT bookings, the same bookings again, and COUNT requests for an
//! account.

use crate::club::{Benchmark, KEYS, passes, run_in_memory};
use crate::known::known;
use crate::rate::rate;
use crate::wish::{Wish, number_at, slot_and_moment};
use anyhow::{Result, anyhow};
use club_core::{ClubStore, Reply, Request};
use club_gate::{Desk, Words};
use club_rows::{BookingNumber, Guests};
use club_values::{Moment, Slot};
use pass_forms::Form;
use std::rt::Clock;
use std::time::{Duration, Instant};

const HEAD: &str = "form caveats   booked repeated accounts";

static FORMS: [(&str, Form); 3] = [("v1", Form::V1), ("v2", Form::V2), ("json", Form::Json)];

/// The numbers of caveats in the measured passes.
static CAVEAT_COUNTS: [usize; 3] = [0, 3, 20];

static WISHES: [Wish; 3] = [Wish::Booking, Wish::Booking, Wish::Account];

/// Prints a line for each combination of a form and a number of caveats.
pub(crate) fn compare(rt: &HostRuntime, count: u16) -> Result<()> {
    println!(rt; "{HEAD}")?;
    for &(name, form) in &FORMS {
        for &caveats in &CAVEAT_COUNTS {
            let passes = passes(rt.alloc(), form, caveats)?;
            print!(rt; "{name:>4} {caveats:>7}")?;
            run_in_memory(
                rt,
                &Row {
                    passes: &passes,
                    count,
                },
            )?;
        }
    }
    Ok(())
}

/// A line of the output. The line shows how many requests of each kind the desk answers per second.
/// The requests use the passes in `passes`.
#[derive(Clone, Copy)]
struct Row<'a> {
    passes: &'a [String],
    count: u16,
}

impl Benchmark for Row<'_> {
    fn run<S: ClubStore + Drop>(
        &self,
        rt: &HostRuntime,
        mut first: Desk<S>,
        _second: Desk<S>,
    ) -> Result<()> {
        for &wish in &WISHES {
            let time = time(rt, &mut first, self.passes, wish, self.count)?;
            print!(rt; " {:>8}", rate(usize::from(self.count), time))?;
        }
        Ok(println!(rt)?)
    }
}

fn time<S: ClubStore>(
    rt: &impl Clock,
    desk: &mut Desk<S>,
    passes: &[String],
    wish: Wish,
    count: u16,
) -> Result<Duration> {
    let start = Instant::now(rt)?;
    ask(desk, passes, wish, count)?;
    Ok(start.elapsed(rt)?)
}

// Sends `count` requests of this kind. The requests use the passes in round-robin order.
fn ask<S: ClubStore>(desk: &mut Desk<S>, passes: &[String], wish: Wish, count: u16) -> Result<()> {
    for index in 0..count {
        let pass = known(passes.get(usize::from(index % KEYS)), "a pass")?;
        ask_once(desk, pass.as_bytes(), wish, index)?;
    }
    Ok(())
}

fn ask_once<S: ClubStore>(desk: &mut Desk<S>, pass: &[u8], wish: Wish, index: u16) -> Result<()> {
    let (moment, request) = known(request_at(wish, index), "a request")?;
    match desk.ask(moment, &Words { pass, request }) {
        Reply::Refused(refusal) => Err(anyhow!("a request is refused: {refusal:?}")),
        _ => Ok(()),
    }
}

// Returns the request with this index, and the moment when it is sent.
fn request_at(wish: Wish, index: u16) -> Option<(Moment, Request)> {
    let (slot, moment) = slot_and_moment(index)?;
    match wish {
        Wish::Booking => Some((moment, booking(slot, index)?)),
        Wish::Account => Some((moment, Request::Account)),
    }
}

fn booking(slot: Slot, index: u16) -> Option<Request> {
    Some(Request::Book {
        slot,
        number: BookingNumber::new(u32::from(number_at(index)))?,
        guests: Guests::new(1)?,
    })
}
