//! An example that uses passes in code. The example mints a pass as the office does, and narrows
//! the pass as the key's holder does. Next, the example verifies passes and tests requests as the
//! desk does. Finally, the example runs the commands of `passtool`. You can start your own program
//! from a copy of this example.
#![tactic(auto)]

mod walk;

use anyhow::{Result, anyhow};
use pass_caveats::{
    Action, Ask, CaveatFault, Day, Hour, Kind, Moment, Name, Slot, allows, first_fault, read,
};
use pass_forms::{Form, FormFault, Pass, narrow};
use pass_json::{read_any, write_any};
use std::alloc::Global;
use std::fmt;

// The key's secret root. In your own program, use random bytes, and show them only to the office
// and the desk.
const ROOT: &[u8] = b"\x00\x11\x22\x33\x44\x55\x66\x77\x88\x99\xaa\xbb\xcc\xdd\xee\xff";

// The desk's answer to a request with a pass.
#[derive(Clone, Copy)]
enum Verdict {
    Allowed,
    NotSigned,
    Refused(CaveatFault),
}

impl fmt::Display for Verdict {
    fn fmt<W: fmt::Write>(&self, f: &mut fmt::Formatter<W>) -> fmt::Result {
        match self {
            Verdict::Allowed => f.write_str("allowed"),
            Verdict::NotSigned => f.write_str("not signed"),
            Verdict::Refused(fault) => write!(f, "{fault}"),
        }
    }
}

fn main(rt: HostRuntime) -> Result<()> {
    print_verdicts(&rt)?;
    walk::print_walk(&rt)
}

// Mints a pass, narrows it, and tests requests against its caveats.
fn print_verdicts(rt: &(impl Print + Alloc<A = Global>)) -> Result<()> {
    let minted = mint(rt.alloc())?;
    println!(rt; "minted {minted}")?;
    let caveats = ["kind = court", "spend <= 600"];
    let narrowed = narrowed_by(rt.alloc(), minted.as_str(), &caveats)?;
    println!(rt; "narrowed {narrowed}")?;

    let court = known(booking(b"court-1", Kind::Court))?;
    let again = Ask {
        spent: 600,
        ..court
    };
    let boat = known(booking(b"boat-1", Kind::Boat))?;
    let stripped = without_caveats(rt.alloc(), narrowed.as_str())?;
    let attempts = [
        ("court-1 for 600 points", &narrowed, &court),
        ("once more", &narrowed, &again),
        ("boat-1", &narrowed, &boat),
        ("boat-1, not narrowed", &minted, &boat),
        ("boat-1, caveats taken off", &stripped, &boat),
    ];
    for (what, text, ask) in attempts {
        let verdict = verdict_on(rt.alloc(), text.as_str(), ask)?;
        println!(rt; "{what}: {verdict}")?;
    }

    for line in ["weekday = fri", "guests <= 1", "shoe = red"] {
        println!(rt; "{line}: {}", answer_of(line, &court))?;
    }
    Ok(())
}

// Mints a pass for the key, as the office does. Returns the text of the pass for the key's holder.
fn mint(alloc: Global) -> Result<String, FormFault> {
    let pass = Pass::mint(alloc, ROOT, b"club-desk", b"key:amy-1")?;
    write_any(alloc, Form::V2, &pass)
}

// Narrows a pass, as the holder does. The holder doesn't know the root, and the narrowed pass is
// still signed. The text of the pass may have any form.
fn narrowed_by(alloc: Global, text: &str, caveats: &[&str]) -> Result<String, FormFault> {
    let (form, mut pass) = read_any(alloc, text.as_bytes())?;
    for caveat in caveats {
        narrow(alloc, &mut pass, caveat.as_bytes())?;
    }
    write_any(alloc, form, &pass)
}

// Verifies a pass, as the desk does. Checks the signature first, then the caveats in order.
fn verdict_on(alloc: Global, text: &str, ask: &Ask) -> Result<Verdict, FormFault> {
    let (_, pass) = read_any(alloc, text.as_bytes())?;
    if !pass.is_signed(ROOT) {
        return Ok(Verdict::NotSigned);
    }
    Ok(match first_fault(pass.caveats(), ask) {
        Some(fault) => Verdict::Refused(fault),
        None => Verdict::Allowed,
    })
}

// Tries to remove the caveats of a pass. The new pass isn't valid, because the signature covers the
// caveats.
fn without_caveats(alloc: Global, text: &str) -> Result<String, FormFault> {
    let (form, pass) = read_any(alloc, text.as_bytes())?;
    let location = Vec::from_slice(alloc, pass.location())?;
    let identifier = Vec::from_slice(alloc, pass.identifier())?;
    let bare = Pass::new(location, identifier, Vec::new(alloc), *pass.signature());
    write_any(alloc, form, &bare)
}

// Parses a caveat, and tests the request against it.
fn answer_of(line: &str, ask: &Ask) -> &'static str {
    match read(line.as_bytes()) {
        None => "not understood",
        Some(caveat) if allows(&caveat, ask) => "allows",
        Some(_) => "denies",
    }
}

// Returns a request for a booking at this facility. The request is made at noon on 2026-04-20, for
// the slot on 2026-05-01 at 18:00. The booking has two guests and costs 600 points. Returns `None`
// if a value isn't valid.
fn booking(facility: &[u8], kind: Kind) -> Option<Ask> {
    let slot = Slot {
        facility: Name::read(facility)?,
        day: Day::read(b"2026-05-01")?,
        hour: Hour::read(b"18")?,
    };
    Some(Ask {
        action: Action::Book,
        slot: Some(slot),
        kind: Some(kind),
        guests: 2,
        moment: Moment::read(b"2026-04-20T12:00")?,
        owed: 600,
        spent: 0,
    })
}

// Returns the value, or an error for `None`. In this example, all values are valid.
fn known<T: Drop>(value: Option<T>) -> Result<T> {
    value.ok_or_else(|| anyhow!("a value is out of its limits"))
}
