//! Finds the first fault of a list of caveats.

ghost use Rattle.std.specs.{Prelude.{◌≡◌, [], ◌∷◌, map}, Vec.vec_items};
ghost use Rattle.pass_caveats.specs.Fault.{IsFaultAt, IsFirstFault, first_fault_from};
ghost use Rattle.pass_caveats.specs.{Fault.first_fault_of, computed.CaveatOf.caveat_of};

use crate::ask::Ask;
use crate::caveat::{allows, read};
use crate::laws::reads_what_is_understood;
use std::error::Error;
use std::fmt;

/// The reason why a list of caveats refuses a request. The number of a caveat is its position in
/// the list, starting from 1.
#[derive(Clone, Copy, Debug, PartialEq, Eq)]
pub enum CaveatFault {
    /// The caveat with this number isn't understood.
    NotUnderstood(usize),
    /// The caveat with this number is understood, but doesn't allow the request.
    Denied(usize),
}

impl fmt::Display for CaveatFault {
    ghost use Rattle.std.specs.Prelude.{Some};
    ghost use Rattle.pass_caveats.specs.Fault.{caveat_fault_text};

    ghost output = { λ fault. Some (caveat_fault_text fault) };

    fn fmt<W: fmt::Write>(&self, f: &mut fmt::Formatter<W>) -> fmt::Result {
        match self {
            CaveatFault::NotUnderstood(number) => write!(f, "caveat {number} not understood"),
            CaveatFault::Denied(number) => write!(f, "caveat {number} denies"),
        }
    }
}

impl Error for CaveatFault {}

fn fault_of_text(text: &[u8], number: usize, ask: &Ask) -> Option<CaveatFault>
    ensures { IsFaultAt text.now number ask.now result }
{
    let Some(caveat) = read(text) else {
        return Some(CaveatFault::NotUnderstood(number));
    };
    if allows(&caveat, ask) {
        None
    } else {
        Some(CaveatFault::Denied(number))
    }
}

/// Returns the fault of one caveat, or `None` if the caveat allows the request. The argument
/// `number` is the caveat's position in a list, starting from 1. A caller can test the caveats of a
/// list in order and stop at the first fault. `first_fault` returns the same fault for the list.
#[tactic(auto, using(crate::proofs::CaveatLemmas::is_fault_at))]
pub fn fault_at(text: &[u8], number: usize, ask: &Ask) -> Option<CaveatFault>
    ensures cases { IsFaultAt text.now number ask.now result }
    ensures function { result ≡ first_fault_from number (caveat_of text.now ∷ []) ask.now }
{
    // By this law, the fault of a text is the fault of the caveat that `caveat_of` returns.
    reads_what_is_understood();
    fault_of_text(text, number, ask)
}

fn fault_of(caveats: &[Vec<u8>], ask: &Ask) -> Option<CaveatFault>
    ensures { IsFirstFault (map vec_items caveats.now) ask.now result }
{
    for (index, text) in caveats.iter().enumerate() {
        if let Some(fault) = fault_at(text, index + 1, ask) {
            return Some(fault);
        }
    }
    None
}

/// Returns the fault of the first caveat that isn't understood or that denies the request. Returns
/// `None` if every caveat allows the request.
#[tactic(auto, using(crate::proofs::CaveatLemmas::is_first_fault))]
pub fn first_fault(caveats: &[Vec<u8>], ask: &Ask) -> Option<CaveatFault>
    ensures first { IsFirstFault (map vec_items caveats.now) ask.now result }
    ensures function { result ≡ first_fault_of (map caveat_of (map vec_items caveats.now)) ask.now }
{
    reads_what_is_understood();
    fault_of(caveats, ask)
}
