//! The faults at which the player stops playing a file.

use pass_forms::FormFault;
use std::alloc::{AllocError, AllocFailed};
use std::fmt;

/// The reason why the player stops at a line of a file.
#[derive(Debug, Drop)]
pub(crate) enum Fault {
    /// The line breaks this rule of the scenario language.
    Rule(&'static str),
    /// The line states the answer `wanted`, but the player returned the answer `found`.
    Differs { wanted: String, found: String },
    /// The player failed for this reason.
    Player(&'static str),
    Memory,
}

impl fmt::Display for Fault {
    fn fmt<W: fmt::Write>(&self, f: &mut fmt::Formatter<W>) -> fmt::Result {
        match self {
            Fault::Rule(rule) => write!(f, "{rule}"),
            Fault::Differs { wanted, found } => write!(f, "wanted {wanted}\n  found  {found}"),
            Fault::Player(why) => write!(f, "{why}"),
            Fault::Memory => write!(f, "out of memory"),
        }
    }
}

impl From<AllocError> for Fault {
    fn from(_error: AllocError) -> Fault {
        Fault::Memory
    }
}

impl<T: Drop> From<AllocFailed<T>> for Fault {
    fn from(_error: AllocFailed<T>) -> Fault {
        Fault::Memory
    }
}

impl From<FormFault> for Fault {
    fn from(fault: FormFault) -> Fault {
        match fault {
            FormFault::Memory => Fault::Memory,
            _ => Fault::Rule("no such pass can be made"),
        }
    }
}

/// Returns the value. If there is no value, fails with the rule that the line breaks.
pub(crate) fn needed<T: Drop>(value: Option<T>, rule: &'static str) -> Result<T, Fault> {
    match value {
        Some(value) => Ok(value),
        None => Err(Fault::Rule(rule)),
    }
}
