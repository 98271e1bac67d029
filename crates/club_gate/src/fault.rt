//! The reasons why calls to the desk are refused or fail.

use club_core::{OfficeFault, StoreFault};
use std::alloc::AllocError;
use std::error::Error;
use std::fmt;

/// The reason why a command, a sheet or a listing for the office is refused or fails.
#[derive(Clone, Copy, Debug, PartialEq, Eq)]
pub enum Fault {
    /// A rule of the club refuses the call.
    Refused(OfficeFault),
    /// Memory ran out or storage failed.
    Store(StoreFault),
}

impl fmt::Display for Fault {
    ghost use Rattle.std.specs.Prelude.{Some};
    ghost use Rattle.club_gate.specs.Response.{desk_fault_text};

    ghost output = { λ fault. Some (desk_fault_text fault) };

    fn fmt<W: fmt::Write>(&self, f: &mut fmt::Formatter<W>) -> fmt::Result {
        match self {
            Fault::Refused(fault) => write!(f, "{fault}"),
            Fault::Store(fault) => write!(f, "{fault}"),
        }
    }
}

impl Error for Fault {}

impl From<OfficeFault> for Fault {
    ghost use Rattle.std.specs.Prelude.{◌≡◌};
    ghost use Rattle.club_gate.specs.declared.fault.Fault.TheVariants.{Refused};

    ghost from_gives = { λ refusal fault. fault ≡ Refused refusal };

    fn from(refusal: OfficeFault) -> Fault {
        Fault::Refused(refusal)
    }
}

impl From<StoreFault> for Fault {
    ghost use Rattle.std.specs.Prelude.{◌≡◌};
    ghost use Rattle.club_gate.specs.declared.fault.Fault.TheVariants.{Store};

    ghost from_gives = { λ failure fault. fault ≡ Store failure };

    fn from(failure: StoreFault) -> Fault {
        Fault::Store(failure)
    }
}

impl From<AllocError> for Fault {
    ghost use Rattle.std.specs.Prelude.{◌≡◌};
    ghost use Rattle.club_core.specs.declared.store.StoreFault.TheVariants.{Memory};
    ghost use Rattle.club_gate.specs.declared.fault.Fault.TheVariants.{Store};

    ghost from_gives = { λ _ fault. fault ≡ Store Memory };

    fn from(_error: AllocError) -> Fault {
        Fault::Store(StoreFault::Memory)
    }
}
