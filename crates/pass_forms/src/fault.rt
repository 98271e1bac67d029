//! The faults of reading and writing passes.

ghost use Rattle.std.specs.Prelude.{◌≡◌};
ghost use Rattle.pass_forms.specs.declared.fault.FormFault.TheVariants.{Memory};

use std::alloc::{AllocError, AllocFailed};
use std::error::Error;
use std::fmt;

/// The reason why a call couldn't read, write or narrow a pass.
#[derive(Clone, Copy, Debug, PartialEq, Eq)]
pub enum FormFault {
    /// The input has more than 8,192 bytes, or the output would have more than 8,192 bytes.
    TooLong,
    /// The input doesn't encode a pass.
    Malformed,
    /// The pass has a third-party caveat.
    ThirdParty,
    /// The pass has, or would have, more than 64 caveats.
    TooMany,
    /// An allocation failed.
    Memory,
}

impl fmt::Display for FormFault {
    ghost use Rattle.std.specs.Prelude.{Some};
    ghost use Rattle.pass_forms.specs.Reading.{fault_text};

    ghost output = { λ fault. Some (fault_text fault) };

    fn fmt<W: fmt::Write>(&self, f: &mut fmt::Formatter<W>) -> fmt::Result {
        match self {
            FormFault::TooLong => write!(f, "too long"),
            FormFault::Malformed => write!(f, "malformed"),
            FormFault::ThirdParty => write!(f, "third-party caveat"),
            FormFault::TooMany => write!(f, "too many caveats"),
            FormFault::Memory => write!(f, "out of memory"),
        }
    }
}

impl Error for FormFault {}

impl From<AllocError> for FormFault {
    ghost from_gives = { λ _ fault. fault ≡ Memory };

    fn from(_error: AllocError) -> FormFault {
        FormFault::Memory
    }
}

impl<T: Drop> From<AllocFailed<T>> for FormFault {
    ghost from_gives = { λ _ fault. fault ≡ Memory };

    fn from(_error: AllocFailed<T>) -> FormFault {
        FormFault::Memory
    }
}
