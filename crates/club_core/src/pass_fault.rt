//! Defines the faults of a text that isn't a valid pass.

ghost use Rattle.std.specs.Prelude.{◌≡◌};

use crate::refusal::Refusal;

/// The reason why a text isn't a valid pass.
#[derive(Clone, Copy, Debug, PartialEq, Eq)]
pub enum PassFault {
    /// The text has too many bytes.
    TooLong,
    /// The text isn't a pass in any of the supported forms.
    Malformed,
    /// The text has a third-party caveat.
    ThirdParty,
    /// The text has too many caveats.
    TooMany,
}

impl PassFault {
    ghost use Rattle.club_core.specs.Answer.{form_refusal};

    /// Returns the refusal for this fault.
    pub fn refusal(self) -> Refusal
        ensures { result ≡ form_refusal self }
    {
        match self {
            PassFault::TooLong => Refusal::PassTooLong,
            PassFault::Malformed => Refusal::PassMalformed,
            PassFault::ThirdParty => Refusal::ThirdPartyCaveat,
            PassFault::TooMany => Refusal::TooManyCaveats,
        }
    }
}
