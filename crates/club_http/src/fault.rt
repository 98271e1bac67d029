//! The reasons why an exchange can fail.

use std::error::Error;
use std::fmt;

/// The reason why an exchange failed.
#[derive(Clone, Copy, Debug, PartialEq, Eq)]
pub enum AnswerFault {
    /// The reader failed before the request was complete. The desk wasn't asked, and nothing was
    /// written.
    Read,
    /// The writer took this number of bytes of the reply, and then failed or took nothing more. The
    /// desk's decision isn't undone.
    Write(usize),
}

impl fmt::Display for AnswerFault {
    ghost use Rattle.std.specs.Prelude.{Some};
    ghost use Rattle.club_http.specs.Exchange.{answer_fault_text};

    ghost output = { λ fault. Some (answer_fault_text fault) };

    fn fmt<W: fmt::Write>(&self, f: &mut fmt::Formatter<W>) -> fmt::Result {
        match self {
            AnswerFault::Read => write!(f, "input failed"),
            AnswerFault::Write(sent) => write!(f, "output failed after {sent} bytes"),
        }
    }
}

impl Error for AnswerFault {}
