//! The events at the desk, and the desk's replies.

use crate::fault::Fault;
use crate::mint::key_signature;
use club_core::{Command, OfficeAnswer, Reply, SentWords, StoreFault};
use club_values::Moment;
use std::fmt;

/// An event at the desk: a request at a moment, or a command of the office.
#[derive(Clone, Copy)]
pub enum Event<'a> {
    Asked {
        words: SentWords<'a>,
        moment: Moment,
    },
    Commanded(Command),
}

/// The reply to a command of the office.
#[derive(Clone, Copy, PartialEq, Eq)]
pub enum OfficeReply {
    Done,
    /// The command added a key, or gave a key a new root. `signature` is the 32-byte signature of
    /// the key's pass without caveats.
    Key { signature: [u8; 32] },
    Refused(Fault),
}

/// Prints `Key(..)` instead of the signature, because anyone who has the signature can make a pass.
impl fmt::Debug for OfficeReply {
    ghost use Rattle.std.specs.Prelude.{Some};
    ghost use Rattle.club_gate.specs.Response.{debug_text};

    ghost debug_output = { λ reply. Some (debug_text reply) };

    fn fmt<W: fmt::Write>(&self, f: &mut fmt::Formatter<W>) -> fmt::Result {
        match self {
            OfficeReply::Done => write!(f, "Done"),
            OfficeReply::Key { .. } => write!(f, "Key(..)"),
            OfficeReply::Refused(fault) => write!(f, "Refused({fault})"),
        }
    }
}

/// The reply to an event.
#[derive(Clone, Copy, Debug, PartialEq, Eq)]
pub enum EventReply {
    Replied(Reply),
    Answered(OfficeReply),
}

impl OfficeReply {
    ghost use Rattle.std.specs.Prelude.{◌≡◌};
    ghost use Rattle.club_gate.specs.Response.{office_reply_of};
    ghost use Rattle.club_gate.specs.declared.event.OfficeReply.TheVariants.{Refused};
    ghost use Rattle.club_gate.specs.declared.fault.Fault.TheVariants.{Store};

    /// Converts an answer from the rules into a reply to the office.
    pub(crate) fn from_answer(answer: OfficeAnswer) -> OfficeReply
        ensures { result ≡ office_reply_of answer }
    {
        match answer {
            OfficeAnswer::Done => OfficeReply::Done,
            OfficeAnswer::NewKey { name, root } => OfficeReply::Key {
                signature: key_signature(&name, &root),
            },
            OfficeAnswer::NotDone(fault) => OfficeReply::Refused(Fault::from(fault)),
        }
    }

    /// Converts a fault of the store into a reply to the office.
    pub(crate) fn from_store_fault(fault: StoreFault) -> OfficeReply
        ensures { result ≡ Refused (Store fault) }
    {
        OfficeReply::Refused(Fault::from(fault))
    }
}
