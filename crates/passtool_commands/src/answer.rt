//! The result of a run, which is an outcome or a fault.

ghost use Rattle.std.specs.{Prelude.{◌≡◌}, String.string_bytes};
ghost use Rattle.passtool_commands.specs.Fault.{form_number};

use command_line::ArgumentsFault;
use pass_forms::FormFault;
use std::marker::Model;
use std::{error, fmt, io};

/// The outcome of a command that didn't fail.
#[derive(Clone, Copy, Debug, PartialEq, Eq)]
pub enum Outcome {
    /// The command succeeded.
    Done,
    /// `verify` read a pass, and the pass isn't signed under the root.
    NotSigned,
}

impl Outcome {
    ghost use Rattle.passtool_commands.specs.Fault.{outcome_status};

    /// Returns the exit status: 0 or 1.
    pub fn status(self) -> u8
        ensures { result ≡ outcome_status self }
    {
        match self {
            Outcome::Done => 0,
            Outcome::NotSigned => 1,
        }
    }
}

/// The answer of a command: its outcome and the text that the command writes. In contracts, an
/// answer is the pair of the outcome and the text.
#[derive(Drop)]
pub struct Answer {
    outcome: Outcome,
    text: String,
}

impl Model for Answer {
    ghost use Rattle.std.specs.{Prelude.{ℕ, List}, String.string_bytes};
    ghost use Rattle.passtool_commands.specs.declared.answer.Outcome.{Outcome};

    ghost Value = { Outcome × List ℕ };

    ghost view = { λ answer. (answer.outcome, string_bytes answer.text) };
}

impl Answer {
    /// Makes an answer from an outcome and the text to write.
    pub fn new(outcome: Outcome, text: String) -> Answer
        ensures { result ≡ (outcome, string_bytes text) }
    {
        Answer { outcome, text }
    }

    /// Returns the outcome of the command.
    pub fn outcome(&self) -> Outcome
        ensures { result ≡ self.now.0 }
    {
        self.outcome
    }

    /// Returns the text that the command writes.
    pub fn text(&self) -> &str
        ensures { result.now ≡ self.now.1 }
    {
        self.text.as_str()
    }
}

/// An argument that isn't valid.
#[derive(Debug, Drop)]
pub enum BadValue {
    /// The root isn't 1 to 64 bytes in hexadecimal.
    Root,
    /// The caveat isn't in the caveat language. The number is the caveat's position, counted from
    /// 1.
    Caveat(usize),
}

/// The reason why a command failed. The `Display` implementation writes the line for standard
/// error.
#[derive(Debug, Drop)]
pub enum Fault {
    /// `clap` refused the arguments, `--form` names an unknown form, or an argument isn't UTF-8.
    Arguments(clap::Error),
    /// The input isn't a pass, the pass can't be narrowed or written, or memory ran out.
    Pass(FormFault),
    /// The caveat isn't in the caveat language. The number is the caveat's position, counted from
    /// 1.
    CaveatNotUnderstood(usize),
    /// The root isn't 1 to 64 bytes in hexadecimal.
    BadRoot,
    /// The program failed to read its input or to write its output.
    InputOutput,
}

impl Fault {
    ghost use Rattle.passtool_commands.specs.Fault.{fault_status};

    /// Returns the exit status of the fault. The status is 2 for bad arguments, 3 for a fault of
    /// the pass and 4 if memory ran out. The status is 5 for a caveat that isn't understood, 6 for
    /// a bad root and 7 if input or output failed.
    pub fn status(&self) -> u8
        ensures { result ≡ fault_status self.now }
    {
        match self {
            Fault::Arguments(_) => 2,
            Fault::Pass(FormFault::Memory) => 4,
            Fault::Pass(_) => 3,
            Fault::CaveatNotUnderstood(_) => 5,
            Fault::BadRoot => 6,
            Fault::InputOutput => 7,
        }
    }
}

impl fmt::Display for Fault {
    ghost use Rattle.passtool_commands.specs.Fault.{fault_line};

    ghost output = { fault_line };

    fn fmt<W: fmt::Write>(&self, f: &mut fmt::Formatter<W>) -> fmt::Result {
        match self {
            Fault::Arguments(error) => write!(f, "{error}"),
            Fault::Pass(fault) => match fault_number(*fault) {
                Some(number) => write!(f, "fault {number}: {fault}"),
                None => write!(f, "{fault}"),
            },
            Fault::CaveatNotUnderstood(number) => write!(f, "caveat {number} not understood"),
            Fault::BadRoot => f.write_str("bad root"),
            Fault::InputOutput => f.write_str("input or output failed"),
        }
    }
}

// Returns the number, from 1 to 4, that the line for this fault shows. The line for `Memory` shows
// no number.
fn fault_number(fault: FormFault) -> Option<u8>
    ensures { result ≡ form_number fault }
{
    match fault {
        FormFault::TooLong => Some(1),
        FormFault::Malformed => Some(2),
        FormFault::ThirdParty => Some(3),
        FormFault::TooMany => Some(4),
        FormFault::Memory => None,
    }
}

impl error::Error for Fault {}

impl From<io::Error> for Fault {
    ghost use Rattle.std.specs.Prelude.{◌≡◌};
    ghost use Rattle.passtool_commands.specs.declared.answer.Fault.TheVariants.{InputOutput};

    ghost from_gives = { λ _ fault. fault ≡ InputOutput };

    fn from(_error: io::Error) -> Fault {
        Fault::InputOutput
    }
}

impl From<ArgumentsFault<BadValue>> for Fault {
    ghost use Rattle.std.specs.Prelude.{◌≡◌};
    ghost use Rattle.passtool_commands.specs.Fault.{of_arguments};

    ghost from_gives = { λ returned fault. fault ≡ of_arguments returned };

    fn from(returned: ArgumentsFault<BadValue>) -> Fault {
        match returned {
            ArgumentsFault::Refused(error) => Fault::Arguments(error),
            ArgumentsFault::BadValue(BadValue::Root) => Fault::BadRoot,
            ArgumentsFault::BadValue(BadValue::Caveat(number)) => Fault::CaveatNotUnderstood(
                number,
            ),
            ArgumentsFault::Memory => Fault::Pass(FormFault::Memory),
        }
    }
}

impl From<FormFault> for Fault {
    ghost use Rattle.std.specs.Prelude.{◌≡◌};
    ghost use Rattle.passtool_commands.specs.declared.answer.Fault.TheVariants.{Pass};

    ghost from_gives = { λ returned fault. fault ≡ Pass returned };

    fn from(returned: FormFault) -> Fault {
        Fault::Pass(returned)
    }
}
