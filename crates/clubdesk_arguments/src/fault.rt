//! The faults of commands, with their exit statuses and their lines on standard error.

use club_core::{OfficeFault, StoreFault};
use command_line::ArgumentsFault;
use std::alloc::AllocError;
use std::{error, fmt, io};

/// The reason why a command failed. The `Display` implementation writes the line for standard
/// error.
#[derive(Debug, Drop)]
pub enum Fault {
    /// A rule of the club refuses the command.
    Refused(OfficeFault),
    /// The arguments are wrong. The cases are:
    /// - An argument isn't UTF-8, or `clap` refused the arguments.
    /// - `--form` names an unknown form.
    /// - A command that needs a root has both a root argument and `--root-stdin`, or neither.
    Arguments(clap::Error),
    /// The value of an argument, or the root from standard input, is invalid.
    BadValue,
    /// Memory ran out.
    Memory,
    /// The database couldn't be opened, read or written, or it isn't a club's database.
    Storage,
    /// The clock can't be read, or shows a year before 2000 or after 2099.
    ClockOutOfRange,
    /// The program couldn't read its input or write its output, or the server couldn't listen.
    InputOutput,
    /// The program sent the command to a server, which didn't answer. It is unknown whether the
    /// server carried out the command.
    NoAnswer,
    /// The program sent the command to a server, which answered with this status and this line.
    Answered { status: u8, line: String },
}

impl Fault {
    ghost use Rattle.std.specs.Prelude.{◌≡◌};
    ghost use Rattle.clubdesk_arguments.specs.Fault.{fault_status};

    /// Returns the exit status. For `Answered`, returns the status of the server's answer. The
    /// other faults have a status from 1 to 8.
    pub fn status(&self) -> u8
        ensures { result ≡ fault_status self.now }
    {
        match self {
            Fault::Refused(_) => 1,
            Fault::Arguments(_) => 2,
            Fault::BadValue => 3,
            Fault::Memory => 4,
            Fault::Storage => 5,
            Fault::ClockOutOfRange => 6,
            Fault::InputOutput => 7,
            Fault::NoAnswer => 8,
            Fault::Answered { status, .. } => *status,
        }
    }
}

impl fmt::Display for Fault {
    ghost use Rattle.clubdesk_arguments.specs.Fault.{fault_line};

    ghost output = { fault_line };

    fn fmt<W: fmt::Write>(&self, f: &mut fmt::Formatter<W>) -> fmt::Result {
        match self {
            Fault::Refused(fault) => write!(f, "refused: {fault}"),
            Fault::Arguments(error) => write!(f, "{error}"),
            Fault::BadValue => f.write_str("bad value"),
            Fault::Memory => f.write_str("out of memory"),
            Fault::Storage => f.write_str("storage failed"),
            Fault::ClockOutOfRange => f.write_str("clock out of range"),
            Fault::InputOutput => f.write_str("input or output failed"),
            Fault::NoAnswer => f.write_str("no answer"),
            Fault::Answered { line, .. } => f.write_str(line.as_str()),
        }
    }
}

impl error::Error for Fault {}

impl From<AllocError> for Fault {
    ghost use Rattle.std.specs.Prelude.{◌≡◌};
    ghost use Rattle.clubdesk_arguments.specs.declared.fault.Fault.TheVariants.{Memory};

    ghost from_gives = { λ _ fault. fault ≡ Memory };

    fn from(_error: AllocError) -> Fault {
        Fault::Memory
    }
}

impl From<io::Error> for Fault {
    ghost use Rattle.std.specs.Prelude.{◌≡◌};
    ghost use Rattle.clubdesk_arguments.specs.declared.fault.Fault.TheVariants.{InputOutput};

    ghost from_gives = { λ _ fault. fault ≡ InputOutput };

    fn from(_error: io::Error) -> Fault {
        Fault::InputOutput
    }
}

impl From<ArgumentsFault<()>> for Fault {
    ghost use Rattle.std.specs.Prelude.{◌≡◌};
    ghost use Rattle.clubdesk_arguments.specs.Fault.{of_arguments};

    ghost from_gives = { λ returned fault. fault ≡ of_arguments returned };

    fn from(returned: ArgumentsFault<()>) -> Fault {
        match returned {
            ArgumentsFault::Refused(error) => Fault::Arguments(error),
            ArgumentsFault::BadValue(()) => Fault::BadValue,
            ArgumentsFault::Memory => Fault::Memory,
        }
    }
}

/// Returns the program's fault for a database that can't be opened.
impl From<StoreFault> for Fault {
    ghost use Rattle.std.specs.Prelude.{◌≡◌};
    ghost use Rattle.clubdesk_arguments.specs.Fault.{fault_of_opening};

    ghost from_gives = { λ returned fault. fault ≡ fault_of_opening returned };

    fn from(returned: StoreFault) -> Fault {
        match returned {
            StoreFault::Memory => Fault::Memory,
            StoreFault::Storage => Fault::Storage,
        }
    }
}
