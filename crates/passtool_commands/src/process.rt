//! Runs the whole program, from the process's arguments to the exit status.

ghost use Rattle.std.specs.Prelude.{◌≡◌};
ghost use Rattle.command_line.specs.Lines.{PrintsFault, lines_change};
ghost use Rattle.passtool_commands.specs.Fault.{fault_output, exit_status};
ghost use Rattle.passtool_commands.specs.Process as spec;

use crate::answer::{BadValue, Fault, Outcome};
use crate::table::Name;
use crate::tool::run;
use command_line::{FaultLines, GivenArguments, given_arguments, report};
use std::alloc::Global;
use std::io::{Read, Write};

/// Runs the program with the arguments of a process, and returns the exit status. If the arguments
/// can't be read or the run fails, prints the text of the fault once. Otherwise prints nothing on
/// standard error.
pub fn run_process<P: GivenArguments + FaultLines, R: Read, W: Write>(
    alloc: Global,
    process: &mut P,
    reader: &mut R,
    writer: &mut W,
) -> u8
    ensures { spec.RunsProcess (P.given process.old) (P.unreadable process.old)
        (lines_change P.FaultLines process.old process.new) (R.remaining reader.old)
        (R.remaining reader.new) (W.contents writer.old)
        (W.contents writer.new) (reader.new ≡ reader.old) (writer.new ≡ writer.old) result }
{
    match given_arguments::<P, Name, BadValue>(alloc, &*process) {
        Ok(arguments) => finish(process, run(alloc, arguments.as_slice(), reader, writer)),
        Err(fault) => finish(process, Err(Fault::from(fault))),
    }
}

/// Returns the exit status for a run's result. If the run failed, prints the text of the fault
/// once. Otherwise prints nothing.
pub fn finish<P: FaultLines>(process: &mut P, ended: Result<Outcome, Fault>) -> u8
    ensures status { result ≡ exit_status ended }
    ensures line { PrintsFault fault_output
        (lines_change P.FaultLines process.old process.new) ended }
{
    match ended {
        Ok(outcome) => outcome.status(),
        Err(fault) => {
            report(process, &fault, matches!(&fault, Fault::Arguments(_)));
            fault.status()
        }
    }
}
