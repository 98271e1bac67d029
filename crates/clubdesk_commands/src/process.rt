//! Runs the whole program, from the process's arguments to the exit status.

ghost use Rattle.std.specs.Prelude.{◌≡◌};
ghost use Rattle.clubdesk_arguments.specs.Fault.{fault_output};
ghost use Rattle.clubdesk_commands.specs.Output.{log_change, stream};
ghost use Rattle.clubdesk_commands.specs.Run as spec;
ghost use Rattle.command_line.specs.Lines.{PrintsFault, lines_change};

use crate::program::run;
use club_clock::Instants;
use clubdesk_arguments::{CommandName, Fault};
use command_line::{FaultLines, GivenArguments, given_arguments, report};
use desk_server::{Databases, Log, MonotonicClock};
use std::io::{Read, Write};

/// Runs the program on the arguments of a process, and returns the exit status. If the arguments
/// can't be read or the run fails, prints the text of the fault once. Otherwise prints nothing on
/// standard error.
pub fn run_process<
    P: GivenArguments + FaultLines,
    C: Instants + MonotonicClock,
    D: Databases,
    R: Read,
    W: Write,
    G: Log,
>(
    rt: &HostRuntime,
    process: &mut P,
    machine: &C,
    databases: &mut D,
    reader: &mut R,
    writer: &mut W,
    log: &mut G,
) -> u8
    ensures { spec.RunsProcess D.Databases D.Visit.Visit D.Store.ghosts C.Instants.shows
        machine.now (P.given process.old) (P.unreadable process.old)
        (lines_change P.FaultLines process.old process.new)
        (stream R.remaining reader.old reader.new) databases.old databases.new
        (stream W.contents writer.old writer.new) (log_change G.Log log.old log.new) result }
{
    match given_arguments::<P, CommandName, ()>(rt.alloc(), &*process) {
        Ok(arguments) => {
            let arguments = arguments.as_slice();
            let ended = run(rt, machine, databases, arguments, reader, writer, log);
            finish(process, ended)
        }
        Err(fault) => finish(process, Err(Fault::from(fault))),
    }
}

/// Returns the exit status for a run's result. If the run failed, prints the text of the fault
/// once. Otherwise prints nothing.
pub fn finish<P: FaultLines>(process: &mut P, ended: Result<(), Fault>) -> u8
    ensures status { result ≡ spec.exit_status ended }
    ensures line { PrintsFault fault_output
        (lines_change P.FaultLines process.old process.new) ended }
{
    match ended {
        Ok(()) => 0,
        Err(fault) => {
            report(process, &fault, matches!(&fault, Fault::Arguments(_)));
            fault.status()
        }
    }
}
