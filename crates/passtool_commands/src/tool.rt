//! Runs the program with the given arguments, reader and writer.

ghost use Rattle.std.specs.Prelude.{◌≡◌, ◌≢◌, IfErr, MatchResult, map};
ghost use Rattle.passtool_commands.specs.Arguments.{AskForCommand};
ghost use Rattle.passtool_commands.specs.Run.{AnswersArguments, AskForNoInput, Performs};
ghost use Rattle.passtool_commands.specs.declared.command.Command.{Command as CommandOf};

use crate::answer::{Fault, Outcome};
use crate::command::Command;
use crate::laws::ask_for_one_command;
use command_line::{Asked, flush, read_job};
use std::alloc::Global;
use std::convert::AsStr;
use std::io::{Read, Write};

/// Runs the program with these arguments. The first argument is the program's name.
///
/// First, `clap` checks the arguments. Then the program checks the form, and after that the root.
/// The program checks caveats only for `narrow` without `--any`. The program reads the input only
/// after these checks. The program reads all of the input, or only the first 8,194 bytes of a
/// longer input. `mint` reads no input. The program writes nothing before the answer is complete.
/// `clap` makes the help text and the version text.
///
/// # Errors
///
/// The run has written nothing when it fails with one of these faults:
/// - `Arguments`, if `clap` refuses the arguments or the form is unknown.
/// - `BadRoot`, if the root isn't 1 to 64 bytes in hexadecimal.
/// - `CaveatNotUnderstood`, if `narrow` without `--any` has a caveat that isn't in the caveat
///   language. The number in the fault is the position of the first such caveat, counted from 1.
/// - `Pass`, if reading, narrowing or writing the pass fails, or if an allocation fails. The
///   `FormFault` in `Pass` is `Memory` only if an allocation fails.
///
/// If the reader or the writer fails, the run fails with `InputOutput`. A run that fails with
/// `InputOutput` has written nothing, or a prefix of its output. The output is the answer to the
/// whole input, the help text or the version text.
pub fn run<S: AsStr, R: Read, W: Write>(
    alloc: Global,
    arguments: &[S],
    reader: &mut R,
    writer: &mut W,
) -> Result<Outcome, Fault>
    // The result is one of the results that these arguments allow.
    ensures arguments { AnswersArguments (map S.text arguments.now) result }
    // If the arguments ask for a command, the command reads its input and writes its answer. If the
    // reader or the writer fails, the command writes a prefix of the answer, or nothing.
    ensures command { (command : CommandOf) → AskForCommand (map S.text arguments.now) command
        → Performs command (R.remaining reader.old) (R.remaining reader.new)
        (W.contents writer.old) (W.contents writer.new) result }
    // The program reads nothing unless the arguments ask for a command that reads input.
    ensures unread { AskForNoInput (map S.text arguments.now) → reader.new ≡ reader.old }
    // If the program fails with a fault other than `InputOutput`, the program writes nothing.
    ensures silent { IfErr result (λ fault. fault ≢ Fault.InputOutput
        → writer.new ≡ writer.old) }
{
    // By this law, the arguments ask for at most one command.
    ask_for_one_command();
    let command: Command<'_> = match read_job(alloc, arguments) {
        Ok(Asked::Perform(command)) => command,
        Ok(Asked::ShowText(text)) => return show(&text, writer),
        Err(fault) => return Err(Fault::from(fault)),
    };
    command.perform(alloc, reader, writer)
}

// Writes the help text or the version text. No contract states this text.
fn show<W: Write>(text: &clap::Error, writer: &mut W) -> Result<Outcome, Fault>
    ensures { MatchResult result (λ outcome. outcome ≡ Outcome.Done)
        (λ fault. fault ≡ Fault.InputOutput) }
{
    write!(writer, "{text}")?;
    flush(writer)?;
    Ok(Outcome::Done)
}
