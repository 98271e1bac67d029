//! Runs the program with the caller's arguments, reader, writer and log.

ghost use Rattle.std.specs.Prelude.{◌≡◌, IfErr, IfOk, map};
ghost use Rattle.clubdesk_commands.specs.{HandedCommand.SpellsCommand, Output.EndsWork};
ghost use Rattle.clubdesk_commands.specs.Output.{IsWorkFault, Prints, log_change, stream, text_of};
ghost use Rattle.clubdesk_commands.specs.Run as spec;

use crate::handed_command::command_bytes;
use crate::input::read_root;
use crate::office::carry_out;
use crate::server::serve_file;
use club_clock::Instants;
use club_gate::Desk;
use clubdesk_arguments::{Fault, Job, Task, Work};
use command_line::{Asked, flush, read_job, write_text};
use desk_server::{Databases, Log, MonotonicClock, Reached, Visit};
use std::alloc::{AllocError, Global};
use std::convert::AsStr;
use std::io::{Read, Write};

/// Runs the program on its arguments. The first argument is the program's name. `machine` is the
/// clock for timeouts. Without `--at`, `machine` also supplies the time of each request and of an
/// account's listing.
///
/// The program checks the arguments before it opens a database. A server opens the database once,
/// and closes the database at the end. While a server runs, other runs send their commands to the
/// server. If no server has the database open, a command of the office opens the database once. The
/// command closes the database before it writes the output. The program reads standard input only
/// for `--root-stdin`. The input must be a root in hexadecimal, and a line feed at the end is
/// ignored. The program reads the input before it opens the database. The texts of help and of the
/// version come from `clap`. Only `serve --log` logs clients and commands.
///
/// # Errors
///
/// The run has written nothing when it fails with one of these faults:
/// - `Arguments`, if the arguments are wrong.
/// - `BadValue`, if an argument is invalid or the input isn't a root.
/// - `Refused`, if a rule forbids the command.
/// - `Memory`, if memory runs out.
/// - `Storage`, if the database fails or can't be opened.
///
/// The run may have written a part of the output when it fails with `ClockOutOfRange` or
/// `InputOutput`. If reading the input failed, the run has written nothing.
pub fn run<C: Instants + MonotonicClock, D: Databases, S: AsStr, R: Read, W: Write, G: Log>(
    rt: &HostRuntime,
    machine: &C,
    databases: &mut D,
    arguments: &[S],
    reader: &mut R,
    writer: &mut W,
    log: &mut G,
) -> Result<(), Fault>
    ensures { spec.Runs D.Databases D.Visit.Visit D.Store.ghosts C.Instants.shows machine.now
        (map S.text arguments.now) (stream R.remaining reader.old reader.new)
        databases.old databases.new (stream W.contents writer.old writer.new)
        (log_change G.Log log.old log.new) result }
{
    let job: Job<'_> = match read_job(rt.alloc(), arguments) {
        Ok(Asked::Perform(job)) => job,
        Ok(Asked::ShowText(text)) => return show(&text, writer),
        Err(fault) => return Err(Fault::from(fault)),
    };
    let Job { file, work } = job;
    let task = match work {
        Work::Office(task) => task,
        Work::Rootless(command) => match read_root(reader) {
            Ok(root) => Task::Key(command, root),
            Err(fault) => return Err(fault),
        },
        Work::Serve(service) => {
            return serve_file(rt, machine, databases, file, service, writer, log);
        }
    };
    perform(
        rt.alloc(),
        machine,
        databases,
        arguments,
        file,
        task,
        writer,
    )
}

// Carries out a task of the office. If a server has the database open, the server carries out the
// task. Otherwise, this function opens the database and carries out the task. This function closes
// the database before it writes the answer, so that a blocked writer doesn't keep the database
// open.
fn perform<C: Instants, D: Databases, S: AsStr, W: Write>(
    alloc: Global,
    machine: &C,
    databases: &mut D,
    arguments: &[S],
    file: &str,
    task: Task<'_>,
    writer: &mut W,
) -> Result<(), Fault>
    ensures performs { spec.Performs D.Databases D.Visit.Visit D.Store.ghosts
        C.shows machine.now (map S.text arguments.now) file.now task.entry
        databases.old databases.new (stream W.contents writer.old writer.new) result }
    ensures ends { EndsWork (writer.new ≡ writer.old) result }
{
    match databases.reach(file) {
        Ok(Reached::Opened(store)) => {
            let mut desk = Desk::new(alloc, store);
            let answer = carry_out(alloc, machine, &mut desk, task);
            databases.close(desk.into_store());
            print(answer, writer)
        }
        Ok(Reached::Served(visit)) => print(hand_over(alloc, visit, arguments, &task), writer),
        Err(fault) => Err(Fault::from(fault)),
    }
}

// Sends a command to a server, and returns the server's answer.
fn hand_over<V: Visit + Drop, S: AsStr>(
    alloc: Global,
    visit: V,
    arguments: &[S],
    task: &Task<'_>,
) -> Result<String, Fault>
    ensures handed { spec.IsHandedOver V.gives visit (spec.handed_root task.now)
        (map S.text arguments.now) (text_of result) }
    ensures worked { IfErr result IsWorkFault }
{
    let command = match handed_bytes(alloc, arguments, task) {
        Ok(command) => command,
        Err(_) => return Err(Fault::Memory),
    };
    match visit.give(command.as_slice()) {
        Some((0, text)) => Ok(text),
        Some((status, line)) => Err(Fault::Answered { status, line }),
        None => Err(Fault::NoAnswer),
    }
}

// Encodes a command with these arguments and the root of the task. The root is empty if the task
// has no root.
fn handed_bytes<S: AsStr>(
    alloc: Global,
    arguments: &[S],
    task: &Task<'_>,
) -> Result<Vec<u8>, AllocError>
    ensures { IfOk result (λ bytes. SpellsCommand bytes.items (spec.handed_root task.now)
        (map S.text arguments.now)) }
{
    match task {
        Task::Key(_, root) => {
            let root = hex::encode(alloc, root.as_bytes())?;
            command_bytes(alloc, root.as_str(), arguments)
        }
        _ => command_bytes(alloc, "", arguments),
    }
}

// Writes the text of an answer. If the answer is a fault, returns the fault and writes nothing.
fn print<W: Write>(answer: Result<String, Fault>, writer: &mut W) -> Result<(), Fault>
    ensures prints { Prints (text_of answer) (stream W.contents writer.old writer.new) result }
    ensures ends { IfErr answer IsWorkFault → EndsWork (writer.new ≡ writer.old) result }
{
    match answer {
        Ok(text) => match write_text(writer, text.as_str()) {
            Ok(()) => Ok(()),
            Err(_) => Err(Fault::InputOutput),
        },
        Err(fault) => Err(fault),
    }
}

// Writes the text of the help or of the version. No contract states this text.
fn show<W: Write>(text: &clap::Error, writer: &mut W) -> Result<(), Fault>
    ensures { IfErr result (λ fault. fault ≡ Fault.InputOutput) }
{
    write!(writer, "{text}")?;
    flush(writer)?;
    Ok(())
}
