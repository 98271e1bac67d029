//! Parses arguments into a job. A job is a command with the values of its arguments.

ghost use Rattle.std.specs.Prelude.{◌≡◌, IsSome, map};
ghost use Rattle.clap.specs.Words.{found_of, rows_of, subcommand_rows_of};
ghost use Rattle.command_line.specs.Job.{Answers, ReadsFound, ReadsJob, form_given};
ghost use Rattle.command_line.specs.Table.{asked_in};

use crate::errors::{ArgumentsFault, form_fault};
use crate::laws::arguments_name_a_row;
use crate::options::value_of;
use crate::table::Commands;
use crate::value::read_value;
use clap::error::ErrorKind;
use clap::{ArgMatches, Error};
use pass_forms::Form;
use std::alloc::Global;
use std::convert::AsStr;

/// The request that the arguments make: to show a text or to perform a job.
#[derive(Drop)]
pub enum Asked<J> {
    /// The text of the help or of the version, which `clap` made.
    ShowText(Error),
    /// A job, which is a command with the values of its arguments.
    Perform(J),
}

/// A command with the values of its arguments.
pub trait Job<'a> {
    type Command: Commands;

    /// The type of the value that identifies an invalid argument.
    type BadValue;

    ghost use Rattle.clap.specs.Words.{found_of, rows_of};
    ghost use Rattle.command_line.specs.Job.{ReadsRow};

    // The results that `read` may return.
    ghost Reads: { ReadsRow Self.Command Self Self.BadValue };

    /// Returns the job of a command, from the values that `clap` found for the command's arguments.
    fn read(
        alloc: Global,
        command: Self::Command,
        options: &ArgMatches<'a>,
    ) -> Result<Self, ArgumentsFault<Self::BadValue>>
        ensures { Reads command (rows_of (found_of options.now)) result };
}

/// Returns the text or the job that the arguments ask for. The first argument is the program's
/// name. `clap` checks the arguments first, and then the command checks the values.
///
/// # Errors
///
/// - `Refused` if `clap` or the command refuses the arguments.
/// - `BadValue` if the command finds an invalid value.
/// - `Memory` only if an allocation fails.
pub fn read_job<'a, J: Job<'a>, S: AsStr>(
    alloc: Global,
    arguments: &'a [S],
) -> Result<Asked<J>, ArgumentsFault<J::BadValue>>
    ensures { ReadsJob J.Command.table J.Reads (map S.text arguments.entry.now) result }
{
    // By the law `arguments_name_a_row`, if `clap` accepts the arguments, they name a row of the
    // table.
    arguments_name_a_row::<J::Command>();
    let Ok(application) = J::Command::application(alloc) else {
        return Err(ArgumentsFault::Memory);
    };
    match application.try_get_matches_from(arguments) {
        Ok(matches) => match job_found(alloc, matches) {
            Ok(job) => Ok(Asked::Perform(job)),
            Err(fault) => Err(fault),
        },
        Err(error) => match error.kind() {
            ErrorKind::DisplayHelp => Ok(Asked::ShowText(error)),
            ErrorKind::DisplayVersion => Ok(Asked::ShowText(error)),
            ErrorKind::OutOfMemory => Err(ArgumentsFault::Memory),
            _ => Err(ArgumentsFault::Refused(error)),
        },
    }
}

// Returns the job of the command that the arguments name.
fn job_found<'a, J: Job<'a>>(
    alloc: Global,
    mut matches: ArgMatches<'a>,
) -> Result<J, ArgumentsFault<J::BadValue>>
    requires { IsSome (asked_in J.Command.table (subcommand_rows_of matches)) }
    ensures { ReadsFound J.Reads
        (asked_in J.Command.table (subcommand_rows_of matches.entry)) result }
{
    let Some((name, options)) = matches.remove_subcommand() else {
        unreachable!()
    };
    let Some(command) = J::Command::named(name) else {
        unreachable!()
    };
    J::read(alloc, command, &options)
}

/// Returns the form that `--form` names.
///
/// # Errors
///
/// Fails with `Refused` if no form has the name. Fails with `Memory` only if an allocation fails.
pub fn read_form<C: Commands, V>(
    alloc: Global,
    options: &ArgMatches<'_>,
) -> Result<Form, ArgumentsFault<V>>
    ensures { Answers (form_given (rows_of (found_of options.now))) result }
{
    match read_value(options, "form") {
        Some(form) => Ok(form),
        None => Err(form_fault::<C, V>(alloc, value_of(options, "form"))),
    }
}
