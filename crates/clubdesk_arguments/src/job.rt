//! Converts the arguments that `clap` found to a job.

ghost use Rattle.clap.specs.Words.{found_of, rows_of};
ghost use Rattle.clubdesk_arguments.specs.Arguments.{ReadsValues};

use crate::laws::readers_are_exact;
use crate::table::{CommandName, work_of};
use crate::task::Job;
use clap::ArgMatches;
use command_line::{ArgumentsFault, value_of};
use std::alloc::Global;

impl<'a> command_line::Job<'a> for Job<'a> {
    type Command = CommandName;

    type BadValue = ();

    ghost Reads = { ReadsValues };

    /// Returns the job that the arguments ask for. The root is checked first, then the form, then
    /// the other values. The root must come either from an argument or from standard input.
    ///
    /// # Errors
    ///
    /// Fails with `Refused` if there is no root, if there are two roots, or if the form is unknown.
    /// Fails with `BadValue` if another argument is invalid. Fails with `Memory` only if memory
    /// runs out.
    fn read(
        alloc: Global,
        name: CommandName,
        arguments: &ArgMatches<'a>,
    ) -> Result<Job<'a>, ArgumentsFault<()>>
        ensures { ReadsValues name (rows_of (found_of arguments.now)) result }
    {
        // By this law, the values in the job are exactly the values that the arguments encode.
        readers_are_exact();
        let file = value_of(arguments, "FILE");
        match work_of(alloc, name, arguments) {
            Ok(work) => Ok(Job { file, work }),
            Err(fault) => Err(fault),
        }
    }
}
