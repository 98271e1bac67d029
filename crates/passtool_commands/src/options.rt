//! Reads the values of a command's options from the result of `clap`.

ghost use Rattle.std.specs.Prelude.{◌≡◌, IfOk};
ghost use Rattle.clap.specs.Words.{found_of, rows_of};
ghost use Rattle.command_line.specs.Job.{Answers};
ghost use Rattle.passtool_commands.specs.Arguments.{caveats_in, root_in};

use crate::answer::BadValue;
use crate::caveats::Caveats;
use clap::ArgMatches;
use command_line::{ArgumentsFault, Root, read_value};
use std::alloc::{AllocError, Global};

/// Returns the root in the option `--root`.
pub fn root_of(options: &ArgMatches<'_>) -> Result<Root, ArgumentsFault<BadValue>>
    ensures { Answers (root_in (rows_of (found_of options.now))) result }
{
    read_value(options, "root").ok_or(ArgumentsFault::BadValue(BadValue::Root))
}

/// Returns the caveats in the arguments.
pub fn caveats_of<'a>(alloc: Global, options: &ArgMatches<'a>) -> Result<Caveats<'a>, AllocError>
    ensures { IfOk result (λ caveats. caveats ≡ caveats_in (rows_of (found_of options.now))) }
{
    match options.get_strs("caveat") {
        Some(texts) => Caveats::new(alloc, texts),
        None => Caveats::new(alloc, &[]),
    }
}
