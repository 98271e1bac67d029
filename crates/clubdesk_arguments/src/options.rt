//! The values that `clap` found for a command's arguments.

ghost use Rattle.std.specs.Prelude.{◌≡◌, option_map};
ghost use Rattle.clap.specs.Words.{first_of, found_of, rows_of};
ghost use Rattle.clubdesk_arguments.specs.Arguments as spec;
ghost use Rattle.clubdesk_arguments.specs.computed.TextReaders.{text_readers};

use crate::table::CommandName;
use crate::values::parse_number;
use clap::ArgMatches;
use clap::error::ErrorKind;
use club_values::Name;
use command_line::{ArgumentsFault, arguments_fault, is_set, read_form, value_of};
use pass_forms::Form;
use std::alloc::Global;

/// Returns the value of the argument `id`, parsed as a name.
pub fn name_of(arguments: &ArgMatches<'_>, id: &str) -> Option<Name>
    ensures { result ≡ spec.name_value text_readers id.now (rows_of (found_of arguments.now)) }
{
    Name::read(value_of(arguments, id).as_bytes())
}

/// Returns the value of the argument `id`, parsed as a number.
pub fn number_at(arguments: &ArgMatches<'_>, id: &str) -> Option<u32>
    ensures { result ≡ spec.number_value id.now (rows_of (found_of arguments.now)) }
{
    parse_number(value_of(arguments, id))
}

/// Returns the first value that `clap` found for the argument `id`, or `None` if `clap` found none.
pub fn given<'a>(arguments: &ArgMatches<'a>, id: &str) -> Option<&'a str>
    ensures { option_map (λ text. text.now) result
        ≡ first_of id.now (rows_of (found_of arguments.now)) }
{
    arguments.get_str(id)
}

/// Returns a key's new root, or `None` if the arguments contain no root. Without a root, the
/// argument `MOMENT` is missing, and `ROOT-OR-MOMENT` is the moment.
pub fn rotation_root<'a>(arguments: &ArgMatches<'a>) -> Option<&'a str>
    ensures { option_map (λ text. text.now) result
        ≡ spec.rotation_root_in (rows_of (found_of arguments.now)) }
{
    match given(arguments, "MOMENT") {
        Some(_) => given(arguments, "ROOT-OR-MOMENT"),
        None => None,
    }
}

/// Returns the moment of a rotation, which is the last positional argument.
pub fn rotation_moment<'a>(arguments: &ArgMatches<'a>) -> &'a str
    ensures { result.now ≡ spec.rotation_moment_in (rows_of (found_of arguments.now)) }
{
    match given(arguments, "MOMENT") {
        Some(moment) => moment,
        None => value_of(arguments, "ROOT-OR-MOMENT"),
    }
}

/// Returns the root argument and the form that `--form` names. With `--root-stdin`, the root comes
/// from standard input, and the first result is `None`.
///
/// # Errors
///
/// Fails with `Refused` if the root argument and `--root-stdin` are both present or both missing.
/// Fails with `Refused` if the form is unknown. Fails with `Memory` if memory runs out.
pub fn root_and_form<'a>(
    alloc: Global,
    arguments: &ArgMatches<'_>,
    argument: Option<&'a str>,
) -> Result<(Option<&'a str>, Form), ArgumentsFault<()>>
    ensures { spec.AnswersRoot (spec.root_and_form_in (option_map (λ text. text.now) argument.entry)
        (rows_of (found_of arguments.now))) result }
{
    match (argument, is_set(arguments, "root-stdin")) {
        (Some(_), true) => Err(arguments_fault::<CommandName, ()>(
            alloc,
            ErrorKind::ArgumentConflict,
            "the argument '<ROOT>' cannot be used with '--root-stdin'",
        )),
        (None, false) => Err(arguments_fault::<CommandName, ()>(
            alloc,
            ErrorKind::MissingRequiredArgument,
            "one of these is required: <ROOT>, --root-stdin",
        )),
        (argument, _) => match read_form::<CommandName, ()>(alloc, arguments) {
            Ok(form) => Ok((argument, form)),
            Err(fault) => Err(fault),
        },
    }
}
