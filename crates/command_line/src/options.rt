//! Makes the arguments of commands, and reads the values that `clap` found for these arguments.

ghost use Rattle.std.specs.Prelude.{◌≡◌, false};
ghost use Rattle.clap.specs.Words.{found_of, rows_of, rule_of};
ghost use Rattle.command_line.specs.Application as spec;
ghost use Rattle.command_line.specs.Arguments.{is_set, value_in};

use clap::{Arg, ArgAction, ArgMatches};
use std::alloc::Global;

/// Makes the option `--NAME VALUE`.
pub fn make_option<'a>(alloc: Global, name: &'a str, value: &'a str, help: &'a str) -> Arg<'a>
    ensures rule { rule_of result ≡ spec.option_named name.entry.now }
    ensures local { result.global ≡ false }
{
    Arg::new(alloc, name)
        .long(name)
        .value_name(value)
        .help(help)
}

/// Makes the flag `--NAME`.
pub fn make_flag<'a>(alloc: Global, name: &'a str, help: &'a str) -> Arg<'a>
    ensures rule { rule_of result ≡ spec.flag_named name.entry.now }
    ensures local { result.global ≡ false }
{
    Arg::new(alloc, name)
        .long(name)
        .action(ArgAction::SetTrue)
        .help(help)
}

/// Makes a positional argument.
pub fn make_positional<'a>(alloc: Global, name: &'a str) -> Arg<'a>
    ensures rule { rule_of result ≡ spec.positional_named name.entry.now }
    ensures local { result.global ≡ false }
{
    Arg::new(alloc, name).value_name(name)
}

/// Makes a positional argument that takes any number of values.
pub fn make_positionals<'a>(alloc: Global, name: &'a str, value: &'a str, help: &'a str) -> Arg<'a>
    ensures rule { rule_of result ≡ spec.positionals_named name.entry.now }
    ensures local { result.global ≡ false }
{
    Arg::new(alloc, name)
        .value_name(value)
        .action(ArgAction::Append)
        .help(help)
}

/// Returns the first value that `clap` found for the argument `id`. Returns an empty text if `clap`
/// found no value.
pub fn value_of<'a>(options: &ArgMatches<'a>, id: &str) -> &'a str
    ensures { result.now ≡ value_in id.now (rows_of (found_of options.now)) }
{
    options.get_str(id).unwrap_or("")
}

/// Returns true if the command line has the flag `id`. `clap` stores the text `true` as the value
/// of such a flag.
pub fn is_set(options: &ArgMatches<'_>, id: &str) -> bool
    ensures { result ≡ is_set id.now (rows_of (found_of options.now)) }
{
    value_of(options, id) == "true"
}
