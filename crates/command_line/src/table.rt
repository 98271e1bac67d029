//! A program's commands as the rows of a table.

ghost use Rattle.std.specs.Prelude.{◌≡◌, IfOk, false, map, option_map};
ghost use Rattle.clap.specs.Words.{app_of, rule_of};
ghost use Rattle.command_line.specs.{Application.IsMade, Table.{app_of_table, entry_app}};
ghost use Rattle.command_line.specs.Table.{entry_named, entry_of, rule_for, table_of};

use crate::options::{make_flag, make_option, make_positional, make_positionals};
use crate::tree::{make_program, new_command, with_argument, with_command};
use clap::{Arg, Command};
use std::alloc::{AllocError, Global};

/// An argument of a command. The fields are the argument's name, the name that the help shows for
/// its value, and the help text.
#[derive(Clone, Copy)]
pub enum Argument {
    /// The option `--NAME VALUE`.
    Value(&'static str, &'static str, &'static str),
    /// The required option `--NAME VALUE`.
    Needed(&'static str, &'static str, &'static str),
    /// The option `--NAME VALUE`. The last field is its default.
    Or(&'static str, &'static str, &'static str, &'static str),
    /// The flag `--NAME`.
    Flag(&'static str, &'static str),
    /// A positional argument. The help shows the argument's name and no other text.
    Positional(&'static str),
    /// A required positional argument. The help shows the argument's name and no other text.
    NeededPositional(&'static str),
    /// A required positional argument. The help shows the second field instead of the argument's
    /// name.
    NeededPositionalAs(&'static str, &'static str),
    /// A positional argument that takes any number of values.
    Positionals(&'static str, &'static str, &'static str),
    /// A positional argument that takes one or more values.
    NeededPositionals(&'static str, &'static str, &'static str),
}

/// A command of a program: its value, its name, its help, and its arguments. The field `help` is
/// the text at the end of the command's help.
pub struct Row<C: Copy> {
    pub command: C,
    pub name: &'static str,
    pub about: &'static str,
    pub help: &'static str,
    pub arguments: &'static [Argument],
}

/// A program with its commands. The program's long help ends with the exit statuses.
pub struct Program<C: Copy + 'static> {
    pub name: &'static str,
    pub about: &'static str,
    pub statuses: &'static str,
    pub rows: &'static [Row<C>],
}

/// The type whose values are the commands of a program.
pub trait Commands: Copy {
    ghost use Rattle.std.specs.Prelude.{◌≡◌, IfOk, option_map};
    ghost use Rattle.clap.specs.Words.{app_of};
    ghost use Rattle.command_line.specs.Table.{IsGood, Table, app_of_table, entry_named};

    // The rows of the program's table.
    ghost table: { Table Self };

    /// Returns the program for `clap`. The contract also states that the table meets the conditions
    /// of `IsGood`.
    fn application<'a>(alloc: Global) -> Result<Command<'a>, AllocError>
        ensures made { IfOk result (λ made. app_of made ≡ app_of_table table) }
        ensures good { IsGood table };

    /// Returns the command with the given name.
    fn named(name: &str) -> Option<Self>
        ensures { result ≡ option_map (λ entry. entry.command)
            (entry_named name.now table.entries) };
}

/// Returns the program for `clap`.
pub fn make_application<'a, C: Copy>(
    alloc: Global,
    program: &Program<C>,
) -> Result<Command<'a>, AllocError>
    ensures { IfOk result (λ made. app_of made ≡ app_of_table (table_of program.now)) }
{
    let mut made = Ok(make_program(alloc, program.name, program.about, program.statuses));
    for row in program.rows {
        made = with_command(made, make_command(alloc, row));
    }
    made
}

fn make_command<'a, C: Copy>(alloc: Global, row: &Row<C>) -> Result<Command<'a>, AllocError>
    ensures { IfOk result (IsMade (entry_app (entry_of row.now))) }
{
    let mut made = Ok(new_command(alloc, row.name, row.about, row.help));
    for argument in row.arguments {
        made = with_argument(made, make_argument(alloc, *argument));
    }
    made
}

fn make_argument<'a>(alloc: Global, argument: Argument) -> Arg<'a>
    ensures rule { rule_of result ≡ rule_for argument }
    ensures local { result.global ≡ false }
{
    match argument {
        Argument::Value(name, value, help) => make_option(alloc, name, value, help),
        Argument::Needed(name, value, help) => make_option(alloc, name, value, help).required(true),
        Argument::Or(name, value, help, default) => {
            make_option(alloc, name, value, help).default_value(default)
        }
        Argument::Flag(name, help) => make_flag(alloc, name, help),
        Argument::Positional(name) => make_positional(alloc, name),
        Argument::NeededPositional(name) => make_positional(alloc, name).required(true),
        Argument::NeededPositionalAs(name, value) => {
            make_positional(alloc, name)
                .value_name(value)
                .required(true)
        }
        Argument::Positionals(name, value, help) => make_positionals(alloc, name, value, help),
        Argument::NeededPositionals(name, value, help) => {
            make_positionals(alloc, name, value, help).required(true)
        }
    }
}

/// Returns the command of the first row with the given name.
pub fn command_named<C: Copy>(rows: &[Row<C>], name: &str) -> Option<C>
    ensures { result ≡ option_map (λ entry. entry.command)
        (entry_named name.now (map entry_of rows.now)) }
{
    for row in rows {
        if row.name == name {
            return Some(row.command);
        }
    }
    None
}
