//! Builds a program and its commands for `clap`.

ghost use Rattle.std.specs.Prelude.{◌≡◌, IfOk, IsOkAnd, false};
ghost use Rattle.clap.specs.Words.{AddsSubcommand, App, Rule, app_of, new_app, rule_of, with_rule};
ghost use Rattle.clap.specs.Words.{with_subcommand};
ghost use Rattle.command_line.specs.Application.{IsMade, program_named};

use clap::{Arg, Command};
use std::alloc::{AllocError, Global};

/// The version of `clubdesk` and `passtool`, which `--version` prints.
const VERSION: &str = "0.1.0";

/// Returns a program without commands. The program's long help ends with the exit statuses.
pub fn make_program<'a>(
    alloc: Global,
    name: &'a str,
    about: &'a str,
    statuses: &'a str,
) -> Command<'a>
    ensures { app_of result ≡ program_named name.entry.now }
{
    Command::new(alloc, name)
        .version(VERSION)
        .about(about)
        .after_long_help(statuses)
        .subcommand_required(true)
}

/// Returns a command without options. The text `help` comes at the end of the command's help.
pub fn new_command<'a>(alloc: Global, name: &'a str, about: &'a str, help: &'a str) -> Command<'a>
    ensures { IsMade (new_app name.entry.now) result }
{
    Command::new(alloc, name).about(about).after_help(help)
}

/// Adds an option, flag or positional argument to a command. Takes a `Result` so that calls chain
/// without `?`.
///
/// # Errors
///
/// Fails if an allocation fails in this function, or if `command` is already an error.
pub fn with_argument<'a>(
    command: Result<Command<'a>, AllocError>,
    argument: Arg<'a>,
) -> Result<Command<'a>, AllocError>
    ensures { (app : App) (rule : Rule) → IfOk command.entry (IsMade app)
        → rule_of argument.entry ≡ rule → argument.entry.global ≡ false
        → IfOk result (IsMade (with_rule app rule)) }
{
    command?.arg(argument)
}

/// Adds a command to a program.
///
/// # Errors
///
/// Fails if an allocation fails in this function, or if `program` or `command` is already an error.
pub fn with_command<'a>(
    program: Result<Command<'a>, AllocError>,
    command: Result<Command<'a>, AllocError>,
) -> Result<Command<'a>, AllocError>
    ensures adds { IfOk result (λ made. IsOkAnd program.entry (λ before.
        IsOkAnd command.entry (λ added. AddsSubcommand before added made))) }
    ensures made { (app below : App) → IfOk program.entry (λ before. app_of before ≡ app)
        → IfOk command.entry (IsMade below)
        → IfOk result (λ made. app_of made ≡ with_subcommand app below.top) }
{
    program?.subcommand(command?)
}
