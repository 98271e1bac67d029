//! Reads the arguments of a process, and prints the text of a fault.

ghost use Rattle.std.specs.{Prelude.{IfErr, IfOk, map}, String.string_bytes};
ghost use Rattle.clap.specs.declared.error.kind.ErrorKind.TheVariants as kinds;
ghost use Rattle.command_line.specs.{Arguments.IsOfKind, Process.printed};

use crate::errors::{ArgumentsFault, text_fault};
use crate::table::Commands;
use std::alloc::Global;
use std::env::{self, Env};
use std::fmt::{self, Display};
use std::io;

/// A process that was started with arguments.
pub trait GivenArguments {
    ghost use Rattle.std.specs.{Prelude.{List, IfErr, IfOk, map}, String.string_bytes};
    ghost use Rattle.clap.specs.Words.{Text};

    // The arguments that the process may have.
    ghost given: { Self → List Text → Type 0 };

    // The process may fail to read its arguments, because an argument isn't UTF-8, or because
    // memory runs out.
    ghost unreadable: { Self → Type 0 };

    /// Returns all arguments. The first argument is the program's name.
    ///
    /// # Errors
    ///
    /// Fails with `OutOfMemory` if an allocation fails. Fails with another kind if an argument
    /// isn't UTF-8.
    fn arguments(&self, alloc: Global) -> io::Result<Vec<String>>
        ensures ok { IfOk result (λ arguments.
            given self.now (map string_bytes arguments.items)) }
        ensures err { IfErr result (λ error. unreadable self.now) };
}

/// The process in which the program runs. The contract promises nothing about its arguments.
impl<R: Env + AllocGlobal> GivenArguments for &R {
    ghost given = { λ _ _. Unit {0} };

    ghost unreadable = { λ _. Unit {0} };

    fn arguments(&self, alloc: Global) -> io::Result<Vec<String>> {
        Ok(env::args(*self)?.collect(alloc)?)
    }
}

/// An output for the texts of a program's faults.
pub trait FaultLines {
    ghost use Rattle.std.specs.Prelude.{ℕ, List, Option};

    // The effect of printing a text once. The text is `None` if it is unknown.
    ghost prints: { Self → Option (List ℕ) → Self → Type 0 };

    /// Prints a text once. Ignores a failure to print, because the program can't report the failure
    /// anywhere else.
    fn print_text<F: Display>(&mut self, text: &F)
        ensures { prints self.old (F.output text.now) self.new };
}

/// Standard error. The contract promises nothing about the printed bytes.
impl<R: Eprint> FaultLines for &R {
    ghost prints = { λ _ _ _. Unit {0} };

    fn print_text<F: Display>(&mut self, text: &F) {
        let _ = eprint!(*self; "{text}");
    }
}

/// Returns the arguments of the process. The first argument is the program's name.
///
/// # Errors
///
/// Fails with `Refused` if an argument isn't UTF-8. Fails with `Memory` only if an allocation
/// fails.
pub fn given_arguments<P: GivenArguments, C: Commands, V>(
    alloc: Global,
    process: &P,
) -> Result<Vec<String>, ArgumentsFault<V>>
    ensures ok { IfOk result (λ arguments.
        P.given process.now (map string_bytes arguments.items)) }
    ensures err { IfErr result (IsOfKind kinds.ValueValidation) }
    ensures unreadable { IfErr result (λ fault. P.unreadable process.now) }
{
    match process.arguments(alloc) {
        Ok(arguments) => Ok(arguments),
        Err(error) if error.kind() == io::ErrorKind::OutOfMemory => Err(ArgumentsFault::Memory),
        Err(_) => Err(text_fault::<C, V>(alloc)),
    }
}

/// Prints a fault on standard error once, as a line. A text from `clap` already ends with a line
/// feed. Any other text gets a line feed at its end.
pub fn report<P: FaultLines, F: Display>(process: &mut P, fault: &F, is_text_of_clap: bool)
    ensures { P.prints process.old (printed is_text_of_clap (F.output fault.now)) process.new }
{
    if is_text_of_clap {
        process.print_text(fault)
    } else {
        process.print_text(&Line { text: fault })
    }
}

// A text, followed by a line feed.
#[derive(Drop)]
struct Line<'a, F> {
    text: &'a F,
}

impl<F: Display> Display for Line<'_, F> {
    ghost use Rattle.std.specs.Fmt.{with_newline};

    ghost output = { λ line. with_newline (F.output line.text.now) };

    fn fmt<W: fmt::Write>(&self, f: &mut fmt::Formatter<W>) -> fmt::Result {
        let text = self.text;
        writeln!(f, "{text}")
    }
}
