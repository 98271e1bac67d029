//! The faults of arguments. This crate finds some of the faults itself, and takes their usage text
//! from `clap`.

ghost use Rattle.clap.specs.declared.error.kind.ErrorKind.TheVariants as kinds;
ghost use Rattle.command_line.specs.Arguments.{IsOfKind};

use crate::table::Commands;
use clap::Error;
use clap::error::ErrorKind;
use std::alloc::{AllocError, Global};

/// The reason why arguments ask for no job.
#[derive(Debug, Drop)]
pub enum ArgumentsFault<V> {
    /// An error with its text. `clap` or this crate made the error.
    Refused(Error),
    /// An argument has an invalid value.
    BadValue(V),
    /// Memory ran out.
    Memory,
}

impl<V> From<AllocError> for ArgumentsFault<V> {
    ghost use Rattle.std.specs.Prelude.{◌≡◌};
    ghost use Rattle.command_line.specs.declared.errors.ArgumentsFault.TheVariants.{Memory};

    ghost from_gives = { λ _ fault. fault ≡ Memory };

    fn from(_error: AllocError) -> ArgumentsFault<V> {
        ArgumentsFault::Memory
    }
}

/// Returns the fault of arguments that aren't UTF-8. The program never passes such arguments to
/// `clap`.
pub fn text_fault<C: Commands, V>(alloc: Global) -> ArgumentsFault<V>
    ensures { IsOfKind kinds.ValueValidation result }
{
    let message = "invalid UTF-8 was detected in one or more arguments";
    arguments_fault::<C, V>(alloc, ErrorKind::ValueValidation, message)
}

/// Returns the fault for the name of an unknown form.
pub fn form_fault<C: Commands, V>(alloc: Global, name: &str) -> ArgumentsFault<V>
    ensures { IsOfKind kinds.InvalidValue result }
{
    match format!(in alloc;
        "invalid value '{name}' for '--form <FORM>'\n  [possible values: v1, v2, json]"
    ) {
        Ok(message) => arguments_fault::<C, V>(alloc, ErrorKind::InvalidValue, message.as_str()),
        Err(_) => ArgumentsFault::Memory,
    }
}

/// Returns an error of `clap` with the given kind and the given message, as a fault.
pub fn arguments_fault<C: Commands, V>(
    alloc: Global,
    kind: ErrorKind,
    message: &str,
) -> ArgumentsFault<V>
    ensures { IsOfKind kind result }
{
    let Ok(mut application) = C::application(alloc) else {
        return ArgumentsFault::Memory;
    };
    match application.error(kind, message) {
        Ok(error) => ArgumentsFault::Refused(error),
        Err(_) => ArgumentsFault::Memory,
    }
}
