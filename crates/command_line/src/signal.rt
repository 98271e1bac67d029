//! Recognizes errors of calls that a signal interrupted.

ghost use Rattle.std.specs.{IoError.error_kind, Prelude.{◌≡◌, ◌↔◌, IsTrue}};

use std::io::{Error, ErrorKind};

/// Returns true if the error means that a signal interrupted the call. The caller may repeat such a
/// call.
pub(crate) fn is_interrupted(error: &Error) -> bool
    ensures { IsTrue result ↔ (error_kind error.now ≡ ErrorKind.Interrupted) }
{
    error.kind() == ErrorKind::Interrupted
}
