//! Defines the type of a statement that writes to the tables, and maps database errors to faults.

ghost use Rattle.std.specs.Prelude.{◌≡◌};
ghost use Rattle.club_tables.specs.Transaction.{fault_by};

use club_core::StoreFault;
use sqlite::types::ValueRef;
use sqlite::{Error, ErrorCode};

/// Maps a database error to a fault: `Memory` if the database ran out of memory, and `Storage` for
/// any other error.
pub fn fault_of(error: Error) -> StoreFault
    ensures { result ≡ fault_by error }
{
    match error {
        Error::SqliteFailure(ErrorCode::OutOfMemory) => StoreFault::Memory,
        _ => StoreFault::Storage,
    }
}

/// A statement that writes to the tables, with the values of its parameters.
#[derive(Clone, Copy)]
pub struct Statement<'a> {
    /// The statement's SQL text.
    pub text: &'a str,
    /// The values of the SQL parameters, in order.
    pub params: &'a [ValueRef<'a>],
}
