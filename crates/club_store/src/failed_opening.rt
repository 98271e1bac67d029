//! Defines the connection or files, if any, that a failed `Store::open_file` returns.

ghost use Rattle.club_store.specs.Opening.{IsFailedOpening};

use sqlite::{Connection, Error, ErrorCode, FileStore, Leftover};
use sqlite_disk::Disk;

/// The connection or files that a failed `Store::open_file` returns, if there are any.
#[derive(Drop)]
pub enum FailedOpening<D: Disk> {
    /// Neither a connection nor files, because another program has the file open.
    InUse,
    /// The file and its log, if the database engine couldn't open the database in them. `None` if
    /// the engine returned no files, because the file couldn't be opened or memory ran out.
    Files(Option<Leftover<D>>),
    /// The connection that `Store::adopt` refused.
    Connection(Connection<FileStore<D>>),
}

/// Returns the `FailedOpening` for an error of the database engine and the files that the engine
/// returned. If the engine returned no files, the error decides between `InUse` and `Files(None)`.
pub(crate) fn failed_opening<D: Disk>(error: &Error, left: Option<Leftover<D>>) -> FailedOpening<D>
    ensures { IsFailedOpening error.now left result }
{
    match left {
        Some(left) => FailedOpening::Files(Some(left)),
        None => match error {
            Error::SqliteFailure(ErrorCode::DatabaseBusy) => FailedOpening::InUse,
            _ => FailedOpening::Files(None),
        },
    }
}
