//! The meaning of the kinds of errors at a server's door.

ghost use Rattle.std.specs.Prelude.{◌↔◌, IsTrue};
ghost use Rattle.clubdesk_files.specs.Kinds.{IsCutShort, IsLeftUnread, IsNobody};

use std::io::ErrorKind;

/// Returns true if a read with an error of this kind means that the server ended before it sent all
/// of its bytes. A timeout isn't such an error, because the server may still send the bytes.
pub fn is_cut_short(kind: ErrorKind) -> bool
    ensures { IsTrue result ↔ IsCutShort kind }
{
    matches!(kind, ErrorKind::UnexpectedEof | ErrorKind::ConnectionReset)
}

/// Returns true if an error of this kind at a connection attempt means that no server takes
/// commands at the door.
pub fn is_nobody(kind: ErrorKind) -> bool
    ensures { IsTrue result ↔ IsNobody kind }
{
    matches!(
        kind,
        ErrorKind::NotFound
            | ErrorKind::ConnectionRefused
            | ErrorKind::InvalidInput
            | ErrorKind::PermissionDenied
    )
}

/// Returns true if an error of this kind means that the server closed the connection before it had
/// read all of the command. The server therefore can't carry out the command.
pub fn is_unread(kind: ErrorKind) -> bool
    ensures { IsTrue result ↔ IsLeftUnread kind }
{
    matches!(kind, ErrorKind::BrokenPipe | ErrorKind::ConnectionReset)
}
