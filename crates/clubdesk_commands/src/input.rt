//! Reads a key's root from standard input.

ghost use Rattle.std.specs.Prelude.{◌≡◌};
ghost use Rattle.clubdesk_commands.specs.HandedCommand as spec;

use club_rows::Root;
use clubdesk_arguments::{Fault, root_of};
use command_line::{fill, without_line_feed};
use std::io::Read;

/// The most bytes that the program reads. The longest root has 128 hexadecimal digits, and a line
/// feed may follow. Another byte after these 129 bytes shows that the input is too long.
const MAX_READ: usize = 130;

/// Reads a root in hexadecimal. A line feed after the root is ignored.
///
/// # Errors
///
/// Fails with `BadValue` if the input isn't a root, and with `InputOutput` if the reader fails.
pub(crate) fn read_root<R: Read>(reader: &mut R) -> Result<Root, Fault>
    ensures { spec.TakesRoot (R.remaining reader.old) (R.remaining reader.new) result }
{
    let mut room = [0; MAX_READ];
    match fill(reader, &mut room) {
        Ok(count) => root_in(&room[..count]).ok_or(Fault::BadValue),
        Err(_) => Err(Fault::InputOutput),
    }
}

/// Decodes a root from hexadecimal. A line feed at the end is ignored.
pub(crate) fn root_in(bytes: &[u8]) -> Option<Root>
    ensures { result ≡ spec.root_in_input bytes.now }
{
    match str::from_utf8(without_line_feed(bytes)) {
        Ok(text) => root_of(text),
        Err(_) => None,
    }
}
