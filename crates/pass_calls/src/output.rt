//! Copies bytes to the caller's buffer.

ghost use Rattle.std.specs.Prelude.{◌≡◌};
ghost use Rattle.pass_calls.specs.Output.{IsCopied};

use crate::code::{OK, SHORT_BUFFER};

/// Copies `part` to the front of the buffer if the buffer is long enough. Always sets `len` to the
/// length of `part`.
pub fn put(part: &[u8], out: &mut [u8], len: &mut usize) -> u32
    ensures { IsCopied part.now out.old out.new len.new result }
{
    *len = part.len();
    if part.len() > out.len() {
        return SHORT_BUFFER;
    }
    out[..part.len()].copy_from_slice(part);
    OK
}
