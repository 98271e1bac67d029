//! A buffer for the bytes of a pass. The buffer is on the stack, so a writer allocates memory only
//! for the text.

use crate::{FormFault, MAX_BYTES};
use std::marker::Model;

/// A buffer of 6,144 bytes, and the number of bytes that a writer has appended. In contracts, a
/// `Buffer` is represented by the list of the appended bytes.
#[derive(Drop)]
pub struct Buffer {
    bytes: [u8; MAX_BYTES],
    len: usize,
}

impl Model for Buffer {
    ghost use Rattle.std.specs.Prelude.{ℕ, ◌≤◌, List, take};
    ghost use Rattle.pass_forms.specs.Writing.{buffer_len};

    ghost Value = { List ℕ };

    ghost view = { λ buffer. take buffer.len buffer.bytes };

    ghost invariant = { λ buffer. buffer.len ≤ buffer_len };
}

impl Buffer {
    ghost use Rattle.std.specs.Prelude.{◌≡◌, ◌≤◌, [], length};
    ghost use Rattle.pass_forms.specs.Writing.{Puts, buffer_len};

    /// Returns an empty buffer.
    pub fn new() -> Buffer
        ensures { result ≡ [] }
    {
        Buffer {
            bytes: [0; MAX_BYTES],
            len: 0,
        }
    }

    /// Appends bytes to the buffer. Fails with `TooLong` if the buffer has no room for the bytes.
    pub fn put(&mut self, bytes: &[u8]) -> Result<(), FormFault>
        ensures { Puts bytes.now self.old self.new result }
    {
        if bytes.len() > MAX_BYTES - self.len {
            return Err(FormFault::TooLong);
        }
        let end = self.len + bytes.len();
        self.bytes[self.len..end].copy_from_slice(bytes);
        self.len = end;
        Ok(())
    }

    /// Returns the appended bytes.
    pub fn as_slice(&self) -> &[u8]
        ensures bytes { result.now ≡ self.now }
        ensures fits { length self.now ≤ buffer_len }
    {
        &self.bytes[..self.len]
    }
}
