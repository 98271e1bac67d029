//! Byte strings of a limited length, stored without a heap allocation.

ghost use Rattle.std.specs.Prelude.{◌≡◌, ◌≤◌, ◌↔◌, length, IsSome, IfSome};

use std::marker::Model;

/// A string of at most `N` bytes, stored without a heap allocation. Contracts represent the string
/// by its list of bytes.
#[derive(Clone, Copy)]
pub struct InlineBytes<const N: usize> {
    buffer: [u8; N],
    len: usize,
}

impl<const N: usize> Model for InlineBytes<N> {
    ghost use Rattle.std.specs.Prelude.{ℕ, List};

    ghost Value = { List ℕ };

    ghost use Rattle.club_values.specs.Name.{stored_bytes, IsPadded, stored_inline};
    ghost use Rattle.club_values.specs.Name.{stored_inline-stored_bytes};

    ghost view = { stored_bytes };

    ghost invariant = { IsPadded };

    ghost inverse = { stored_inline N };

    ghost inverse_ok = { stored_inline-stored_bytes };
}

impl<const N: usize> InlineBytes<N> {
    /// Stores these bytes, or returns `None` if there are more than `N` bytes.
    pub fn new(bytes: &[u8]) -> Option<InlineBytes<N>>
        ensures within { IsSome result ↔ (length bytes.now ≤ N) }
        ensures value { IfSome result (λ stored. stored ≡ bytes.now) }
    {
        if bytes.len() > N {
            return None;
        }
        let mut buffer = [0; N];
        buffer[..bytes.len()].copy_from_slice(bytes);
        Some(InlineBytes {
            buffer,
            len: bytes.len(),
        })
    }

    /// Returns the stored bytes.
    pub fn as_bytes(&self) -> &[u8]
        ensures value { result.now ≡ self.now }
        ensures within { length result.now ≤ N }
    {
        &self.buffer[..self.len]
    }
}
