//! The root, which is the secret key that signs a pass.

ghost use Rattle.std.specs.Prelude.{◌≡◌, ◌≤◌, length};
ghost use Rattle.command_line.specs.Arguments.{root_of};

use std::marker::Model;

/// The number of bytes of the longest root.
const MAX_ROOT_LEN: usize = 64;

/// A root of 1 to 64 bytes, stored inline.
#[derive(Drop)]
pub struct Root {
    bytes: [u8; MAX_ROOT_LEN],
    len: usize,
}

impl Model for Root {
    ghost use Rattle.std.specs.Prelude.{ℕ, List, ◌≤◌, take};
    ghost use Rattle.command_line.specs.Arguments.{max_root_bytes};

    ghost Value = { List ℕ };

    ghost view = { λ root. take root.len root.bytes };

    ghost invariant = { λ root. (1 ≤ root.len) × (root.len ≤ max_root_bytes) };
}

impl Root {
    /// Parses a root in hexadecimal, with capital or small letters.
    pub fn from_hex(text: &str) -> Option<Root>
        ensures { result ≡ root_of text.now }
    {
        let len = text.len() / 2;
        if len == 0 || len > MAX_ROOT_LEN {
            return None;
        }
        let mut bytes = [0; MAX_ROOT_LEN];
        match hex::decode_to_slice(text, &mut bytes[..len]) {
            Ok(()) => Some(Root { bytes, len }),
            Err(_) => None,
        }
    }

    /// Returns the bytes of the root.
    pub fn as_slice(&self) -> &[u8]
        ensures { result.now ≡ self.now }
    {
        &self.bytes[..self.len]
    }
}
