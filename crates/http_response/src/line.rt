//! A text of at most 256 bytes on the stack.

use itoa::Buffer;
use std::marker::Model;

/// The maximum number of bytes in a `Line`. A reply consists of two values of the type `Line`: its
/// head and its body.
pub const MAX_LINE_LEN: usize = 256;

/// A text buffer. `push` appends bytes to the text. Contracts represent a `Line` by the list of its
/// bytes, at most 256.
#[derive(Drop)]
pub struct Line {
    bytes: [u8; MAX_LINE_LEN],
    len: usize,
}

impl Model for Line {
    ghost use Rattle.std.specs.Prelude.{ℕ, ◌≤◌, List, take};
    ghost use Rattle.http_response.specs.Body.{max_line_len};

    ghost Value = { List ℕ };

    ghost view = { λ line. take line.len line.bytes };

    ghost invariant = { λ line. line.len ≤ max_line_len };
}

impl Line {
    ghost use Rattle.std.specs.{Fmt.decimal, Prelude.{◌≡◌, ◌≤◌, ◌+◌, ◌++◌, [], length}};
    ghost use Rattle.http_response.specs.Body.{max_line_len};

    /// Returns an empty text.
    pub fn new() -> Line
        ensures { result ≡ [] }
    {
        Line {
            bytes: [0; MAX_LINE_LEN],
            len: 0,
        }
    }

    /// Appends bytes to the text.
    pub fn push(&mut self, bytes: &[u8])
        requires { length self.old + length bytes.now ≤ max_line_len }
        ensures bytes { self.new ≡ self.old ++ bytes.now }
        ensures len { length self.new ≡ length self.old + length bytes.now }
    {
        let end = self.len + bytes.len();
        self.bytes[self.len..end].copy_from_slice(bytes);
        self.len = end;
    }

    /// Appends the decimal digits of a number, at most 20 digits.
    pub fn push_number(&mut self, number: u64)
        requires { length self.old + 20 ≤ max_line_len }
        ensures digits { self.new ≡ self.old ++ decimal number }
        ensures len { length self.new ≤ length self.old + 20 }
    {
        let mut digits = Buffer::new();
        self.push(digits.format(number).as_bytes());
    }

    /// Returns the bytes of the text.
    pub fn as_bytes(&self) -> &[u8]
        ensures value { result.now ≡ self.now }
        ensures fits { length result.now ≤ max_line_len }
    {
        &self.bytes[..self.len]
    }
}
