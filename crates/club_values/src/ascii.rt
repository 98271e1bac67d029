//! Converts ASCII bytes to text.

ghost use Rattle.std.specs.{Prelude.{◌≡◌}, Str.IsAscii};

use std::str;

/// Returns ASCII bytes as a string.
pub fn text_of(bytes: &[u8]) -> &str
    requires { IsAscii bytes.now }
    ensures { result.now ≡ bytes.now }
{
    str::from_utf8(bytes).unwrap()
}
