//! Decodes texts with escapes, and parses numbers.

use crate::fault::Fault;

const NO_ESCAPE: &str = "no escape";

/// The state of decoding an escape.
#[derive(Clone, Copy)]
enum Escape {
    /// No escape has begun.
    None,
    /// The decoder has read a backslash.
    Begun,
    /// The decoder has read `\x`.
    Hex,
    /// The decoder has read `\x` and the first digit.
    Digit(u8),
}

fn digit(byte: u8) -> Result<u8, Fault> {
    match byte {
        b'0'..=b'9' => Ok(byte - b'0'),
        b'a'..=b'f' => Ok(byte - b'a' + 10),
        _ => Err(Fault::Rule(NO_ESCAPE)),
    }
}

/// Returns the byte for a letter after a backslash.
fn simple(letter: u8) -> Result<u8, Fault> {
    match letter {
        b'r' => Ok(b'\r'),
        b'n' => Ok(b'\n'),
        b't' => Ok(b'\t'),
        b'\\' => Ok(b'\\'),
        _ => Err(Fault::Rule(NO_ESCAPE)),
    }
}

/// Reads one byte, and returns the new state. Also returns the decoded byte, unless an escape is
/// incomplete.
fn step(state: Escape, byte: u8) -> Result<(Escape, Option<u8>), Fault> {
    match state {
        Escape::None if byte == b'\\' => Ok((Escape::Begun, None)),
        Escape::None => Ok((Escape::None, Some(byte))),
        Escape::Begun if byte == b'x' => Ok((Escape::Hex, None)),
        Escape::Begun => Ok((Escape::None, Some(simple(byte)?))),
        Escape::Hex => Ok((Escape::Digit(digit(byte)?), None)),
        Escape::Digit(first) => {
            let byte = first.wrapping_mul(16).wrapping_add(digit(byte)?);
            Ok((Escape::None, Some(byte)))
        }
    }
}

/// Decodes a text's escapes, and adds the decoded text to the bytes.
pub(crate) fn push_unescaped(bytes: &mut Vec<u8>, text: &str) -> Result<(), Fault> {
    let mut state = Escape::None;
    for byte in text.as_bytes() {
        let (next, meant) = step(state, *byte)?;
        state = next;
        if let Some(meant) = meant {
            bytes.push(meant)?;
        }
    }
    match state {
        Escape::None => Ok(()),
        _ => Err(Fault::Rule(NO_ESCAPE)),
    }
}

/// Parses a number of at most nine digits.
pub(crate) fn number(text: &str) -> Result<u32, Fault> {
    let is_number = text.len() < 10 && text.as_bytes().iter().all(|byte| byte.is_ascii_digit());
    match text.parse::<u32>() {
        Ok(number) if is_number => Ok(number),
        _ => Err(Fault::Rule("no number")),
    }
}

/// Splits `64 times TEXT` into a count and a text. Without a count in the text, the count is 1.
pub(crate) fn repeated(text: &str) -> (u32, &str) {
    let Some((count, what)) = text.split_once(" times ") else {
        return (1, text);
    };
    match number(count) {
        Ok(count) if !what.is_empty() => (count, what),
        _ => (1, text),
    }
}

/// Decodes a text's escapes, and adds the decoded text to the bytes. A count in the text states how
/// many times the decoded text is added.
pub(crate) fn push_repeated(bytes: &mut Vec<u8>, text: &str) -> Result<(), Fault> {
    let (count, what) = repeated(text);
    for _ in 0..count {
        push_unescaped(bytes, what)?;
    }
    Ok(())
}

/// Removes the double quotes around a text, if the text has quotes.
pub(crate) fn unquoted(text: &str) -> &str {
    match text.strip_prefix('"') {
        Some(rest) => rest.strip_suffix('"').unwrap_or(text),
        None => text,
    }
}

/// Splits a text at a delimiter, and returns the parts before and after the delimiter.
pub(crate) fn halves<'a>(
    text: &'a str,
    delimiter: char,
    rule: &'static str,
) -> Result<(&'a str, &'a str), Fault> {
    match text.split_once(delimiter) {
        Some(halves) => Ok(halves),
        None => Err(Fault::Rule(rule)),
    }
}
