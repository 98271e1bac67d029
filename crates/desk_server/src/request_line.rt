//! The first bytes of a request, for the log.

ghost use Rattle.std.specs.{Char.is_ascii_uppercase, List.list_all};
ghost use Rattle.std.specs.Prelude.{◌≡◌, ◌<◌, ◌≤◌, IfSome, length, option_map};
ghost use Rattle.desk_server.specs.RequestLine as spec;

use club_http::Line;
use std::marker::Model;

/// The maximum number of bytes of a request that the log keeps. The desk's longest request line has
/// 80 bytes. That line cancels a booking at a facility whose name has 24 letters.
pub const MAX_KEPT: usize = 96;

/// The maximum number of letters in a method that the log shows. The desk's longest method is
/// `DELETE`.
const MAX_METHOD_LEN: usize = 7;

/// The first bytes of a request. Contracts represent a `RequestLine` by its bytes.
///
/// A `RequestLine` shows a method only if the method has 1 to 7 capital letters and no other
/// characters. A `RequestLine` shows a path only if the path has only small letters, digits, dashes
/// and slashes. The text of every pass has a capital letter or a brace, and more than 7 characters.
/// The log therefore never shows a pass.
#[derive(Drop)]
pub struct RequestLine {
    kept: Line,
}

impl Model for RequestLine {
    ghost use Rattle.std.specs.Prelude.{ℕ, ◌≤◌, List, length};

    ghost Value = { List ℕ };

    ghost view = { λ line. line.kept };

    ghost invariant = { λ line. length line.kept ≤ 96 };
}

impl RequestLine {
    ghost use Rattle.std.specs.Prelude.{◌≡◌, ◌≤◌, IfSome, length, take};
    ghost use Rattle.desk_server.specs.RequestLine.{word_bytes, method_of, path_of};

    /// Returns the first `MAX_KEPT` bytes of a request. If the request is shorter, returns all of
    /// its bytes.
    #[tactic(auto, using(std::proofs::lemmas::List::take_min))]
    pub fn of(request: &[u8]) -> RequestLine
        ensures { result ≡ take 96 request.now }
    {
        let len = MAX_KEPT.min(request.len());
        let mut kept = Line::new();
        kept.push(&request[..len]);
        RequestLine { kept }
    }

    /// Returns the method if it consists of 1 to 7 capital letters.
    #[tactic(auto, unfolding(crate::specs::RequestLine::method_of))]
    pub fn method(&self) -> Option<&[u8]>
        ensures word { word_bytes result ≡ method_of self.now }
        ensures len { IfSome result (λ word. length word.now ≤ 7) }
    {
        let (method, _) = two_words(self.kept.as_bytes())?;
        if is_method(method) {
            Some(method)
        } else {
            None
        }
    }

    /// Returns the path if it consists of small letters, digits, dashes and slashes.
    #[tactic(auto, unfolding(crate::specs::RequestLine::path_of))]
    pub fn path(&self) -> Option<&[u8]>
        ensures word { word_bytes result ≡ path_of self.now }
        ensures len { IfSome result (λ word. length word.now ≤ 96) }
    {
        let (_, path) = two_words(self.kept.as_bytes())?;
        if is_path(path) { Some(path) } else { None }
    }
}

// Returns the first two words if a space follows each word.
fn two_words(bytes: &[u8]) -> Option<(&[u8], &[u8])>
    ensures words { option_map (λ words. (words.0.now, words.1.now)) result
        ≡ spec.two_words bytes.now }
    ensures len { IfSome result (λ words. length words.1.now ≤ length bytes.now) }
{
    let first = place_of_space(bytes)?;
    let rest = &bytes[first + 1..];
    let second = place_of_space(rest)?;
    Some((&bytes[..first], &rest[..second]))
}

// Returns the number of bytes before the first space.
fn place_of_space(bytes: &[u8]) -> Option<usize>
    ensures place { result ≡ spec.place_of_space bytes.now }
    ensures bound { IfSome result (λ place. place < length bytes.now) }
{
    bytes.iter().position(|byte| *byte == b' ')
}

fn is_method(word: &[u8]) -> bool
    ensures { result ≡ spec.is_method word.now }
{
    !word.is_empty() && word.len() <= MAX_METHOD_LEN && are_capitals(word)
}

fn are_capitals(word: &[u8]) -> bool
    ensures { result ≡ list_all is_ascii_uppercase word.now }
{
    word.iter().all(|byte| byte.is_ascii_uppercase())
}

fn is_path(word: &[u8]) -> bool
    ensures { result ≡ spec.is_path word.now }
{
    !word.is_empty() && are_of_a_path(word)
}

fn are_of_a_path(word: &[u8]) -> bool
    ensures { result ≡ list_all spec.is_path_byte word.now }
{
    word.iter().all(|byte| is_path_byte(*byte))
}

fn is_path_byte(byte: u8) -> bool
    ensures { result ≡ spec.is_path_byte byte }
{
    byte.is_ascii_lowercase() || byte.is_ascii_digit() || byte == b'-' || byte == b'/'
}
