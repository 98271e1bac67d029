//! Parses and writes decimal digits.

ghost use Rattle.std.specs.{Char.is_ascii_digit, List.list_all, Prelude.{◌≡◌, ◌<◌, ◌++◌, [], ◌∷◌}};
ghost use Rattle.club_values.specs.{Number.{SpellsNumber, Reads}, computed.TextOf.decimal_of_text};
ghost use Rattle.club_values.specs.Number as spec;

use crate::ascii::text_of;

/// The maximum number of decimal digits in a number.
const MAX_DIGITS: usize = 9;

/// The greatest number with nine decimal digits.
pub const MAX_NUMBER: u32 = 999_999_999;

/// Returns the number encoded by two decimal digits, or `None` if a byte isn't a digit.
pub fn read_two(tens: u8, ones: u8) -> Option<u8>
    ensures { Reads (λ n. (n < 100) × (tens ∷ ones ∷ [] ≡ spec.two_digits n)) result }
{
    if tens.is_ascii_digit() && ones.is_ascii_digit() {
        Some(10 * (tens - b'0') + (ones - b'0'))
    } else {
        None
    }
}

/// Returns the two decimal digits of a number below 100.
pub fn two_digits(n: u8) -> [u8; 2]
    requires { n < 100 }
    ensures { result ≡ spec.two_digits n }
{
    [b'0' + n / 10, b'0' + n % 10]
}

fn are_digits(text: &[u8]) -> bool
    ensures { result ≡ list_all is_ascii_digit text.now }
{
    text.iter().all(|byte| byte.is_ascii_digit())
}

fn are_few_digits(text: &[u8]) -> bool
    ensures { result ≡ spec.are_few_digits text.now }
{
    !text.is_empty() && text.len() <= MAX_DIGITS && are_digits(text)
}

/// Returns the number encoded by one to nine decimal digits, or `None` for any other text. Leading
/// zeros are allowed.
#[tactic(auto, using(crate::proofs::TextLemmas::digits_read))]
pub fn read_digits(text: &[u8]) -> Option<u32>
    ensures { result ≡ spec.number_of_digits text.now }
{
    if !are_few_digits(text) {
        return None;
    }
    text_of(text).parse().ok()
}

#[tactic(auto, unfolding(crate::specs::computed::TextOf::decimal_of_text))]
fn number_in(text: &[u8]) -> Option<u32>
    ensures { result ≡ decimal_of_text text.now }
{
    if text.len() > 1 && text[0] == b'0' {
        return None;
    }
    read_digits(text)
}

/// Returns the number encoded by one to nine decimal digits, or `None` for any other text. Leading
/// zeros aren't allowed.
#[tactic(auto, using(crate::proofs::DayLemmas::reads_numbers))]
pub fn read_number(text: &[u8]) -> Option<u32>
    ensures spelled { Reads (SpellsNumber text.now) result }
    ensures function { result ≡ decimal_of_text text.now }
{
    number_in(text)
}
