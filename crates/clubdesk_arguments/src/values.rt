//! Parses the values of arguments that `club_values` doesn't parse.

ghost use Rattle.std.specs.Prelude.{◌≡◌};
ghost use Rattle.clubdesk_arguments.specs.Values as spec;

use club_rows::{BookingNumber, Root};
use club_values::digits::read_digits;

/// The most connections that a server can serve.
pub const MAX_CONNECTIONS: u32 = 1_000_000;

/// The longest timeout, in seconds.
pub const MAX_PATIENCE: u32 = 3_600;

/// Parses a number of 1 to 9 decimal digits.
#[tactic(auto, unfolding(crate::specs::Values::parse_number))]
pub fn parse_number(text: &str) -> Option<u32>
    ensures { result ≡ spec.parse_number text.now }
{
    read_digits(text.as_bytes())
}

/// Parses a TCP port, at most 65,535.
pub fn port_of(text: &str) -> Option<u16>
    ensures { result ≡ spec.port_of text.now }
{
    let number = parse_number(text)?;
    u16::try_from(number).ok()
}

/// Parses a number of connections from 1 to 1,000,000.
pub fn count_of(text: &str) -> Option<u32>
    ensures { result ≡ spec.count_of text.now }
{
    let number = parse_number(text)?;
    if number == 0 || number > MAX_CONNECTIONS {
        return None;
    }
    Some(number)
}

/// Parses a booking number from 1 to 999,999,999.
#[tactic(auto, using(crate::proofs::ArgumentsLemmas::number_made))]
pub fn booking_number_of(text: &str) -> Option<BookingNumber>
    ensures { result ≡ spec.booking_number_of text.now }
{
    let number = parse_number(text)?;
    BookingNumber::new(number)
}

/// Parses a timeout from 1 to 3,600 seconds.
pub fn patience_of(text: &str) -> Option<u32>
    ensures { result ≡ spec.patience_of text.now }
{
    let number = parse_number(text)?;
    if number == 0 || number > MAX_PATIENCE {
        return None;
    }
    Some(number)
}

/// Parses a root of 16 to 64 bytes in hexadecimal. Upper-case and lower-case letters are allowed.
pub fn root_of(text: &str) -> Option<Root>
    ensures { result ≡ spec.key_root_of text.now }
{
    let root = command_line::Root::from_hex(text)?;
    Root::new(root.as_slice())
}
