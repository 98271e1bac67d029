//! The paths of the desk.

ghost use Rattle.std.specs.Prelude.{◌≡◌, ◌∷◌, [], MatchOption};
ghost use Rattle.http_request.specs.Path.{segments, BeginsWith, following_parts};
ghost use Rattle.http_request.specs.computed.Path.{number_of_text, slot_of_parts};
ghost use Rattle.http_request.specs.computed.Path as spec;

use club_rows::BookingNumber;
use club_values::digits::read_number;
use club_values::{Day, Hour, Name, Slot};

/// The place that a path names: a slot, a booking in a slot, or the account.
#[derive(Clone, Copy, Debug, PartialEq, Eq)]
pub(crate) enum Place {
    SlotPlace(Slot),
    BookingPlace(Slot, BookingNumber),
    AccountPlace,
}

/// Returns the part of a path before the first slash, and the rest after that slash. If there is no
/// slash, the first part is the whole path and the rest is `None`.
fn next_part(path: &[u8]) -> (&[u8], Option<&[u8]>)
    ensures { BeginsWith path.now result.0.now result.1 }
{
    for (i, byte) in path.iter().enumerate() {
        if *byte == b'/' {
            return (&path[..i], Some(&path[i + 1..]));
        }
    }
    (path, None)
}

/// Parses a booking number: decimal digits without leading zeros.
#[tactic(auto, unfolding(crate::specs::computed::Path::number_of_text))]
fn read_booking_number(text: &[u8]) -> Option<BookingNumber>
    ensures { result ≡ number_of_text text.now }
{
    BookingNumber::new(read_number(text)?)
}

#[tactic(auto, unfolding(crate::specs::computed::Path::slot_of_parts))]
fn read_slot(facility: &[u8], day: &[u8], hour: &[u8]) -> Option<Slot>
    ensures { result ≡ slot_of_parts facility.now day.now hour.now }
{
    let facility = Name::read(facility)?;
    let day = Day::read(day)?;
    let hour = Hour::read(hour)?;
    Some(Slot {
        facility,
        day,
        hour,
    })
}

/// Returns the place of a path that begins with a slot: the slot itself, or a booking in the slot.
/// `rest` is the rest of the path after the slot's hour.
fn at_slot(slot: Slot, rest: Option<&[u8]>) -> Option<Place>
    ensures { result ≡ spec.at_slot slot (following_parts rest.entry) }
{
    let Some(rest) = rest else {
        return Some(Place::SlotPlace(slot));
    };
    let (word, rest) = next_part(rest);
    let (number, end) = next_part(rest?);
    if end.is_some() {
        return None;
    }
    if word != b"bookings".as_slice() {
        return None;
    }
    let number = read_booking_number(number)?;
    Some(Place::BookingPlace(slot, number))
}

fn under_slots(path: &[u8]) -> Option<Place>
    ensures { result ≡ spec.under_slots (segments path.now) }
{
    let (facility, Some(rest)) = next_part(path) else {
        return None;
    };
    let (day, Some(rest)) = next_part(rest) else {
        return None;
    };
    let (hour, rest) = next_part(rest);
    let slot = read_slot(facility, day, hour)?;
    at_slot(slot, rest)
}

fn under_root(path: &[u8]) -> Option<Place>
    ensures { result ≡ spec.under_root (segments path.now) }
{
    let (word, rest) = next_part(path);
    if word == b"slots".as_slice() {
        return under_slots(rest?);
    }
    if rest.is_some() {
        return None;
    }
    if word != b"account".as_slice() {
        return None;
    }
    Some(Place::AccountPlace)
}

/// Returns the place that a request's target names.
pub(crate) fn place_of(target: &[u8]) -> Option<Place>
    ensures { result ≡ spec.place_of target.now }
{
    match target {
        [b'/', path @ ..] => under_root(path),
        _ => None,
    }
}
