//! Wrappers of the tested functions. A wrapper has no contract, so a test that calls it is proved
//! faster.

use club_values::{Action, Day, Hour, Kind, Moment, Name};
use pass_caveats::{Ask, CaveatFault};

pub(crate) fn is_name(text: &[u8]) -> bool {
    Name::is_name(text)
}

pub(crate) fn read_day(text: &[u8]) -> Option<Day> {
    Day::read(text)
}

pub(crate) fn day_numbered(number: u16) -> Option<Day> {
    Day::from_number(number)
}

pub(crate) fn hour_numbered(number: u8) -> Option<Hour> {
    Hour::from_number(number)
}

pub(crate) fn read_moment(text: &[u8]) -> Option<Moment> {
    Moment::read(text)
}

pub(crate) fn moment_numbered(number: u32) -> Option<Moment> {
    Moment::from_number(number)
}

pub(crate) fn moment_at(day: Day, minute: u16) -> Option<Moment> {
    Moment::new(day, minute)
}

pub(crate) fn read_kind(text: &[u8]) -> Option<Kind> {
    Kind::read(text)
}

pub(crate) fn read_action(text: &[u8]) -> Option<Action> {
    Action::read(text)
}

// Returns `None` if the text isn't a known caveat.
pub(crate) fn answer(text: &str, ask: &Ask) -> Option<bool> {
    let caveat = pass_caveats::read(text.as_bytes())?;
    Some(pass_caveats::allows(&caveat, ask))
}

pub(crate) fn fault_at(text: &[u8], number: usize, ask: &Ask) -> Option<CaveatFault> {
    pass_caveats::fault_at(text, number, ask)
}
