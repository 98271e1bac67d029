//! Defines the caveats of the language, and the requests that each caveat allows.

ghost use Rattle.std.specs.Prelude.{◌≡◌, ◌⊎◌, ◌+◌, ◌≤◌, ◌↔◌, IsTrue, Some, false};
ghost use Rattle.club_values.specs.Number.{Reads};
ghost use Rattle.pass_caveats.specs.Caveat.{SpellsCaveat, Understood, Permits, permits};
ghost use Rattle.pass_caveats.specs.Fault.{IsBlindToKind, is_on_kind};
ghost use Rattle.pass_caveats.specs.computed.CaveatOf.{caveat_of};

use crate::actions::Actions;
use crate::ask::Ask;
use crate::laws::reads_what_is_understood;
use crate::lines::{
    read_actions, read_days, read_facility, read_guests, read_hours, read_kind, read_spend,
    read_until, read_weekdays,
};
use crate::names::Names;
use crate::weekdays::Weekdays;
use club_values::{Day, Kind, Moment};

/// The maximum length of an understood caveat, in bytes.
pub const MAX_CAVEAT_LEN: usize = 256;

/// A caveat of the caveat language. Each caveat allows a set of requests.
#[derive(Debug, Drop)]
pub enum Caveat<'a> {
    /// The name of the slot's facility is in the list.
    Facility(Names<'a>),
    /// The slot's facility has this kind.
    Kind(Kind),
    /// The slot's hour is at least `from` and less than `until`. The value of `until` is between 1
    /// and 24.
    Hours { from: u8, until: u8 },
    /// The slot's day is between `first` and `last`, both included.
    Days { first: Day, last: Day },
    /// The weekday of the slot's day is in the set.
    Weekdays(Weekdays),
    /// The request comes before this moment.
    Until(Moment),
    /// The booking has at most this number of guests. The number is between 0 and 49.
    Guests(u8),
    /// The request charges nothing, or the key's spent points and the request's charge together are
    /// at most this number. The number is between 0 and 999,999,999.
    Spend(u32),
    /// The requested action is in the set.
    Actions(Actions),
}

impl Caveat<'_> {
    /// Returns whether the caveat restricts the kind of a facility.
    fn is_on_kind(&self) -> bool
        ensures { result ≡ is_on_kind (Some self.now) }
    {
        matches!(self, Caveat::Kind(_))
    }
}

fn line_of(text: &[u8]) -> Option<Caveat<'_>>
    ensures { Reads (SpellsCaveat text.now) result }
{
    if let Some(names) = read_facility(text) {
        return Some(Caveat::Facility(names));
    }
    if let Some(kind) = read_kind(text) {
        return Some(Caveat::Kind(kind));
    }
    if let Some((from, until)) = read_hours(text) {
        return Some(Caveat::Hours { from, until });
    }
    if let Some((first, last)) = read_days(text) {
        return Some(Caveat::Days { first, last });
    }
    if let Some(weekdays) = read_weekdays(text) {
        return Some(Caveat::Weekdays(weekdays));
    }
    if let Some(moment) = read_until(text) {
        return Some(Caveat::Until(moment));
    }
    if let Some(guests) = read_guests(text) {
        return Some(Caveat::Guests(guests));
    }
    if let Some(points) = read_spend(text) {
        return Some(Caveat::Spend(points));
    }
    let actions = read_actions(text)?;
    Some(Caveat::Actions(actions))
}

fn short_line_of(text: &[u8]) -> Option<Caveat<'_>>
    ensures { Reads (Understood text.now) result }
{
    if text.len() > MAX_CAVEAT_LEN {
        return None;
    }
    line_of(text)
}

/// Parses the line of a caveat. Returns `None` if the text isn't a line of the caveat language or
/// has more than 256 bytes.
#[tactic(auto, using(crate::proofs::CaveatLemmas::reads_caveat_of))]
pub fn read(bytes: &[u8]) -> Option<Caveat<'_>>
    ensures understood { Reads (Understood bytes.now) result }
    ensures function { result ≡ caveat_of bytes.now }
{
    // By this law, `caveat_of` returns a caveat if and only if the text is understood as this one.
    reads_what_is_understood();
    short_line_of(bytes)
}

fn is_in_set(caveat: &Caveat, ask: &Ask) -> bool
    ensures { IsTrue result ↔ Permits caveat.now ask.now }
{
    match caveat {
        Caveat::Facility(names) => match &ask.slot {
            Some(slot) => names.contains(&slot.facility),
            None => false,
        },
        Caveat::Kind(kind) => ask.slot.is_some() && ask.kind == Some(*kind),
        Caveat::Hours { from, until } => ask.slot.is_some_and(|slot| *from <= slot.hour.number()
            && slot.hour.number() < *until),
        Caveat::Days { first, last } => ask
            .slot
            .is_some_and(|slot| *first <= slot.day && slot.day <= *last),
        Caveat::Weekdays(weekdays) => ask
            .slot
            .is_some_and(|slot| weekdays.contains(slot.day.weekday())),
        Caveat::Until(moment) => ask.moment < *moment,
        Caveat::Guests(guests) => ask.guests <= *guests,
        Caveat::Spend(points) => is_within(ask, u64::from(*points)),
        Caveat::Actions(actions) => actions.contains(ask.action),
    }
}

fn is_within(ask: &Ask, points: u64) -> bool
    ensures { IsTrue result ↔ ((ask.now.owed ≡ 0) ⊎ (ask.now.spent + ask.now.owed ≤ points)) }
{
    ask.owed == 0 || (ask.spent <= points && ask.owed <= points - ask.spent)
}

/// Returns whether the caveat allows the request.
pub fn allows(caveat: &Caveat, ask: &Ask) -> bool
    ensures set { IsTrue result ↔ Permits caveat.now ask.now }
    ensures function { result ≡ permits caveat.now ask.now }
{
    is_in_set(caveat, ask)
}

/// Returns whether the text is a caveat that restricts the kind of a facility. The fault of the
/// text depends on the kind if and only if the result is true.
#[tactic(auto, using(crate::proofs::CaveatLemmas::blind_to_kind))]
pub fn looks_at_kind(text: &[u8]) -> bool
    ensures function { result ≡ is_on_kind (caveat_of text.now) }
    ensures blind { result ≡ false → IsBlindToKind text.now }
    ensures off_kind { IsBlindToKind text.now → result ≡ false }
{
    reads_what_is_understood();
    match read(text) {
        Some(caveat) => caveat.is_on_kind(),
        None => false,
    }
}
