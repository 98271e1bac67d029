//! Parses each kind of caveat line.

ghost use Rattle.std.specs.Prelude.{◌≡◌, ◌++◌, List, ℕ, MatchOption};
ghost use Rattle.club_values.specs.Number.{Reads};
ghost use Rattle.pass_caveats.specs.Caveat.{SpellsCaveat};
ghost use Rattle.pass_caveats.specs.declared.caveat.Caveat.TheVariants as caveats;

use crate::actions::Actions;
use crate::names::Names;
use crate::weekdays::Weekdays;
use club_values::digits::{read_number, read_two};
use club_values::laws::{distinct_day_texts, is_text_of_day, is_text_of_moment};
use club_values::{Day, HOURS_A_DAY, Kind, MAX_GUESTS, Moment};

/// Returns the bytes that follow `word` in `text`, or `None` if `text` doesn't begin with `word`.
fn after<'a>(text: &'a [u8], word: &[u8]) -> Option<&'a [u8]>
    ensures { MatchOption result ((rest : List ℕ) → ¬ (text.now ≡ word.now ++ rest))
        (λ rest. text.now ≡ word.now ++ rest.now) }
{
    text.strip_prefix(word)
}

pub(crate) fn read_facility(text: &[u8]) -> Option<Names<'_>>
    ensures { Reads (λ names. SpellsCaveat text.now (caveats.Facility names)) result }
{
    Names::read(after(text, b"facility = ")?)
}

pub(crate) fn read_kind(text: &[u8]) -> Option<Kind>
    ensures { Reads (λ kind. SpellsCaveat text.now (caveats.Kind kind)) result }
{
    Kind::read(after(text, b"kind = ")?)
}

pub(crate) fn read_hours(text: &[u8]) -> Option<(u8, u8)>
    ensures { Reads (λ hours. SpellsCaveat text.now (caveats.Hours hours.0 hours.1)) result }
{
    let [a1, a2, b'-', b1, b2] = *after(text, b"hours = ")? else {
        return None;
    };
    let from = read_two(a1, a2)?;
    let until = read_two(b1, b2)?;
    if from < until && until <= HOURS_A_DAY {
        Some((from, until))
    } else {
        None
    }
}

pub(crate) fn read_days(text: &[u8]) -> Option<(Day, Day)>
    ensures { Reads (λ days. SpellsCaveat text.now (caveats.Days days.0 days.1)) result }
{
    // By these laws, each day has exactly one text, and different days have different texts.
    is_text_of_day();
    distinct_day_texts();
    let rest = after(text, b"days = ")?;
    if rest.len() < 10 {
        return None;
    }
    let (first, rest) = rest.split_at(10);
    let first = Day::read(first)?;
    let last = Day::read(after(rest, b"..")?)?;
    if first <= last {
        Some((first, last))
    } else {
        None
    }
}

pub(crate) fn read_weekdays(text: &[u8]) -> Option<Weekdays>
    ensures { Reads (λ set. SpellsCaveat text.now (caveats.Weekdays set)) result }
{
    Weekdays::read(after(text, b"weekday = ")?)
}

pub(crate) fn read_until(text: &[u8]) -> Option<Moment>
    ensures { Reads (λ moment. SpellsCaveat text.now (caveats.Until moment)) result }
{
    // By this law, each moment has exactly one text.
    is_text_of_moment();
    Moment::read(after(text, b"until < ")?)
}

#[tactic(auto, using(crate::proofs::ChoiceLemmas::too_many_guests))]
pub(crate) fn read_guests(text: &[u8]) -> Option<u8>
    ensures { Reads (λ n. SpellsCaveat text.now (caveats.Guests n)) result }
{
    let guests = read_number(after(text, b"guests <= ")?)?;
    if guests <= u32::from(MAX_GUESTS) {
        Some(guests as u8)
    } else {
        None
    }
}

pub(crate) fn read_spend(text: &[u8]) -> Option<u32>
    ensures { Reads (λ n. SpellsCaveat text.now (caveats.Spend n)) result }
{
    read_number(after(text, b"spend <= ")?)
}

pub(crate) fn read_actions(text: &[u8]) -> Option<Actions>
    ensures { Reads (λ actions. SpellsCaveat text.now (caveats.Actions actions)) result }
{
    Actions::read(after(text, b"actions = ")?)
}
