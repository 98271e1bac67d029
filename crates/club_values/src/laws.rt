//! Laws about the values that texts encode. Each law is the contract of a function with an empty
//! body.

ghost use Rattle.club_values.specs.Laws.{ReadsNames, ReadsNumbers, ReadsKinds, ReadsActions};
ghost use Rattle.club_values.specs.Laws.{ReadsDays, ReadsHours, ReadsMoments, IsTextOfDay};
ghost use Rattle.club_values.specs.Laws.{IsTextOfMoment, DistinctDayTexts, DistinctMomentTexts};

/// `name_of_text` returns a name if and only if the text is a name. The returned name is the text
/// itself.
pub fn reads_names()
    ensures { ReadsNames }
{}

/// `decimal_of_text` returns a number if and only if the text encodes this number.
pub fn reads_numbers()
    ensures { ReadsNumbers }
{}

/// `kind_of_text` returns a kind if and only if the argument is the text of this kind.
#[tactic(auto, using(crate::proofs::DayLemmas::reads_kinds))]
pub fn reads_kinds()
    ensures { ReadsKinds }
{}

/// `action_of_text` returns an action if and only if the argument is the text of this action.
#[tactic(auto, using(crate::proofs::DayLemmas::reads_actions))]
pub fn reads_actions()
    ensures { ReadsActions }
{}

/// `day_of_text` returns a day if and only if the text encodes this day.
pub fn reads_days()
    ensures { ReadsDays }
{}

/// `hour_of_text` returns an hour if and only if the text encodes this hour.
pub fn reads_hours()
    ensures { ReadsHours }
{}

/// `moment_of_text` returns a moment if and only if the text encodes this moment.
pub fn reads_moments()
    ensures { ReadsMoments }
{}

/// A text encodes a day if and only if `day_text` returns this text for the day.
pub fn is_text_of_day()
    ensures { IsTextOfDay }
{}

/// A text encodes a moment if and only if `moment_text` returns this text for the moment.
pub fn is_text_of_moment()
    ensures { IsTextOfMoment }
{}

/// Different days have different texts.
pub fn distinct_day_texts()
    ensures { DistinctDayTexts }
{}

/// Different moments have different texts.
#[tactic(auto, using(crate::proofs::DayLemmas::moment_text_injective))]
pub fn distinct_moment_texts()
    ensures { DistinctMomentTexts }
{}
