//! Laws about the definitions in `specs/`. Each law is the contract of a function that does
//! nothing when it runs.

ghost use Rattle.pass_caveats.specs.Laws.{Narrows, FaultsOnlyWhereNotAllowed, FindsTheFirstFault};
ghost use Rattle.pass_caveats.specs.Laws.{FindsTheFaultAt, FindsTheFaultOfOneMore};
ghost use Rattle.pass_caveats.specs.Laws.{ReadsWhatIsUnderstood, TestsTheSet, IsUnderstoodOnce};
ghost use Rattle.pass_caveats.specs.Spending.{LimitsNoMore, OwesNothing};

use club_values::laws::{
    is_text_of_day, is_text_of_moment, reads_days, reads_moments, reads_names,
};

/// If a list of caveats allows a request, every prefix of the list allows the request too.
pub fn narrows()
    ensures { Narrows }
{}

/// A list of caveats has no first fault if and only if it allows the request.
#[tactic(auto, using(crate::proofs::CaveatLemmas::none_where_allowed))]
pub fn faults_only_where_not_allowed()
    ensures { FaultsOnlyWhereNotAllowed }
{
    reads_what_is_understood();
}

/// Given the caveat of each text in a list, `first_fault_of` returns the first fault of the texts.
/// A text that isn't understood has the caveat `None`.
#[tactic(auto, using(crate::proofs::CaveatLemmas::finds_the_first_fault))]
pub fn finds_the_first_fault()
    ensures { FindsTheFirstFault }
{
    reads_what_is_understood();
}

/// Given the caveat of a text, `first_fault_from` returns the fault of the text. A text that isn't
/// understood has the caveat `None`.
#[tactic(auto, using(crate::proofs::CaveatLemmas::finds_the_fault_at))]
pub fn finds_the_fault_at()
    ensures { FindsTheFaultAt }
{
    reads_what_is_understood();
}

/// Suppose that a caveat is appended to a list. If the list already has a first fault, the fault
/// stays the same. Otherwise the first fault is the fault of the new caveat. The number of the new
/// caveat is one more than the length of the list.
#[tactic(auto, using(crate::proofs::CaveatLemmas::fault_of_one_more))]
pub fn finds_the_fault_of_one_more()
    ensures { FindsTheFaultOfOneMore }
{}

/// `caveat_of` returns a caveat if and only if the text is understood as this caveat.
pub fn reads_what_is_understood()
    ensures { ReadsWhatIsUnderstood }
{
    reads_names();
    reads_days();
    is_text_of_day();
    reads_moments();
    is_text_of_moment();
}

/// `permits` returns true if and only if the caveat allows the request.
pub fn tests_the_set()
    ensures { TestsTheSet }
{}

/// A text is understood as at most one caveat.
pub fn is_understood_once()
    ensures { IsUnderstoodOnce }
{
    reads_what_is_understood();
}

/// If the request charges nothing, the first fault doesn't depend on the key's earlier spending.
#[tactic(auto, using(crate::proofs::CaveatLemmas::free))]
pub fn owes_nothing()
    ensures { OwesNothing }
{}

/// Suppose that the first fault is the same for a key that has spent nothing and for a key that has
/// spent `most` points. Then the first fault is the same for any amount up to `most`. Every spend
/// limit is at most 999,999,999 points. Therefore, if `most` is at least 999,999,999, the first
/// fault doesn't depend on the amount spent.
#[tactic(auto, using(crate::proofs::CaveatLemmas::limits_no_more))]
pub fn limits_no_more()
    ensures { LimitsNoMore }
{}
