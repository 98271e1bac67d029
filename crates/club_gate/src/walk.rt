//! Functions that scan the fields of a pass for caveats.

ghost use Rattle.std.specs.Prelude.{◌≡◌, ℕ, false, map};
ghost use Rattle.club_gate.specs.Verify.{IsBlindPass, OfItsPass};
ghost use Rattle.pass_caveats.specs.{Fault.first_fault_of, Spending.{IsWithin, after_spending}};
ghost use Rattle.pass_caveats.specs.computed.CaveatOf.{caveat_of};

use pass_caveats::laws::{finds_the_fault_at, reads_what_is_understood};
use pass_caveats::{Ask, CaveatFault, Unspent, fault_at, looks_at_kind, unspent_at};
use pass_forms::{Field, FieldSource};

/// Returns the first caveat that isn't understood or that denies a request. The caveats are checked
/// as if the key had spent `spent` points. Returns `None` if all caveats allow the request. The
/// source yields the fields of the pass, and is unchanged.
pub(crate) fn fault_after<'a, F: FieldSource<'a> + Drop>(
    source: &F,
    ask: &Ask,
    spent: u64,
) -> Option<CaveatFault>
    ensures { OfItsPass (F.left source.now) (λ pass.
        result ≡ first_fault_of (map caveat_of pass.caveats) (after_spending spent ask.now)) }
{
    let after = Ask { spent, ..*ask };
    let mut source = source.again();
    let mut number: usize = 1;
    while let Some(field) = source.next() {
        if let Field::Caveat(caveat) = field {
            let fault = fault_at(caveat, number, &after);
            if fault.is_some() {
                return fault;
            }
            number = number.saturating_add(1);
        }
    }
    None
}

/// Returns the first caveat that refuses the request. The caveats are checked as if the key had
/// spent no points. Also returns the slack: the result is the same for every number of spent points
/// up to the slack. The source is unchanged.
pub(crate) fn unspent_fault<'a, F: FieldSource<'a> + Drop>(source: &F, ask: &Ask) -> Unspent
    ensures { OfItsPass (F.left source.now) (λ pass. (spent : ℕ) → IsWithin result.slack spent
        → first_fault_of (map caveat_of pass.caveats) (after_spending spent ask.now)
        ≡ result.fault) }
{
    finds_the_fault_at();
    reads_what_is_understood();
    let mut source = source.again();
    let mut slack: Option<u64> = None;
    let mut number: usize = 1;
    while let Some(field) = source.next() {
        if let Field::Caveat(caveat) = field {
            let one = unspent_at(caveat, number, ask);
            slack = least(slack, one.slack);
            if one.fault.is_some() {
                return Unspent {
                    fault: one.fault,
                    slack,
                };
            }
            number = number.saturating_add(1);
        }
    }
    Unspent { fault: None, slack }
}

/// Returns the lower of two bounds. `None` means that there is no bound.
fn least(bound: Option<u64>, other: Option<u64>) -> Option<u64>
    ensures { (spent : ℕ) → IsWithin result spent → IsWithin bound spent × IsWithin other spent }
{
    match (bound, other) {
        (Some(bound), Some(other)) => Some(bound.min(other)),
        (None, _) => other,
        (_, None) => bound,
    }
}

/// Returns whether a caveat of a pass depends on the kind of the slot's facility. The source is
/// unchanged.
pub(crate) fn has_kind<'a, F: FieldSource<'a> + Drop>(source: &F) -> bool
    ensures { OfItsPass (F.left source.now) (λ pass. result ≡ false → IsBlindPass pass) }
{
    finds_the_fault_at();
    reads_what_is_understood();
    let mut source = source.again();
    while let Some(field) = source.next() {
        if let Field::Caveat(caveat) = field {
            if looks_at_kind(caveat) {
                return true;
            }
        }
    }
    false
}
