//! Computes the fault of a caveat for a key that has spent nothing.

ghost use Rattle.std.specs.Prelude.{◌≡◌};
ghost use Rattle.pass_caveats.specs.Spending.{HoldsWithin, slack_under};

use crate::ask::Ask;
use crate::caveat::{Caveat, allows, read};
use crate::fault::CaveatFault;
use crate::laws::is_understood_once;

/// The fault of a caveat for a key that has spent nothing. The fault stays the same while the key
/// has spent at most `slack` points.
#[derive(Clone, Copy, Debug, PartialEq, Eq)]
pub struct Unspent {
    /// The fault of the caveat, or `None` if the caveat allows the request.
    pub fault: Option<CaveatFault>,
    /// The most points that the key can spend before the fault changes. `None` means that the fault
    /// is the same for every amount.
    pub slack: Option<u64>,
}

/// Returns the fault of one caveat for a key that has spent nothing. Also returns the slack, which
/// is the most points that the key can spend before the fault changes. The argument `number` is the
/// caveat's position in its list, starting from 1.
pub fn unspent_at(text: &[u8], number: usize, ask: &Ask) -> Unspent
    ensures { HoldsWithin text.now number ask.now result.fault result.slack }
{
    // By this law, a text is understood as at most one caveat.
    is_understood_once();
    let Some(caveat) = read(text) else {
        return Unspent {
            fault: Some(CaveatFault::NotUnderstood(number)),
            slack: None,
        };
    };
    if !allows(&caveat, &Ask { spent: 0, ..*ask }) {
        return Unspent {
            fault: Some(CaveatFault::Denied(number)),
            slack: None,
        };
    }
    Unspent {
        fault: None,
        slack: slack_of(&caveat, ask),
    }
}

/// Subtracts the request's charge from a spend limit, and returns the remaining points. The charge
/// must be within the limit. Returns `None` if the caveat isn't a spend limit or the request
/// charges nothing.
fn slack_of(caveat: &Caveat, ask: &Ask) -> Option<u64>
    ensures { result ≡ slack_under caveat.now ask.now }
{
    match caveat {
        Caveat::Spend(points) => {
            if ask.owed == 0 {
                return None;
            }
            Some(u64::from(*points).saturating_sub(ask.owed))
        }
        _ => None,
    }
}
