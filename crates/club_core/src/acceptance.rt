//! Answers a request: accepts or refuses the pass, then decides the request from a view.

ghost use Rattle.std.specs.{Option.option_copied, Prelude.{◌≡◌}};
ghost use Rattle.club_core.specs.Answer.{answer_by_view};

use crate::decisions::decide;
use crate::refusal::Refusal;
use crate::request::Request;
use crate::verdict::Verdict;
use crate::view::View;
use club_values::Moment;
use pass_caveats::CaveatFault;

/// Returns the reply to a request with a decoded pass, and the change to apply. `view` is the view
/// of the request, or `None` if the club doesn't have the pass's key. `is_signed` is true if a root
/// of the key signs the pass and is valid at `moment`. `fault` is the fault of the first caveat
/// that doesn't allow the request, or `None` if all caveats allow the request. An unknown key and a
/// wrong signature get the same refusal, whatever the caveats are.
pub fn answer(
    view: Option<&View>,
    is_signed: bool,
    fault: Option<CaveatFault>,
    request: &Request,
    moment: Moment,
) -> Verdict
    ensures { result
        ≡ answer_by_view (option_copied view.entry) is_signed fault request.now moment }
{
    let Some(view) = view else {
        return Verdict::refuse(Refusal::NotVerified);
    };
    if !is_signed {
        return Verdict::refuse(Refusal::NotVerified);
    }
    if view.key.revoked {
        return Verdict::refuse(Refusal::KeyRevoked);
    }
    match fault {
        Some(CaveatFault::NotUnderstood(number)) => Verdict::refuse(Refusal::CaveatNotUnderstood(
            number,
        )),
        Some(CaveatFault::Denied(number)) => Verdict::refuse(Refusal::CaveatDenies(number)),
        None => decide(view, request, moment),
    }
}
