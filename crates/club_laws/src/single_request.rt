//! Laws about the answer to a single request.

ghost use Rattle.club_laws.specs.{Rotation.ServesNoRevokedKey, SingleRequest.AnswersFormsAlike};
ghost use Rattle.club_laws.specs.SingleRequest.{DependsOnTheBasisAlone, MoreCaveatsNeverOpenMore};
ghost use Rattle.club_laws.specs.SingleRequest.{RefusesTheUnsigned, RefusesWithoutABasis};
ghost use Rattle.club_laws.specs.SingleRequest.{ServesOnlyTheEntitled};

use club_core::laws::tests_the_signature;
use pass_caveats::laws::tests_the_set;

/// Two clubs with the same basis for a request give the same answer at the same moment. A basis is
/// the set of rows that an answer may depend on.
pub fn depends_on_the_basis_alone()
    ensures { DependsOnTheBasisAlone }
{}

/// A request without a basis is refused. The refusal depends only on the decoded pass.
#[tactic(auto, using(crate::proofs::ServedPasses::refused_blind))]
pub fn refuses_without_a_basis()
    ensures { RefusesWithoutABasis }
{}

/// Suppose that a pass names a key of the club, but none of the key's roots that are valid at the
/// moment signs the pass. Then the reply is the refusal `NotVerified`.
#[tactic(auto, using(crate::proofs::ServedPasses::unsigned_in))]
pub fn refuses_the_unsigned()
    ensures { RefusesTheUnsigned }
{
    tests_the_signature();
}

/// The desk serves a request only if its pass names a key of the club and the key isn't revoked.
/// The pass must be signed under a root of this key, and the root must be valid at the moment. Each
/// caveat must allow the request.
#[tactic(auto, using(crate::proofs::ServedPasses::served_entitled))]
pub fn serves_only_the_entitled()
    ensures { ServesOnlyTheEntitled }
{
    tests_the_set();
    tests_the_signature();
}

/// After the office revoked a key, the desk serves no request under that key.
pub fn serves_no_revoked_key()
    ensures { ServesNoRevokedKey }
{
    tests_the_set();
    tests_the_signature();
}

/// A request that is served under a pass with added caveats gets the same reply under the original
/// pass.
#[tactic(auto, using(crate::proofs::ServedPasses::wide_in))]
pub fn more_caveats_never_open_more()
    ensures { MoreCaveatsNeverOpenMore }
{
    tests_the_signature();
}

/// The reply to a request and the club after the request don't depend on the form of the pass's
/// text.
pub fn answers_forms_alike()
    ensures { AnswersFormsAlike }
{}
