//! Checks the signature of a pass while reading the pass's fields.

ghost use Rattle.std.specs.{Prelude.{◌≡◌, ◌↔◌, ◌++◌, ◌∷◌, ℕ, IsTrue, List, [], map}, Str.bytes_eq};
ghost use Rattle.pass_mac.specs.Chain.{extended_signature};
ghost use Rattle.pass_forms.specs.FieldSource.{AreSignedBy, caveat_field, signature_field};

use crate::{Field, FieldSource};
use pass_mac::{Chain, same};

/// Returns whether a pass is signed under a root. The argument `chain` must be the chain of the
/// pass's identifier under this root. The source must have returned the location and the identifier
/// already. The function adds the remaining caveats to the chain and compares the chain's signature
/// with the pass's signature. The function returns false if a location or an identifier remains
/// before the signature.
#[tactic(auto, using(crate::proofs::ReadingLemmas::signed_behind))]
pub fn is_signed_by<'a, F: FieldSource<'a>>(mut chain: Chain, source: &mut F) -> bool
    ensures signed { IsTrue result ↔ AreSignedBy chain (F.left source.old) }
    ensures of_pass { (caveats : List (List ℕ)) (signature : List ℕ)
        → F.left source.old ≡ map caveat_field caveats ++ signature_field signature ∷ []
        → result ≡ bytes_eq (extended_signature chain caveats) signature }
{
    while let Some(field) = source.next() {
        match field {
            Field::Caveat(caveat) => chain.add(caveat),
            Field::Signature(signature) => return same(&chain.signature(), &signature),
            Field::Location(_) | Field::Identifier(_) => return false,
        }
    }
    false
}
