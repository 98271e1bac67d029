//! The identifier of a pass: `key:` and the name of the pass's key.

ghost use Rattle.std.specs.Prelude.{◌≡◌};
ghost use Rattle.club_gate.specs.DecodedPass.{key_name_in as name_of};

use club_values::Name;

/// The prefix of an identifier, before the name of the key.
pub(crate) const KEY_PREFIX: &[u8; 4] = b"key:";

/// Returns the name of the key in an identifier. Returns `None` unless the identifier is `key:`
/// followed by a valid name.
#[tactic(auto, unfolding(crate::specs::DecodedPass::key_name_in))]
pub(crate) fn key_name_in(identifier: &[u8]) -> Option<Name>
    ensures { result ≡ name_of identifier.now }
{
    Name::read(identifier.strip_prefix(KEY_PREFIX)?)
}
