//! The passes that the office issues.

ghost use Rattle.std.specs.Prelude.{◌≡◌, ℕ, List, IfOk};
ghost use Rattle.club_gate.specs.DecodedPass.{key_pass, minted_signature};
ghost use Rattle.pass_forms.specs.Pass.{IsSigned};

use crate::identifier::KEY_PREFIX;
use club_rows::Root;
use club_values::Name;
use pass_forms::Pass;
use pass_mac::Chain;
use std::alloc::{AllocError, Global};

/// The location of the passes that the office issues.
pub const LOCATION: &[u8; 9] = b"club-desk";

/// The maximum length of a key's identifier, in bytes.
const MAX_IDENTIFIER_LEN: usize = 28;

/// Returns the 32-byte signature of a key's pass without caveats. The signature is computed from
/// the identifier `key:NAME` and a root. Allocates no memory.
pub fn key_signature(name: &Name, root: &Root) -> [u8; 32]
    ensures { result ≡ minted_signature name.now root.now }
{
    let name = name.as_bytes();
    let end = KEY_PREFIX.len() + name.len();
    let mut identifier = [0; MAX_IDENTIFIER_LEN];
    identifier[..KEY_PREFIX.len()].copy_from_slice(KEY_PREFIX);
    identifier[KEY_PREFIX.len()..end].copy_from_slice(name);
    Chain::start(root.as_bytes(), &identifier[..end]).signature()
}

/// Makes a key's pass without caveats. The location is `club-desk`, the identifier is `key:NAME`,
/// and the signature is the given 32 bytes.
///
/// # Errors
///
/// Fails if there is no memory to copy a field.
pub fn minted(alloc: Global, name: &Name, signature: [u8; 32]) -> Result<Pass, AllocError>
    ensures ok { IfOk result (λ pass. pass ≡ key_pass name.now signature) }
    ensures signed { IfOk result (λ pass. (root : List ℕ)
        → signature ≡ minted_signature name.now root
        → IsSigned root pass) }
{
    let location = Vec::from_slice(alloc, LOCATION)?;
    let mut identifier = Vec::from_slice(alloc, KEY_PREFIX)?;
    identifier.extend_from_slice(name.as_bytes())?;
    Ok(Pass::new(location, identifier, Vec::new(alloc), signature))
}
