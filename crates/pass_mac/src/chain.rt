//! Computes the chain of signatures of a pass.

ghost use Rattle.std.specs.Prelude.{◌≡◌, []};

use crate::mac::{derive, hmac};
use std::marker::Model;

/// The current signature of a pass while a caller adds caveats. Adding a caveat replaces the
/// signature with a new HMAC. In contracts, a `Chain` is represented by the 32 bytes of its
/// signature.
#[derive(Drop)]
pub struct Chain {
    signature: [u8; 32],
}

impl Model for Chain {
    ghost use Rattle.std.specs.Prelude.{ℕ, List};

    ghost Value = { List ℕ };

    ghost view = { λ chain. chain.signature };
}

impl Chain {
    ghost use Rattle.std.specs.Prelude.{◌≡◌, []};
    ghost use Rattle.pass_mac.specs.Hmac as spec;
    ghost use Rattle.pass_mac.specs.Chain.{derived_key, chain};

    /// Starts a chain: derives the key from the root, and signs the identifier with the derived
    /// key.
    pub fn start(root: &[u8], identifier: &[u8]) -> Chain
        ensures { result ≡ chain (derived_key root.now) identifier.now [] }
    {
        Chain::from_key(&derive(root), identifier)
    }

    /// Starts a chain: signs the identifier with a derived key.
    pub fn from_key(derived: &[u8; 32], identifier: &[u8]) -> Chain
        ensures { result ≡ chain derived.now identifier.now [] }
    {
        Chain {
            signature: hmac(derived, identifier),
        }
    }

    /// Continues a chain from a signature.
    pub fn resume(signature: [u8; 32]) -> Chain
        ensures { result ≡ signature }
    {
        Chain { signature }
    }

    /// Adds a caveat. The new signature is the HMAC of the caveat, with the old signature as the
    /// key.
    pub fn add(&mut self, caveat: &[u8])
        ensures { self.new ≡ spec.hmac self.old caveat.now }
    {
        self.signature = hmac(&self.signature, caveat);
    }

    /// Returns the current signature.
    pub fn signature(&self) -> [u8; 32]
        ensures { result ≡ self.now }
    {
        self.signature
    }
}
