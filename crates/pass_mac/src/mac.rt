//! Computes HMAC-SHA-256 and derived keys, and compares signatures.

ghost use Rattle.std.specs.{Prelude.{◌≡◌, ◌↔◌, IsTrue}, Str.bytes_eq};
ghost use Rattle.pass_mac.specs.Hmac as spec;
ghost use Rattle.pass_mac.specs.Chain.{derived_key};

use sha2::{Digest, Sha256};

const BLOCK_LEN: usize = 64;

const INNER_PAD: u8 = 0x36;

const OUTER_PAD: u8 = 0x5c;

const DERIVATION_KEY: &[u8; 23] = b"macaroons-key-generator";

#[tactic(auto, unfolding(crate::specs::Hmac::key_block))]
fn key_block(key: &[u8]) -> [u8; BLOCK_LEN]
    ensures { result ≡ spec.key_block key.now }
{
    let mut block = [0; BLOCK_LEN];
    if key.len() > BLOCK_LEN {
        block[..32].copy_from_slice(&Sha256::digest(key));
    } else {
        block[..key.len()].copy_from_slice(key);
    }
    block
}

fn masked_block(block: &[u8; BLOCK_LEN], pad: u8) -> [u8; BLOCK_LEN]
    ensures { result ≡ spec.masked_block pad block.now }
{
    let mut bytes = *block;
    for byte in bytes.iter_mut() {
        *byte ^= pad;
    }
    bytes
}

/// Returns the HMAC-SHA-256 of a text (RFC 2104). The key may have any length.
#[tactic(auto, unfolding(crate::specs::Hmac::hmac))]
pub fn hmac(key: &[u8], text: &[u8]) -> [u8; 32]
    ensures { result ≡ spec.hmac key.now text.now }
{
    let block = key_block(key);
    let mut inner = Sha256::new();
    inner.update(masked_block(&block, INNER_PAD));
    inner.update(text);
    let mut outer = Sha256::new();
    outer.update(masked_block(&block, OUTER_PAD));
    outer.update(inner.finalize());
    outer.finalize()
}

/// Returns the 32-byte key that libmacaroons derives from a root. The root may have any length.
#[tactic(auto, unfolding(crate::specs::Chain::derived_key))]
pub fn derive(root: &[u8]) -> [u8; 32]
    ensures { result ≡ derived_key root.now }
{
    hmac(DERIVATION_KEY, root)
}

/// Returns whether two signatures are equal. The running time may depend on the bytes of the
/// signatures.
pub fn same(a: &[u8; 32], b: &[u8; 32]) -> bool
    ensures value { result ≡ bytes_eq a.now b.now }
    ensures equal { IsTrue result ↔ (a.now ≡ b.now) }
{
    a == b
}
