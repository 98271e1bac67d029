//! Laws about the signature chain. Each law is the contract of a function with an empty body.

ghost use Rattle.pass_mac.specs.Chain.{GrowsByOneHmac, NarrowsWithoutTheKey};

/// States that the signature of a chain with one more caveat is the HMAC of this caveat, with the
/// old signature as the key.
pub fn grows_by_one_hmac()
    ensures { GrowsByOneHmac }
{}

/// States that caveats can be added to a chain without the derived key. Adding them to the chain's
/// signature gives the signature of the chain with all caveats.
pub fn narrows_without_the_key()
    ensures { NarrowsWithoutTheKey }
{}
