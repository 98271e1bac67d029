//! HMAC, key derivation and the signature chain.

use crate::calls::hmac;
use crate::rows::{Host, expect_eq};
use crate::v1::{BARE_FIELDS, KNOWN_FIELDS, ROOT};
use pass_mac::{Chain, derive, same};

type Mac = (&'static [u8], &'static [u8], &'static [u8; 32]);

// Cases of RFC 4231, section 4, and two cases from an independent program. In these two cases, the
// keys have 64 bytes (a block's length) and 65 bytes.
static CASES: [Mac; 8] = [
    (
        &[0x0b; 20],
        b"Hi There",
        b"\xb0\x34\x4c\x61\xd8\xdb\x38\x53\x5c\xa8\xaf\xce\xaf\x0b\xf1\x2b\x88\x1d\xc2\x00\xc9\x83\x3d\xa7\x26\xe9\x37\x6c\x2e\x32\xcf\xf7",
    ),
    (
        b"Jefe",
        b"what do ya want for nothing?",
        b"\x5b\xdc\xc1\x46\xbf\x60\x75\x4e\x6a\x04\x24\x26\x08\x95\x75\xc7\x5a\x00\x3f\x08\x9d\x27\x39\x83\x9d\xec\x58\xb9\x64\xec\x38\x43",
    ),
    (
        &[0xaa; 20],
        &[0xdd; 50],
        b"\x77\x3e\xa9\x1e\x36\x80\x0e\x46\x85\x4d\xb8\xeb\xd0\x91\x81\xa7\x29\x59\x09\x8b\x3e\xf8\xc1\x22\xd9\x63\x55\x14\xce\xd5\x65\xfe",
    ),
    (
        b"\x01\x02\x03\x04\x05\x06\x07\x08\x09\x0a\x0b\x0c\x0d\x0e\x0f\x10\x11\x12\x13\x14\x15\x16\x17\x18\x19",
        &[0xcd; 50],
        b"\x82\x55\x8a\x38\x9a\x44\x3c\x0e\xa4\xcc\x81\x98\x99\xf2\x08\x3a\x85\xf0\xfa\xa3\xe5\x78\xf8\x07\x7a\x2e\x3f\xf4\x67\x29\x66\x5b",
    ),
    (
        &[0xaa; 131],
        b"Test Using Larger Than Block-Size Key - Hash Key First",
        b"\x60\xe4\x31\x59\x1e\xe0\xb6\x7f\x0d\x8a\x26\xaa\xcb\xf5\xb7\x7f\x8e\x0b\xc6\x21\x37\x28\xc5\x14\x05\x46\x04\x0f\x0e\xe3\x7f\x54",
    ),
    (
        &[0xaa; 131],
        b"This is a test using a larger than block-size key and a larger than block-size data. The key needs to be hashed before being used by the HMAC algorithm.",
        b"\x9b\x09\xff\xa7\x1b\x94\x2f\xcb\x27\x63\x5f\xbc\xd5\xb0\xe9\x44\xbf\xdc\x63\x64\x4f\x07\x13\x93\x8a\x7f\x51\x53\x5c\x3a\x35\xe2",
    ),
    (
        &[0xaa; 64],
        b"Hi There",
        b"\xeb\xef\x34\xe1\x3d\x0a\x0f\xe0\x45\x93\xd0\x43\xbc\x7a\x86\x51\x06\xdb\x06\x04\x21\x1d\x40\x4c\x18\x20\x6d\x86\x2e\x5d\x78\x52",
    ),
    (
        &[0xaa; 65],
        b"Hi There",
        b"\x00\xaf\x6c\x42\x34\x0b\x99\xe2\xe1\xd9\xa1\xcd\xf1\x54\x7b\xe4\x31\xfe\x2e\x9b\xab\x32\x15\xc6\x8d\x01\x3b\xa8\x58\x89\x19\x27",
    ),
];

// Case 5 of RFC 4231 has only 16 bytes of output.
const FRONT: &[u8] = b"\xa3\xb6\x16\x74\x73\x10\x0e\xe0\x6e\x0c\x79\x6c\x29\x55\x55\x2b";

#[test]
fn macs_of_the_rfc(rt: HostRuntime) {
    for (key, text, mac) in &CASES {
        expect_eq(&rt, hmac(key, text), **mac, text);
    }
    let mac = hmac(&[0x0c; 20], b"Test With Truncation");
    expect_eq(&rt, &mac[..16], FRONT, &"case 5");
}

const CAVEAT: &[u8] = b"test = caveat";

#[test]
fn chain_of_a_known_root(rt: HostRuntime) {
    let (bare, known) = (&BARE_FIELDS, &KNOWN_FIELDS);
    let mut chain = Chain::start(ROOT, bare.identifier);
    expect_eq(&rt, chain.signature(), *bare.signature, &"bare");
    chain.add(CAVEAT);
    expect_eq(&rt, chain.signature(), *known.signature, &"known");
}

fn expect_same(rt: &impl Host, a: &[u8; 32], b: &[u8; 32], alike: bool) {
    expect_eq(rt, same(a, b), alike, &(a, b));
}

// If the chain's key is the root itself instead of the derived key, the signature differs.
#[test]
fn chain_resumes_from_a_signature_or_a_key(rt: HostRuntime) {
    let (bare, known) = (&BARE_FIELDS, &KNOWN_FIELDS);
    let mut chain = Chain::resume(*bare.signature);
    chain.add(CAVEAT);
    expect_same(&rt, &chain.signature(), known.signature, true);
    let chain = Chain::from_key(&derive(ROOT), bare.identifier);
    expect_same(&rt, &chain.signature(), bare.signature, true);
    let raw = hmac(ROOT, bare.identifier);
    expect_same(&rt, &raw, bare.signature, false);
}
