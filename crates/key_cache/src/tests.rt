//! Tests which keys are cached after lookups and insertions.

use super::*;
use std::fmt::Debug;
use std::process::Abort;

// Two roots and their derived keys. An independent program computed the derived keys in the same
// way as libmacaroons.
const ROOT: &[u8; 16] = b"\x00\x11\x22\x33\x44\x55\x66\x77\x88\x99\xaa\xbb\xcc\xdd\xee\xff";

const DERIVED: &[u8; 32] =
    b"\x4a\x02\x89\xd7\x9c\x6e\x7f\x08\xc9\x86\xed\xd7\x2b\x0a\xc8\xec\x88\xab\x21\xea\x68\x08\xbc\x0d\xf0\x2a\x07\x2a\xca\xff\x06\x7a";

const OTHER_ROOT: &[u8; 16] = b"\xff\xee\xdd\xcc\xbb\xaa\x99\x88\x77\x66\x55\x44\x33\x22\x11\x00";

const OTHER_DERIVED: &[u8; 32] =
    b"\xd3\xdb\x74\x81\x30\xe1\xd9\xf4\x47\x2b\x10\xa4\xf4\x23\xa7\x9b\x06\x9b\x44\x9f\x3d\xb1\xef\x92\x1a\x3e\x59\xb2\x10\x27\x00\x97";

fn expect_eq<T: PartialEq + Debug>(rt: &impl Abort, returned: &T, want: &T) {
    assert_eq!(rt; returned, want);
}

fn name(rt: &impl Abort, text: &[u8]) -> Name {
    Name::read(text).expect(rt, "a name")
}

fn root(rt: &impl Abort, bytes: &[u8; 16]) -> Root {
    Root::new(bytes).expect(rt, "a root")
}

fn expect_kept(rt: &impl Abort, keys: &KeptKeys, name: &Name, root: &Root, want: Option<[u8; 32]>) {
    expect_eq(rt, &keys.kept(name, root).map(|key| *key.bytes()), &want);
}

fn expect_derived(rt: &impl Abort, keys: &KeptKeys, name: &Name, root: &Root, want: &[u8; 32]) {
    expect_eq(rt, keys.derived(name, root).bytes(), want);
}

// Looks up a derived key and then caches it. The desk also does this when a pass is signed under
// the key's current root.
fn derive_and_keep(
    rt: &impl Abort,
    keys: &mut KeptKeys,
    name: &Name,
    root: &Root,
    want: &[u8; 32],
) {
    let key = keys.derived(name, root);
    expect_eq(rt, key.bytes(), want);
    keys.keep(name, key);
}

// Checks that the derived key of this root isn't cached. Then computes and caches the derived key.
fn is_derived_anew(
    rt: &impl Abort,
    keys: &mut KeptKeys,
    name: &Name,
    root: &Root,
    want: &[u8; 32],
) {
    expect_kept(rt, keys, name, root, None);
    derive_and_keep(rt, keys, name, root, want);
    expect_kept(rt, keys, name, root, Some(*want));
}

// Pairs of a root and its derived key. The third pair equals the first pair.
static IN_TURN: [(&[u8; 16], &[u8; 32]); 3] = [
    (ROOT, DERIVED),
    (OTHER_ROOT, OTHER_DERIVED),
    (ROOT, DERIVED),
];

fn are_derived_anew(
    rt: &(impl Abort + AllocGlobal),
    rows: &[(&'static [u8; 16], &'static [u8; 32])],
) {
    let name = name(rt, b"amy-1");
    let mut keys = KeptKeys::new(rt.alloc());
    for (bytes, want) in rows {
        is_derived_anew(rt, &mut keys, &name, &root(rt, bytes), want);
    }
}

// A derived key that is cached for one root isn't used for another root. For each name, the cache
// keeps only the derived key that was stored last.
#[test]
fn keeps_a_key_beside_its_root(rt: HostRuntime) {
    are_derived_anew(&rt, &IN_TURN);
}

// Derives and caches keys under the names `00`, `01` and so on.
fn derive_many(rt: &impl Abort, keys: &mut KeptKeys, root: &Root, count: u8) {
    for number in 0..count {
        let name = name(rt, &[b'0' + number / 10 % 10, b'0' + number % 10]);
        derive_and_keep(rt, keys, &name, root, DERIVED);
    }
}

// When the 65th key is stored, the cache drops the key that was stored first. The first key must
// then be computed again.
#[test]
fn keeps_the_last_of_many_keys(rt: HostRuntime) {
    let root = root(&rt, ROOT);
    let mut keys = KeptKeys::new(rt.alloc());
    derive_many(&rt, &mut keys, &root, 65);
    expect_kept(&rt, &keys, &name(&rt, b"01"), &root, Some(*DERIVED));
    is_derived_anew(&rt, &mut keys, &name(&rt, b"00"), &root, DERIVED);
}

// The first of 64 keys is stored again, and then a 65th key is stored. The cache keeps the first
// key and drops the second key.
#[test]
fn keeps_a_key_that_is_used_again(rt: HostRuntime) {
    let root = root(&rt, ROOT);
    let mut keys = KeptKeys::new(rt.alloc());
    derive_many(&rt, &mut keys, &root, 64);
    derive_and_keep(&rt, &mut keys, &name(&rt, b"00"), &root, DERIVED);
    derive_and_keep(&rt, &mut keys, &name(&rt, b"amy-1"), &root, DERIVED);
    expect_kept(&rt, &keys, &name(&rt, b"00"), &root, Some(*DERIVED));
    expect_kept(&rt, &keys, &name(&rt, b"01"), &root, None);
}

// A lookup alone doesn't change the cache. A rotation gives a key a new root. The derived key of
// the older root can stay in the cache until the desk checks a pass that is signed under the new
// root.
#[test]
fn keeps_a_key_until_another_is_kept(rt: HostRuntime) {
    let (root, older) = (root(&rt, ROOT), root(&rt, OTHER_ROOT));
    let name = name(&rt, b"amy-1");
    let mut keys = KeptKeys::new(rt.alloc());
    derive_and_keep(&rt, &mut keys, &name, &older, OTHER_DERIVED);
    expect_derived(&rt, &keys, &name, &root, DERIVED);
    expect_kept(&rt, &keys, &name, &root, None);
    expect_kept(&rt, &keys, &name, &older, Some(*OTHER_DERIVED));
    derive_and_keep(&rt, &mut keys, &name, &root, DERIVED);
    expect_kept(&rt, &keys, &name, &older, None);
    expect_derived(&rt, &keys, &name, &older, OTHER_DERIVED);
}

// Without memory for the cache, each key is computed at every lookup.
#[test]
fn derives_without_a_cache(rt: HostRuntime) {
    let (name, root) = (name(&rt, b"amy-1"), root(&rt, ROOT));
    let mut keys = KeptKeys { cache: None };
    derive_and_keep(&rt, &mut keys, &name, &root, DERIVED);
    expect_kept(&rt, &keys, &name, &root, None);
    expect_derived(&rt, &keys, &name, &root, DERIVED);
}
