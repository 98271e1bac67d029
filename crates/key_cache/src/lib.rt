//! Caches at most 64 derived keys, each with its root. When a full cache stores a derived key under
//! a new name, the cache drops the derived key that was stored least recently.
#![tactic(auto)]

use club_rows::Root;
use club_values::Name;
use lru::LruCache;
use pass_mac::derive;
use std::alloc::Global;
use std::marker::Model;
use std::num::NonZeroUsize;

/// The maximum number of derived keys in the cache.
pub const MAX_KEPT_KEYS: usize = 64;

/// A root together with its derived key. In contracts, a `DerivedKey` is represented by its root.
#[derive(Clone, Copy)]
pub struct DerivedKey {
    root: Root,
    bytes: [u8; 32],
}

impl Model for DerivedKey {
    ghost use Rattle.std.specs.Prelude.{◌≡◌, ℕ, List};
    ghost use Rattle.pass_mac.specs.Chain.{derived_key};

    ghost Value = { List ℕ };

    ghost view = { λ key. key.root };

    ghost invariant = { λ key. key.bytes ≡ derived_key key.root };

    ghost inverse = { λ root. record { root = root; bytes = derived_key root } };
}

impl DerivedKey {
    ghost use Rattle.std.specs.Prelude.{◌≡◌};
    ghost use Rattle.pass_mac.specs.Chain.{derived_key};

    /// Computes the derived key of a root.
    fn of(root: &Root) -> DerivedKey
        ensures { result ≡ root.now }
    {
        DerivedKey {
            root: *root,
            bytes: derive(root.as_bytes()),
        }
    }

    /// Returns the derived key, which has 32 bytes.
    pub fn bytes(&self) -> &[u8; 32]
        ensures { result.now ≡ derived_key self.now }
    {
        &self.bytes
    }
}

/// A cache of at most 64 derived keys. Each derived key is stored under the name of a member's key.
/// When a full cache stores a derived key under a new name, the cache drops the derived key that
/// was stored least recently. If the allocation of the cache fails, the cache stays empty.
#[derive(Drop)]
pub struct KeptKeys {
    cache: Option<LruCache<Name, DerivedKey>>,
}

impl KeptKeys {
    ghost use Rattle.std.specs.Prelude.{◌≡◌, IfSome};
    ghost use Rattle.key_cache.specs.Kept.{IsFresh};

    /// Returns an empty cache with room for 64 derived keys. If memory runs out, the cache can't
    /// store any derived key.
    pub fn new(alloc: Global) -> KeptKeys
        ensures { IsFresh result }
    {
        let Some(capacity) = NonZeroUsize::new(MAX_KEPT_KEYS) else {
            return KeptKeys { cache: None };
        };
        KeptKeys {
            cache: LruCache::new(alloc, capacity).ok(),
        }
    }

    /// Returns the derived key that is cached under this name, or `None` if no key is cached under
    /// this name. Also returns `None` if the cached key was derived from another root.
    fn kept(&self, name: &Name, root: &Root) -> Option<DerivedKey>
        ensures { IfSome result (λ key. key ≡ root.now) }
    {
        let kept = self.cache.as_ref()?.peek(name)?;
        if kept.root != *root {
            return None;
        }
        Some(*kept)
    }

    /// Returns the derived key of a root. Computes the derived key unless the cache has this key
    /// under `name`. Doesn't change the cache.
    pub fn derived(&self, name: &Name, root: &Root) -> DerivedKey
        ensures { result ≡ root.now }
    {
        self.kept(name, root)
            .unwrap_or_else(|| DerivedKey::of(root))
    }

    /// Stores a derived key under this name, and replaces any derived key that already has this
    /// name. If memory runs out, the cache is unchanged.
    pub fn keep(&mut self, name: &Name, key: DerivedKey) {
        if let Some(cache) = &mut self.cache {
            let _ = cache.put(*name, key);
        }
    }
}

#[cfg(test)]
mod tests;
