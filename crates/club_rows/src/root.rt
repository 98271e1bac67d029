//! The roots of keys. A root is the secret that signs a key's passes.

ghost use Rattle.std.specs.Cmp.{partial_equiv_from_equiv, Lexicographic.pointwise};
ghost use Rattle.std.specs.{Cmp.Lexicographic.nat_list_eq_equiv, Prelude.{◌≡◌, ◌↔◌, IsTrue}};
ghost use Rattle.std.specs.Prelude.{IsSome, IfSome, nat_eq};
ghost use Rattle.club_rows.specs.Rows.{IsRoot};

use club_values::InlineBytes;
use std::fmt;
use std::marker::Model;

/// The minimum number of bytes in a root.
pub const MIN_ROOT_LEN: usize = 16;

/// The maximum number of bytes in a root.
pub const MAX_ROOT_LEN: usize = 64;

/// The secret that signs a key's passes. A root has 16 to 64 bytes. Contracts represent a root as
/// the list of its bytes.
#[derive(Clone, Copy)]
pub struct Root {
    bytes: InlineBytes<MAX_ROOT_LEN>,
}

impl Model for Root {
    ghost use Rattle.std.specs.Prelude.{ℕ, List};

    ghost Value = { List ℕ };

    ghost use Rattle.club_rows.specs.Rows.{IsRoot};

    ghost view = { λ root. root.bytes };

    ghost invariant = { λ root. IsRoot root.bytes };

    ghost inverse = { λ bytes. record { bytes = bytes } };
}

impl Root {
    /// Returns the root with these bytes. Returns `None` for fewer than 16 or more than 64 bytes.
    pub fn new(bytes: &[u8]) -> Option<Root>
        ensures within { IsSome result ↔ IsRoot bytes.now }
        ensures value { IfSome result (λ root. root ≡ bytes.now) }
    {
        if bytes.len() < MIN_ROOT_LEN {
            return None;
        }
        let bytes = InlineBytes::new(bytes)?;
        Some(Root { bytes })
    }

    /// Returns the bytes of the root.
    pub fn as_bytes(&self) -> &[u8]
        ensures value { result.now ≡ self.now }
        ensures within { IsRoot result.now }
    {
        self.bytes.as_bytes()
    }
}

impl PartialEq for Root {
    ghost eq = { pointwise nat_eq };

    ghost laws = { partial_equiv_from_equiv nat_list_eq_equiv };

    fn eq(&self, other: &Root) -> bool
        ensures value { result ≡ pointwise nat_eq self.now other.now }
        ensures same { IsTrue result ↔ (self.now ≡ other.now) }
    {
        self.as_bytes() == other.as_bytes()
    }
}

impl Eq for Root {
    ghost laws = { nat_list_eq_equiv };
}

/// Prints none of the root's bytes, because they are secret.
impl fmt::Debug for Root {
    ghost use Rattle.std.specs.Prelude.{Some, codes};

    ghost debug_output = { λ root. Some (codes "Root(..)") };

    fn fmt<W: fmt::Write>(&self, f: &mut fmt::Formatter<W>) -> fmt::Result {
        f.write_str("Root(..)")
    }
}
