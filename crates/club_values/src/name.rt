//! The names of members, keys and facilities.

ghost use Rattle.std.{proofs.Common.rules, specs.Cmp.partial_equiv_from_equiv};
ghost use Rattle.std.specs.Cmp.Lexicographic.{pointwise, slice_cmp, nat_list_eq_equiv};
ghost use Rattle.std.specs.Cmp.Lexicographic.{nat_list_cmp_total, texts_ties, texts_po};
ghost use Rattle.std.specs.{Cmp.Rules.hashing, Ordering.nat_cmp, Prelude.{◌≡◌, ◌↔◌, IsTrue}};
ghost use Rattle.std.specs.Prelude.{IsSome, IfSome, Some, nat_eq, refl};
ghost use Rattle.club_values.specs.{Name.IsName, Number.Reads, computed.TextOf.name_of_text};
ghost use Rattle.std.specs.Hash as fed;
ghost use Rattle.club_values.specs.Name as spec;

use crate::ascii::text_of;
use crate::inline_bytes::InlineBytes;
use std::cmp::Ordering;
use std::fmt;
use std::hash::{Hash, Hasher};
use std::marker::Model;

/// The maximum length of a name, in bytes.
pub const MAX_NAME_LEN: usize = 24;

/// A name of a member, a key or a facility: 1 to 24 bytes of `a` to `z`, `0` to `9` and `-`. The
/// first byte isn't `-`. Contracts represent a name by its list of bytes. Names are ordered by
/// their bytes.
#[derive(Clone, Copy)]
pub struct Name {
    bytes: InlineBytes<MAX_NAME_LEN>,
}

impl Model for Name {
    ghost use Rattle.std.specs.Prelude.{ℕ, List};

    ghost Value = { List ℕ };

    ghost use Rattle.club_values.specs.Name.{IsName};

    ghost view = { λ name. name.bytes };

    ghost invariant = { λ name. IsName name.bytes };

    ghost inverse = { λ bytes. record { bytes = bytes } };
}

fn is_name_byte(byte: u8) -> bool
    ensures { result ≡ spec.is_name_byte byte }
{
    matches!(byte, b'a'..=b'z' | b'0'..=b'9' | b'-')
}

fn name_in(text: &[u8]) -> Option<Name>
    ensures { Reads (λ name. IsName text.now × (name ≡ text.now)) result }
{
    let bytes = InlineBytes::new(text)?;
    if Name::is_name(text) {
        Some(Name { bytes })
    } else {
        None
    }
}

impl Name {
    /// Returns whether the bytes form a valid name.
    pub fn is_name(text: &[u8]) -> bool
        ensures { IsTrue result ↔ IsName text.now }
    {
        text.len() <= MAX_NAME_LEN
            && text.first().is_some_and(|first| *first != b'-')
            && text.iter().all(|byte| is_name_byte(*byte))
    }

    /// Returns the text as a name, or `None` if the text isn't a valid name.
    pub fn read(text: &[u8]) -> Option<Name>
        ensures named { IsSome result ↔ IsName text.now }
        ensures value { IfSome result (λ name. name ≡ text.now) }
        ensures function { result ≡ name_of_text text.now }
    {
        name_in(text)
    }

    /// Returns the bytes of the name.
    pub fn as_bytes(&self) -> &[u8]
        ensures value { result.now ≡ self.now }
        ensures name { IsName result.now }
    {
        self.bytes.as_bytes()
    }

    /// Returns the name as text.
    pub fn as_str(&self) -> &str
        ensures value { result.now ≡ self.now }
        ensures name { IsName result.now }
    {
        text_of(self.as_bytes())
    }
}

impl PartialEq for Name {
    ghost eq = { pointwise nat_eq };

    ghost laws = { partial_equiv_from_equiv nat_list_eq_equiv };

    fn eq(&self, other: &Name) -> bool
        ensures value { result ≡ pointwise nat_eq self.now other.now }
        ensures same { IsTrue result ↔ (self.now ≡ other.now) }
    {
        self.as_bytes() == other.as_bytes()
    }
}

impl Eq for Name {
    ghost laws = { nat_list_eq_equiv };
}

impl PartialOrd for Name {
    ghost partial_cmp = { λ a b. Some (slice_cmp nat_cmp a b) };

    ghost laws = { texts_po };

    fn partial_cmp(&self, other: &Name) -> Option<Ordering> {
        Some(self.cmp(other))
    }
}

impl Ord for Name {
    ghost cmp = { slice_cmp nat_cmp };

    ghost total = { nat_list_cmp_total };

    ghost matches_partial_cmp = { λ a b. refl };

    ghost matches_eq = { texts_ties };

    fn cmp(&self, other: &Name) -> Ordering {
        self.as_bytes().cmp(other.as_bytes())
    }
}

impl Hash for Name {
    ghost hash_input = { fed.slice fed.u8 };

    ghost respects_eq = { Prim.search (hashing, rules) };

    fn hash<H: Hasher>(&self, state: &mut H) {
        self.as_bytes().hash(state);
    }
}

impl fmt::Debug for Name {
    fn fmt<W: fmt::Write>(&self, f: &mut fmt::Formatter<W>) -> fmt::Result {
        write!(f, "{:?}", self.as_str())
    }
}

impl fmt::Display for Name {
    ghost output = { λ name. Some name };

    fn fmt<W: fmt::Write>(&self, f: &mut fmt::Formatter<W>) -> fmt::Result {
        f.write_str(self.as_str())
    }
}
