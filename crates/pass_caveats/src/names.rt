//! Defines lists of names in a caveat.

ghost use Rattle.std.specs.Prelude.{◌≡◌, ◌↔◌, IsTrue, Contains};
ghost use Rattle.club_values.specs.Number.{Reads};
ghost use Rattle.pass_caveats.specs.Choices.{AreNames, comma_list};

use crate::parts::{are_all_names, count_of_parts, has_part};
use club_values::Name;
use std::marker::Model;

/// The maximum number of names in a caveat.
pub const MAX_NAMES: usize = 8;

/// A comma-separated list of one to eight names, borrowed from a text. Contracts see a `Names` as a
/// list of names.
#[derive(Debug, Drop)]
pub struct Names<'a> {
    text: &'a [u8],
}

impl<'a> Model for Names<'a> {
    ghost use Rattle.std.specs.Prelude.{ℕ, List};

    ghost Value = { List (List ℕ) };

    ghost use Rattle.pass_caveats.specs.Choices.{AreNames, comma_parts};

    ghost view = { λ names. comma_parts names.text.now };

    ghost invariant = { λ names. AreNames (comma_parts names.text.now) };
}

impl<'a> Names<'a> {
    /// Parses a comma-separated list of one to eight names. Returns `None` for any other text.
    pub fn read(text: &'a [u8]) -> Option<Names<'a>>
        ensures { Reads (λ names. AreNames names × (text.now ≡ comma_list names)) result }
    {
        if are_all_names(text) && count_of_parts(text) <= MAX_NAMES {
            Some(Names { text })
        } else {
            None
        }
    }

    /// Returns whether a name is in the list.
    pub fn contains(&self, name: &Name) -> bool
        ensures { IsTrue result ↔ Contains self.now name.now }
    {
        has_part(self.text, name.as_bytes())
    }
}
