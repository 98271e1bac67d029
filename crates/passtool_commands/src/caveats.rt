//! The caveats in the arguments of a command.

ghost use Rattle.std.specs.Prelude.{◌≡◌, IfOk, map, not, position};
ghost use Rattle.passtool_commands.specs.Arguments as spec;
ghost use Rattle.passtool_commands.specs.computed.Arguments.{is_understood};

use pass_caveats::read;
use std::alloc::{AllocError, Global};
use std::marker::Model;

/// The texts of caveats, in the order of the arguments.
#[derive(Drop)]
pub struct Caveats<'a> {
    texts: Vec<&'a str>,
}

impl<'a> Model for Caveats<'a> {
    ghost use Rattle.std.specs.Prelude.{ℕ, List, map};

    ghost Value = { List (List ℕ) };

    ghost view = { λ caveats. map (λ text. text.now) caveats.texts.items };
}

impl<'a> Caveats<'a> {
    /// Copies the list of references to the caveats.
    pub fn new(alloc: Global, texts: &[&'a str]) -> Result<Caveats<'a>, AllocError>
        ensures { IfOk result (λ caveats. caveats ≡ map (λ text. text.now) texts.now) }
    {
        let texts = Vec::from_slice(alloc, texts)?;
        Ok(Caveats { texts })
    }

    /// Returns the caveats in the order of the arguments.
    pub fn as_slice(&self) -> &[&'a str]
        ensures { map (λ text. text.now) result.now ≡ self.now }
    {
        self.texts.as_slice()
    }

    /// Returns the index, counted from 0, of the first text that isn't a caveat of the caveat
    /// language.
    pub fn first_unknown(&self) -> Option<usize>
        ensures { result ≡ spec.first_unknown is_understood self.now }
    {
        place_of_unknown(self.as_slice())
    }
}

fn place_of_unknown(texts: &[&str]) -> Option<usize>
    ensures { result ≡ position (λ text. not (is_understood text.now)) texts.now }
{
    texts
        .iter()
        .position(|text| read(text.as_bytes()).is_none())
}
