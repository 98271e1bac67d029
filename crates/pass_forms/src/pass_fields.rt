//! Iterates over the fields of a pass in memory.

use crate::{Field, FieldSource};
use std::marker::Model;

/// An iterator over the fields of a pass in memory. In contracts, a `PassFields` is represented by
/// the list of fields that the iterator hasn't returned yet.
#[derive(Drop)]
pub struct PassFields<'a> {
    pub(crate) location: Option<&'a [u8]>,
    pub(crate) identifier: Option<&'a [u8]>,
    pub(crate) caveats: &'a [Vec<u8>],
    pub(crate) signature: Option<[u8; 32]>,
}

impl<'a> Model for PassFields<'a> {
    ghost use Rattle.std.specs.Prelude.{List, map};
    ghost use Rattle.pass_forms.specs.FieldSource.{PassField, those_left};

    ghost Value = { List PassField };

    ghost view = { λ fields. those_left (λ bytes. bytes.now) fields.location fields.identifier
        (map (λ caveat. caveat.items) fields.caveats.now) fields.signature };
}

impl<'a> FieldSource<'a> for PassFields<'a> {
    ghost left = { λ fields. fields };

    fn next(&mut self) -> Option<Field<'a>> {
        if let Some(location) = self.location.take() {
            return Some(Field::Location(location));
        }
        if let Some(identifier) = self.identifier.take() {
            return Some(Field::Identifier(identifier));
        }
        if let Some((caveat, others)) = self.caveats.split_first() {
            self.caveats = others;
            return Some(Field::Caveat(caveat));
        }
        let signature = self.signature.take()?;
        Some(Field::Signature(signature))
    }

    fn again(&self) -> PassFields<'a> {
        PassFields {
            location: self.location,
            identifier: self.identifier,
            caveats: self.caveats,
            signature: self.signature,
        }
    }
}
