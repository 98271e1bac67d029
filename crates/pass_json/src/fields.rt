//! Iterates over the fields of a pass that `read_json` or `read_any` returned.

use pass_forms::{Field, FieldSource, Pass, PassFields};
use std::marker::Model;

/// An iterator over the fields of a pass that `read_json` or `read_any` returned. The iterator
/// allocates no memory. In contracts, a `JsonFields` is represented by the list of fields that the
/// iterator hasn't returned yet.
#[derive(Drop)]
pub struct JsonFields<'a> {
    fields: PassFields<'a>,
}

impl<'a> Model for JsonFields<'a> {
    ghost use Rattle.std.specs.Prelude.{List};
    ghost use Rattle.pass_forms.specs.FieldSource.{PassField};

    ghost Value = { List PassField };

    ghost view = { λ source. source.fields };
}

impl<'a> JsonFields<'a> {
    ghost use Rattle.std.specs.Prelude.{◌≡◌};
    ghost use Rattle.pass_forms.specs.FieldSource.{pass_fields};

    /// Returns an iterator over all fields of the pass. Allocates no memory.
    pub fn over(pass: &'a Pass) -> JsonFields<'a>
        ensures { result ≡ pass_fields pass.now }
    {
        JsonFields {
            fields: pass.fields(),
        }
    }
}

impl<'a> FieldSource<'a> for JsonFields<'a> {
    ghost left = { λ fields. fields };

    fn next(&mut self) -> Option<Field<'a>> {
        self.fields.next()
    }

    fn again(&self) -> JsonFields<'a> {
        JsonFields {
            fields: self.fields.again(),
        }
    }
}
