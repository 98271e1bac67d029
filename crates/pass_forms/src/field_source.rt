//! Reads the fields of a pass one after another.

/// One field of a pass. The bytes of a location, an identifier or a caveat are a slice of the input
/// or of a `Pass` in memory.
#[derive(Clone, Copy, Debug, Drop, PartialEq, Eq)]
pub enum Field<'a> {
    /// A hint about where the pass is valid. The location may be empty.
    Location(&'a [u8]),
    /// The identifier of the pass. The identifier names the root that signed the pass.
    Identifier(&'a [u8]),
    /// A first-party caveat.
    Caveat(&'a [u8]),
    /// The signature of the pass. A valid signature is the last signature of the pass's chain.
    Signature([u8; 32]),
}

/// An iterator over the fields of a pass, in order. The location and the identifier come first, and
/// the signature comes last. No call allocates memory.
pub trait FieldSource<'a> {
    ghost use Rattle.std.specs.Prelude.{◌≡◌, List, [], ◌∷◌, IfNone, IfSome};
    ghost use Rattle.pass_forms.specs.FieldSource.{PassField, as_field};

    // The fields that the source hasn't returned yet.
    ghost left: { Self → List PassField };

    /// Returns the next field, or `None` after the last field.
    fn next(&mut self) -> Option<Field<'a>>
        ensures some { IfSome result (λ field. left self.old ≡ as_field field ∷ left self.new) }
        ensures none { IfNone result ((left self.old ≡ []) × (left self.new ≡ [])) };

    /// Returns a second source of the remaining fields, so that a caller can scan the fields twice.
    /// Allocates no memory.
    fn again(&self) -> Self
        ensures { left result ≡ left self.now };
}
