//! Laws about the definitions in `specs/`. Each law is the contract of a function with an empty
//! body.

ghost use Rattle.pass_calls.specs.Object.{ReadablePassesFit};

/// An object has room for every pass that a text encodes in any form.
pub fn readable_passes_fit()
    ensures { ReadablePassesFit }
{}
