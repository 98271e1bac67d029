//! Defines passes in memory. A caller can mint a pass, narrow the pass, and check the pass against
//! a root.

ghost use Rattle.std.specs.Prelude.{◌≡◌, ◌↔◌, ◌≤◌, ℕ, List, Err, IfErr, OnErr, OnOk, length, map};
ghost use Rattle.pass_mac.specs.Chain.{chain, derived_key};
ghost use Rattle.pass_forms.specs.{Pass.IsSigned, Reading.max_caveats};
ghost use Rattle.pass_forms.specs.Writing.{IsNarrowingFault, with_caveat};
ghost use Rattle.pass_forms.specs.declared.fault.FormFault.TheVariants.{Memory, TooMany};

use crate::{Field, FieldSource, FormFault, PassFields, is_signed_by};
use pass_mac::Chain;
use std::alloc::{AllocError, Global};
use std::marker::Model;

/// The maximum number of caveats in a pass.
pub const MAX_CAVEATS: usize = 64;

/// A macaroon with first-party caveats. In contracts, a `Pass` is represented by the record
/// `Plain`.
#[derive(Drop)]
pub struct Pass {
    location: Vec<u8>,
    identifier: Vec<u8>,
    caveats: Vec<Vec<u8>>,
    signature: [u8; 32],
}

/// The parts of a pass, as returned by `Pass::into_parts`.
#[derive(Drop)]
pub struct PassParts {
    /// A hint about where the pass is valid.
    pub location: Vec<u8>,
    /// The identifier, which the signature covers.
    pub identifier: Vec<u8>,
    /// The caveats, in the order in which they were added.
    pub caveats: Vec<Vec<u8>>,
    /// The signature of the pass. A valid signature is the chain's signature after the last caveat.
    pub signature: [u8; 32],
}

impl Model for Pass {
    ghost use Rattle.std.specs.Prelude.{◌≡◌, length, map};
    ghost use Rattle.pass_forms.specs.Pass.{Plain};

    ghost Value = { Plain };

    ghost view = { λ pass. record {
      location = pass.location.items;
      identifier = pass.identifier.items;
      caveats = map (λ caveat. caveat.items) pass.caveats.items;
      signature = pass.signature;
    } };

    ghost invariant = { λ pass. length pass.signature ≡ 32 };
}

impl Pass {
    ghost use Rattle.std.specs.Prelude.{◌≡◌, ◌↔◌, length, map, IfOk, IsTrue, OnOk};
    ghost use Rattle.pass_forms.specs.FieldSource.{as_field, no_fields, pass_fields, with_field};
    ghost use Rattle.pass_forms.specs.{Pass.{IsSigned, minted_pass}, computed.Reading.is_signed};

    /// Makes a pass from its parts, without checking the signature.
    pub fn new(
        location: Vec<u8>,
        identifier: Vec<u8>,
        caveats: Vec<Vec<u8>>,
        signature: [u8; 32],
    ) -> Pass
        ensures { result ≡ record {
          location = location.items;
          identifier = identifier.items;
          caveats = map (λ caveat. caveat.items) caveats.items;
          signature = signature;
        } }
    {
        Pass {
            location,
            identifier,
            caveats,
            signature,
        }
    }

    /// Makes a pass without caveats and signs it under a root. The root may have any length.
    ///
    /// # Errors
    ///
    /// Fails if there is no memory to copy a field.
    pub fn mint(
        alloc: Global,
        root: &[u8],
        location: &[u8],
        identifier: &[u8],
    ) -> Result<Pass, AllocError>
        ensures ok { IfOk result (λ pass. pass ≡ minted_pass root.now location.now identifier.now) }
        ensures signed { IfOk result (IsSigned root.now) }
    {
        let signature = Chain::start(root, identifier).signature();
        let location = Vec::from_slice(alloc, location)?;
        let identifier = Vec::from_slice(alloc, identifier)?;
        Ok(Pass::new(location, identifier, Vec::new(alloc), signature))
    }

    // Returns an empty pass with capacity for `caveat_count` caveats.
    pub(crate) fn with_capacity_for(alloc: Global, caveat_count: usize) -> Result<Pass, AllocError>
        ensures { IfOk result (λ pass. pass ≡ no_fields) }
    {
        Ok(Pass {
            location: Vec::new(alloc),
            identifier: Vec::new(alloc),
            caveats: Vec::with_capacity(alloc, caveat_count)?,
            signature: [0; 32],
        })
    }

    // Copies a field into the pass. A caveat is appended to the list of caveats.
    pub(crate) fn set(&mut self, alloc: Global, field: Field) -> Result<(), AllocError>
        ensures { OnOk result (self.new ≡ with_field self.old (as_field field.entry)) }
    {
        match field {
            Field::Location(bytes) => self.location = Vec::from_slice(alloc, bytes)?,
            Field::Identifier(bytes) => self.identifier = Vec::from_slice(alloc, bytes)?,
            Field::Caveat(bytes) => self.caveats.push(Vec::from_slice(alloc, bytes)?)?,
            Field::Signature(bytes) => self.signature = bytes,
        }
        Ok(())
    }

    /// Returns the parts of the pass without copying them. Allocates no memory.
    pub fn into_parts(self) -> PassParts
        ensures location { result.location.items ≡ self.location }
        ensures identifier { result.identifier.items ≡ self.identifier }
        ensures caveats { map (λ caveat. caveat.items) result.caveats.items ≡ self.caveats }
        ensures signature { result.signature ≡ self.signature }
    {
        let Pass {
            location,
            identifier,
            caveats,
            signature,
        } = self;
        PassParts {
            location,
            identifier,
            caveats,
            signature,
        }
    }

    /// Returns a hint about where the pass is valid. The signature doesn't cover the hint.
    pub fn location(&self) -> &[u8]
        ensures { result.now ≡ self.now.location }
    {
        self.location.as_slice()
    }

    /// Returns the identifier, which names the root that signed the pass.
    pub fn identifier(&self) -> &[u8]
        ensures { result.now ≡ self.now.identifier }
    {
        self.identifier.as_slice()
    }

    /// Returns the caveats, in the order in which they were added.
    pub fn caveats(&self) -> &[Vec<u8>]
        ensures { map (λ caveat. caveat.items) result.now ≡ self.now.caveats }
    {
        self.caveats.as_slice()
    }

    /// Returns the signature of the pass. A valid signature is the chain's signature after the last
    /// caveat.
    pub fn signature(&self) -> &[u8; 32]
        ensures value { result.now ≡ self.now.signature }
        ensures len { length self.now.signature ≡ 32 }
    {
        &self.signature
    }

    /// Returns an iterator over the fields of the pass. Allocates no memory.
    pub fn fields(&self) -> PassFields<'_>
        ensures { result ≡ pass_fields self.now }
    {
        PassFields {
            location: Some(self.location()),
            identifier: Some(self.identifier()),
            caveats: self.caveats(),
            signature: Some(self.signature),
        }
    }

    /// Returns whether the pass is signed under this root. The root may have any length. Allocates
    /// no memory.
    #[tactic(auto, unfolding(crate::specs::computed::Reading::is_signed))]
    pub fn is_signed(&self, root: &[u8]) -> bool
        ensures signed { IsTrue result ↔ IsSigned root.now self.now }
        ensures computed { result ≡ is_signed root.now self.now }
    {
        let mut fields = self.fields();
        let _location = fields.next();
        let _identifier = fields.next();
        is_signed_by(Chain::start(root, self.identifier()), &mut fields)
    }
}

/// Adds a caveat to a pass and signs the pass again. The root isn't needed. The new signature is
/// the HMAC of the caveat, with the old signature as the key.
///
/// # Errors
///
/// Fails with `TooMany` if the pass already has 64 caveats or more. Fails with `Memory` if an
/// allocation fails. In both cases the pass stays unchanged.
pub fn narrow(alloc: Global, pass: &mut Pass, caveat: &[u8]) -> Result<(), FormFault>
    ensures ok { OnOk result (pass.new ≡ with_caveat caveat.now pass.old) }
    ensures signed { OnOk result
        ((root : List ℕ) → IsSigned root pass.old → IsSigned root pass.new) }
    ensures err { OnErr result (pass.new ≡ pass.old) }
    ensures too_many { (result ≡ Err TooMany) ↔ (max_caveats ≤ length pass.old.caveats) }
    ensures fault { IfErr result IsNarrowingFault }
{
    if pass.caveats.len() >= MAX_CAVEATS {
        return Err(FormFault::TooMany);
    }
    pass.caveats.push(Vec::from_slice(alloc, caveat)?)?;
    let mut chain = Chain::resume(pass.signature);
    chain.add(caveat);
    pass.signature = chain.signature();
    Ok(())
}
