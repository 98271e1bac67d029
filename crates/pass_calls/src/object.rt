//! A pass as an object of plain data.

use crate::code::{NO_TEXT, form_number};
use crate::pieces::{copy_pieces, cut, extended, first_fault_in, overwrite, piece, total};
use pass_caveats::laws::{finds_the_first_fault, reads_what_is_understood};
use pass_caveats::{Ask, CaveatFault};
use pass_forms::{Form, FormFault, MAX_CAVEATS, Pass};
use pass_json::{read_any, write_any};
use pass_mac::{Chain, same};
use std::alloc::{AllocError, Global};

/// The maximum total length of a pass's location, identifier and caveats, in bytes.
pub const ROOM: usize = 8192;

/// A pass as an object of plain data. C code can store, copy and drop the object without calling a
/// function. In contracts, `held` returns the pass that an object represents. Every object
/// represents a pass, whatever its bytes are.
#[repr(C)]
#[derive(Drop)]
pub struct PassObject {
    /// The number of the form from which the pass was read. The number is 2 for a minted pass, and
    /// 0 for an empty object.
    pub form: u32,
    pub location_len: u32,
    pub identifier_len: u32,
    pub caveat_count: u32,
    pub caveat_lens: [u16; MAX_CAVEATS],
    pub signature: [u8; 32],
    /// The bytes of the location, the identifier and the caveats, in this order.
    pub bytes: [u8; ROOM],
}

impl PassObject {
    ghost use Rattle.std.specs.Prelude.{◌≡◌, ◌≢◌, ◌↔◌, ◌+◌, ◌<◌, ◌≤◌, ◌++◌, ◌∷◌, [], ℕ, List, Err};
    ghost use Rattle.std.specs.Prelude.{IfErr, IfOk, IsOk, IsTrue, IsFalse, MatchResult, Ok, OnErr, OnOk};
    ghost use Rattle.std.specs.Prelude.{drop, length, map, option_map, slice_get, sum, take};
    ghost use Rattle.std.specs.String.{string_bytes};
    ghost use Rattle.pass_calls.specs.Object.{IsEmpty, fields_len, filled, form_in, held, room};
    ghost use Rattle.pass_calls.specs.Object.{taken, with_one_more};
    ghost use Rattle.pass_caveats.specs.Fault.{IsFirstFault};
    ghost use Rattle.pass_forms.specs.{FieldSource.no_fields, Pass.{IsSigned, Plain, minted_pass}};
    ghost use Rattle.pass_forms.specs.Reading.{UnlessMemory, max_caveats};
    ghost use Rattle.pass_forms.specs.Writing.{IsNarrowingFault, IsWritableText, with_caveat};
    ghost use Rattle.pass_forms.specs.computed.Reading.{is_signed};
    ghost use Rattle.pass_forms.specs.declared.fault.FormFault.TheVariants.{Memory, TooMany};
    ghost use Rattle.pass_forms.specs.declared.form.Form.TheVariants.{V2};
    ghost use Rattle.pass_json.specs.AnyForm.{IsAnyReading, IsRefusedIn, IsTextIn, MayRunOut};
    ghost use Rattle.pass_json.specs.computed.AnyForm.{reading, writing};
    ghost use Rattle.pass_calls.specs.Code as code;

    /// Returns the location, which is a hint about where the pass is valid.
    pub fn location(&self) -> &[u8]
        ensures { result.now ≡ (held self.now).location }
    {
        cut(&self.bytes, self.location_len as usize).0
    }

    // Returns the identifier, and all bytes after the identifier.
    fn after_location(&self) -> (&[u8], &[u8])
        ensures identifier { result.0.now ≡ (held self.now).identifier }
        ensures others { result.1.now
            ≡ drop self.now.identifier_len (drop self.now.location_len self.now.bytes) }
    {
        let (_, rest) = cut(&self.bytes, self.location_len as usize);
        cut(rest, self.identifier_len as usize)
    }

    /// Returns the identifier.
    pub fn identifier(&self) -> &[u8]
        ensures { result.now ≡ (held self.now).identifier }
    {
        self.after_location().0
    }

    // Returns the lengths of the caveats.
    fn lens(&self) -> &[u16]
        ensures value { result.now ≡ take self.now.caveat_count self.now.caveat_lens }
        ensures few { length result.now ≤ 64 }
    {
        &self.caveat_lens[..(self.caveat_count as usize).min(MAX_CAVEATS)]
    }

    /// Returns the number of caveats, at most 64.
    #[tactic(auto, using(crate::proofs::HeldLemmas::length_pieces))]
    pub fn caveat_count(&self) -> usize
        ensures value { result ≡ length (held self.now).caveats }
        ensures lens { result ≡ length (take self.now.caveat_count self.now.caveat_lens) }
        ensures few { result ≤ 64 }
    {
        self.lens().len()
    }

    /// Returns the caveat with this index, counted from 0.
    pub fn caveat(&self, index: usize) -> Option<&[u8]>
        ensures { option_map (λ caveat. caveat.now) result
            ≡ slice_get (held self.now).caveats index }
    {
        piece(self.lens(), self.after_location().1, index)
    }

    /// Empties the object. Afterwards, the object has no form, no fields, and a signature of zeros.
    pub fn clear(&mut self)
        ensures empty { IsEmpty self.new }
        ensures count { self.new.caveat_count ≡ 0 }
        ensures bytes { self.new.bytes ≡ self.old.bytes }
    {
        self.form = NO_TEXT;
        self.location_len = 0;
        self.identifier_len = 0;
        self.caveat_count = 0;
        self.signature = [0; 32];
    }

    // Stores a pass without caveats in the object. If the object has no room for the pass, returns
    // false and empties the object.
    fn start(
        &mut self,
        form: Form,
        location: &[u8],
        identifier: &[u8],
        signature: &[u8; 32],
    ) -> bool
        ensures room { IsTrue result ↔ (length location.now + length identifier.now ≤ room) }
        ensures value { IsTrue result → held self.new ≡ record {
          location = location.now;
          identifier = identifier.now;
          caveats = [];
          signature = signature.now;
        } }
        ensures taken { IsTrue result
            → taken self.new ≡ length location.now + length identifier.now }
        ensures form { IsTrue result → self.new.form ≡ code.number_of_form form }
        ensures none { IsFalse result → IsEmpty self.new }
    {
        self.clear();
        if location.len() > ROOM || identifier.len() > ROOM - location.len() {
            return false;
        }
        overwrite(&mut self.bytes, 0, location);
        overwrite(&mut self.bytes, location.len(), identifier);
        self.form = form_number(form);
        self.location_len = location.len() as u32;
        self.identifier_len = identifier.len() as u32;
        self.signature = *signature;
        true
    }

    // Adds a caveat without changing the signature. If the object has no room for the caveat,
    // returns false and changes nothing.
    fn push(&mut self, caveat: &[u8]) -> bool
        ensures room { IsTrue result ↔ ((length (held self.old).caveats < max_caveats)
            × (taken self.old + length caveat.now ≤ room)) }
        ensures more { IsTrue result → held self.new ≡ with_one_more caveat.now (held self.old) }
        ensures taken { IsTrue result → taken self.new ≡ taken self.old + length caveat.now }
        ensures form { self.new.form ≡ self.old.form }
        ensures none { IsFalse result → self.new ≡ self.old }
    {
        let count = self.caveat_count();
        if count >= MAX_CAVEATS || caveat.len() > ROOM {
            return false;
        }
        let start = self.location_len as usize + self.identifier_len as usize + total(self.lens());
        if start + caveat.len() > ROOM {
            return false;
        }
        overwrite(&mut self.bytes, start, caveat);
        self.caveat_lens[count] = caveat.len() as u16;
        self.caveat_count = count as u32 + 1;
        true
    }

    // Stores this pass in the object. If the object has no room for the pass, the call fails and
    // empties the object.
    fn fill(&mut self, form: Form, pass: &Pass) -> Result<(), FormFault>
        ensures room { IsOk result ↔ ((length pass.now.caveats ≤ max_caveats)
            × (fields_len pass.now ≤ room)) }
        ensures value { OnOk result (held self.new ≡ pass.now) }
        ensures taken { OnOk result (taken self.new ≡ fields_len pass.now) }
        ensures form { OnOk result (self.new.form ≡ code.number_of_form form) }
        ensures fault { IfErr result (λ fault. fault ≡ Memory) }
        ensures none { OnErr result (IsEmpty self.new) }
    {
        if !self.start(form, pass.location(), pass.identifier(), pass.signature()) {
            return Err(FormFault::Memory);
        }
        for caveat in pass.caveats() {
            if !self.push(caveat.as_slice()) {
                self.clear();
                return Err(FormFault::Memory);
            }
        }
        Ok(())
    }

    /// Reads a pass from a text in any form.
    pub fn read(&mut self, alloc: Global, text: &[u8]) -> Result<(), FormFault>
        ensures spelling { UnlessMemory (IsAnyReading text.now) (filled result self.new) }
        ensures computed { UnlessMemory (λ answer. reading text.now ≡ answer)
            (filled result self.new) }
        ensures memory { result ≡ Err Memory → MayRunOut text.now }
        ensures taken { OnOk result (taken self.new ≡ fields_len (held self.new)) }
        ensures form { OnOk result (self.new.form ≡ code.number_of_form (form_in self.new)) }
        ensures none { OnErr result (IsEmpty self.new) }
    {
        self.clear();
        let (form, pass) = read_any(alloc, text)?;
        self.fill(form, &pass)
    }

    /// Makes a new pass, signed under a root.
    pub fn mint(&mut self, root: &[u8], location: &[u8], identifier: &[u8]) -> bool
        ensures room { IsTrue result ↔ (length location.now + length identifier.now ≤ room) }
        ensures value { IsTrue result
            → held self.new ≡ minted_pass root.now location.now identifier.now }
        ensures signed { IsTrue result → IsSigned root.now (held self.new) }
        ensures taken { IsTrue result
            → taken self.new ≡ length location.now + length identifier.now }
        ensures form { IsTrue result → self.new.form ≡ code.number_of_form V2 }
        ensures none { IsFalse result → IsEmpty self.new }
    {
        let signature = Chain::start(root, identifier).signature();
        self.start(Form::V2, location, identifier, &signature)
    }

    /// Adds a caveat to the pass. Computes the new signature from the old signature and the caveat,
    /// without the root.
    pub fn narrow(&mut self, caveat: &[u8]) -> Result<(), FormFault>
        ensures ok { OnOk result (held self.new ≡ with_caveat caveat.now (held self.old)) }
        ensures signed { OnOk result ((root : List ℕ)
            → IsSigned root (held self.old) → IsSigned root (held self.new)) }
        ensures taken { OnOk result (taken self.new ≡ taken self.old + length caveat.now) }
        ensures form { self.new.form ≡ self.old.form }
        ensures err { OnErr result (self.new ≡ self.old) }
        ensures too_many { (result ≡ Err TooMany) ↔ (max_caveats ≤ length (held self.old).caveats) }
        ensures memory { (result ≡ Err Memory) ↔ ((length (held self.old).caveats < max_caveats)
            × (room < taken self.old + length caveat.now)) }
        ensures fault { IfErr result IsNarrowingFault }
    {
        if self.caveat_count() >= MAX_CAVEATS {
            return Err(FormFault::TooMany);
        }
        if !self.push(caveat) {
            return Err(FormFault::Memory);
        }
        let mut chain = Chain::resume(self.signature);
        chain.add(caveat);
        self.signature = chain.signature();
        Ok(())
    }

    /// Returns true if the pass is signed under this root.
    #[tactic(auto, unfolding(pass_forms::specs::computed::Reading::is_signed))]
    pub fn is_signed(&self, root: &[u8]) -> bool
        ensures signed { IsTrue result ↔ IsSigned root.now (held self.now) }
        ensures computed { result ≡ is_signed root.now (held self.now) }
    {
        let (identifier, bytes) = self.after_location();
        let chain = extended(Chain::start(root, identifier), self.lens(), bytes);
        same(&chain.signature(), &self.signature)
    }

    /// Returns the fault of the first caveat that isn't understood or that denies the ask.
    pub fn first_fault(&self, ask: &Ask) -> Option<CaveatFault>
        ensures { IsFirstFault (held self.now).caveats ask.now result }
    {
        // By these laws, the code finds the fault that the contract defines.
        finds_the_first_fault();
        reads_what_is_understood();
        first_fault_in(self.lens(), self.after_location().1, 1, ask)
    }

    // Copies the pass to the heap.
    fn to_pass(&self, alloc: Global) -> Result<Pass, AllocError>
        ensures { IfOk result (λ pass. pass ≡ held self.now) }
    {
        let (identifier, bytes) = self.after_location();
        let location = Vec::from_slice(alloc, self.location())?;
        let identifier = Vec::from_slice(alloc, identifier)?;
        let mut caveats = Vec::new(alloc);
        copy_pieces(alloc, &mut caveats, self.lens(), bytes)?;
        Ok(Pass::new(location, identifier, caveats, self.signature))
    }

    /// Returns the text of the pass in this form.
    pub fn write(&self, alloc: Global, form: Form) -> Result<String, FormFault>
        ensures ok { IfOk result
            (λ text. IsWritableText (IsTextIn form) (held self.now) (string_bytes text)) }
        ensures err { IfErr result
            (λ fault. fault ≢ Memory → IsRefusedIn form (held self.now) fault) }
        ensures read_back { IfOk result
            (λ text. IsAnyReading (string_bytes text) (Ok (form, held self.now))) }
        ensures computed { MatchResult result
            (λ text. writing form (held self.now) ≡ Ok (string_bytes text))
            (λ fault. fault ≢ Memory → writing form (held self.now) ≡ Err fault) }
    {
        let pass = self.to_pass(alloc)?;
        write_any(alloc, form, &pass)
    }
}
