//! Common code of the V1 and V2 readers. A reader first scans all bytes and reports any fault.
//! After a scan without a fault, a caller can read the fields. The readers allocate memory only to
//! copy a pass.

ghost use Rattle.std.specs.Prelude.{◌≡◌, [], ◌∷◌, IfNone, IfSome, length, option_map};
ghost use Rattle.pass_forms.specs.{FieldSource.opening_of, Reading.{IsReadAs, OrOutOfMemory}};
ghost use Rattle.pass_forms.specs.computed.Parts.{caveats_at, identifiers_at, scan_summary};
ghost use Rattle.pass_forms.specs.computed.{Parts.{whole_at, Counts}, Reading.reading_of};

use crate::{Field, FieldSource, FormFault, MAX_CAVEATS, MAX_TEXT, Pass};
use std::alloc::{AllocError, Global};
use std::marker::{Model, PhantomData};

/// A parsed header, and the bytes after the header.
#[derive(Drop)]
pub struct Header<'a> {
    pub location: &'a [u8],
    pub identifier: &'a [u8],
    pub rest: &'a [u8],
}

/// A parsed caveat, and the bytes after the caveat.
#[derive(Drop)]
pub struct Caveat<'a> {
    pub identifier: &'a [u8],
    pub third_party: bool,
    pub rest: &'a [u8],
}

/// The number of caveats that `Fields` hasn't returned yet, and the bytes that begin with these
/// caveats.
#[derive(Clone, Copy)]
pub struct Caveats<'a> {
    count: usize,
    bytes: &'a [u8],
}

/// An iterator over the fields of a pass in the layout `L`. Each of `location`, `identifier` and
/// `signature` is `None` after the iterator has returned this field. In contracts, a `Fields` is
/// represented by the list of the remaining fields.
#[derive(Drop)]
pub struct Fields<'a, L: Layout> {
    location: Option<&'a [u8]>,
    identifier: Option<&'a [u8]>,
    caveats: Caveats<'a>,
    signature: Option<[u8; 32]>,
    layout: PhantomData<L>,
}

impl<'a, L: Layout> Model for Fields<'a, L> {
    ghost use Rattle.std.specs.Prelude.{List};
    ghost use Rattle.pass_forms.specs.FieldSource.{PassField, those_left};
    ghost use Rattle.pass_forms.specs.computed.Parts.{identifiers_at};

    ghost Value = { List PassField };

    ghost view = { λ fields. those_left (λ bytes. bytes.now) fields.location fields.identifier
        (identifiers_at L.caveat_at fields.caveats.count fields.caveats.bytes.now)
        fields.signature };
}

// The result of scanning all bytes of a pass.
#[derive(Drop)]
struct ScanResult<'a, L: Layout> {
    fields: Fields<'a, L>,
    caveat_count: usize,
    third_party: bool,
}

/// A byte layout of a pass. A pass has a header, caveats, and a footer with the signature.
pub trait Layout: Copy {
    ghost use Rattle.std.specs.Prelude.{◌≡◌, ℕ, List, Option, Result, length, option_map};
    ghost use Rattle.pass_forms.specs.{Laws.ReadsExactly, Pass.{Plain, WideCaveat, WidePass}};
    ghost use Rattle.pass_forms.specs.computed.{Parts.{summary, whole_at}, Reading.reading_of};
    ghost use Rattle.pass_forms.specs.declared.fault.FormFault.{FormFault as FaultOfForm};

    // Relates a list of bytes to the wide pass that the bytes encode.
    ghost Spells: { List ℕ → WidePass → Type 0 };

    // Computes the result of reading a list of bytes.
    ghost reading: { List ℕ → Result Plain FaultOfForm };

    // Parses a header. Returns the location, the identifier, and the bytes after the header.
    ghost header_at: { List ℕ → Option (List ℕ × List ℕ × List ℕ) };

    // Parses the caveat at the start of the bytes. Returns the caveat and the bytes after the
    // caveat.
    ghost caveat_at: { List ℕ → Option (WideCaveat × List ℕ) };

    // Parses all of the bytes as a footer. Returns the signature.
    ghost footer_at: { List ℕ → Option (List ℕ) };

    /// Parses the header at the start of the bytes, or returns `None` if there is no header.
    fn first_header(bytes: &[u8]) -> Option<Header<'_>>
        ensures { option_map (λ header.
            (header.location.now, header.identifier.now, header.rest.now)) result
            ≡ header_at bytes.now };

    /// Parses the caveat at the start of the bytes, or returns `None` if there is no caveat.
    fn first_caveat(bytes: &[u8]) -> Option<Caveat<'_>>
        ensures { option_map (λ found.
            (found.identifier.now, found.third_party, found.rest.now)) result
            ≡ option_map summary (caveat_at bytes.now) };

    /// Parses all of the bytes as a footer and returns the signature, or returns `None` if the
    /// bytes aren't a footer.
    fn footer(bytes: &[u8]) -> Option<[u8; 32]>
        ensures { result ≡ footer_at bytes.now };

    /// States a law: `reading` returns the only result that `IsReadAs` allows for a list of bytes.
    fn reads_exactly()
        ensures spelling { ReadsExactly Spells reading }
        ensures computed { (bytes : List ℕ) → reading bytes
            ≡ reading_of (length bytes) (whole_at header_at caveat_at footer_at bytes) };
}

// The result of skipping caveats: the number of caveats, whether any caveat is a third-party
// caveat, and the bytes after the last caveat.
#[derive(Drop)]
struct Skipped<'a> {
    count: usize,
    third_party: bool,
    rest: &'a [u8],
}

// Skips the caveats at the start of the bytes.
#[tactic(auto, using(crate::proofs::ReadingLemmas::none_follow))]
fn skip_caveats<L: Layout>(bytes: &[u8]) -> Skipped<'_>
    ensures { Counts result.count result.third_party result.rest.now
        (caveats_at L.caveat_at (length bytes.now) bytes.now) }
{
    let mut skipped = Skipped {
        count: 0,
        third_party: false,
        rest: bytes,
    };
    for _ in 0..bytes.len() {
        let Some(found) = L::first_caveat(skipped.rest) else {
            return skipped;
        };
        skipped.count += 1;
        skipped.third_party |= found.third_party;
        skipped.rest = found.rest;
    }
    skipped
}

// Scans all bytes of a pass. Returns `None` if the bytes don't encode a pass. The scan accepts
// third-party caveats.
#[tactic(auto, using(crate::proofs::ReadingLemmas::as_many), unfolding(crate::specs::computed::Parts::whole_at))]
fn scan_pass<L: Layout>(bytes: &[u8]) -> Option<ScanResult<'_, L>>
    ensures { option_map (λ pass. (pass.fields, pass.caveat_count, pass.third_party)) result
        ≡ option_map scan_summary (whole_at L.header_at L.caveat_at L.footer_at bytes.now) }
{
    let header = L::first_header(bytes)?;
    let skipped = skip_caveats::<L>(header.rest);
    let signature = L::footer(skipped.rest)?;
    Some(ScanResult {
        fields: Fields {
            location: Some(header.location),
            identifier: Some(header.identifier),
            caveats: Caveats {
                count: skipped.count,
                bytes: header.rest,
            },
            signature: Some(signature),
            layout: PhantomData,
        },
        caveat_count: skipped.count,
        third_party: skipped.third_party,
    })
}

// Returns the fields of the pass, or the first fault that applies.
fn checked_fields<L: Layout>(bytes: &[u8]) -> Result<Fields<'_, L>, FormFault>
    ensures { result ≡ opening_of (reading_of (length bytes.now)
        (whole_at L.header_at L.caveat_at L.footer_at bytes.now)) }
{
    if bytes.len() > MAX_TEXT {
        return Err(FormFault::TooLong);
    }
    let Some(pass) = scan_pass::<L>(bytes) else {
        return Err(FormFault::Malformed);
    };
    if pass.third_party {
        return Err(FormFault::ThirdParty);
    }
    if pass.caveat_count > MAX_CAVEATS {
        return Err(FormFault::TooMany);
    }
    Ok(pass.fields)
}

impl<'a> Caveats<'a> {
    // Removes the first caveat and returns its identifier.
    #[tactic(auto, using(crate::proofs::ReadingLemmas::none_follow))]
    fn next<L: Layout>(&mut self) -> Option<&'a [u8]>
        ensures some { IfSome result
            (λ caveat. identifiers_at L.caveat_at self.old.count self.old.bytes.now ≡ caveat.now
            ∷ identifiers_at L.caveat_at self.new.count self.new.bytes.now) }
        ensures none { IfNone result
            ((identifiers_at L.caveat_at self.old.count self.old.bytes.now ≡ [])
            × (identifiers_at L.caveat_at self.new.count self.new.bytes.now ≡ [])) }
    {
        self.count = self.count.checked_sub(1)?;
        let first = L::first_caveat(self.bytes)?;
        self.bytes = first.rest;
        Some(first.identifier)
    }
}

impl<'a, L: Layout> FieldSource<'a> for Fields<'a, L> {
    ghost left = { λ fields. fields };

    fn next(&mut self) -> Option<Field<'a>> {
        if let Some(location) = self.location.take() {
            return Some(Field::Location(location));
        }
        if let Some(identifier) = self.identifier.take() {
            return Some(Field::Identifier(identifier));
        }
        if let Some(caveat) = self.caveats.next::<L>() {
            return Some(Field::Caveat(caveat));
        }
        let signature = self.signature.take()?;
        Some(Field::Signature(signature))
    }

    fn again(&self) -> Fields<'a, L> {
        Fields {
            location: self.location,
            identifier: self.identifier,
            caveats: self.caveats,
            signature: self.signature,
            layout: PhantomData,
        }
    }
}

impl<'a, L: Layout> Fields<'a, L> {
    ghost use Rattle.std.specs.Prelude.{◌≡◌, length, IfOk};
    ghost use Rattle.pass_forms.specs.FieldSource.{IsOpening, no_fields, opening_of, with_fields};
    ghost use Rattle.pass_forms.specs.Reading.{IsReadAs};

    /// Checks all of the bytes, and then returns an iterator over the pass's fields. Expects bytes
    /// in the layout `L`, and doesn't decode base64. Allocates no memory.
    ///
    /// # Errors
    ///
    /// Fails with the first fault that applies:
    ///
    /// - `TooLong` for more than 8,192 bytes,
    /// - `Malformed` if the bytes aren't a pass,
    /// - `ThirdParty` for a third-party caveat,
    /// - `TooMany` for more than 64 caveats.
    pub fn open(bytes: &'a [u8]) -> Result<Fields<'a, L>, FormFault>
        // The result is the fields of the pass that the bytes encode, or the first fault that
        // applies.
        ensures spelling { IsOpening (IsReadAs (length bytes.now) (L.Spells bytes.now)) result }
        // The result is the fault that `L.reading` returns for the bytes, or the fields of the pass
        // that `L.reading` returns.
        ensures computed { result ≡ opening_of (L.reading bytes.now) }
    {
        L::reads_exactly();
        checked_fields::<L>(bytes)
    }

    // Copies the remaining fields into a pass.
    fn into_pass(mut self, alloc: Global) -> Result<Pass, AllocError>
        ensures { IfOk result (λ pass. pass ≡ with_fields no_fields self.entry) }
    {
        let mut pass = Pass::with_capacity_for(alloc, self.caveats.count)?;
        while let Some(field) = self.next() {
            pass.set(alloc, field)?;
        }
        Ok(pass)
    }
}

/// Reads the pass that the bytes encode in the layout `L`. Memory can run out only after all checks
/// of the pass succeed.
pub fn read<L: Layout>(alloc: Global, bytes: &[u8]) -> Result<Pass, FormFault>
    ensures spelling { OrOutOfMemory (IsReadAs (length bytes.now) (L.Spells bytes.now)) result }
    ensures computed { OrOutOfMemory (λ answer. L.reading bytes.now ≡ answer) result }
{
    L::reads_exactly();
    let fields = Fields::<L>::open(bytes)?;
    Ok(fields.into_pass(alloc)?)
}
