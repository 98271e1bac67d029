//! Writes passes as texts. In each form, a writer may return only one text for a pass.

ghost use Rattle.std.specs.Prelude.{◌≡◌, length, IfErr, IfOk, IsOk, MatchResult, Ok};
ghost use Rattle.std.specs.String.{string_bytes};
ghost use Rattle.base64.specs.GeneralPurpose.{IsBytes};
ghost use Rattle.pass_forms.specs.{V1.SpellsV1, V2.SpellsV2, Writing.{FailsAs, IsReadBack}};
ghost use Rattle.pass_forms.specs.Writing.{IsWriteFault, IsV1Text, IsV2Text, IsWritableText};
ghost use Rattle.pass_forms.specs.Writing.{in_base64, v1_bytes, v2_bytes};
ghost use Rattle.pass_forms.specs.computed.Reading.{writing_of, writing_v1, writing_v2};
ghost use Rattle.pass_forms.specs.declared.form.Form.TheVariants.{V1, V2};

use crate::v1::Packets;
use crate::v2::Sections;
use crate::{FormFault, MAX_CAVEATS, Pass};
use base64::engine::general_purpose::URL_SAFE_NO_PAD;
use buffer::Buffer;
use std::alloc::{AllocError, Global};

mod buffer;
mod packets;
mod sections;

/// A byte layout in which a writer can write a pass.
trait PutLayout {
    ghost use Rattle.std.specs.Prelude.{◌≡◌, ℕ, List, OnOk, length};
    ghost use Rattle.pass_forms.specs.{Pass.Plain, Writing.Puts};

    // The bytes of a pass in this layout.
    ghost bytes_of: { Plain → List ℕ };

    /// Appends the bytes of a pass to the buffer.
    fn put_pass(buffer: &mut Buffer, pass: &Pass) -> Result<(), FormFault>
        ensures bytes { Puts (bytes_of pass.now) buffer.old buffer.new result }
        ensures signature { OnOk result (length pass.now.signature ≡ 32) };
}

/// Returns the text of a pass in V1. The text is libmacaroons' packets, encoded in URL-safe base64
/// without padding. The text has a location packet even if the location is empty.
///
/// # Errors
///
/// Fails with `TooMany` if the pass has more than 64 caveats. Otherwise fails with `TooLong` if the
/// text would have more than 8,192 bytes. Fails with `Memory` only if the allocation of the text
/// fails.
pub fn write_v1(alloc: Global, pass: &Pass) -> Result<String, FormFault>
    ensures ok { IfOk result (λ text. IsWritableText IsV1Text pass.now (string_bytes text)) }
    ensures err { IfErr result (IsWriteFault IsV1Text pass.now) }
    ensures read_back { IfOk result
        (λ text. IsReadBack SpellsV1 V1 (v1_bytes pass.now) pass.now (string_bytes text)) }
    // If memory doesn't run out, the result equals the result of `writing_v1` for the pass.
    ensures computed { MatchResult result (λ text. writing_v1 pass.now ≡ Ok (string_bytes text))
        (FailsAs (writing_v1 pass.now)) }
{
    write_in::<Packets>(alloc, pass)
}

/// Returns the text of a pass in V2. The text is libmacaroons' binary format, encoded in URL-safe
/// base64 without padding. An empty location is left out.
///
/// # Errors
///
/// Fails with `TooMany` if the pass has more than 64 caveats. Otherwise fails with `TooLong` if the
/// text would have more than 8,192 bytes. Fails with `Memory` only if the allocation of the text
/// fails.
pub fn write_v2(alloc: Global, pass: &Pass) -> Result<String, FormFault>
    ensures ok { IfOk result (λ text. IsWritableText IsV2Text pass.now (string_bytes text)) }
    ensures err { IfErr result (IsWriteFault IsV2Text pass.now) }
    ensures read_back { IfOk result
        (λ text. IsReadBack SpellsV2 V2 (v2_bytes pass.now) pass.now (string_bytes text)) }
    // If memory doesn't run out, the result equals the result of `writing_v2` for the pass.
    ensures computed { MatchResult result (λ text. writing_v2 pass.now ≡ Ok (string_bytes text))
        (FailsAs (writing_v2 pass.now)) }
{
    write_in::<Sections>(alloc, pass)
}

// Returns the text of a pass in this layout, or the first fault that applies.
#[tactic(auto, using(crate::proofs::WrittenLemmas::too_long))]
fn write_in<L: PutLayout>(alloc: Global, pass: &Pass) -> Result<String, FormFault>
    ensures written { MatchResult result
        (λ text. writing_of (L.bytes_of pass.now) pass.now ≡ Ok (string_bytes text))
        (FailsAs (writing_of (L.bytes_of pass.now) pass.now)) }
    ensures real { IsOk (writing_of (L.bytes_of pass.now) pass.now)
        → IsBytes (L.bytes_of pass.now) × (length pass.now.signature ≡ 32) }
{
    if pass.caveats().len() > MAX_CAVEATS {
        return Err(FormFault::TooMany);
    }
    let mut buffer = Buffer::new();
    L::put_pass(&mut buffer, pass)?;
    Ok(text_of(alloc, buffer.as_slice())?)
}

// Encodes bytes in URL-safe base64 without padding.
fn text_of(alloc: Global, bytes: &[u8]) -> Result<String, AllocError>
    ensures text { IfOk result (λ text. string_bytes text ≡ in_base64 bytes.now) }
    ensures bytes { IsBytes bytes.now }
{
    URL_SAFE_NO_PAD.encode(alloc, bytes)
}
