//! Finds the form and the bytes of a pass text. A pass text is plain JSON, or base64 of a pass in
//! any form.

ghost use Rattle.std.specs.{Option.{option_map, option_or}, Prelude.{◌≡◌, ◌↔◌, ℕ, ◌≤◌, List}};
ghost use Rattle.std.specs.Prelude.{Option, Some, length, take, IfOk, IfSome};
ghost use Rattle.base64.specs.{Decode.decoded_estimate, GeneralPurpose.decoded_of};
ghost use Rattle.pass_forms.specs.Envelope.{IsBase64, IsUnwrapped, form_of, starts_with_brace};
ghost use Rattle.pass_forms.specs.Envelope.{unwrapped_result, unwrapped_bytes};
ghost use Rattle.pass_forms.specs.{Reading.max_text_len, computed.Reading.from_base64};
ghost use Rattle.pass_forms.specs.computed.Reading.{unwrapping};

use crate::fault::FormFault;
use crate::form::Form;
use base64::engine::general_purpose::{
    GeneralPurpose, STANDARD, STANDARD_NO_PAD, URL_SAFE, URL_SAFE_NO_PAD,
};
use std::alloc::{AllocError, Global};

/// The maximum length of a pass text, in bytes.
pub const MAX_TEXT: usize = 8192;

/// The maximum number of bytes that a base64 text of `MAX_TEXT` characters can encode.
pub const MAX_BYTES: usize = 6144;

/// The form of a pass and the position of the pass's bytes, as returned by `unwrap_text`. If
/// `plain` is true, the pass is the text itself. Otherwise the pass is the first `len` bytes of the
/// buffer. In both cases, `len` is the number of bytes of the pass.
#[derive(Clone, Copy, Debug, PartialEq, Eq)]
pub struct Unwrapped {
    pub form: Form,
    pub plain: bool,
    pub len: usize,
}

impl Unwrapped {
    /// Returns the bytes of the pass. The arguments must be the text and the buffer of the call to
    /// `unwrap_text`. If `plain` is false and `len` is more than the buffer's length, returns the
    /// whole buffer.
    pub fn bytes<'a>(&self, text: &'a [u8], buffer: &'a [u8; MAX_BYTES]) -> &'a [u8]
        ensures { result.now ≡ unwrapped_bytes self.now text.now buffer.now }
    {
        if self.plain {
            text
        } else {
            &buffer[..self.len.min(MAX_BYTES)]
        }
    }
}

/// Finds the form of a pass text and decodes base64 into the start of the buffer. A text that
/// starts with `{` is JSON, and the call doesn't copy it. Any other text must be base64 (RFC 4648),
/// either URL-safe or standard, with or without padding. The first decoded byte determines the
/// form:
///
/// - 2 for V2
/// - `{` for JSON
/// - `0` to `9` or `a` to `f` for V1
///
/// The bytes of the buffer after the decoded bytes are unspecified. After a fault, the whole buffer
/// is unspecified. The call allocates no memory.
///
/// # Errors
///
/// Fails with `TooLong` if the text has more than 8,192 bytes. Otherwise fails with `Malformed` if
/// the text doesn't start with `{` and isn't base64. Also fails with `Malformed` if the decoded
/// bytes are empty or don't begin with the first byte of a form. No other fault can occur.
#[tactic(auto, unfolding(crate::specs::computed::Reading::unwrapping))]
pub fn unwrap_text(text: &[u8], buffer: &mut [u8; MAX_BYTES]) -> Result<Unwrapped, FormFault>
    ensures reading { IsUnwrapped text.now (unwrapped_result result text.now buffer.new) }
    // The result equals the result of `unwrapping` for the text.
    ensures value { unwrapped_result result text.now buffer.new ≡ unwrapping text.now }
    ensures plain { IfOk result (λ unwrapping. unwrapping.plain ≡ starts_with_brace text.now) }
    ensures len { IfOk result (λ unwrapping.
        unwrapping.len ≡ length (unwrapped_bytes unwrapping text.now buffer.new)) }
    ensures short { IfOk result (λ unwrapping.
        length (unwrapped_bytes unwrapping text.now buffer.new) ≤ max_text_len) }
{
    if text.len() > MAX_TEXT {
        return Err(FormFault::TooLong);
    }
    if text.starts_with(b"{") {
        return Ok(Unwrapped {
            form: Form::Json,
            plain: true,
            len: text.len(),
        });
    }
    let Some(len) = decode(text, buffer) else {
        return Err(FormFault::Malformed);
    };
    let Some(form) = form_of(&buffer[..len]) else {
        return Err(FormFault::Malformed);
    };
    Ok(Unwrapped {
        form,
        plain: false,
        len,
    })
}

// Returns the form of a pass from its first byte.
fn form_of(bytes: &[u8]) -> Option<Form>
    ensures { result ≡ form_of bytes.now }
{
    match *bytes.first()? {
        2 => Some(Form::V2),
        b'{' => Some(Form::Json),
        b'0'..=b'9' | b'a'..=b'f' => Some(Form::V1),
        _ => None,
    }
}

/// Decodes a base64 text (RFC 4648). Returns `None` if the text isn't base64. The alphabet may be
/// URL-safe or standard, and the padding may be missing. Trailing bits must be zero.
///
/// # Errors
///
/// Fails if the allocation of the bytes fails.
pub fn decode_base64(alloc: Global, text: &[u8]) -> Result<Option<Vec<u8>>, AllocError>
    ensures spelling { IfOk result (λ found. (bytes : List ℕ)
        → (option_map (λ b. b.items) found ≡ Some bytes) ↔ IsBase64 text.now bytes) }
    // The result equals the result of `from_base64` for the text.
    ensures computed { IfOk result
        (λ found. option_map (λ bytes. bytes.items) found ≡ from_base64 text.now) }
{
    let mut buffer = vec![in alloc; 0; text.len().div_ceil(4) * 3]?;
    let Some(len) = decode(text, &mut buffer) else {
        return Ok(None);
    };
    buffer.truncate(len);
    Ok(Some(buffer))
}

// Decodes a text into the start of the buffer, which must be long enough. Tries four base64 engines
// in order and returns the number of decoded bytes.
fn decode(text: &[u8], buffer: &mut [u8]) -> Option<usize>
    requires { decoded_estimate (length text.now) ≤ length buffer.old }
    ensures bytes { option_map (λ len. take len buffer.new) result ≡ from_base64 text.now }
    ensures len { IfSome result (λ len. len ≤ length buffer.old) }
{
    if let Some(len) = decode_under(&URL_SAFE_NO_PAD, &URL_SAFE, text, buffer) {
        return Some(len);
    }
    decode_under(&STANDARD_NO_PAD, &STANDARD, text, buffer)
}

// Tries two base64 engines in order and returns the number of decoded bytes.
fn decode_under(
    first: &GeneralPurpose,
    second: &GeneralPurpose,
    text: &[u8],
    buffer: &mut [u8],
) -> Option<usize>
    requires { decoded_estimate (length text.now) ≤ length buffer.old }
    ensures bytes { option_map (λ len. take len buffer.new) result
        ≡ option_or (decoded_of first.now text.now) (decoded_of second.now text.now) }
    ensures len { IfSome result (λ len. len ≤ length buffer.old) }
{
    if let Some(len) = decode_by(first, text, buffer) {
        return Some(len);
    }
    decode_by(second, text, buffer)
}

// Decodes a text with one base64 engine and returns the number of decoded bytes.
fn decode_by(engine: &GeneralPurpose, text: &[u8], buffer: &mut [u8]) -> Option<usize>
    requires { decoded_estimate (length text.now) ≤ length buffer.old }
    ensures bytes { option_map (λ len. take len buffer.new) result
        ≡ decoded_of engine.now text.now }
    ensures len { IfSome result (λ len. len ≤ length buffer.old) }
{
    engine.decode_slice_unchecked(text, buffer).ok()
}
