//! Strips a prefix or a suffix from a byte slice, and checks that a signature is at the end.

ghost use Rattle.std.specs.Prelude.{◌≡◌, option_map};
ghost use Rattle.pass_forms.specs.computed.Parts as spec;

/// Returns the bytes after the prefix, or `None` if the bytes don't start with the prefix.
pub fn after_prefix<'a>(prefix: &[u8], bytes: &'a [u8]) -> Option<&'a [u8]>
    ensures { option_map (λ rest. rest.now) result ≡ spec.after_prefix prefix.now bytes.now }
{
    bytes.strip_prefix(prefix)
}

/// Returns the bytes before the suffix, or `None` if the bytes don't end with the suffix.
pub fn before_suffix<'a>(suffix: &[u8], bytes: &'a [u8]) -> Option<&'a [u8]>
    ensures { option_map (λ rest. rest.now) result ≡ spec.before_suffix suffix.now bytes.now }
{
    bytes.strip_suffix(suffix)
}

/// Returns the signature if it has 32 bytes and `rest` is empty.
pub fn last_signature(signature: &[u8], rest: &[u8]) -> Option<[u8; 32]>
    ensures { result ≡ spec.last_signature (signature.now, rest.now) }
{
    if !rest.is_empty() {
        return None;
    }
    <[u8; 32]>::try_from(signature).ok()
}
