//! Unwraps values that are known to be within their limits.

use anyhow::{Result, anyhow};

/// Returns the value. If there is no value, the benchmark ends with an error that names the missing
/// value.
pub(crate) fn known<T: Drop>(value: Option<T>, what: &str) -> Result<T> {
    match value {
        Some(value) => Ok(value),
        None => Err(anyhow!("{what}")),
    }
}
