//! Passes in the form that the reference machine reads, with the roots that signed them.

use club_reference::Pass;
use club_rows::Root;
use club_values::Name;
use std::alloc::{AllocError, Global};

fn texts(alloc: Global, caveats: &[&str]) -> Result<Vec<Vec<u8>>, AllocError> {
    let mut texts = Vec::new(alloc);
    for caveat in caveats {
        texts.push(caveat.as_bytes().to_vec(alloc)?)?;
    }
    Ok(texts)
}

/// Returns `None` if the root isn't valid or memory is refused.
pub fn signed_pass(
    alloc: Global,
    key: Option<Name>,
    root: &[u8],
    caveats: &[&str],
) -> Option<Pass> {
    let root = Root::new(root)?;
    let caveats = texts(alloc, caveats).ok()?;
    let roots = Vec::from_array(alloc, [root]).ok()?;
    Some(Pass {
        key,
        caveats,
        roots,
    })
}
