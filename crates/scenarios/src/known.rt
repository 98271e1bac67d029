//! The names that the previous lines of a file have defined.

use crate::fault::{Fault, needed};
use club_http::{Moment, Name, Root};
use std::alloc::Global;

/// The name of the default root. `FIRST_ROOT` has the bytes of this root. A key gets this root
/// unless its line names another root.
const FIRST: &[u8] = b"first";

const FIRST_ROOT: &[u8] = b"\x00\x11\x22\x33\x44\x55\x66\x77\x88\x99\xaa\xbb\xcc\xdd\xee\xff";

/// A root and its name. The name can also be the name of a key.
#[derive(Clone, Copy)]
struct Named {
    name: Name,
    root: Root,
}

/// A text and its name. A line can use the text in place of a pass.
#[derive(Drop)]
struct NamedText {
    name: Name,
    text: Vec<u8>,
}

/// The names that the previous lines of a file have defined, and the state of playing the file.
#[derive(Drop)]
pub(crate) struct Known {
    roots: Vec<Named>,
    keys: Vec<Named>,
    texts: Vec<NamedText>,
    /// The text of the latest `club` line that isn't `club again`.
    pub(crate) club: String,
    pub(crate) moment: Option<Moment>,
    /// True if a crash stops the next line. The player then plays the line again.
    pub(crate) crashes: bool,
}

/// Parses a name, or fails with a fault of the line.
pub(crate) fn name(text: &str) -> Result<Name, Fault> {
    needed(Name::read(text.as_bytes()), "no name")
}

/// Parses a root in hexadecimal.
fn root_in_hex(text: &str) -> Option<Root> {
    let mut bytes = [0; 64];
    let len = text.len() / 2;
    if len > bytes.len() || hex::decode_to_slice(text, &mut bytes[..len]).is_err() {
        return None;
    }
    Root::new(&bytes[..len])
}

/// Returns the last root that was defined under this name.
fn last_named(named: &[Named], name: &Name) -> Option<Root> {
    let mut found = None;
    for it in named {
        if it.name == *name {
            found = Some(it.root);
        }
    }
    found
}

impl Known {
    /// Returns the names that are known before the first line.
    pub(crate) fn new(alloc: Global) -> Result<Known, Fault> {
        let mut known = Known {
            roots: Vec::new(alloc),
            keys: Vec::new(alloc),
            texts: Vec::new(alloc),
            club: String::new(alloc),
            moment: None,
            crashes: false,
        };
        let first = Named {
            name: needed(Name::read(FIRST), "no name")?,
            root: needed(Root::new(FIRST_ROOT), "no root")?,
        };
        known.roots.push(first)?;
        Ok(known)
    }

    /// Returns the root with this name. If no root has this name, parses the text as a root in
    /// hexadecimal.
    pub(crate) fn root(&self, text: &str) -> Result<Root, Fault> {
        let named = match Name::read(text.as_bytes()) {
            Some(name) => last_named(&self.roots, &name),
            None => None,
        };
        match named {
            Some(root) => Ok(root),
            None => needed(root_in_hex(text), "a root has a name, or 16 to 64 bytes"),
        }
    }

    /// Defines a name for a root.
    pub(crate) fn add_root(&mut self, name: Name, root: Root) -> Result<(), Fault> {
        Ok(self.roots.push(Named { name, root })?)
    }

    /// Returns the first root of a key of the club, or `None` if the club has no such key.
    pub(crate) fn root_of_key(&self, key: &Name) -> Option<Root> {
        last_named(&self.keys, key)
    }

    /// Adds a key with its first root. If a key with this name exists, the call changes nothing.
    pub(crate) fn add_key(&mut self, name: Name, root: Root) -> Result<(), Fault> {
        if last_named(&self.keys, &name).is_none() {
            self.keys.push(Named { name, root })?;
        }
        Ok(())
    }

    /// Removes all keys. Callers use this when a line makes a new club.
    pub(crate) fn forget_keys(&mut self) {
        self.keys.clear();
    }

    /// Returns the text with this name.
    pub(crate) fn text(&self, name: &Name) -> Result<&[u8], Fault> {
        for it in &self.texts {
            if it.name == *name {
                return Ok(&it.text);
            }
        }
        Err(Fault::Rule("no text of this name"))
    }

    /// Defines a name for a text.
    pub(crate) fn add_text(&mut self, name: Name, text: Vec<u8>) -> Result<(), Fault> {
        Ok(self.texts.push(NamedText { name, text })?)
    }

    /// Returns the moment at which the next request arrives.
    pub(crate) fn moment(&self) -> Result<Moment, Fault> {
        needed(self.moment, "no moment before it")
    }
}
