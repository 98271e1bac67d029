//! Makes the passes that the lines of a scenario describe.

use crate::fault::Fault;
use crate::known::{Known, name};
use crate::text::{push_unescaped, repeated, unquoted};
use club_gate::LOCATION;
use club_http::{Name, Root};
use pass_forms::{Form, Pass, PassParts, narrow};
use pass_json::write_any;
use std::alloc::Global;

/// The word in a pass's brackets that marks the pass's key as unknown to the club.
const UNKNOWN: &str = "unknown";

/// The description of a pass that the player makes.
#[derive(Drop)]
struct Draft {
    root: Root,
    form: Form,
    is_forged: bool,
    identifier: Vec<u8>,
    location: Vec<u8>,
    caveats: Vec<Vec<u8>>,
}

/// Returns the form with this name.
pub(crate) fn form_named(text: &str) -> Option<Form> {
    match text {
        "v1" => Some(Form::V1),
        "v2" => Some(Form::V2),
        "json" => Some(Form::Json),
        _ => None,
    }
}

/// Replaces a text with the text of a part. Removes the quotes around the part, and decodes its
/// escapes.
fn replace(text: &mut Vec<u8>, part: &str) -> Result<(), Fault> {
    text.clear();
    push_unescaped(text, unquoted(part))
}

/// Returns the pass with one changed bit in the last byte of its signature.
fn forged(pass: Pass) -> Pass {
    let PassParts {
        location,
        identifier,
        caveats,
        mut signature,
    } = pass.into_parts();
    signature[31] ^= 1;
    Pass::new(location, identifier, caveats, signature)
}

impl Draft {
    /// Returns the description of the pass that the office makes for a key.
    fn of_key(alloc: Global, key: &Name, root: &Root, form: Form) -> Result<Draft, Fault> {
        let mut identifier = Vec::from_slice(alloc, b"key:")?;
        identifier.extend_from_slice(key.as_bytes())?;
        Ok(Draft {
            root: *root,
            form,
            is_forged: false,
            identifier,
            location: Vec::from_slice(alloc, LOCATION)?,
            caveats: Vec::new(alloc),
        })
    }

    /// Adds a caveat to the description. A part can state that the caveat is added several times.
    fn add_caveats(&mut self, alloc: Global, part: &str) -> Result<(), Fault> {
        let (count, text) = repeated(part);
        for _ in 0..count {
            let mut caveat = Vec::new(alloc);
            push_unescaped(&mut caveat, unquoted(text))?;
            self.caveats.push(caveat)?;
        }
        Ok(())
    }

    /// Applies one part from the brackets of a pass to the description.
    fn change(&mut self, alloc: Global, known: &Known, part: &str) -> Result<(), Fault> {
        let (word, rest) = part.split_once(' ').unwrap_or((part, ""));
        if let Some(form) = form_named(part) {
            self.form = form;
            return Ok(());
        }
        match word {
            "forged" if rest.is_empty() => self.is_forged = true,
            "under" => self.root = known.root(rest)?,
            "identifier" => replace(&mut self.identifier, rest)?,
            "location" => replace(&mut self.location, rest)?,
            _ if part == UNKNOWN => {}
            _ => self.add_caveats(alloc, part)?,
        }
        Ok(())
    }

    /// Makes the described pass.
    fn pass(&self, alloc: Global) -> Result<Pass, Fault> {
        let root = self.root.as_bytes();
        let mut pass = Pass::mint(alloc, root, &self.location, &self.identifier)?;
        for caveat in &self.caveats {
            narrow(alloc, &mut pass, caveat)?;
        }
        Ok(if self.is_forged { forged(pass) } else { pass })
    }
}

/// Splits a holder, such as `KEY [PART; PART]`, into the key's name and the parts in brackets.
fn key_and_parts(holder: &str) -> Result<(&str, &str), Fault> {
    match holder.split_once(" [") {
        None => Ok((holder, "")),
        Some((key, rest)) => match rest.strip_suffix(']') {
            Some(parts) => Ok((key, parts)),
            None => Err(Fault::Rule("a bracket has an end")),
        },
    }
}

/// Returns the root of a key. If the club doesn't have the key, the parts must contain `unknown`.
/// The root of such a key is the default root.
fn root_of(known: &Known, key: &Name, parts: &str) -> Result<Root, Fault> {
    let is_unknown = parts.split("; ").any(|part| part == UNKNOWN);
    match known.root_of_key(key) {
        Some(root) if !is_unknown => Ok(root),
        None if is_unknown => known.root("first"),
        Some(_) => Err(Fault::Rule("the key is known")),
        None => Err(Fault::Rule("the key is unknown")),
    }
}

/// Adds a holder's pass to the bytes. The holder is `KEY [PART; PART]` or `text NAME`. `form` is
/// the form of the pass, unless a part names another form.
pub(crate) fn push_pass(
    bytes: &mut Vec<u8>,
    known: &Known,
    holder: &str,
    form: Form,
) -> Result<(), Fault> {
    if let Some(text) = holder.strip_prefix("text ") {
        return Ok(bytes.extend_from_slice(known.text(&name(text)?)?)?);
    }
    let alloc = *bytes.allocator();
    let (key, parts) = key_and_parts(holder)?;
    let key = name(key)?;
    let root = root_of(known, &key, parts)?;
    let mut draft = Draft::of_key(alloc, &key, &root, form)?;
    for part in parts.split("; ") {
        if !parts.is_empty() {
            draft.change(alloc, known, part)?;
        }
    }
    let text = write_any(alloc, draft.form, &draft.pass(alloc)?)?;
    Ok(bytes.extend_from_slice(text.as_bytes())?)
}

/// Returns the text of the pass that the office makes for a key.
pub(crate) fn office_pass(
    alloc: Global,
    key: &Name,
    root: &Root,
    form: Form,
) -> Result<String, Fault> {
    let draft = Draft::of_key(alloc, key, root, form)?;
    Ok(write_any(alloc, form, &draft.pass(alloc)?)?)
}
