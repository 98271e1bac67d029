//! Makes the bytes of requests.

use crate::fault::Fault;
use crate::known::Known;
use crate::passes::push_pass;
use crate::text::{halves, push_repeated};
use pass_forms::Form;
use std::alloc::Global;

/// The holder of a request without a pass.
const NOBODY: &str = "nobody";

fn push(bytes: &mut Vec<u8>, text: &str) -> Result<(), Fault> {
    Ok(bytes.extend_from_slice(text.as_bytes())?)
}

/// Returns the prefix of a path. The prefix is empty if the line states the full path.
fn front_of(path: &str) -> &'static str {
    if path.starts_with('/') {
        ""
    } else if path == "account" {
        "/"
    } else {
        "/slots/"
    }
}

/// Returns the bytes of the request `METHOD PATH BODY` with the pass of a holder.
pub(crate) fn request_of(
    alloc: Global,
    known: &Known,
    form: Form,
    holder: &str,
    asked: &str,
) -> Result<Vec<u8>, Fault> {
    let (method, rest) = halves(asked, ' ', "a request has a method and a path")?;
    let (path, body) = rest.split_once(' ').unwrap_or((rest, ""));
    let mut bytes = Vec::new(alloc);
    push(&mut bytes, method)?;
    push(&mut bytes, " ")?;
    push(&mut bytes, front_of(path))?;
    push(&mut bytes, path)?;
    push(&mut bytes, " HTTP/1.1\r\nHost: club\r\n")?;
    if holder != NOBODY {
        push(&mut bytes, "Authorization: Bearer ")?;
        push_pass(&mut bytes, known, holder, form)?;
        push(&mut bytes, "\r\n")?;
    }
    if !body.is_empty() {
        let length = format!(in alloc; "Content-Length: {}\r\n", body.len())?;
        push(&mut bytes, length.as_str())?;
    }
    push(&mut bytes, "\r\n")?;
    push(&mut bytes, body)?;
    Ok(bytes)
}

/// Adds a line of a request. A text between `<` and `>` is a holder, and the holder's pass replaces
/// the text.
fn push_pieces(bytes: &mut Vec<u8>, known: &Known, form: Form, line: &str) -> Result<(), Fault> {
    let mut is_first = true;
    for piece in line.split('<') {
        if is_first {
            push_repeated(bytes, piece)?;
        } else {
            let (holder, plain) = halves(piece, '>', "a holder is between < and >")?;
            push_pass(bytes, known, holder, form)?;
            push_repeated(bytes, plain)?;
        }
        is_first = false;
    }
    Ok(())
}

/// Returns the bytes of the request in these lines.
pub(crate) fn request_in(
    alloc: Global,
    known: &Known,
    form: Form,
    lines: &[&str],
) -> Result<Vec<u8>, Fault> {
    let mut bytes = Vec::new(alloc);
    for line in lines {
        push_pieces(&mut bytes, known, form, line.trim_matches(' '))?;
    }
    Ok(bytes)
}
