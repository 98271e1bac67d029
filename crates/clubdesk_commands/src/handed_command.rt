//! Encodes a command for a server as JSON, and decodes the JSON.
ghost use Rattle.clubdesk_commands.specs.HandedCommand as spec;
ghost use Rattle.std.specs.{Prelude.{◌≡◌, ◌∷◌, IfOk, List, MatchOption, map}, String.string_bytes};
ghost use Rattle.clap.specs.Words.{Text};
ghost use Rattle.serde_json.specs.{Data.string, View.view};

use serde_json::Value;
use std::alloc::{AllocError, Global};
use std::convert::AsStr;

/// A command that the program sends to a server: a key's root in hexadecimal, and the arguments.
/// The root is empty if the command gives no root to a key. The first argument is the program's
/// name.
#[derive(Drop)]
pub struct HandedCommand {
    pub root: String,
    pub arguments: Vec<String>,
}

/// Encodes a command as JSON, an array of the root and the arguments.
///
/// # Errors
///
/// Fails if memory for the JSON runs out.
pub fn command_bytes<S: AsStr>(
    alloc: Global,
    root: &str,
    arguments: &[S],
) -> Result<Vec<u8>, AllocError>
    ensures { IfOk result (λ bytes. spec.SpellsCommand bytes.items root.now
        (map S.text arguments.now)) }
{
    let mut texts = Vec::new(alloc);
    texts.push(text_value(alloc, root)?)?;
    for argument in arguments {
        texts.push(text_value(alloc, argument.as_str())?)?;
    }
    Value::Array(texts).to_vec(alloc)
}

fn text_value(alloc: Global, text: &str) -> Result<Value, AllocError>
    ensures { IfOk result (λ value. view value ≡ string text.now) }
{
    Ok(Value::String(format!(in alloc; "{text}")?))
}

/// Decodes a command from JSON, or returns `None` if the bytes encode no command.
///
/// # Errors
///
/// Fails if memory for the command runs out.
pub fn read_command(alloc: Global, bytes: &[u8]) -> Result<Option<HandedCommand>, AllocError>
    ensures { IfOk result (λ command. spec.IsCommandOf bytes.now command) }
{
    let value = match Value::from_slice(alloc, bytes) {
        Ok(value) => value,
        Err(error) => {
            return if error.is_memory() {
                Err(AllocError)
            } else {
                Ok(None)
            };
        }
    };
    let Some(values) = value.as_array() else {
        return Ok(None);
    };
    let Some(mut arguments) = texts_of(alloc, values)? else {
        return Ok(None);
    };
    if arguments.is_empty() {
        return Ok(None);
    }
    let root = arguments.remove(0);
    Ok(Some(HandedCommand { root, arguments }))
}

// Copies the texts out of JSON values. Returns `None` if one of the values isn't a text.
fn texts_of(alloc: Global, values: &[Value]) -> Result<Option<Vec<String>>, AllocError>
    ensures { IfOk result (λ texts. MatchOption texts
        ((others : List Text) → map view values.now ≡ map string others → ⊥)
        (λ texts. map view values.now ≡ map string (map string_bytes texts.items))) }
{
    let mut texts = Vec::new(alloc);
    for value in values {
        let Some(text) = value.as_str() else {
            return Ok(None);
        };
        texts.push(format!(in alloc; "{text}")?)?;
    }
    Ok(Some(texts))
}
