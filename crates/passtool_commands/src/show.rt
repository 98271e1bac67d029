//! The command `show`, which prints the fields of a pass, one per line.

ghost use Rattle.std.specs.Prelude.{◌≡◌, ◌+◌, ◌<◌, ◌^◌, ◌++◌, IfOk, OnOk, length, map};
ghost use Rattle.std.specs.String.{string_bytes};
ghost use Rattle.pass_forms.specs.Reading.{UnlessMemory};
ghost use Rattle.passtool_commands.specs.Answer.{ShowsPass};
ghost use Rattle.passtool_commands.specs.Answer as spec;

use crate::answer::{Answer, Outcome};
use crate::input::read_pass;
use command_line::form_name;
use pass_forms::{Form, FormFault, Pass};
use std::alloc::{AllocError, Global};

/// Reads a pass from the input, and returns its fields, one per line.
pub fn show(alloc: Global, bytes: &[u8]) -> Result<Answer, FormFault>
    ensures { UnlessMemory (ShowsPass bytes.now) result }
{
    let (form, pass) = read_pass(alloc, bytes)?;
    let text = listing_text(alloc, form, &pass)?;
    Ok(Answer::new(Outcome::Done, text))
}

#[tactic(auto, unfolding(crate::specs::Answer::listing_text))]
fn listing_text(alloc: Global, form: Form, pass: &Pass) -> Result<String, AllocError>
    ensures { IfOk result (λ text. string_bytes text ≡ spec.listing_text form pass.now) }
{
    let name = form_name(form);
    let mut text = format!(in alloc; "form {name}\n")?;
    push_line(alloc, &mut text, "location", pass.location())?;
    push_line(alloc, &mut text, "identifier", pass.identifier())?;
    push_caveats(alloc, &mut text, pass.caveats())?;
    let signature = hex::encode(alloc, pass.signature().as_slice())?;
    text.push_str("signature ")?;
    text.push_str(signature.as_str())?;
    text.push('\n')?;
    Ok(text)
}

fn push_caveats(alloc: Global, text: &mut String, caveats: &[Vec<u8>]) -> Result<(), AllocError>
    ensures { OnOk result (string_bytes text.new
        ≡ string_bytes text.old ++ spec.caveat_lines 1 (map (λ caveat. caveat.items) caveats.now)) }
{
    for (index, caveat) in caveats.iter().enumerate() {
        let number = index + 1;
        let name = format!(in alloc; "caveat {number}")?;
        push_line(alloc, text, name.as_str(), caveat)?;
    }
    Ok(())
}

// Adds a line to the text. The line consists of a name, a space and the escaped value.
fn push_line(alloc: Global, text: &mut String, name: &str, value: &[u8]) -> Result<(), AllocError>
    ensures { OnOk result
        (string_bytes text.new ≡ string_bytes text.old ++ spec.value_line name.now value.now) }
{
    text.push_str(name)?;
    text.push(' ')?;
    push_escaped(alloc, text, value)?;
    text.push('\n')
}

fn push_escaped(alloc: Global, text: &mut String, bytes: &[u8]) -> Result<(), AllocError>
    ensures { OnOk result
        (string_bytes text.new ≡ string_bytes text.old ++ spec.escaped_text bytes.now) }
{
    for byte in bytes {
        push_byte(alloc, text, *byte)?;
    }
    Ok(())
}

#[tactic(auto, unfolding(crate::specs::Answer::escaped_byte))]
fn push_byte(alloc: Global, text: &mut String, byte: u8) -> Result<(), AllocError>
    ensures { OnOk result
        (string_bytes text.new ≡ string_bytes text.old ++ spec.escaped_byte byte) }
{
    match byte {
        b'\\' => text.push_str("\\\\"),
        b' '..=b'~' => text.push(char::from(byte)),
        _ => {
            let digits = hex::encode(alloc, [byte].as_slice())?;
            text.push_str("\\x")?;
            text.push_str(digits.as_str())
        }
    }
}
