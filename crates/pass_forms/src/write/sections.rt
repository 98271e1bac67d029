//! Writes a pass as the sections of V2.

ghost use Rattle.std.specs.{List.flat_map, Prelude.{◌<◌, ◌^◌, ◌++◌, map}};
ghost use Rattle.pass_forms.specs.{Pass.widened_caveat, Writing.{Puts, nonempty_location}};
ghost use Rattle.pass_forms.specs.V2 as spec;

use crate::v2::{END_OF_SECTION, IDENTIFIER, LOCATION, SIGNATURE, Sections, VERSION};
use crate::write::PutLayout;
use crate::write::buffer::Buffer;
use crate::{FormFault, MAX_BYTES, Pass};

// Appends a length as a varint. `put_field` limits the length to 6,144 bytes, so the varint has at
// most two bytes.
#[tactic(auto, using(crate::proofs::FieldLemmas::varint_small, crate::proofs::FieldLemmas::varint_of_two))]
fn put_varint(buffer: &mut Buffer, n: usize) -> Result<(), FormFault>
    requires { n < 2 ^ 14 }
    ensures { Puts (spec.varint n) buffer.old buffer.new result }
{
    if n < 128 {
        buffer.put(&[n as u8])
    } else {
        buffer.put(&[(128 + n % 128) as u8, (n / 128) as u8])
    }
}

fn put_field(buffer: &mut Buffer, kind: u8, bytes: &[u8]) -> Result<(), FormFault>
    ensures { Puts (spec.field kind bytes.now) buffer.old buffer.new result }
{
    if bytes.len() > MAX_BYTES {
        return Err(FormFault::TooLong);
    }
    buffer.put(&[kind])?;
    put_varint(buffer, bytes.len())?;
    buffer.put(bytes)
}

// Appends a location, unless the location is empty.
fn put_location(buffer: &mut Buffer, location: &[u8]) -> Result<(), FormFault>
    ensures { Puts (spec.optional_field 1
        (nonempty_location location.now)) buffer.old buffer.new result }
{
    if location.is_empty() {
        return Ok(());
    }
    put_field(buffer, LOCATION, location)
}

// Appends an identifier and the zero byte that ends the section.
fn put_identifier(buffer: &mut Buffer, identifier: &[u8]) -> Result<(), FormFault>
    ensures { Puts (spec.field 2 identifier.now
        ++ spec.end_of_section) buffer.old buffer.new result }
{
    put_field(buffer, IDENTIFIER, identifier)?;
    buffer.put(END_OF_SECTION)
}

fn put_caveats(buffer: &mut Buffer, caveats: &[Vec<u8>]) -> Result<(), FormFault>
    ensures { Puts (flat_map spec.caveat_section
        (map widened_caveat (map (λ caveat. caveat.items) caveats.now))) buffer.old buffer.new
        result }
{
    for caveat in caveats {
        put_identifier(buffer, caveat)?;
    }
    Ok(())
}

impl PutLayout for Sections {
    ghost use Rattle.pass_forms.specs.Writing.{v2_bytes};

    ghost bytes_of = { v2_bytes };

    #[tactic(auto, unfolding(crate::specs::Writing::v2_bytes))]
    fn put_pass(buffer: &mut Buffer, pass: &Pass) -> Result<(), FormFault> {
        buffer.put(VERSION)?;
        put_location(buffer, pass.location())?;
        put_identifier(buffer, pass.identifier())?;
        put_caveats(buffer, pass.caveats())?;
        buffer.put(END_OF_SECTION)?;
        put_field(buffer, SIGNATURE, pass.signature())
    }
}
