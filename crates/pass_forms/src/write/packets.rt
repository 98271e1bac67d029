//! Writes a pass as the packets of V1.

ghost use Rattle.std.specs.{List.flat_map, Prelude.{◌≡◌, ◌<◌, ◌≤◌, ◌^◌, length, map}};
ghost use Rattle.pass_forms.specs.{Pass.widened_caveat, Writing.Puts};
ghost use Rattle.pass_forms.specs.V1 as spec;

use crate::v1::{CAVEAT, IDENTIFIER, LOCATION, Packets, SIGNATURE};
use crate::write::PutLayout;
use crate::write::buffer::Buffer;
use crate::{FormFault, MAX_BYTES, Pass};

fn hex_digit(value: usize) -> u8
    requires { value < 16 }
    ensures { result ≡ spec.hex_digit value }
{
    if value < 10 {
        b'0' + value as u8
    } else {
        b'a' + (value - 10) as u8
    }
}

fn four_hex_digits(len: usize) -> [u8; 4]
    requires { len < 2 ^ 16 }
    ensures { result ≡ spec.four_hex_digits len }
{
    [
        hex_digit(len / 4096),
        hex_digit(len / 256 % 16),
        hex_digit(len / 16 % 16),
        hex_digit(len % 16),
    ]
}

// Appends a packet. The argument `key` ends with a space, and `bytes` is the packet's data.
fn put_packet(buffer: &mut Buffer, key: &[u8], bytes: &[u8]) -> Result<(), FormFault>
    requires { length key.now ≤ 16 }
    ensures { Puts (spec.packet key.now bytes.now) buffer.old buffer.new result }
{
    if bytes.len() > MAX_BYTES {
        return Err(FormFault::TooLong);
    }
    let len = 4 + key.len() + bytes.len() + 1;
    buffer.put(&four_hex_digits(len))?;
    buffer.put(key)?;
    buffer.put(bytes)?;
    buffer.put(b"\n")
}

fn put_caveats(buffer: &mut Buffer, caveats: &[Vec<u8>]) -> Result<(), FormFault>
    ensures { Puts (flat_map spec.caveat_packets
        (map widened_caveat (map (λ caveat. caveat.items) caveats.now))) buffer.old buffer.new
        result }
{
    for caveat in caveats {
        put_packet(buffer, CAVEAT, caveat)?;
    }
    Ok(())
}

impl PutLayout for Packets {
    ghost use Rattle.pass_forms.specs.Writing.{v1_bytes};

    ghost bytes_of = { v1_bytes };

    #[tactic(auto, unfolding(crate::specs::Writing::v1_bytes))]
    fn put_pass(buffer: &mut Buffer, pass: &Pass) -> Result<(), FormFault> {
        put_packet(buffer, LOCATION, pass.location())?;
        put_packet(buffer, IDENTIFIER, pass.identifier())?;
        put_caveats(buffer, pass.caveats())?;
        put_packet(buffer, SIGNATURE, pass.signature())
    }
}
