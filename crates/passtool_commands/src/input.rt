//! Reads a pass from the input.

ghost use Rattle.std.specs.Prelude.{◌≤◌, length, IfOk};
ghost use Rattle.pass_forms.specs.Reading.{UnlessMemory, max_caveats};
ghost use Rattle.passtool_commands.specs.Answer.{ReadsPass};

use command_line::without_line_feed;
use pass_forms::{Form, FormFault, Pass};
use pass_json::read_any;
use std::alloc::Global;

/// The maximum number of bytes that a command reads. The longest text of a pass has 8,192 bytes,
/// and a line feed may follow the text. One more byte shows that a text is too long.
pub const MAX_READ: usize = 8194;

/// Reads a pass from the input. Returns the pass and the form of its text. Ignores one line feed at
/// the end of the input.
pub fn read_pass(alloc: Global, bytes: &[u8]) -> Result<(Form, Pass), FormFault>
    ensures read { UnlessMemory (ReadsPass bytes.now) result }
    ensures few { IfOk result (λ read. length read.1.caveats ≤ max_caveats) }
{
    read_any(alloc, without_line_feed(bytes))
}
