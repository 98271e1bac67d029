//! The commands of the program.

ghost use Rattle.std.specs.Prelude.{◌≡◌, ◌≢◌, ◌≤◌, IfErr, IfOk, false, length, take};
ghost use Rattle.clap.specs.Words.{found_of, rows_of};
ghost use Rattle.command_line.specs.Job.{Answers};
ghost use Rattle.passtool_commands.specs.Arguments.{ReadsCommand, checked_caveats, command_of};
ghost use Rattle.passtool_commands.specs.computed.Arguments.{is_understood};

use crate::answer::{Answer, BadValue, Fault, Outcome};
use crate::caveats::Caveats;
use crate::convert::convert;
use crate::input::MAX_READ;
use crate::mint::Mint;
use crate::narrow::narrow;
use crate::options::{caveats_of, root_of};
use crate::show::show;
use crate::table::Name;
use crate::verify::verify;
use clap::ArgMatches;
use command_line::{ArgumentsFault, Job, Root, fill, is_set, read_form, value_of, write_text};
use pass_caveats::laws::reads_what_is_understood;
use pass_forms::{Form, FormFault};
use std::alloc::Global;
use std::io::{self, Read, Write};

/// A command with the values of its arguments.
#[derive(Drop)]
pub enum Command<'a> {
    /// Makes a new pass.
    Mint(Mint<'a>),
    /// Shows the fields of a pass.
    Show,
    /// Adds caveats to a pass.
    Narrow(Caveats<'a>),
    /// Writes a pass in another form.
    Convert(Form),
    /// Checks if a pass is signed under the root.
    Verify(Root),
}

impl<'a> Job<'a> for Command<'a> {
    type Command = Name;

    type BadValue = BadValue;

    ghost Reads = { ReadsCommand };

    #[tactic(auto, using(crate::proofs::CommandLemmas::values_read))]
    fn read(
        alloc: Global,
        name: Name,
        options: &ArgMatches<'a>,
    ) -> Result<Command<'a>, ArgumentsFault<BadValue>>
        ensures { ReadsCommand name (rows_of (found_of options.now)) result }
    {
        // By this law, `is_understood` returns true for a text if and only if the text is a caveat
        // of the caveat language.
        reads_what_is_understood();
        match name {
            Name::Mint => mint_of(alloc, options),
            Name::Show => Ok(Command::Show),
            Name::Narrow => narrow_of(alloc, options),
            Name::Convert => Ok(Command::Convert(read_form::<Name, BadValue>(alloc, options)?)),
            Name::Verify => Ok(Command::Verify(root_of(options)?)),
        }
    }
}

fn mint_of<'a>(
    alloc: Global,
    options: &ArgMatches<'a>,
) -> Result<Command<'a>, ArgumentsFault<BadValue>>
    ensures { Answers (command_of is_understood Name.Mint (rows_of (found_of options.now))) result }
{
    let form = read_form::<Name, BadValue>(alloc, options)?;
    let root = root_of(options)?;
    let caveats = caveats_of(alloc, options)?;
    let identifier = value_of(options, "id");
    let location = value_of(options, "location");
    Ok(Command::Mint(Mint::new(root, identifier, location, form, caveats)))
}

fn narrow_of<'a>(
    alloc: Global,
    options: &ArgMatches<'a>,
) -> Result<Command<'a>, ArgumentsFault<BadValue>>
    ensures { Answers (command_of is_understood Name.Narrow (rows_of (found_of options.now)))
        result }
{
    let caveats = caveats_of(alloc, options)?;
    let checked_caveats = checked_caveats(caveats, is_set(options, "any"))?;
    Ok(Command::Narrow(checked_caveats))
}

impl<'a> Command<'a> {
    ghost use Rattle.pass_forms.specs.Reading.{UnlessMemory};
    ghost use Rattle.passtool_commands.specs.Answer as spec;
    ghost use Rattle.passtool_commands.specs.Run.{Performs, ReadsInput};

    /// Returns true if the command reads its input.
    pub fn reads_input(&self) -> bool
        ensures { result ≡ spec.reads_input self.now }
    {
        !matches!(self, Command::Mint(_))
    }

    /// Reads the input if the command needs input, and writes the command's answer.
    pub fn perform<R: Read, W: Write>(
        &self,
        alloc: Global,
        reader: &mut R,
        writer: &mut W,
    ) -> Result<Outcome, Fault>
        ensures answer { Performs self.now (R.remaining reader.old) (R.remaining reader.new)
            (W.contents writer.old) (W.contents writer.new) result }
        ensures unread { spec.reads_input self.now ≡ false → reader.new ≡ reader.old }
        ensures silent { IfErr result (λ fault. fault ≢ Fault.InputOutput
            → writer.new ≡ writer.old) }
    {
        let mut buffer = [0; MAX_READ];
        let count = self.read_input(reader, &mut buffer)?;
        let answer = self.answer(alloc, &buffer[..count])?;
        write_text(writer, answer.text())?;
        Ok(answer.outcome())
    }

    // Reads the input if the command needs input. Returns the number of bytes read.
    fn read_input<R: Read>(&self, reader: &mut R, buffer: &mut [u8; MAX_READ]) -> io::Result<usize>
        ensures bytes { IfOk result (λ count. (count ≤ length buffer.new)
            × ReadsInput (spec.reads_input self.now) (R.remaining reader.old)
            (R.remaining reader.new) (take count buffer.new)) }
        ensures unread { spec.reads_input self.now ≡ false → reader.new ≡ reader.old }
    {
        if self.reads_input() {
            fill(reader, buffer)
        } else {
            Ok(0)
        }
    }

    // Returns the command's answer to this input.
    fn answer(&self, alloc: Global, bytes: &[u8]) -> Result<Answer, FormFault>
        ensures { UnlessMemory (spec.IsAnswer self.now bytes.now) result }
    {
        match self {
            Command::Mint(mint) => mint.answer(alloc),
            Command::Show => show(alloc, bytes),
            Command::Narrow(caveats) => narrow(alloc, caveats, bytes),
            Command::Convert(form) => convert(alloc, *form, bytes),
            Command::Verify(root) => verify(alloc, root, bytes),
        }
    }
}

// Returns the caveats if `--any` is given, or if all of them are in the caveat language.
#[tactic(auto, unfolding(crate::specs::Arguments::checked_caveats))]
fn checked_caveats(caveats: Caveats<'_>, any: bool) -> Result<Caveats<'_>, ArgumentsFault<BadValue>>
    ensures { Answers (checked_caveats is_understood any caveats.entry) result }
{
    if any {
        return Ok(caveats);
    }
    match caveats.first_unknown() {
        None => Ok(caveats),
        Some(place) => Err(ArgumentsFault::BadValue(BadValue::Caveat(place + 1))),
    }
}
