//! Carries out the office's tasks at a desk.

ghost use Rattle.std.specs.{Prelude.{◌≡◌, IfErr, IfSome}, String.string_bytes};
ghost use Rattle.clubdesk_commands.specs.Does as spec;
ghost use Rattle.clubdesk_commands.specs.Output.{IsWorkFault, text_of};

use club_clock::{Instants, Moments, MomentsOf};
use club_core::{ClubStore, Command, StoreFault};
use club_gate::{Desk, OfficeReply, key_signature, minted};
use club_rows::Root;
use club_values::Name;
use clubdesk_arguments::{Fault, KeyChange, KeyCommand, Task};
use pass_forms::Form;
use pass_json::write_any;
use std::alloc::Global;

/// Carries out a task at a desk, and returns the text of the answer.
///
/// # Errors
///
/// The club is unchanged after each of these faults:
/// - `Refused`, `Memory` or `Storage`, if the desk fails.
/// - `Memory`, if memory for the answer runs out before the desk receives the command.
/// - `ClockOutOfRange`, if a listing needs the time, but the clock can't be read or shows a year
///   before 2000 or after 2099.
pub(crate) fn carry_out<C: Instants, S: ClubStore>(
    alloc: Global,
    machine: &C,
    desk: &mut Desk<S>,
    task: Task<'_>,
) -> Result<String, Fault>
    ensures does { spec.Does S.ghosts (C.shows machine.now) task.entry
        (text_of result) desk.old desk.new }
    ensures worked { IfErr result IsWorkFault }
{
    match task {
        Task::Give(command) => match format!(in alloc; "done\n") {
            Ok(line) => give(desk, &command, line),
            Err(_) => Err(Fault::Memory),
        },
        Task::Key(command, root) => {
            let KeyCommand { name, change, form } = command;
            match pass_line(alloc, &name, &root, form) {
                Some(line) => give(desk, &key_command(name, change, root), line),
                None => Err(Fault::Memory),
            }
        }
        Task::Sheet(day) => answer_of_desk(desk.sheet(day)),
        Task::ShowAccount { key, clock } => match (MomentsOf { clock, machine }).now() {
            Some(moment) => answer_of_desk(desk.show_account(&key, moment)),
            None => Err(Fault::ClockOutOfRange),
        },
        Task::ShowSlot(slot) => answer_of_desk(desk.show_slot(&slot)),
    }
}

// Sends a command to the desk. Returns `text` if the desk carries out the command.
fn give<S: ClubStore>(desk: &mut Desk<S>, command: &Command, text: String) -> Result<String, Fault>
    ensures given { spec.IsGiven S.ghosts command.now (string_bytes text)
        (text_of result) desk.old desk.new }
    ensures worked { IfErr result IsWorkFault }
{
    command.within();
    match desk.office(command) {
        OfficeReply::Refused(fault) => Err(fault_of_desk(fault)),
        OfficeReply::Done | OfficeReply::Key { .. } => Ok(text),
    }
}

// Returns the line with a key's pass, or `None` if memory runs out. No other error is possible,
// because a pass without caveats is short enough for each form.
fn pass_line(alloc: Global, name: &Name, root: &Root, form: Form) -> Option<String>
    ensures { IfSome result (λ line. spec.IsPassLine name.now root.now form
        (string_bytes line)) }
{
    let Ok(pass) = minted(alloc, name, key_signature(name, root)) else {
        return None;
    };
    let Ok(mut line) = write_any(alloc, form, &pass) else {
        return None;
    };
    line.push('\n').ok()?;
    Some(line)
}

// Returns the desk's command that gives this root to a key.
fn key_command(name: Name, change: KeyChange, root: Root) -> Command
    ensures { result ≡ spec.key_command name change root }
{
    match change {
        KeyChange::Add { member } => Command::AddKey { name, member, root },
        KeyChange::Rotate { until } => Command::RotateKey { name, root, until },
    }
}

// Converts a result of the desk to the program's answer.
fn answer_of_desk(returned: Result<String, club_gate::Fault>) -> Result<String, Fault>
    ensures is { text_of result ≡ spec.answer_of_desk returned }
    ensures worked { IfErr result IsWorkFault }
{
    match returned {
        Ok(text) => Ok(text),
        Err(fault) => Err(fault_of_desk(fault)),
    }
}

// Converts a fault of the desk to a fault of the program.
fn fault_of_desk(returned: club_gate::Fault) -> Fault
    ensures is { result ≡ spec.fault_of_desk returned }
    ensures worked { IsWorkFault result }
{
    match returned {
        club_gate::Fault::Refused(refusal) => Fault::Refused(refusal),
        club_gate::Fault::Store(StoreFault::Memory) => Fault::Memory,
        club_gate::Fault::Store(StoreFault::Storage) => Fault::Storage,
    }
}
