//! The desk of a server. The desk answers requests, and carries out the office's commands.

ghost use Rattle.std.specs.Prelude.{◌≡◌, map, MatchOption, Err, option_copied, option_map};
ghost use Rattle.std.specs.String.{string_bytes};
ghost use Rattle.clubdesk_commands.specs.OfficeDesk as spec;
ghost use Rattle.clubdesk_commands.specs.{OfficeDesk.AnswersWith, Output.text_of};

use crate::handed_command::{HandedCommand, read_command};
use crate::input::root_in;
use crate::office::carry_out;
use club_clock::Instants;
use club_core::{ClubStore, Reply};
use club_gate::Desk;
use club_http::{Responder, Words};
use club_values::Moment;
use clubdesk_arguments::{Fault, Job, Task, Work};
use command_line::{Asked, read_job};
use desk_server::{Answer, Carried, Office, RequestLine};
use http_response::Line;
use std::alloc::Global;
use std::marker::Model;

/// The status of a command that the desk carried out.
const DONE: u8 = 0;

/// The status of bytes that don't encode a command of the office.
const NO_COMMAND: u8 = 2;

/// The status if memory for a command or for its answer runs out.
const OUT_OF_MEMORY: u8 = 4;

/// The most bytes of a command's name that the server logs. No command has a longer name.
const MAX_LOGGED_NAME: usize = 24;

/// A desk over an open store. The office's commands also need an allocator and the machine's clock.
/// Contracts represent an `OfficeDesk` by the pair of the store and the clock.
#[derive(Drop)]
pub struct OfficeDesk<'a, S: ClubStore, C> {
    desk: Desk<S>,
    alloc: Global,
    machine: &'a C,
}

impl<'a, S: ClubStore, C> Model for OfficeDesk<'a, S, C> {
    ghost Value = { S × C };

    ghost view = { λ desk. (desk.desk, desk.machine.now) };
}

impl<'a, S: ClubStore, C: Instants> OfficeDesk<'a, S, C> {
    ghost use Rattle.std.specs.Prelude.{◌≡◌};

    /// Makes a desk over this store.
    pub fn new(alloc: Global, machine: &'a C, store: S) -> OfficeDesk<'a, S, C>
        ensures { result ≡ (store, machine.now) }
    {
        OfficeDesk {
            desk: Desk::new(alloc, store),
            alloc,
            machine,
        }
    }

    /// Returns the store, and drops the desk.
    pub fn into_store(self) -> S
        ensures { result ≡ self.entry.0 }
    {
        let OfficeDesk { desk, .. } = self;
        desk.into_store()
    }
}

impl<S: ClubStore, C: Instants> Responder for OfficeDesk<'_, S, C> {
    ghost use Rattle.club_http.specs.Calls.{AnswersBy};
    ghost use Rattle.clubdesk_commands.specs.OfficeDesk.{answers_with_clock};

    ghost answers = { answers_with_clock (AnswersBy S.ghosts) };

    fn ask(&mut self, moment: Moment, words: &Words<'_>) -> Reply {
        Responder::ask(&mut self.desk, moment, words)
    }
}

impl<S: ClubStore, C: Instants> Office for OfficeDesk<'_, S, C> {
    ghost use Rattle.clubdesk_commands.specs.OfficeDesk.{CarriesOutBy, carries_out_with_clock};

    ghost commands = { carries_out_with_clock C.shows
        (CarriesOutBy S.ghosts) };

    fn command(&mut self, bytes: &[u8]) -> Answer {
        let command = match read_command(self.alloc, bytes) {
            Ok(Some(command)) => command,
            Ok(None) => return answer_of(NO_COMMAND, None, String::new(self.alloc)),
            Err(_) => return answer_of(OUT_OF_MEMORY, None, String::new(self.alloc)),
        };
        match answer_command(self.alloc, self.machine, &mut self.desk, &command) {
            None => answer_of(NO_COMMAND, None, String::new(self.alloc)),
            Some(Ok(text)) => answer_of(DONE, command.arguments.get(1), text),
            Some(Err(fault)) => refusal_of(self.alloc, &fault, command.arguments.get(1)),
        }
    }
}

// Carries out a command. Returns `None` if the arguments ask for help, the version or a server.
fn answer_command<S: ClubStore, C: Instants>(
    alloc: Global,
    machine: &C,
    desk: &mut Desk<S>,
    command: &HandedCommand,
) -> Option<Result<String, Fault>>
    ensures { MatchOption result
        ((desk.new ≡ desk.old) × spec.AskOther (map string_bytes command.now.arguments.items))
        (λ answer. spec.DoesArguments S.ghosts (C.shows machine.now)
        (string_bytes command.now.root) (map string_bytes command.now.arguments.items)
        (text_of answer) desk.old desk.new) }
{
    let job: Job<'_> = match read_job(alloc, command.arguments.as_slice()) {
        Ok(Asked::Perform(job)) => job,
        Ok(Asked::ShowText(_text)) => return None,
        Err(fault) => return Some(Err(Fault::from(fault))),
    };
    let Job { file: _, work } = job;
    match work {
        Work::Office(task) => Some(carry_out(alloc, machine, desk, task)),
        Work::Rootless(given) => match root_in(command.root.as_bytes()) {
            Some(root) => Some(carry_out(alloc, machine, desk, Task::Key(given, root))),
            None => Some(Err(Fault::BadValue)),
        },
        Work::Serve(_service) => None,
    }
}

// Makes an answer with this status and this text. The log line has no argument of the command
// except the command's name.
fn answer_of(status: u8, name: Option<&String>, text: String) -> Answer
    ensures status { result.carried.status ≡ status }
    ensures line { result.carried.line ≡ spec.named_line
        (option_map string_bytes (option_copied name.entry)) }
    ensures text { result.text ≡ text }
{
    let mut line = Line::new();
    if let Some(name) = name {
        let name = name.as_str().as_bytes();
        line.push(b"office ");
        line.push(&name[..name.len().min(MAX_LOGGED_NAME)]);
        line.push(b" ");
    }
    let line = RequestLine::of(line.as_bytes());
    Answer {
        carried: Carried { line, status },
        text,
    }
}

// Makes an answer with the status and the line of a fault.
fn refusal_of(alloc: Global, fault: &Fault, name: Option<&String>) -> Answer
    ensures answers { AnswersWith (Err fault.now) result }
    ensures line { result.carried.line ≡ spec.logged_line (Err fault.now)
        (option_map string_bytes (option_copied name.entry)) }
{
    let name = match fault {
        Fault::Arguments(_) => None,
        _ => name,
    };
    match format!(in alloc; "{fault}") {
        Ok(line) => answer_of(fault.status(), name, line),
        Err(_) => answer_of(OUT_OF_MEMORY, name, String::new(alloc)),
    }
}
