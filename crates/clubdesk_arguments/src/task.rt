//! The jobs that arguments can ask for.

use club_clock::Clock;
use club_core::Command;
use club_rows::Root;
use club_values::{Day, Moment, Name, Slot};
use pass_forms::Form;
use std::marker::Model;

/// A task of the office.
#[derive(Drop)]
pub enum Task<'a> {
    /// A command of the office that prints no pass.
    Give(Command),
    /// A command that gives this root to a key and prints the key's pass.
    Key(KeyCommand, Root),
    /// A request for the sheet of this day.
    Sheet(Day),
    /// A request for the account of a key at the moment that the clock shows.
    ShowAccount { key: Name, clock: Clock<'a> },
    /// A request for the listing of a slot.
    ShowSlot(Slot),
}

/// A command that gives a root to a key and prints the key's pass in this form.
#[derive(Drop)]
pub struct KeyCommand {
    pub name: Name,
    pub change: KeyChange,
    pub form: Form,
}

/// The change that a `KeyCommand` makes to its key.
#[derive(Drop)]
pub enum KeyChange {
    /// Adds the key for this member.
    Add { member: Name },
    /// Gives the key a new root. The key's old root stays valid until this moment.
    Rotate { until: Moment },
}

/// The settings of the server.
#[derive(Drop)]
pub struct Service<'a> {
    /// The port of the loopback address on which the server listens. Port 0 asks for any free port.
    pub port: u16,
    /// The number of connections to serve, from 1 to 1,000,000.
    pub count: u32,
    /// The clock that shows the moment of each request.
    pub clock: Clock<'a>,
    /// The time limit for each step of a client's connection, from 1 to 3,600 seconds. The steps
    /// are receiving the request, sending the reply, and closing the connection.
    pub patience: u32,
    /// True if the server logs each client and each command.
    pub log: bool,
}

/// The work that a run does on a database.
#[derive(Drop)]
pub enum Work<'a> {
    Office(Task<'a>),
    /// A command that gives a key a root from standard input.
    Rootless(KeyCommand),
    Serve(Service<'a>),
}

/// The work of a run, and the database's file.
#[derive(Drop)]
pub struct Job<'a> {
    pub file: &'a str,
    pub work: Work<'a>,
}

impl<'a> Model for Job<'a> {
    ghost use Rattle.clubdesk_arguments.specs.Values.{JobModel};

    ghost Value = { JobModel };

    ghost view = { λ job. record { file = job.file.now; work = job.work } };
}
