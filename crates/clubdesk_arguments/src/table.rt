//! The commands and their arguments, with their help texts, and the work that arguments ask for.

ghost use Rattle.clubdesk_arguments.specs.Arguments as spec;
ghost use Rattle.std.specs.Prelude.{◌≡◌, None, option_map};
ghost use Rattle.clap.specs.Words.{found_of, rows_of};
ghost use Rattle.clubdesk_arguments.specs.{Arguments.clubdesk, computed.TextReaders.text_readers};
ghost use Rattle.command_line.specs.Job.{Answers};

use crate::options::{given, name_of, number_at, root_and_form, rotation_moment, rotation_root};
use crate::task::{KeyChange, KeyCommand, Service, Task, Work};
use crate::values::{booking_number_of, count_of, patience_of, port_of, root_of};
use clap::ArgMatches;
use club_clock::{Clock, Zone};
use club_core::Command;
use club_values::{Day, Hour, Kind, Moment, Slot};
use command_line::{
    Argument, ArgumentsFault, Commands, Program, Row, command_named, is_set, make_application,
    value_of,
};
use pass_forms::Form;
use std::alloc::{AllocError, Global};

/// The names of the commands.
#[derive(Clone, Copy)]
pub enum CommandName {
    AddMember,
    Credit,
    Debit,
    SetQuota,
    AddFacility,
    SetFacility,
    AddKey,
    RevokeKey,
    RotateKey,
    CloseSlot,
    OpenSlot,
    CancelBooking,
    Sheet,
    Serve,
    ShowAccount,
    ShowSlot,
}

const STATUSES: &str = "Exit status:
  0  done
  1  refused: exists, unknown, out of range, or slot in use
  2  usage error
  3  invalid argument, or invalid root on standard input
  4  out of memory
  5  storage failed
  6  serve, show-account: the clock failed, or isn't in the years 2000 to 2099
  7  input or output failed
  8  no answer from the server: the command may have been done
  9  nothing was done: the server didn't get the whole command";

const ADD_MEMBER_HELP: &str =
    "FILE is the club's database, created if missing. QUOTA is the member's maximum
number of open bookings, 0 to 99. A new member has no points.

Example:
  clubdesk add-member club.db amy 5";

const CREDIT_HELP: &str = "POINTS are 1 to 1000000. A member has at most 999999999 credited points.

Example:
  clubdesk credit club.db amy 10000";

const DEBIT_HELP: &str =
    "Takes back credited points. POINTS are 1 to 1000000, but at most the member's
balance.

Example:
  clubdesk debit club.db amy 500";

const SET_QUOTA_HELP: &str =
    "QUOTA is the member's maximum number of open bookings, 0 to 99. Bookings stay,
even if the member has more open bookings than QUOTA.

Example:
  clubdesk set-quota club.db amy 8";

const ADD_FACILITY_HELP: &str =
    "KIND is court, boat or room. PLACES are 1 to 50. PRICE is the number of points
for one place for one hour, 0 to 9999. OPENS and SHUTS are full hours, 0 to 24.

Example:
  clubdesk add-facility club.db court-1 court 4 200 8 22";

const SET_FACILITY_HELP: &str =
    "PLACES are 1 to 50. PRICE is the number of points for one place for one hour, 0
to 9999. OPENS and SHUTS are full hours, 0 to 24. Fails if a slot already has
more persons than PLACES. The facility keeps its kind. Bookings keep their
charge and their hour.

Example:
  clubdesk set-facility club.db court-1 4 250 8 21";

const ADD_KEY_HELP: &str =
    "Prints the key's pass. ROOT is the key's secret, 16 to 64 bytes in hexadecimal.
Other users can see arguments in the process list. To hide ROOT, leave it out
and use --root-stdin.

Example:
  openssl rand -hex 32 | clubdesk add-key club.db amy-1 amy --root-stdin";

const REVOKE_KEY_HELP: &str = "Passes of a revoked key are no longer served.

Example:
  clubdesk revoke-key club.db amy-1";

const ROTATE_KEY_HELP: &str =
    "Prints the new pass. ROOT is the key's new root. With --root-stdin, ROOT is read
from standard input, and the arguments are FILE KEY MOMENT. The old root expires
at MOMENT: passes signed under it are served until then.

Example:
  openssl rand -hex 32 | clubdesk rotate-key club.db amy-1 2026-05-01T00:00 --root-stdin";

const CLOSE_SLOT_HELP: &str =
    "The slot can no longer be booked. Fails if the slot already has a booking.
HOUR has two digits, 00 to 23.

Example:
  clubdesk close-slot club.db court-1 2026-05-01 18";

const OPEN_SLOT_HELP: &str = "The slot can be booked again. An open slot stays open.
HOUR has two digits, 00 to 23.

Example:
  clubdesk open-slot club.db court-1 2026-05-01 18";

const CANCEL_BOOKING_HELP: &str =
    "NUMBER is the booking's number, 1 to 999999999. Refunds the whole charge, even
if the slot has begun or the key is revoked. Changes nothing if the booking is
already cancelled.

Example:
  clubdesk cancel-booking club.db amy-1 7";

const SHEET_HELP: &str = "DAY is a date, from 2000-01-01 to 2099-12-31.

Example:
  clubdesk sheet club.db 2026-05-01";

const SERVE_HELP: &str =
    "Serves N connections to 127.0.0.1, one after the other, then ends. A client has
the seconds of --patience to send its request, the same time to read the reply,
and the same time to stop sending. The server cuts off a slower client.

Example:
  clubdesk serve club.db --port 8080 --count 1000 --zone CET-1CEST,M3.5.0,M10.5.0/3";

const SHOW_ACCOUNT_HELP: &str =
    "Prints the account that the desk shows to the key's holder: member, balance,
quota, open bookings and points spent. Also prints whether the key is revoked,
and when its old root expires. Prints no root.

Example:
  clubdesk show-account club.db amy-1 --zone CET-1CEST,M3.5.0,M10.5.0/3";

const SHOW_SLOT_HELP: &str =
    "Prints the slot as the desk shows it to every key's holder: kind, price, places,
places taken, and whether it is closed. HOUR has two digits, 00 to 23.

Example:
  clubdesk show-slot club.db court-1 2026-05-01 18";

const FILE: Argument = Argument::NeededPositional("FILE");

const NAME: Argument = Argument::NeededPositional("NAME");

const KEY: Argument = Argument::NeededPositional("KEY");

const FACILITY: Argument = Argument::NeededPositional("FACILITY");

const DAY: Argument = Argument::NeededPositional("DAY");

const HOUR: Argument = Argument::NeededPositional("HOUR");

const ROOT_BY_INPUT: Argument = Argument::Flag("root-stdin", "Reads ROOT from standard input");

const FORM: Argument = Argument::Or("form", "FORM", "The form of the pass: v1, v2 or json", "v2");

const ZONE: Argument = Argument::Or("zone", "RULE", "The club's time zone, a POSIX rule", "UTC0");

const AT: Argument = Argument::Value(
    "at",
    "MOMENT",
    "The time to use instead of the clock's time",
);

const SLOT: &[Argument] = &[FILE, FACILITY, DAY, HOUR];

const FACILITY_ARGUMENTS: &[Argument] = &[
    FILE,
    NAME,
    Argument::NeededPositional("KIND"),
    Argument::NeededPositional("PLACES"),
    Argument::NeededPositional("PRICE"),
    Argument::NeededPositional("OPENS"),
    Argument::NeededPositional("SHUTS"),
];

const SET_FACILITY_ARGUMENTS: &[Argument] = &[
    FILE,
    NAME,
    Argument::NeededPositional("PLACES"),
    Argument::NeededPositional("PRICE"),
    Argument::NeededPositional("OPENS"),
    Argument::NeededPositional("SHUTS"),
];

const ADD_KEY_ARGUMENTS: &[Argument] = &[
    FILE,
    KEY,
    Argument::NeededPositional("MEMBER"),
    Argument::Positional("ROOT"),
    ROOT_BY_INPUT,
    FORM,
];

const ROTATE_KEY_ARGUMENTS: &[Argument] = &[
    FILE,
    KEY,
    // This argument is the root or, with `--root-stdin`, the moment.
    Argument::NeededPositionalAs("ROOT-OR-MOMENT", "ROOT"),
    Argument::Positional("MOMENT"),
    ROOT_BY_INPUT,
    FORM,
];

const SERVE_ARGUMENTS: &[Argument] = &[
    FILE,
    Argument::Needed("port", "P", "The port, 0 to 65535; 0 means any free port"),
    Argument::Needed(
        "count",
        "N",
        "The number of connections to serve, 1 to 1000000",
    ),
    ZONE,
    AT,
    Argument::Or(
        "patience",
        "SECONDS",
        "A client's seconds for each step (send, read, stop sending), 1 to 3600",
        "10",
    ),
    Argument::Flag("log", "Writes a line for each connection to standard error"),
];

/// The program `clubdesk` with its commands.
static CLUBDESK: Program<CommandName> = Program {
    name: "clubdesk",
    about: "Runs a sports club's facilities desk: server, office commands and day sheets",
    statuses: STATUSES,
    rows: &[
        Row {
            command: CommandName::AddMember,
            name: "add-member",
            about: "Adds a member",
            help: ADD_MEMBER_HELP,
            arguments: &[FILE, NAME, Argument::NeededPositional("QUOTA")],
        },
        Row {
            command: CommandName::Credit,
            name: "credit",
            about: "Credits a member with points",
            help: CREDIT_HELP,
            arguments: &[
                FILE,
                Argument::NeededPositional("MEMBER"),
                Argument::NeededPositional("POINTS"),
            ],
        },
        Row {
            command: CommandName::Debit,
            name: "debit",
            about: "Takes points from a member",
            help: DEBIT_HELP,
            arguments: &[
                FILE,
                Argument::NeededPositional("MEMBER"),
                Argument::NeededPositional("POINTS"),
            ],
        },
        Row {
            command: CommandName::SetQuota,
            name: "set-quota",
            about: "Changes a member's quota",
            help: SET_QUOTA_HELP,
            arguments: &[
                FILE,
                Argument::NeededPositional("MEMBER"),
                Argument::NeededPositional("QUOTA"),
            ],
        },
        Row {
            command: CommandName::AddFacility,
            name: "add-facility",
            about: "Adds a facility",
            help: ADD_FACILITY_HELP,
            arguments: FACILITY_ARGUMENTS,
        },
        Row {
            command: CommandName::SetFacility,
            name: "set-facility",
            about: "Changes a facility's places, price and hours",
            help: SET_FACILITY_HELP,
            arguments: SET_FACILITY_ARGUMENTS,
        },
        Row {
            command: CommandName::AddKey,
            name: "add-key",
            about: "Adds a key for a member",
            help: ADD_KEY_HELP,
            arguments: ADD_KEY_ARGUMENTS,
        },
        Row {
            command: CommandName::RevokeKey,
            name: "revoke-key",
            about: "Revokes a key",
            help: REVOKE_KEY_HELP,
            arguments: &[FILE, KEY],
        },
        Row {
            command: CommandName::RotateKey,
            name: "rotate-key",
            about: "Replaces the root of a key",
            help: ROTATE_KEY_HELP,
            arguments: ROTATE_KEY_ARGUMENTS,
        },
        Row {
            command: CommandName::CloseSlot,
            name: "close-slot",
            about: "Closes a slot of a facility",
            help: CLOSE_SLOT_HELP,
            arguments: SLOT,
        },
        Row {
            command: CommandName::OpenSlot,
            name: "open-slot",
            about: "Opens a slot that was closed",
            help: OPEN_SLOT_HELP,
            arguments: SLOT,
        },
        Row {
            command: CommandName::CancelBooking,
            name: "cancel-booking",
            about: "Cancels a booking of a key",
            help: CANCEL_BOOKING_HELP,
            arguments: &[FILE, KEY, Argument::NeededPositional("NUMBER")],
        },
        Row {
            command: CommandName::Sheet,
            name: "sheet",
            about: "Prints a day's bookings that aren't cancelled",
            help: SHEET_HELP,
            arguments: &[FILE, DAY],
        },
        Row {
            command: CommandName::Serve,
            name: "serve",
            about: "Serves HTTP requests",
            help: SERVE_HELP,
            arguments: SERVE_ARGUMENTS,
        },
        Row {
            command: CommandName::ShowAccount,
            name: "show-account",
            about: "Prints the account of a key",
            help: SHOW_ACCOUNT_HELP,
            arguments: &[FILE, KEY, ZONE, AT],
        },
        Row {
            command: CommandName::ShowSlot,
            name: "show-slot",
            about: "Prints a slot of a facility",
            help: SHOW_SLOT_HELP,
            arguments: SLOT,
        },
    ],
};

impl Commands for CommandName {
    ghost table = { clubdesk };

    #[tactic(auto, using(crate::proofs::ArgumentsLemmas::is_good), unfolding(crate::specs::Arguments::clubdesk))]
    fn application<'a>(alloc: Global) -> Result<clap::Command<'a>, AllocError> {
        make_application(alloc, &CLUBDESK)
    }

    #[tactic(auto, unfolding(crate::specs::Arguments::clubdesk))]
    fn named(name: &str) -> Option<CommandName> {
        command_named(CLUBDESK.rows, name)
    }
}

/// Returns the work that this command's arguments ask for.
///
/// # Errors
///
/// Fails in the same cases as `Job::read`.
pub fn work_of<'a>(
    alloc: Global,
    name: CommandName,
    arguments: &ArgMatches<'a>,
) -> Result<Work<'a>, ArgumentsFault<()>>
    ensures { Answers (spec.work_named text_readers name (rows_of (found_of arguments.now)))
        result }
{
    match root_and_form_of(alloc, name, arguments) {
        Ok((root, form)) => read_work(name, root, form, arguments).ok_or(ArgumentsFault::BadValue(
            (),
        )),
        Err(fault) => Err(fault),
    }
}

// Returns the root argument and the form of a command. Only `add-key` and `rotate-key` have them.
fn root_and_form_of<'a>(
    alloc: Global,
    name: CommandName,
    arguments: &ArgMatches<'a>,
) -> Result<(Option<&'a str>, Form), ArgumentsFault<()>>
    ensures { spec.AnswersRoot
        (spec.root_and_form_of name (rows_of (found_of arguments.now))) result }
{
    match name {
        CommandName::AddKey => root_and_form(alloc, arguments, given(arguments, "ROOT")),
        CommandName::RotateKey => root_and_form(alloc, arguments, rotation_root(arguments)),
        _ => Ok((None, Form::V2)),
    }
}

// Reads the values of a command's arguments. Returns `None` if a value is invalid.
fn read_work<'a>(
    name: CommandName,
    root: Option<&str>,
    form: Form,
    arguments: &ArgMatches<'a>,
) -> Option<Work<'a>>
    ensures { result ≡ spec.work_in text_readers name (option_map (λ text. text.now) root.entry)
        form (rows_of (found_of arguments.now)) }
{
    match name {
        CommandName::AddMember => give(Command::AddMember {
            name: name_of(arguments, "NAME")?,
            quota: number_at(arguments, "QUOTA")?,
        }),
        CommandName::Credit => give(Command::Credit {
            member: name_of(arguments, "MEMBER")?,
            points: number_at(arguments, "POINTS")?,
        }),
        CommandName::Debit => give(Command::Debit {
            member: name_of(arguments, "MEMBER")?,
            points: number_at(arguments, "POINTS")?,
        }),
        CommandName::SetQuota => give(Command::SetQuota {
            member: name_of(arguments, "MEMBER")?,
            quota: number_at(arguments, "QUOTA")?,
        }),
        CommandName::AddFacility => add_facility(arguments),
        CommandName::SetFacility => set_facility(arguments),
        CommandName::AddKey => add_key(arguments, root, form),
        CommandName::RevokeKey => give(Command::RevokeKey {
            name: name_of(arguments, "KEY")?,
        }),
        CommandName::RotateKey => rotate_key(arguments, root, form),
        CommandName::CloseSlot => give(Command::CloseSlot(slot_of(arguments)?)),
        CommandName::OpenSlot => give(Command::OpenSlot(slot_of(arguments)?)),
        CommandName::CancelBooking => give(Command::CancelBooking {
            key: name_of(arguments, "KEY")?,
            number: booking_number_of(value_of(arguments, "NUMBER"))?,
        }),
        CommandName::Sheet => {
            let day = Day::read(value_of(arguments, "DAY").as_bytes())?;
            Some(Work::Office(Task::Sheet(day)))
        }
        CommandName::Serve => serve(arguments),
        CommandName::ShowAccount => show_account(arguments),
        CommandName::ShowSlot => Some(Work::Office(Task::ShowSlot(slot_of(arguments)?))),
    }
}

fn give<'a>(command: Command) -> Option<Work<'a>>
    ensures { result ≡ Some (Work.Office (Task.Give command)) }
{
    Some(Work::Office(Task::Give(command)))
}

fn add_facility<'a>(arguments: &ArgMatches<'a>) -> Option<Work<'a>>
    ensures { result ≡ spec.work_in text_readers CommandName.AddFacility None Form.V2
        (rows_of (found_of arguments.now)) }
{
    give(Command::AddFacility {
        name: name_of(arguments, "NAME")?,
        kind: Kind::read(value_of(arguments, "KIND").as_bytes())?,
        places: number_at(arguments, "PLACES")?,
        price: number_at(arguments, "PRICE")?,
        opens: number_at(arguments, "OPENS")?,
        shuts: number_at(arguments, "SHUTS")?,
    })
}

fn set_facility<'a>(arguments: &ArgMatches<'a>) -> Option<Work<'a>>
    ensures { result ≡ spec.work_in text_readers CommandName.SetFacility None Form.V2
        (rows_of (found_of arguments.now)) }
{
    give(Command::SetFacility {
        name: name_of(arguments, "NAME")?,
        places: number_at(arguments, "PLACES")?,
        price: number_at(arguments, "PRICE")?,
        opens: number_at(arguments, "OPENS")?,
        shuts: number_at(arguments, "SHUTS")?,
    })
}

fn add_key<'a>(arguments: &ArgMatches<'a>, root: Option<&str>, form: Form) -> Option<Work<'a>>
    ensures { result ≡ spec.work_in text_readers CommandName.AddKey
        (option_map (λ text. text.now) root.entry) form (rows_of (found_of arguments.now)) }
{
    let name = name_of(arguments, "KEY")?;
    let member = name_of(arguments, "MEMBER")?;
    let change = KeyChange::Add { member };
    key_work(KeyCommand { name, change, form }, root)
}

fn rotate_key<'a>(arguments: &ArgMatches<'a>, root: Option<&str>, form: Form) -> Option<Work<'a>>
    ensures { result ≡ spec.work_in text_readers CommandName.RotateKey
        (option_map (λ text. text.now) root.entry) form (rows_of (found_of arguments.now)) }
{
    let name = name_of(arguments, "KEY")?;
    let until = Moment::read(rotation_moment(arguments).as_bytes())?;
    let change = KeyChange::Rotate { until };
    key_work(KeyCommand { name, change, form }, root)
}

fn serve<'a>(arguments: &ArgMatches<'a>) -> Option<Work<'a>>
    ensures { result ≡ spec.work_in text_readers CommandName.Serve None Form.V2
        (rows_of (found_of arguments.now)) }
{
    Some(Work::Serve(Service {
        port: port_of(value_of(arguments, "port"))?,
        count: count_of(value_of(arguments, "count"))?,
        clock: clock_in(arguments)?,
        patience: patience_of(value_of(arguments, "patience"))?,
        log: is_set(arguments, "log"),
    }))
}

fn show_account<'a>(arguments: &ArgMatches<'a>) -> Option<Work<'a>>
    ensures { result ≡ spec.work_in text_readers CommandName.ShowAccount None Form.V2
        (rows_of (found_of arguments.now)) }
{
    let key = name_of(arguments, "KEY")?;
    let clock = clock_in(arguments)?;
    Some(Work::Office(Task::ShowAccount { key, clock }))
}

// Returns the work for a `KeyCommand`. If `root` is `None`, the root comes from standard input
// later.
fn key_work<'a>(command: KeyCommand, root: Option<&str>) -> Option<Work<'a>>
    ensures { result ≡ spec.key_work command (option_map (λ text. text.now) root.entry) }
{
    match root {
        None => Some(Work::Rootless(command)),
        Some(text) => {
            let root = root_of(text)?;
            Some(Work::Office(Task::Key(command, root)))
        }
    }
}

// Returns the slot in the arguments `FACILITY DAY HOUR`.
fn slot_of(arguments: &ArgMatches<'_>) -> Option<Slot>
    ensures { result ≡ spec.slot_in text_readers (rows_of (found_of arguments.now)) }
{
    let facility = name_of(arguments, "FACILITY")?;
    let day = Day::read(value_of(arguments, "DAY").as_bytes())?;
    let hour = Hour::read(value_of(arguments, "HOUR").as_bytes())?;
    Some(Slot {
        facility,
        day,
        hour,
    })
}

// Returns a clock that is fixed at the moment of `--at`. Without `--at`, the clock shows the
// machine's time in the zone of `--zone`.
fn clock_in<'a>(arguments: &ArgMatches<'a>) -> Option<Clock<'a>>
    ensures { result ≡ spec.clock_in text_readers (rows_of (found_of arguments.now)) }
{
    let zone = Zone::from_rule(value_of(arguments, "zone"))?;
    match given(arguments, "at") {
        None => Some(Clock::InZone(zone)),
        Some(text) => {
            let moment = Moment::read(text.as_bytes())?;
            Some(Clock::Fixed(moment))
        }
    }
}
