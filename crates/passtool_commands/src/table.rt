//! The commands and their arguments, with their help texts.

ghost use Rattle.passtool_commands.specs.Application.{passtool};

use clap::Command;
use command_line::{Argument, Commands, Program, Row, command_named, make_application};
use std::alloc::{AllocError, Global};

/// The names of the commands.
#[derive(Clone, Copy)]
pub enum Name {
    Mint,
    Show,
    Narrow,
    Convert,
    Verify,
}

const STATUSES: &str = "Exit status:
  0  done
  1  verify: not signed
  2  usage error
  3  bad pass: malformed, too long, too many caveats, or a third-party caveat
  4  out of memory
  5  the desk doesn't understand a caveat
  6  bad root
  7  input or output failed";

const NARROW_HELP: &str = "Caveats that the desk understands, each with an example:
  facility = NAME,..        facility = court-1,court-2
  kind = KIND               kind = court (or boat, or room)
  hours = HH-HH             hours = 18-20
  days = DAY..DAY           days = 2026-05-01..2026-05-31
  until < DAYTHH:MM         until < 2026-05-01T18:00
  guests <= N               guests <= 2
  spend <= N                spend <= 600
  actions = ACTION,..       actions = view,book (from view,book,cancel,account, in this order)
  weekday = DAY,..          weekday = sat,sun (from mon,tue,wed,thu,fri,sat,sun, in this order)

Example:
  passtool narrow \"guests <= 2\" \"until < 2026-05-01T18:00\" < pass";

const VERIFY_HELP: &str = "Checks the signature only. The desk checks the caveats.

Example:
  passtool verify --root 00ff < pass";

const CAVEAT_HELP: &str =
    "Caveats to add, in order; put -- before a caveat that begins with a dash";

const ROOT: Argument = Argument::Needed(
    "root",
    "ROOT",
    "The root, 1 to 64 bytes in hexadecimal. Other users can see it in the process list",
);

const MINT_ARGUMENTS: &[Argument] = &[
    ROOT,
    Argument::Needed("id", "ID", "The identifier of the pass"),
    Argument::Value(
        "location",
        "LOCATION",
        "A hint about who made the pass. It isn't signed or checked",
    ),
    Argument::Or("form", "FORM", "The form of the pass: v1, v2 or json", "v2"),
    Argument::Positionals("caveat", "CAVEAT", CAVEAT_HELP),
];

const NARROW_ARGUMENTS: &[Argument] = &[
    Argument::Flag("any", "Allows caveats that the desk doesn't understand"),
    Argument::NeededPositionals("caveat", "CAVEAT", CAVEAT_HELP),
];

/// The program `passtool` with its commands.
static PASSTOOL: Program<Name> = Program {
    name: "passtool",
    about: "Makes, reads, narrows, converts and checks access passes",
    statuses: STATUSES,
    rows: &[
        Row {
            command: Name::Mint,
            name: "mint",
            about: "Prints a new pass, signed under a root",
            help: "Example:\n  passtool mint --root 00ff --id key:amy-1 --form v1 \"kind = court\"",
            arguments: MINT_ARGUMENTS,
        },
        Row {
            command: Name::Show,
            name: "show",
            about: "Reads a pass from standard input and prints its fields, one per line",
            help: "Example:\n  passtool show < pass",
            arguments: &[],
        },
        Row {
            command: Name::Narrow,
            name: "narrow",
            about: "Reads a pass from standard input and prints it with caveats added",
            help: NARROW_HELP,
            arguments: NARROW_ARGUMENTS,
        },
        Row {
            command: Name::Convert,
            name: "convert",
            about: "Reads a pass from standard input and prints it in the given form",
            help: "Example:\n  passtool convert --form json < pass",
            arguments: &[Argument::Needed("form", "FORM", "The form of the pass: v1, v2 or json")],
        },
        Row {
            command: Name::Verify,
            name: "verify",
            about: "Reads a pass from standard input and checks that it is signed under a root",
            help: VERIFY_HELP,
            arguments: &[ROOT],
        },
    ],
};

impl Commands for Name {
    ghost table = { passtool };

    #[tactic(auto, using(crate::proofs::CommandLemmas::is_good), unfolding(crate::specs::Application::passtool))]
    fn application<'a>(alloc: Global) -> Result<Command<'a>, AllocError> {
        make_application(alloc, &PASSTOOL)
    }

    #[tactic(auto, unfolding(crate::specs::Application::passtool))]
    fn named(name: &str) -> Option<Name> {
        command_named(PASSTOOL.rows, name)
    }
}
