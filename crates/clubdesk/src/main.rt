//! The program `clubdesk`, which runs a club's facilities desk. The program calls
//! `clubdesk_commands` with the arguments and standard streams of the process. Databases are stored
//! in files.
#![tactic(auto)]

use club_http::WriteOutlet;
use clubdesk_commands::run_process;
use clubdesk_files::{DatabasesUser, run_over_files};
use command_line::{FaultLines, GivenArguments};
use desk_server::{Databases, LogLines};
use std::alloc::Global;
use std::fmt::Display;
use std::io;
use std::process::ExitCode;

fn main(rt: HostRuntime) -> ExitCode {
    ExitCode::from(run_over_files(&rt, Program { rt: &rt }))
}

// Runs the program with the arguments and standard streams of the process. `Program` also
// implements the process's traits `GivenArguments` and `FaultLines`. If `main` used a type of
// another crate instead of `Program`, the borrow checker wouldn't check `main`.
#[derive(Drop)]
struct Program<'a> {
    rt: &'a HostRuntime,
}

impl DatabasesUser for Program<'_> {
    type Outcome = u8;

    ghost outcomes = { λ _ _. Unit {0} };

    fn run_over<D: Databases>(self, databases: &mut D) -> u8 {
        let rt = self.rt;
        let mut process = self;
        run_process(
            rt,
            &mut process,
            rt,
            databases,
            &mut rt.stdin(),
            &mut rt.stdout(),
            &mut LogLines::new(WriteOutlet::new(rt.stderr()), rt),
        )
    }
}

// The contract makes no promise about the arguments of the process.
impl GivenArguments for Program<'_> {
    ghost given = { λ _ _. Unit {0} };

    ghost unreadable = { λ _. Unit {0} };

    fn arguments(&self, alloc: Global) -> io::Result<Vec<String>> {
        self.rt.arguments(alloc)
    }
}

// The contract makes no promise about the printed text.
impl FaultLines for Program<'_> {
    ghost prints = { λ _ _ _. Unit {0} };

    fn print_text<F: Display>(&mut self, text: &F) {
        let mut rt = self.rt;
        rt.print_text(text)
    }
}
