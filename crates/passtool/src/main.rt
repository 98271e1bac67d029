//! The program `passtool`. The program calls `passtool_commands` with the arguments, standard input
//! and standard output of the process.
#![tactic(auto)]

use passtool_commands::run_process;
use std::process::ExitCode;

fn main(rt: HostRuntime) -> ExitCode {
    ExitCode::from(run_process(rt.alloc(), &mut &rt, &mut rt.stdin(), &mut rt.stdout()))
}
