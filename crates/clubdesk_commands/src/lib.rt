//! The commands of `clubdesk`. A run carries out its command on a database. If a server has the
//! database open, the run sends the command to the server.
#![tactic(auto)]

mod handed_command;
mod input;
pub mod laws;
mod office;
mod office_desk;
mod process;
mod program;
mod server;

pub use handed_command::{HandedCommand, command_bytes, read_command};
pub use office_desk::OfficeDesk;
pub use process::{finish, run_process};
pub use program::run;
pub use server::{serve, serve_file};
