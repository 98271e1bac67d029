//! The commands of `passtool`: `mint`, `show`, `narrow`, `convert` and `verify`. The function `run`
//! takes the program's arguments, a reader and a writer.
#![tactic(auto)]

mod answer;
mod caveats;
mod command;
mod convert;
mod input;
pub mod laws;
mod mint;
mod narrow;
mod options;
mod output;
mod process;
mod show;
mod table;
mod tool;
mod verify;

pub use answer::{BadValue, Fault, Outcome};
pub use process::{finish, run_process};
pub use table::Name;
pub use tool::run;
