//! The command line of `clubdesk`: its commands and options, the job that arguments ask for, and
//! the faults with their exit statuses.
#![tactic(auto)]

mod fault;
mod job;
pub mod laws;
mod options;
mod table;
mod task;
mod values;

pub use fault::Fault;
pub use table::CommandName;
pub use task::{Job, KeyChange, KeyCommand, Service, Task, Work};
pub use values::root_of;
