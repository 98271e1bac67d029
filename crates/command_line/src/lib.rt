//! The code that the programs `clubdesk` and `passtool` share. The crate builds a program's
//! commands for `clap`, and parses arguments. The crate also parses roots and the names of forms,
//! reads input up to a limit, and writes texts.
#![tactic(auto)]

mod errors;
mod form_names;
mod input;
mod job;
pub mod laws;
mod options;
mod output;
mod process;
mod root;
mod signal;
mod table;
mod tree;
mod value;

pub use errors::{ArgumentsFault, arguments_fault, text_fault};
pub use form_names::{form_name, form_named};
pub use input::{fill, without_line_feed};
pub use job::{Asked, Job, read_form, read_job};
pub use options::{is_set, value_of};
pub use output::{flush, write_text};
pub use process::{FaultLines, GivenArguments, given_arguments, report};
pub use root::Root;
pub use table::{Argument, Commands, Program, Row, command_named, make_application};
pub use value::{Value, read_value};
