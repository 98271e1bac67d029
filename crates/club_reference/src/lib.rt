//! The reference machine, which carries out requests and commands exactly as the rules define them.
//! The machine is slow because it keeps a club's rows in lists and stores no sums. Tests compare
//! faster machines with the reference machine.
#![tactic(auto)]

mod club;
mod edits;
pub mod laws;
mod lists;
mod rows;
mod solo;
mod step;
mod sums;
mod words;

pub use club::Club;
pub use words::{Pass, Words};
