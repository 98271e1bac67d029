//! The caveat language of the club's passes. The crate parses caveat lines and determines the
//! requests that each line allows. No function allocates memory.
#![tactic(auto)]

mod actions;
mod ask;
mod caveat;
mod fault;
pub mod laws;
mod lines;
mod names;
mod parts;
mod unspent;
mod weekdays;

pub use actions::Actions;
pub use ask::Ask;
pub use caveat::{Caveat, MAX_CAVEAT_LEN, allows, looks_at_kind, read};
pub use club_values::{
    Action, Day, Hour, Kind, MAX_NAME_LEN, MINUTES_A_DAY, Moment, Name, Slot, Weekday,
};
pub use fault::{CaveatFault, fault_at, first_fault};
pub use names::{MAX_NAMES, Names};
pub use unspent::{Unspent, unspent_at};
pub use weekdays::Weekdays;
