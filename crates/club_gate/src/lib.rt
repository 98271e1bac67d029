//! The desk: verifies the pass of a request, asks the rules of the club for a decision, and stores
//! the change.
#![tactic(auto)]

mod desk;
mod event;
mod fault;
mod identifier;
pub mod laws;
mod listing;
mod mint;
mod readings;
mod run;
mod signing;
mod verify;
mod walk;

pub use club_core::{Command, SentWords as Words};
pub use desk::Desk;
pub use event::{Event, EventReply, OfficeReply};
pub use fault::Fault;
pub use mint::{LOCATION, key_signature, minted};
