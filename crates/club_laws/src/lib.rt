//! Laws of the club's state machine over whole runs. Each law is the contract of a function with an
//! empty body.
#![tactic(auto)]

pub mod account;
pub mod conservation;
pub mod failed;
pub mod frame;
pub mod once;
pub mod outside;
pub mod rotation;
pub mod runs_with_failures;
pub mod single_request;
pub mod solo;
pub mod sound;
pub mod spending;
