//! The store of a club in SQLite. The store opens a database, reads and changes the club, and
//! recovers the club after a crash.
#![tactic(auto)]

mod club;
mod failed_opening;
pub mod laws;
mod storage;
mod store;

pub use failed_opening::FailedOpening;
pub use storage::{CrashStates, OverStorage};
pub use store::Store;
