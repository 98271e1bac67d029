//! Laws about the desk together with its tables. The laws cover a desk that starts with an empty
//! database, and a desk after a crash.
#![tactic(auto)]

mod crash;
mod from_nothing;

pub use crash::{run_and_leave, served_survives_a_crash};
pub use from_nothing::{RunAndReply, reply_from_nothing, run_from_nothing};
