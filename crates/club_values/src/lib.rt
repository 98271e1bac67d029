//! The values in the club's rows and requests: names, kinds of facilities, actions, days, hours,
//! moments and slots. Each value except a slot has exactly one text. The functions of this crate
//! allocate no memory.
#![tactic(auto)]

mod action;
pub mod ascii;
mod day;
pub mod digits;
mod hour;
mod inline_bytes;
mod kind;
pub mod laws;
mod moment;
mod name;
mod slot;

pub use action::Action;
pub use day::Day;
pub use hour::{HOURS_A_DAY, Hour};
pub use inline_bytes::InlineBytes;
pub use jiff_core::civil::Weekday;
pub use kind::Kind;
pub use moment::{MINUTES_A_DAY, MINUTES_AN_HOUR, Moment};
pub use name::{MAX_NAME_LEN, Name};
pub use slot::{MAX_GUESTS, Slot};
