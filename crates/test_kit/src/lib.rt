//! Plain values that the test crates share. This crate has no assertions, and returns `None` for a
//! value outside its limits.
#![tactic(auto)]

mod commands;
pub mod drawn;
mod ends;
pub mod exchanges;
pub mod minutes;
pub mod moments;
pub mod passes;
mod pieces;
mod process;
pub mod replies;
pub mod requests;
pub mod roots;
mod rows;
mod slots;
pub mod version_1;
mod words;

pub use commands::{FIXTURE, PlainCommand};
pub use ends::{End, Output, form_line};
pub use pieces::{Piece, join};
pub use process::Process;
pub use replies::PlainReply;
pub use requests::PlainRequest;
pub use rows::{BOOKING_7, BOOKING_8, COURT, PlainBooking, PlainFacility, ROOM, amy};
pub use slots::{COURT_AT_18, COURT_AT_19, FRIDAY, PlainSlot, ROOM_AT_18};
pub use words::signed_pass;
