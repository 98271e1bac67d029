//! One HTTP/1.1 exchange with the desk: reads a request, asks the desk, and writes the reply.
//!
//! This crate re-exports the types, constants and functions that a program needs. The re-exports
//! cover the desk and its commands, the values and rows of a club, and the texts and statuses of
//! replies.
#![tactic(auto)]

mod desk;
mod ends;
mod exchange;
mod face;
mod fault;
pub mod laws;
mod receive;
mod responder;
mod send;

pub use club_core::{
    Change, ClubStore, Command, MemberAccount, OfficeAnswer, OfficeFault, Refusal, Reply, Request,
    SlotUse, StoreFault,
};
pub use club_gate::{Desk, Fault, OfficeReply, key_signature, minted};
pub use club_rows::{Booking, BookingNumber, Facility, KeyRow, OlderRoot, Root};
pub use club_values::{Day, Hour, Kind, Moment, Name, Slot};
pub use ends::{Inlet, Outlet, ReadInlet, WriteOutlet};
pub use exchange::answer;
pub use face::Face;
pub use fault::AnswerFault;
pub use http_request::{HeadScan, MAX_REQUEST_LEN, Routes, Words, words_of};
pub use http_response::{Line, MAX_REPLY_LEN, reply_bytes, status_of};
pub use pass_forms::Form;
pub use pass_json::write_any;
pub use responder::Responder;
pub use send::{put_all, send_reply};
