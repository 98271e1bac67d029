//! Decodes the bytes of HTTP/1.1 requests to the desk.
#![tactic(auto)]

mod body;
mod fields;
mod head;
mod head_result;
pub mod laws;
mod length;
mod pass;
mod path;
mod requests;
mod routes;
mod scan;

/// A request as a client sends it: the text of its pass, and the parsed request.
pub use club_core::SentWords as Words;
pub use head::{MAX_FIELDS, MAX_HEAD_LEN};
pub use length::MAX_BODY_LEN;
pub use routes::{Routes, words_by_scan, words_of};
pub use scan::{HeadScan, MAX_REQUEST_LEN};
