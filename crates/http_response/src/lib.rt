//! Converts the desk's replies to bytes. A reply is an HTTP/1.1 response with a JSON object as its
//! body. This crate allocates no memory.
#![tactic(auto)]

mod body;
mod head;
mod line;
mod reply;
mod status;

pub use line::{Line, MAX_LINE_LEN};
pub use reply::{MAX_REPLY_LEN, reply_bytes};
pub use status::status_of;
