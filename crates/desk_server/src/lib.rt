//! The server of the desk. The server serves clients and commands of the office one after the
//! other. While the server waits for a client's request, it also carries out commands. The server
//! takes the moment of each request from the club's clock. The server and the office open a
//! database through the trait `Databases`.
#![tactic(auto)]

mod between;
mod connections;
mod databases;
mod door;
pub mod laws;
mod limit;
mod listening;
mod log;
mod office;
mod polled;
mod request_line;
mod serve;
mod stream;
mod timed;

pub use between::{Handover, Waits, receive_between};
pub use connections::{Arrival, Arrivals, Connection};
pub use databases::{Databases, Door, Reached, Visit};
pub use door::{
    ANSWER_END, GREETING, Handed, MAX_COMMAND_LEN, NOTHING_DONE, NOTHING_DONE_TEXT, answer_command,
    put_answer, read_command,
};
pub use limit::{Limit, MonotonicClock};
pub use listening::Listening;
pub use log::{Log, LogEvent, LogLines, Unlogged};
pub use office::{Answer, Carried, Office};
pub use request_line::{MAX_KEPT, RequestLine};
pub use serve::{ClockOutOfRange, serve_logged, serve_on};
pub use stream::{ClientSocket, ClientStream, Woken};
pub use timed::{Accepted, MAX_REST, TimedStream, Waited};
