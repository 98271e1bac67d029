//! Reads and writes passes in JSON, and pass texts in any of the three forms.
#![tactic(auto)]

mod any;
mod field;
mod fields;
pub mod laws;
mod names;
mod object;
mod read;
mod write;

pub use any::{read_any, write_any};
pub use fields::JsonFields;
pub use read::read_json;
pub use write::write_json;
