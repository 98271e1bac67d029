//! The calls of the library of passes for C, as plain functions. The calls work on buffers and
//! objects that the caller allocates. The static library `pass_c` exports the calls. The functions
//! use other crates to work with passes. The contracts use the definitions of these crates.
#![tactic(auto)]

mod ask;
mod code;
pub mod laws;
mod object;
mod output;
mod pieces;

pub use ask::AskObject;
pub use code::{
    BAD_ASK, DENIED, MALFORMED, MEMORY, NO_CAVEAT, NO_FORM, NO_TEXT, NOT_UNDERSTOOD, OK,
    SHORT_BUFFER, THIRD_PARTY, TOO_LONG, TOO_MANY, code_of, fault_code, form_number, form_of,
    verdict_of,
};
pub use object::{PassObject, ROOM};
pub use output::put;
