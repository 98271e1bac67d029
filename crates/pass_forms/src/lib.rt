//! Reads, writes and narrows passes, which are macaroons with first-party caveats. The crate
//! supports libmacaroons' packets (V1) and libmacaroons' binary format (V2). A caller can read all
//! fields of a pass at once or one field at a time. `unwrap_text` finds the form of a pass text and
//! decodes base64.
#![tactic(auto)]

mod envelope;
mod fault;
mod field_source;
mod form;
pub mod laws;
mod layout;
mod parts;
mod pass;
mod pass_fields;
mod v1;
mod v2;
mod verify;
mod write;

pub use envelope::{MAX_BYTES, MAX_TEXT, Unwrapped, decode_base64, unwrap_text};
pub use fault::FormFault;
pub use field_source::{Field, FieldSource};
pub use form::Form;
pub use pass::{MAX_CAVEATS, Pass, PassParts, narrow};
pub use pass_fields::PassFields;
pub use v1::{V1Fields, read_v1};
pub use v2::{V2Fields, read_v2};
pub use verify::is_signed_by;
pub use write::{write_v1, write_v2};
