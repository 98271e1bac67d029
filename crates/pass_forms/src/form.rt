//! Defines the forms of a pass text.

/// The form of a pass text.
#[derive(Clone, Copy, Debug, PartialEq, Eq)]
pub enum Form {
    /// The packet format of libmacaroons, encoded in base64.
    V1,
    /// The binary format of libmacaroons, encoded in base64.
    V2,
    /// A JSON object.
    Json,
}
