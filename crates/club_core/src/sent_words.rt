//! Defines a request with the text of its pass, before the pass is decoded.

use crate::request::Request;

/// A request with the text of its pass.
#[derive(Clone, Copy)]
pub struct SentWords<'a> {
    pub pass: &'a [u8],
    pub request: Request,
}
