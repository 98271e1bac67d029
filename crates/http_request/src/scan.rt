//! Looks for the head of a request while the bytes of the request arrive.

ghost use Rattle.std.specs.{Bool.OnFalse, Prelude.{◌<◌, ◌≤◌, ◌↔◌, [], length, take, IsTrue}};
ghost use Rattle.http_request.specs.{Frame.{IsOneRequest, IsWhole, Covers}, Length.max_request_len};

use crate::head::{MAX_FIELDS, MAX_HEAD_LEN};
use crate::head_result::{HeadResult, head_result_of};
use crate::length::MAX_BODY_LEN;
use httparse::spans::{EMPTY_HEADER_SPAN, HeaderSpan};

/// The maximum number of bytes in a request.
pub const MAX_REQUEST_LEN: usize = MAX_HEAD_LEN + MAX_BODY_LEN;

/// A scan for the head of a request. A scan covers bytes if it holds the result of looking for a
/// head at the start of these bytes. The scan parses the head once, after the end of the head has
/// arrived.
#[derive(Drop)]
pub struct HeadScan {
    pub(crate) front: HeadResult,
    /// The positions of the head's fields.
    pub(crate) fields: [HeaderSpan; MAX_FIELDS],
}

impl HeadScan {
    /// Returns a scan that covers no bytes.
    pub fn new() -> HeadScan
        ensures { Covers result [] }
    {
        HeadScan {
            front: HeadResult::NoPiece,
            fields: [EMPTY_HEADER_SPAN; MAX_FIELDS],
        }
    }

    /// Extends the scan to all of `bytes`. The scan must already cover the first `searched` bytes.
    /// If no head has ended yet, this function looks for the end of a head in the new bytes. If it
    /// finds the end, it parses the head. If a head has already ended, this function ignores the
    /// new bytes.
    pub fn go_on(&mut self, bytes: &[u8], searched: usize)
        requires inside { searched ≤ length bytes.now }
        requires before { Covers self.old (take searched bytes.now) }
        ensures { Covers self.new bytes.now }
    {
        match self.front {
            HeadResult::NoPiece => self.front = head_result_of(bytes, searched, &mut self.fields),
            HeadResult::Refused | HeadResult::Asking(_) => {}
        }
    }

    /// Returns true if the bytes that the scan covers begin with a complete request. If the request
    /// isn't complete, there are fewer than `MAX_REQUEST_LEN` bytes.
    pub fn is_whole(&self, bytes: &[u8]) -> bool
        requires { Covers self.now bytes.now }
        ensures whole { IsTrue result ↔ IsWhole bytes.now }
        ensures room { OnFalse result (length bytes.now < max_request_len) }
    {
        match self.front {
            HeadResult::NoPiece => bytes.len() >= MAX_HEAD_LEN,
            HeadResult::Refused => true,
            HeadResult::Asking(head) => bytes.len() - head.len >= head.body_len,
        }
    }
    /// Returns true if the bytes that the scan covers are exactly a head and its body.
    pub fn is_over(&self, bytes: &[u8]) -> bool
        requires { Covers self.now bytes.now }
        ensures { IsTrue result ↔ IsOneRequest bytes.now }
    {
        match self.front {
            HeadResult::NoPiece => false,
            HeadResult::Refused => false,
            HeadResult::Asking(head) => bytes.len() - head.len == head.body_len,
        }
    }
}
