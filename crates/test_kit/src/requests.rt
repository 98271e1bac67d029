//! Requests, as plain values.

use crate::slots::{COURT_AT_18, PlainSlot};
use club_core::Request;
use club_rows::{BookingNumber, Guests};

#[derive(Clone, Copy)]
pub enum PlainRequest {
    View(PlainSlot),
    /// The slot, the number of the booking, and the guests of the member.
    Book(PlainSlot, u32, u8),
    Cancel(PlainSlot, u32),
    Account,
}

pub const ACCOUNT: PlainRequest = PlainRequest::Account;

pub const VIEW: PlainRequest = PlainRequest::View(COURT_AT_18);

pub const BOOK_7: PlainRequest = PlainRequest::Book(COURT_AT_18, 7, 2);

pub const CANCEL_7: PlainRequest = PlainRequest::Cancel(COURT_AT_18, 7);

pub const BOOK_7_ALONE: PlainRequest = PlainRequest::Book(COURT_AT_18, 7, 0);

pub const BOOK_2: PlainRequest = PlainRequest::Book(COURT_AT_18, 2, 0);

pub const BOOK_8: PlainRequest = PlainRequest::Book(COURT_AT_18, 8, 0);

impl PlainRequest {
    /// Returns `None` if a value is outside its limits.
    pub fn request(&self) -> Option<Request> {
        Some(match self {
            PlainRequest::View(slot) => Request::View { slot: slot.slot()? },
            PlainRequest::Book(slot, number, guests) => Request::Book {
                slot: slot.slot()?,
                number: BookingNumber::new(*number)?,
                guests: Guests::new(*guests)?,
            },
            PlainRequest::Cancel(slot, number) => Request::Cancel {
                slot: slot.slot()?,
                number: BookingNumber::new(*number)?,
            },
            PlainRequest::Account => Request::Account,
        })
    }
}
