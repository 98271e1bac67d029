//! The requests of members, as the bytes that curl sends.

use crate::club::{CAVEATS, KEYS, passes};
use crate::known::known;
use crate::wish::{Wish, number_at, slot_and_moment};
use anyhow::Result;
use club_values::{Moment, Slot};
use pass_forms::Form;
use std::alloc::{AllocError, Global};

/// The header fields that curl sends with each request.
const FIELDS: &str = "Host: 127.0.0.1:8080\r\nUser-Agent: curl/7.88.1\r\nAccept: */*\r\n";

/// The header fields that curl adds to a request with a body.
const BODY_FIELDS: &str =
    "Content-Length: 12\r\nContent-Type: application/x-www-form-urlencoded\r\n";

/// The bytes of a request with a pass, and the moment when the request arrives.
#[derive(Drop)]
pub(crate) struct Sent {
    pub(crate) text: String,
    pub(crate) pass: String,
    pub(crate) moment: Moment,
}

/// The measured kinds of requests, in this order: bookings, the same bookings again, and accounts.
pub(crate) static ROWS: [(&str, Wish); 3] = [
    ("bookings", Wish::Booking),
    ("repeats", Wish::Booking),
    ("accounts", Wish::Account),
];

/// The requests of all kinds.
#[derive(Drop)]
pub(crate) struct Requests {
    bookings: Vec<Sent>,
    accounts: Vec<Sent>,
}

impl Requests {
    /// Makes `count` requests of each kind.
    pub(crate) fn new(alloc: Global, count: u16) -> Result<Requests> {
        Ok(Requests {
            bookings: requests_for(alloc, Wish::Booking, count)?,
            accounts: requests_for(alloc, Wish::Account, count)?,
        })
    }

    /// Returns the requests of this kind.
    pub(crate) fn of(&self, wish: Wish) -> &[Sent] {
        match wish {
            Wish::Booking => &self.bookings,
            Wish::Account => &self.accounts,
        }
    }
}

// Returns `count` requests of this kind, with passes in V2. The requests use the keys in
// round-robin order.
fn requests_for(alloc: Global, wish: Wish, count: u16) -> Result<Vec<Sent>> {
    let passes = passes(alloc, Form::V2, CAVEATS.len())?;
    let mut requests = Vec::new(alloc);
    for index in 0..count {
        let pass = known(passes.get(usize::from(index % KEYS)), "a pass")?;
        requests.push(request(alloc, wish, index, pass.as_str())?)?;
    }
    Ok(requests)
}

// Returns the request with this index.
fn request(alloc: Global, wish: Wish, index: u16, pass: &str) -> Result<Sent> {
    let (slot, moment) = known(slot_and_moment(index), "a slot")?;
    Ok(Sent {
        text: text(alloc, wish, &slot, index, pass)?,
        pass: String::from_str(alloc, pass)?,
        moment,
    })
}

fn text(
    alloc: Global,
    wish: Wish,
    slot: &Slot,
    index: u16,
    pass: &str,
) -> Result<String, AllocError> {
    match wish {
        Wish::Booking => booking(alloc, slot, number_at(index), pass),
        Wish::Account => account(alloc, pass),
    }
}

fn booking(alloc: Global, slot: &Slot, number: u16, pass: &str) -> Result<String, AllocError> {
    let path = booking_path(alloc, slot, number)?;
    format!(in alloc;
        "PUT {path} HTTP/1.1\r\n\
        {FIELDS}Authorization: Bearer {pass}\r\n{BODY_FIELDS}\r\n{{\"guests\":1}}"
    )
}

fn booking_path(alloc: Global, slot: &Slot, number: u16) -> Result<String, AllocError> {
    let Slot {
        facility,
        day,
        hour,
    } = *slot;
    format!(in alloc; "/slots/{facility}/{day}/{hour}/bookings/{number}")
}

fn account(alloc: Global, pass: &str) -> Result<String, AllocError> {
    format!(in alloc; "GET /account HTTP/1.1\r\n{FIELDS}Authorization: Bearer {pass}\r\n\r\n")
}
