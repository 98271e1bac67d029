//! Defines the refusals of a request, with their numbers and texts.

ghost use Rattle.std.specs.Prelude.{◌≡◌, Some};

use std::fmt;

/// The kind of resource that a request's path names.
#[derive(Clone, Copy, Debug, PartialEq, Eq)]
pub enum Resource {
    Slot,
    /// A booking, which the path names by the slot and the booking number.
    Booking,
    /// The account of the member whose key the pass names.
    Account,
}

/// The reason why a request is refused. The desk tests for the reasons in the order of the
/// variants, with two exceptions. The desk tests the caveats one by one, in the pass's order, so
/// `CaveatDenies` can precede `CaveatNotUnderstood`. `Unavailable` can occur at any time.
#[derive(Clone, Copy, Debug, PartialEq, Eq)]
pub enum Refusal {
    BadRequest,
    NoSuchPath,
    /// The resource that the request's path names doesn't support the request's method.
    MethodNotAllowed(Resource),
    NoPass,
    PassTooLong,
    PassMalformed,
    ThirdPartyCaveat,
    TooManyCaveats,
    /// The pass's identifier names no key of the club, or the pass's signature is wrong.
    NotVerified,
    KeyRevoked,
    /// The desk doesn't understand a caveat. The value is the caveat's position in the pass,
    /// counted from 1.
    CaveatNotUnderstood(usize),
    /// A caveat denies the request. The value is the caveat's position in the pass, counted from 1.
    CaveatDenies(usize),
    /// The key already has a booking with this number, but for another slot or another number of
    /// guests.
    NumberUsed,
    NoSuchFacility,
    NoSuchBooking,
    /// The slot is outside the opening hours, has already begun, or begins more than 60 days after
    /// the request.
    NotBookable,
    SlotClosed,
    NoPlaces,
    QuotaReached,
    BalanceTooLow,
    SlotHasBegun,
    /// An allocation or the storage failed.
    Unavailable,
}

impl Refusal {
    ghost use Rattle.club_core.specs.Refusal.{details_of, caveat_of_refusal};

    /// Returns the refusal's number in the reply, from 1 to 22.
    pub fn number(self) -> u8
        ensures { result ≡ (details_of self).number }
    {
        match self {
            Refusal::BadRequest => 1,
            Refusal::NoSuchPath => 2,
            Refusal::MethodNotAllowed(_) => 3,
            Refusal::NoPass => 4,
            Refusal::PassTooLong => 5,
            Refusal::PassMalformed => 6,
            Refusal::ThirdPartyCaveat => 7,
            Refusal::TooManyCaveats => 8,
            Refusal::NotVerified => 9,
            Refusal::KeyRevoked => 10,
            Refusal::CaveatNotUnderstood(_) => 11,
            Refusal::CaveatDenies(_) => 12,
            Refusal::NumberUsed => 13,
            Refusal::NoSuchFacility => 14,
            Refusal::NoSuchBooking => 15,
            Refusal::NotBookable => 16,
            Refusal::SlotClosed => 17,
            Refusal::NoPlaces => 18,
            Refusal::QuotaReached => 19,
            Refusal::BalanceTooLow => 20,
            Refusal::SlotHasBegun => 21,
            Refusal::Unavailable => 22,
        }
    }

    /// Returns the refusal's text in the reply.
    pub fn text(self) -> &'static str
        ensures { result.now ≡ (details_of self).text }
    {
        match self {
            Refusal::BadRequest => "bad request",
            Refusal::NoSuchPath => "no such path",
            Refusal::MethodNotAllowed(_) => "method not allowed",
            Refusal::NoPass => "no pass",
            Refusal::PassTooLong => "pass too long",
            Refusal::PassMalformed => "pass malformed",
            Refusal::ThirdPartyCaveat => "third-party caveat",
            Refusal::TooManyCaveats => "too many caveats",
            Refusal::NotVerified => "not verified",
            Refusal::KeyRevoked => "key revoked",
            Refusal::CaveatNotUnderstood(_) => "caveat not understood",
            Refusal::CaveatDenies(_) => "caveat denies",
            Refusal::NumberUsed => "number used",
            Refusal::NoSuchFacility => "no such facility",
            Refusal::NoSuchBooking => "no such booking",
            Refusal::NotBookable => "not bookable",
            Refusal::SlotClosed => "slot closed",
            Refusal::NoPlaces => "no places",
            Refusal::QuotaReached => "quota reached",
            Refusal::BalanceTooLow => "balance too low",
            Refusal::SlotHasBegun => "slot has begun",
            Refusal::Unavailable => "unavailable",
        }
    }

    /// Returns the position of the caveat that caused the refusal, counted from 1. Returns `None`
    /// if no caveat caused the refusal.
    pub fn caveat(self) -> Option<usize>
        ensures { result ≡ caveat_of_refusal self }
    {
        match self {
            Refusal::CaveatNotUnderstood(n) | Refusal::CaveatDenies(n) => Some(n),
            _ => None,
        }
    }
}

impl fmt::Display for Refusal {
    ghost use Rattle.club_core.specs.Refusal.{details_of};

    ghost output = { λ refusal. Some (details_of refusal).text };

    fn fmt<W: fmt::Write>(&self, f: &mut fmt::Formatter<W>) -> fmt::Result {
        f.write_str(self.text())
    }
}
