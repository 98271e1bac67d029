//! Defines the view of a request: the rows and sums that the rules need to decide the request.

ghost use Rattle.std.specs.Prelude.{◌≡◌, is_some};
ghost use Rattle.club_core.specs.Laws.{bare_view, books_anew as is_new};

use crate::request::Request;
use club_rows::{Booking, Facility, Key, KeyRow, Member};
use club_values::Moment;
use pass_caveats::Ask;

/// The rows and sums that the rules need to decide a request. A view contains the key of the
/// request's pass, the key's member, and the state of the requested slot.
#[derive(Clone, Copy, Debug, PartialEq, Eq)]
pub struct View {
    pub key: KeyRow,
    /// The points that the key has spent.
    pub spent: u64,
    pub member: Member,
    /// The member's balance in points.
    pub balance: u32,
    /// The number of the member's open bookings when the request comes.
    pub open_count: u64,
    /// The slot's facility, or `None` if the request names no slot or the facility is unknown.
    pub facility: Option<Facility>,
    /// The number of persons in the slot.
    pub taken: u64,
    /// Whether the slot is closed.
    pub closed: bool,
    /// The key's booking with the request's booking number, or `None` if no such booking exists.
    pub booking: Option<Booking>,
}

/// A key, including its older root, and the view of a request made with a pass of this key.
#[derive(Clone, Copy, Debug, PartialEq, Eq)]
pub struct KeyView {
    pub key: Key,
    pub view: View,
}

impl View {
    ghost use Rattle.club_core.specs.Answer.{ask_of, owed_at};

    /// Returns a view that has only the key's row and the name of the key's member. The view has no
    /// booking and no facility, and all its numbers are 0.
    pub fn of_key(key: &KeyRow) -> View
        ensures { result ≡ bare_view key.now }
    {
        View {
            key: *key,
            spent: 0,
            member: Member {
                name: key.member,
                credited: 0,
                quota: 0,
            },
            balance: 0,
            open_count: 0,
            facility: None,
            taken: 0,
            closed: false,
            booking: None,
        }
    }

    /// Returns whether the booking number is unused and the facility is known.
    pub fn books_anew(&self) -> bool
        ensures { result ≡ is_new self.now }
    {
        self.booking.is_none() && self.facility.is_some()
    }

    /// Returns the points that the request would charge. Only a booking of a known facility, with
    /// an unused number, charges points.
    fn points_owed(&self, request: &Request) -> u32
        ensures { result ≡ owed_at request.now (is_some self.now.booking) self.now.facility }
    {
        match (request, &self.booking, &self.facility) {
            (Request::Book { guests, .. }, None, Some(facility)) => facility.charge(*guests),
            _ => 0,
        }
    }

    /// Returns the values of the request that caveats can test.
    pub fn ask(&self, request: &Request, moment: Moment) -> Ask
        ensures { result ≡ ask_of self.now request.now moment }
    {
        Ask {
            action: request.action(),
            slot: request.slot(),
            kind: self.facility.map(|facility| facility.kind),
            guests: request.guests(),
            moment,
            owed: u64::from(self.points_owed(request)),
            spent: self.spent,
        }
    }
}
