//! Defines the values of a request that caveats depend on.

use club_values::{Action, Kind, Moment, Slot};

/// The values of a request that caveats depend on.
#[derive(Clone, Copy, Debug, PartialEq, Eq)]
pub struct Ask {
    pub action: Action,
    /// The requested slot, or `None` if the request is for an account.
    pub slot: Option<Slot>,
    /// The kind of the slot's facility. The kind is `None` if it is unknown or the request has no
    /// slot.
    pub kind: Option<Kind>,
    /// The number of guests of a booking, or 0 for any other request.
    pub guests: u8,
    pub moment: Moment,
    /// The points that the request would charge.
    pub owed: u64,
    /// The points that the key has spent so far.
    pub spent: u64,
}
