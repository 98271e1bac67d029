//! Defines the changes that requests and commands make to the club's rows.

use club_rows::{Booking, Facility, Key, Member, Root};
use club_values::{Moment, Name, Slot};

/// A change of the club's rows. A store doesn't read the rows before it applies a change. Some
/// changes contain row values on which the decision was based. The store refuses such a change if
/// the rows no longer have these values.
#[derive(Clone, Copy, Debug, PartialEq, Eq)]
pub enum Change {
    InsertMember(Member),
    AddCredit {
        member: Name,
        points: u32,
    },
    /// Subtracts points from the member's `credited`. The member's `credited` must be at least
    /// `points`.
    TakeCredit {
        member: Name,
        points: u32,
    },
    /// Replaces the quota of an existing member.
    ReplaceQuota {
        member: Name,
        quota: u8,
    },
    InsertFacility(Facility),
    /// Replaces the places, price and opening hours of an existing facility.
    ReplaceNumbers {
        facility: Name,
        places: u8,
        price: u16,
        opens: u8,
        shuts: u8,
    },
    InsertKey(Key),
    MarkRevoked {
        key: Name,
    },
    /// Replaces the root of a key whose current root is `former`. The former root becomes the key's
    /// older root, and expires at the moment `until`. The store drops the previous older root.
    ReplaceRoot {
        key: Name,
        former: Root,
        root: Root,
        until: Moment,
    },
    MarkClosed(Slot),
    /// Opens a slot of an existing facility. A slot that is already open stays open.
    MarkOpen(Slot),
    /// Inserts a booking. The booking's key must belong to `member`.
    InsertBooking {
        booking: Booking,
        member: Name,
    },
    /// Marks a booking as cancelled, and records the refund. `booking` must be the stored row of a
    /// booking that isn't cancelled yet. The booking's key must belong to `member`.
    MarkCancelled {
        booking: Booking,
        member: Name,
        refund: u32,
    },
}
