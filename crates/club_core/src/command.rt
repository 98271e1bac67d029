//! Defines the commands of the office, the rows and sums that decide them, and their answers and
//! faults.

ghost use Rattle.std.specs.Prelude.{◌≡◌};

use crate::account::MemberAccount;
use crate::request::slot_within;
use crate::slot_use::SlotUse;
use club_rows::{Booking, BookingNumber, Facility, Key, Member, Root};
use club_values::{Kind, Moment, Name, Slot};
use std::error::Error;
use std::fmt;

/// The maximum number of points in one credit or debit.
pub const MAX_POINTS: u32 = 1_000_000;

/// A command of the office.
#[derive(Clone, Copy, Debug, PartialEq, Eq)]
pub enum Command {
    AddMember {
        name: Name,
        quota: u32,
    },
    Credit {
        member: Name,
        points: u32,
    },
    /// Subtracts points from a member's balance, to correct a credit that was too high.
    Debit {
        member: Name,
        points: u32,
    },
    /// Sets a member's quota. The member's open bookings remain valid, even if their number exceeds
    /// the new quota.
    SetQuota {
        member: Name,
        quota: u32,
    },
    AddFacility {
        name: Name,
        kind: Kind,
        places: u32,
        price: u32,
        opens: u32,
        shuts: u32,
    },
    /// Sets the places, price and opening hours of a facility. The facility's kind and the existing
    /// bookings don't change.
    SetFacility {
        name: Name,
        places: u32,
        price: u32,
        opens: u32,
        shuts: u32,
    },
    AddKey {
        name: Name,
        member: Name,
        root: Root,
    },
    RevokeKey {
        name: Name,
    },
    /// Replaces a key's root. The desk still accepts passes that the former root signs, until the
    /// moment `until` or the key's next rotation, whichever comes first.
    RotateKey {
        name: Name,
        root: Root,
        until: Moment,
    },
    /// Cancels a key's booking and refunds the whole charge, even if the slot has begun or the key
    /// is revoked. A booking that is already cancelled doesn't change.
    CancelBooking {
        key: Name,
        number: BookingNumber,
    },
    CloseSlot(Slot),
    /// Opens a closed slot. A slot that is already open stays open.
    OpenSlot(Slot),
}

/// The rows and sums that the rules need to decide a command. A field that the command doesn't need
/// is `None` or 0. Only the command `CloseSlot` needs the field `slot`. For other commands,
/// `slot.taken` is 0 and `slot.closed` is false.
#[derive(Clone, Copy, Debug, PartialEq, Eq)]
pub struct CommandView {
    pub member: Option<Member>,
    /// The member's row and balance, for the command `Debit`.
    pub account: Option<MemberAccount>,
    pub key: Option<Key>,
    pub facility: Option<Facility>,
    pub slot: SlotUse,
    /// The highest number of persons in any slot of the facility, for the command `SetFacility`.
    pub most_taken: u32,
    /// The booking that the command `CancelBooking` names.
    pub booking: Option<Booking>,
}

/// The reason why a command of the office is refused.
#[derive(Clone, Copy, Debug, PartialEq, Eq)]
pub enum OfficeFault {
    /// The new name is taken, the key already has the root, or the slot is already closed.
    Exists,
    /// No member, key or facility has the name, or the key has no booking with the number.
    Unknown,
    /// A number is outside its limits, an hour is outside the opening hours, or a debit exceeds the
    /// balance.
    OutOfRange,
    /// The slot has bookings, or one of the facility's slots has more persons than the new number
    /// of places.
    SlotInUse,
}

impl fmt::Display for OfficeFault {
    ghost use Rattle.std.specs.Prelude.{Some};
    ghost use Rattle.club_core.specs.Refusal.{office_fault_text};

    ghost output = { λ fault. Some (office_fault_text fault) };

    fn fmt<W: fmt::Write>(&self, f: &mut fmt::Formatter<W>) -> fmt::Result {
        match self {
            OfficeFault::Exists => write!(f, "exists"),
            OfficeFault::Unknown => write!(f, "unknown"),
            OfficeFault::OutOfRange => write!(f, "out of range"),
            OfficeFault::SlotInUse => write!(f, "slot in use"),
        }
    }
}

impl Error for OfficeFault {}

impl Command {
    ghost use Rattle.club_core.specs.Office.{IsCommand};

    /// Exists only for its contract, which states that the names, slots, roots, booking numbers and
    /// moments of a command are within their limits.
    pub fn within(&self)
        ensures { IsCommand self.now }
    {
        match self {
            Command::AddMember { name, .. }
            | Command::Credit { member: name, .. }
            | Command::Debit { member: name, .. }
            | Command::SetQuota { member: name, .. }
            | Command::AddFacility { name, .. }
            | Command::SetFacility { name, .. }
            | Command::RevokeKey { name } => {
                let _name = name.as_bytes();
            }
            Command::AddKey { name, member, root } => {
                let _name = name.as_bytes();
                let _member = member.as_bytes();
                let _root = root.as_bytes();
            }
            Command::RotateKey { name, root, until } => {
                let _name = name.as_bytes();
                let _root = root.as_bytes();
                let _until = until.number();
            }
            Command::CancelBooking { key, number } => {
                let _key = key.as_bytes();
                let _number = number.get();
            }
            Command::CloseSlot(slot) | Command::OpenSlot(slot) => slot_within(slot),
        }
    }
}

/// The answer to a command of the office.
#[derive(Clone, Copy, Debug, PartialEq, Eq)]
pub enum OfficeAnswer {
    Done,
    /// The office added a key, or replaced a key's root. The name and the root determine the
    /// signatures of the key's passes.
    NewKey { name: Name, root: Root },
    NotDone(OfficeFault),
}

impl OfficeAnswer {
    ghost use Rattle.club_core.specs.Office.{done_answer};

    /// Returns the answer to a command that succeeded.
    pub fn done(command: &Command) -> OfficeAnswer
        ensures { result ≡ done_answer command.now }
    {
        match command {
            Command::AddKey { name, root, .. } | Command::RotateKey { name, root, .. } =>
                OfficeAnswer::NewKey {
                    name: *name,
                    root: *root,
                },
            _ => OfficeAnswer::Done,
        }
    }
}
