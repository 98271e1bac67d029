//! A club whose rows are in lists.

ghost use Rattle.std.specs.Prelude.{◌≡◌, IfOk};
ghost use Rattle.club_core.specs.Club.{empty_club};

use club_rows::{Booking, Facility, Key, Member};
use club_values::Slot;
use std::alloc::{AllocError, Global};
use std::marker::Model;

/// A club whose rows are in lists, from the oldest row to the newest. Contracts represent this club
/// as the `Club` that the rules in `club_core` use.
#[derive(Drop)]
pub struct Club {
    pub(crate) members: Vec<Member>,
    pub(crate) facilities: Vec<Facility>,
    pub(crate) keys: Vec<Key>,
    pub(crate) bookings: Vec<Booking>,
    pub(crate) closed: Vec<Slot>,
}

impl Model for Club {
    ghost use Rattle.club_core.specs.Club.{Club as Rows};

    ghost Value = { Rows };

    ghost use Rattle.club_reference.specs.{Rows.rows_of, Widths.FitsWidths};

    ghost view = { rows_of };

    ghost invariant = { λ club. FitsWidths (rows_of club) };
}

impl Club {
    /// Returns the empty club, without allocating memory.
    pub fn new(alloc: Global) -> Club
        ensures { result ≡ empty_club }
    {
        Club {
            members: Vec::new(alloc),
            facilities: Vec::new(alloc),
            keys: Vec::new(alloc),
            bookings: Vec::new(alloc),
            closed: Vec::new(alloc),
        }
    }

    /// Returns a copy of the club.
    pub fn duplicate(&self) -> Result<Club, AllocError>
        ensures { IfOk result (λ club. club ≡ self.now) }
    {
        Ok(Club {
            members: copy_rows(&self.members)?,
            facilities: copy_rows(&self.facilities)?,
            keys: copy_rows(&self.keys)?,
            bookings: copy_rows(&self.bookings)?,
            closed: copy_rows(&self.closed)?,
        })
    }
}

pub(crate) fn copy_rows<T: Copy>(rows: &Vec<T>) -> Result<Vec<T>, AllocError>
    ensures { IfOk result (λ copy. copy.items ≡ rows.now.items) }
{
    let mut copy = Vec::new(*rows.allocator());
    copy.extend_from_slice(rows)?;
    Ok(copy)
}
