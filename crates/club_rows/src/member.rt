//! Members and their columns.

ghost use Rattle.club_values.specs.Number.{Reads};

use crate::columns::number_within;
use club_values::Name;
use club_values::digits::MAX_NUMBER;

/// The highest value of a member's `credited`, in points.
pub const MAX_CREDITED: u32 = MAX_NUMBER;

/// The highest quota. A quota is the maximum number of open bookings that a member can have.
pub const MAX_QUOTA: u32 = 99;

/// A member of the club.
#[derive(Clone, Copy, Debug, PartialEq, Eq)]
pub struct Member {
    pub name: Name,
    /// All points ever credited to the member, minus all points debited, from 0 to 999,999,999.
    pub credited: u32,
    /// The maximum number of open bookings that this member can have, from 0 to 99.
    pub quota: u8,
}

impl Member {
    ghost use Rattle.club_rows.specs.Columns.{IsMemberOf};

    /// Returns the member with these column values. Returns `None` if a value is outside its
    /// limits.
    pub fn from_columns(name: &[u8], credited: i64, quota: i64) -> Option<Member>
        ensures { Reads (IsMemberOf name.now credited quota) result }
    {
        let name = Name::read(name)?;
        let credited = number_within(credited, 0, MAX_CREDITED)?;
        let quota = number_within(quota, 0, MAX_QUOTA)?;
        Some(Member {
            name,
            credited,
            quota: quota as u8,
        })
    }
}
