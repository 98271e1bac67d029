//! Finds a row by its name. Each call searches all rows.

ghost use Rattle.std.specs.Prelude.{◌≡◌};

use crate::club::Club;
use club_rows::{Facility, Key, Member};
use club_values::{Name, Slot};

impl Club {
    ghost use Rattle.club_core.specs.Club as clubs;

    /// Returns the member with this name.
    pub(crate) fn member_named(&self, name: &Name) -> Option<Member>
        ensures { result ≡ clubs.member_named name.now self.now }
    {
        self.members
            .iter()
            .find(|member| member.name == *name)
            .copied()
    }

    /// Returns the facility with this name.
    pub(crate) fn facility_named(&self, name: &Name) -> Option<Facility>
        ensures { result ≡ clubs.facility_named name.now self.now }
    {
        self.facilities
            .iter()
            .find(|facility| facility.name == *name)
            .copied()
    }

    /// Returns the key with this name.
    pub(crate) fn key_named(&self, name: &Name) -> Option<Key>
        ensures { result ≡ clubs.key_named name.now self.now }
    {
        self.keys.iter().find(|key| key.name == *name).copied()
    }

    /// Returns true if the slot is closed.
    pub(crate) fn is_closed(&self, slot: &Slot) -> bool
        ensures { result ≡ clubs.is_closed slot.now self.now }
    {
        self.closed.iter().any(|closed| closed == slot)
    }
}
