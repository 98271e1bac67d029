//! Laws about the solo machine, which has only one member's part of the club.

ghost use Rattle.club_laws.specs.Examples.{SeesNothingOfOthers, SeesTheSlotAlone};

/// Outside the member's part of the club, the solo machine sees only the requested slot. The
/// machine sees how many persons other members have in the slot, and whether the slot is closed.
pub fn sees_the_slot_alone()
    ensures { SeesTheSlotAlone }
{}

/// An example: a member's own events are the same with and without another member in the run.
pub fn sees_nothing_of_others()
    ensures { SeesNothingOfOthers }
{}
