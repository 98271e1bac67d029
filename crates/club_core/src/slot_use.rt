//! Defines the use of a slot.

/// The use of a slot: its number of persons, and whether the slot is closed.
#[derive(Clone, Copy, Debug, PartialEq, Eq)]
pub struct SlotUse {
    /// The number of persons in the slot.
    pub taken: u32,
    /// Whether the slot is closed.
    pub closed: bool,
}
