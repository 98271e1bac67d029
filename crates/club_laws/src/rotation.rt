//! Examples of runs in which the office replaces a key's root.

ghost use Rattle.club_laws.specs.Rotation.{DropsTheOldestRoot, RepeatsUnderANewRoot};

/// After a rotation, the older root is valid only before the moment that the office set. A repeat
/// of a booking under the new root gets the first reply, and charges nothing.
pub fn repeats_under_a_new_root()
    ensures { RepeatsUnderANewRoot }
{}

/// A second rotation drops the older root that the first rotation kept. A revoked key stays revoked
/// after a rotation.
pub fn drops_the_oldest_root()
    ensures { DropsTheOldestRoot }
{}
