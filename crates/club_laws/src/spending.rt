//! Laws about the points that a key has spent and the points that its member has used.

ghost use Rattle.club_laws.specs.Conservation.{AccountsShowWhatIsUsed, SpendsWithinItsMember};

use club_core::laws::own_bookings_suffice;

/// No key has spent more points than its member has used.
#[tactic(auto, using(crate::proofs::PointRuns::spent_within))]
pub fn spends_within_its_member()
    ensures { SpendsWithinItsMember }
{
    own_bookings_suffice();
}

/// In a sound club, the points that a member has used are the credited points minus the balance.
#[tactic(auto, using(crate::proofs::PointRuns::used_of_account))]
pub fn accounts_show_what_is_used()
    ensures { AccountsShowWhatIsUsed }
{}
