//! Defines a member's row together with the member's balance.

ghost use Rattle.std.specs.Prelude.{◌≡◌, ◌-◌};

use club_rows::Member;

/// A member's row together with the member's balance.
#[derive(Clone, Copy, Debug, PartialEq, Eq)]
pub struct MemberAccount {
    pub member: Member,
    /// The points credited to the member minus the cost of the member's bookings.
    pub balance: u32,
}

impl MemberAccount {
    /// Returns the points that the member has spent with all keys: `credited` minus `balance`.
    pub fn used(&self) -> u32
        ensures { result ≡ self.now.member.credited - self.now.balance }
    {
        self.member.credited.saturating_sub(self.balance)
    }
}
