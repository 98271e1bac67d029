//! An example of a member's account.

ghost use Rattle.club_laws.specs.Examples.{CountsOverAllKeys};

/// An account counts the open bookings under all of the member's keys. The account doesn't count
/// bookings whose slot has begun.
pub fn counts_over_all_keys()
    ensures { CountsOverAllKeys }
{}
