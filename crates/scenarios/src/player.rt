//! The traits of scenario players, and of makers of players.

use crate::fault::Fault;
use club_gate::OfficeReply;
use club_http::{Command, Day, Moment, Name, Slot};
use std::alloc::Global;

/// A club with a desk or a machine that answers requests.
pub(crate) trait Player {
    /// Returns the reply to a request. The request and the reply are bytes.
    fn reply(&mut self, moment: Moment, request: &[u8]) -> Result<String, Fault>;

    fn command(&mut self, command: &Command) -> Result<OfficeReply, Fault>;

    /// Returns the sheet of a day.
    fn sheet(&mut self, day: Day) -> Result<String, Fault>;

    /// Returns the account of a key, or `None` if there is no such key.
    fn account(&mut self, key: &Name, moment: Moment) -> Result<Option<String>, Fault>;

    /// Returns the listing of a slot, or `None` if there is no such facility.
    fn slot(&mut self, slot: &Slot) -> Result<Option<String>, Fault>;

    /// Closes and reopens the player's tables. If `as_version_1` is true, first turns the tables
    /// into tables of version 1.
    fn reopened(self, as_version_1: bool) -> Result<Self, Fault>;
}

/// Makes players. Each player begins with an empty club.
pub(crate) trait Maker {
    /// The type of the players. Callers require that the type is `Player + Drop`. If the
    /// requirement were here, Rattle couldn't check the impl for `InMemory`, whose player is
    /// generic.
    type Made;

    fn make(&self, alloc: Global) -> Result<Self::Made, Fault>;
}
