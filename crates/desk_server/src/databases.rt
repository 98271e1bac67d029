//! Traits for opening databases, and for the door through which the office reaches a server.

use club_http::{ClubStore, StoreFault};
use std::os::unix::net::UnixListener;

/// The door of a server: the socket where commands of the office arrive. Dropping a `Door` removes
/// the door.
pub trait Door {
    /// Returns the listener for commands, or `None` if there is no door.
    fn listener(&self) -> Option<&UnixListener>;
}

/// A server that the office has reached through the server's door. The server has sent its
/// greeting.
pub trait Visit {
    ghost use Rattle.desk_server.specs.Server.{Giving, in_bytes};

    // The possible results of sending the bytes of a command to the server.
    ghost gives: { Giving Self };

    /// Sends the bytes of a command to the server, and returns the answer's status and text.
    /// Returns `None` if no answer comes. Even without an answer, the server may have carried out
    /// the command.
    fn give(self, command: &[u8]) -> Option<(u8, String)>
        ensures { gives self command.now (in_bytes result) };
}

/// The result of reaching a database.
pub enum Reached<S, V> {
    /// The caller opened the database.
    Opened(S),
    /// A server has the database open and takes commands.
    Served(V),
}

/// Databases that programs open by name. Only one program at a time can have a database open.
pub trait Databases {
    type Store: ClubStore + Drop;

    type Door: Door + Drop;

    type Visit: Visit + Drop;

    ghost use Rattle.desk_server.specs.Server.{Closing, Opening, Reaching};

    // The possible results of opening a database by name, with the state of all databases before
    // and after the call.
    ghost opens: { Opening Self Self.Store };

    // The possible results of reaching a database by name, with the state of all databases before
    // and after the call.
    ghost reaches: { Reaching Self Self.Store Self.Visit };

    // The state of all databases before and after a store is closed.
    ghost closes: { Closing Self Self.Store };

    /// Opens the database with the given name for a server. Creates an empty database if no
    /// database has the given name. If another program has the database open, this function retries
    /// for a while.
    fn open(&mut self, name: &str) -> Result<Self::Store, StoreFault>
        ensures { opens self.old name.now result self.new };

    /// Reaches the database with the given name for the office. If a server has the database open,
    /// this function connects to that server. If no server has the database open, this function
    /// opens the database as `open` does.
    fn reach(&mut self, name: &str) -> Result<Reached<Self::Store, Self::Visit>, StoreFault>
        ensures { reaches self.old name.now result self.new };

    /// Closes a database. The database keeps all committed changes, even if closing fails.
    fn close(&mut self, store: Self::Store)
        ensures { closes self.old store self.new };

    /// Makes a door for the server that has opened the database with the given name. The new door
    /// replaces a door that a killed server left behind.
    fn make_door(&self, name: &str) -> Result<Self::Door, StoreFault>;
}
