//! The clocks that a server or a listing can use.

use crate::zone::Zone;
use club_values::Moment;

/// The clock from which a connection or a listing gets its moment.
#[derive(Drop)]
pub enum Clock<'a> {
    /// A fixed moment, the same for all connections.
    Fixed(Moment),
    /// The machine's clock, in the given time zone.
    InZone(Zone<'a>),
}
