//! The club's clock. A moment is a minute on this clock. The crate gets the current moment, and
//! reads the rule of the clock's time zone.
#![tactic(auto)]

mod clock;
mod moments;
mod zone;

pub use clock::Clock;
pub use moments::{Instants, Moments, MomentsOf};
pub use zone::Zone;
