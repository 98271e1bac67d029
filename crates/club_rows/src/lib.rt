//! Defines the club's rows and their limits, and parses the rows from database columns. No function
//! in this crate allocates memory.
#![tactic(auto)]

mod booking;
mod booking_number;
mod columns;
mod facility;
mod guests;
mod key;
mod member;
mod root;

pub use booking::{Booking, BookingColumns, MAX_CHARGE};
pub use booking_number::{BookingNumber, MAX_BOOKING_NUMBER};
pub use club_values::MAX_GUESTS;
pub use columns::slot_from_columns;
pub use facility::{Facility, FacilityColumns, LAST_HOUR, MAX_PLACES, MAX_PRICE};
pub use guests::Guests;
pub use key::{Key, KeyRow, OlderRoot};
pub use member::{MAX_CREDITED, MAX_QUOTA, Member};
pub use root::{MAX_ROOT_LEN, MIN_ROOT_LEN, Root};
