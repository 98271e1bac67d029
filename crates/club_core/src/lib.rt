//! The rules of the club. The rules take a view of the club's rows, and decide the answer to a
//! request or to a command of the office. Only `sheet_text` allocates memory.
#![tactic(auto)]

mod acceptance;
mod account;
mod change;
mod command;
mod command_decisions;
mod decisions;
pub mod laws;
mod pass_fault;
mod refusal;
mod reply;
mod request;
mod sent_words;
mod sheet;
mod slot_use;
mod store;
mod verdict;
mod view;

pub use acceptance::answer;
pub use account::MemberAccount;
pub use change::Change;
pub use club_rows::{
    Booking, BookingColumns, BookingNumber, Facility, FacilityColumns, Guests, Key, KeyRow,
    LAST_HOUR, MAX_BOOKING_NUMBER, MAX_CHARGE, MAX_CREDITED, MAX_GUESTS, MAX_PLACES, MAX_PRICE,
    MAX_QUOTA, MAX_ROOT_LEN, MIN_ROOT_LEN, Member, OlderRoot, Root, slot_from_columns,
};
pub use command::{Command, CommandView, MAX_POINTS, OfficeAnswer, OfficeFault};
pub use command_decisions::decide_command;
pub use decisions::{decide, decide_account, decide_book, decide_cancel, decide_view};
pub use pass_fault::PassFault;
pub use refusal::{Refusal, Resource};
pub use reply::Reply;
pub use request::Request;
pub use sent_words::SentWords;
pub use sheet::sheet_text;
pub use slot_use::SlotUse;
pub use store::{ClubStore, StoreFault};
pub use verdict::Verdict;
pub use view::{KeyView, View};
