//! The names that most of the tests use.

pub(crate) use crate::expect::{Host, expect_eq, expect_row, push};
pub(crate) use crate::fixture::{Fixture, answer, carry_out, furnish, play, replied, reply};
pub(crate) use crate::values::{at, command, day, moment, name, request, root, slot};
pub(crate) use club_core::{ClubStore, OfficeFault, Refusal, Reply, StoreFault};
pub(crate) use club_gate::{Desk, Fault, OfficeReply};
pub(crate) use club_store::Store;
pub(crate) use club_values::Kind;
pub(crate) use sqlite::{Alter, Connection};
pub(crate) use test_kit::minutes::{NOON, START, UNTIL};
pub(crate) use test_kit::passes::{AMY_1_SIGNATURE, AMY_JSON, AMY_V1, AMY_V2};
pub(crate) use test_kit::replies::{
    ACCOUNT_AFTER, ACCOUNT_BEFORE, BOOKED_7, CANCELLED_7, DENIED_1, KEY_REVOKED, NOT_VERIFIED,
};
pub(crate) use test_kit::requests::{ACCOUNT, BOOK_7, BOOK_8, CANCEL_7, VIEW};
pub(crate) use test_kit::roots::{ROOT, SECOND_ROOT, THIRD_ROOT};
pub(crate) use test_kit::{
    BOOKING_7, COURT_AT_18, COURT_AT_19, FRIDAY, Piece, PlainBooking, PlainCommand, PlainReply,
    PlainRequest, PlainSlot, join,
};
