//! Changes of a club, as plain values.

use super::rows::{Kept, Older, facility, key, member};
use crate::prelude::*;
use crate::values::booking;
use club_core::Change;
use test_kit::PlainFacility;

#[derive(Clone, Copy)]
pub(crate) enum Write {
    Member(&'static str, u32),
    Credit(&'static str, u32),
    Debit(&'static str, u32),
    Quota(&'static str, u8),
    Facility(PlainFacility),
    /// The places, the price, and the hours of opening and closing.
    Numbers(&'static str, u8, u16, u8, u8),
    Key(Kept),
    Revoke(&'static str),
    /// The key, the former root with the moment until which its passes are valid, and the new root.
    Rotate(&'static str, Older, &'static [u8]),
    Close(PlainSlot),
    Open(PlainSlot),
    /// The key, the number, the slot, the guests, the member that pays, and the charge.
    Book(&'static str, u32, PlainSlot, u8, &'static str, u32),
    /// The booking, the member that gets the refund, and the refund.
    Cancel(PlainBooking, &'static str, u32),
}

fn numbers(rt: &impl Host, facility: &str, places: u8, price: u16, hours: (u8, u8)) -> Change {
    Change::ReplaceNumbers {
        facility: name(rt, facility),
        places,
        price,
        opens: hours.0,
        shuts: hours.1,
    }
}

fn rotation(rt: &impl Host, key: &str, former: Older, to: &[u8]) -> Change {
    Change::ReplaceRoot {
        key: name(rt, key),
        former: root(rt, former.0),
        root: root(rt, to),
        until: moment(rt, former.1),
    }
}

fn cancellation(rt: &impl Host, booked: PlainBooking, member: &str, refund: u32) -> Change {
    Change::MarkCancelled {
        booking: booking(rt, booked),
        member: name(rt, member),
        refund,
    }
}

pub(crate) fn change(rt: &impl Host, write: Write) -> Change {
    match write {
        Write::Member(text, credited) => Change::InsertMember(member(rt, text, credited)),
        Write::Credit(member, points) => Change::AddCredit {
            member: name(rt, member),
            points,
        },
        Write::Debit(member, points) => Change::TakeCredit {
            member: name(rt, member),
            points,
        },
        Write::Quota(member, quota) => Change::ReplaceQuota {
            member: name(rt, member),
            quota,
        },
        Write::Facility(place) => Change::InsertFacility(facility(rt, place)),
        Write::Numbers(facility, places, price, opens, shuts) => {
            numbers(rt, facility, places, price, (opens, shuts))
        }
        Write::Key(kept) => Change::InsertKey(key(rt, kept)),
        Write::Revoke(key) => Change::MarkRevoked { key: name(rt, key) },
        Write::Rotate(key, former, to) => rotation(rt, key, former, to),
        Write::Close(at) => Change::MarkClosed(slot(rt, at)),
        Write::Open(at) => Change::MarkOpen(slot(rt, at)),
        Write::Book(key, number, slot, guests, member, charge) => {
            let booked = PlainBooking {
                key,
                number,
                slot,
                guests,
                charge,
                left: 1,
                refund: None,
            };
            Change::InsertBooking {
                booking: booking(rt, booked),
                member: name(rt, member),
            }
        }
        Write::Cancel(booked, member, refund) => cancellation(rt, booked, member, refund),
    }
}
