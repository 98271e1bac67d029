//! Rows from plain values. Members have quota 5, and keys belong to amy.

use crate::prelude::*;
use club_rows::{Facility, Key, Member, OlderRoot};
use test_kit::{PlainFacility, amy};

#[derive(Clone, Copy)]
pub(crate) struct Older(pub &'static [u8], pub &'static str);

#[derive(Clone, Copy)]
pub(crate) struct Kept {
    pub name: &'static str,
    pub root: &'static [u8],
    pub older: Option<Older>,
    pub revoked: bool,
}

pub(crate) const AMY_1: Kept = Kept {
    name: "amy-1",
    root: ROOT,
    older: None,
    revoked: false,
};

pub(crate) fn member(rt: &impl Host, text: &str, credited: u32) -> Member {
    Member {
        name: name(rt, text),
        ..amy(credited, 5).expect(rt, "a member")
    }
}

pub(crate) fn facility(rt: &impl Host, facility: PlainFacility) -> Facility {
    facility.facility().expect(rt, "a facility")
}

pub(crate) fn key(rt: &impl Host, kept: Kept) -> Key {
    Key {
        name: name(rt, kept.name),
        member: name(rt, "amy"),
        root: root(rt, kept.root),
        older: kept.older.map(|Older(bytes, until)| OlderRoot {
            root: root(rt, bytes),
            until: moment(rt, until),
        }),
        revoked: kept.revoked,
    }
}
