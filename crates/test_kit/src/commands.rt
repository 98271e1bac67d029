//! Commands of the office, as plain values.

use crate::roots::ROOT;
use crate::slots::PlainSlot;
use club_core::Command;
use club_rows::{BookingNumber, Root};
use club_values::{Kind, Moment, Name};

#[derive(Clone, Copy)]
pub enum PlainCommand {
    AddMember(&'static str, u32),
    Credit(&'static str, u32),
    Debit(&'static str, u32),
    SetQuota(&'static str, u32),
    /// The places, the points per place, and the hours of opening and closing.
    AddFacility(&'static str, Kind, u32, u32, u32, u32),
    SetFacility(&'static str, u32, u32, u32, u32),
    /// The name of the key, its member and its root.
    AddKey(&'static str, &'static str, &'static [u8]),
    RevokeKey(&'static str),
    /// Passes under the older root are valid until this minute, counted from 1970-01-01T00:00.
    RotateKey(&'static str, &'static [u8], u32),
    /// The key and the number of the booking.
    CancelBooking(&'static str, u32),
    CloseSlot(PlainSlot),
    OpenSlot(PlainSlot),
}

pub static FIXTURE: [PlainCommand; 8] = [
    PlainCommand::AddMember("amy", 5),
    PlainCommand::Credit("amy", 10_000),
    PlainCommand::AddKey("amy-1", "amy", ROOT),
    PlainCommand::AddMember("bob", 5),
    PlainCommand::Credit("bob", 10_000),
    PlainCommand::AddKey("bob-1", "bob", ROOT),
    PlainCommand::AddFacility("court-1", Kind::Court, 4, 200, 8, 22),
    PlainCommand::AddFacility("room-1", Kind::Room, 1, 601, 8, 22),
];

fn named(text: &str) -> Option<Name> {
    Name::read(text.as_bytes())
}

impl PlainCommand {
    /// Returns `None` if a name, a root, a moment or a slot is outside its limits.
    pub fn command(&self) -> Option<Command> {
        Some(match *self {
            PlainCommand::AddMember(member, quota) => Command::AddMember {
                name: named(member)?,
                quota,
            },
            PlainCommand::Credit(member, points) => Command::Credit {
                member: named(member)?,
                points,
            },
            PlainCommand::Debit(member, points) => Command::Debit {
                member: named(member)?,
                points,
            },
            PlainCommand::SetQuota(member, quota) => Command::SetQuota {
                member: named(member)?,
                quota,
            },
            PlainCommand::AddKey(key, member, root) => Command::AddKey {
                name: named(key)?,
                member: named(member)?,
                root: Root::new(root)?,
            },
            PlainCommand::RevokeKey(key) => Command::RevokeKey { name: named(key)? },
            PlainCommand::RotateKey(key, root, until) => Command::RotateKey {
                name: named(key)?,
                root: Root::new(root)?,
                until: Moment::from_number(until)?,
            },
            PlainCommand::CancelBooking(key, number) => Command::CancelBooking {
                key: named(key)?,
                number: BookingNumber::new(number)?,
            },
            _ => return self.command_of_a_facility(),
        })
    }

    fn command_of_a_facility(&self) -> Option<Command> {
        Some(match *self {
            PlainCommand::AddFacility(facility, kind, places, price, opens, shuts) => {
                Command::AddFacility {
                    name: named(facility)?,
                    kind,
                    places,
                    price,
                    opens,
                    shuts,
                }
            }
            PlainCommand::SetFacility(facility, places, price, opens, shuts) => {
                Command::SetFacility {
                    name: named(facility)?,
                    places,
                    price,
                    opens,
                    shuts,
                }
            }
            PlainCommand::CloseSlot(slot) => Command::CloseSlot(slot.slot()?),
            PlainCommand::OpenSlot(slot) => Command::OpenSlot(slot.slot()?),
            _ => return None,
        })
    }
}
