//! A player that uses the reference machine. The machine can't read bytes, so the player decodes
//! each request. The player also finds out under which roots of the club's keys the request's pass
//! is signed.

use crate::fault::Fault;
use crate::player::{Maker, Player};
use club_core::{Booking, Key, PassFault, SlotUse, sheet_text};
use club_gate::{Fault as DeskFault, OfficeReply};
use club_http::{
    Command, Day, MAX_REPLY_LEN, Moment, Name, OfficeAnswer, Reply, Root, Routes, Slot,
    key_signature, reply_bytes, words_of,
};
use club_reference::{Club, Pass, Words};
use pass_forms::{FormFault, Pass as SentPass};
use pass_json::read_any;
use std::alloc::{AllocError, Global};
use std::cmp::Ordering;

/// A name that no member has. With this name, all bookings of a slot count as other members'
/// bookings.
const NOBODY: &[u8] = b"nobody";

/// Makes players that use the reference machine.
#[derive(Clone, Copy)]
pub(crate) struct Machines;

/// The machine, and the routes for decoding requests.
#[derive(Drop)]
pub(crate) struct Machine {
    alloc: Global,
    club: Club,
    routes: Routes,
}

impl Maker for Machines {
    type Made = Machine;

    fn make(&self, alloc: Global) -> Result<Machine, Fault> {
        Ok(Machine {
            alloc,
            club: Club::new(alloc),
            routes: Routes::new(alloc)?,
        })
    }
}

/// Returns the text of a reply.
pub(crate) fn text_of(alloc: Global, reply: &Reply) -> Result<String, Fault> {
    let mut room = [0; MAX_REPLY_LEN];
    let len = reply_bytes(reply, &mut room);
    text_in(alloc, &room[..len])
}

/// Returns the text with these bytes, which must be valid UTF-8.
pub(crate) fn text_in(alloc: Global, bytes: &[u8]) -> Result<String, Fault> {
    match std::str::from_utf8(bytes) {
        Ok(text) => Ok(String::from_str(alloc, text)?),
        Err(_) => Err(Fault::Player("a reply is no text")),
    }
}

/// Returns the reason why a text isn't a pass, or `None` if memory ran out.
fn pass_fault(fault: FormFault) -> Option<PassFault> {
    match fault {
        FormFault::TooLong => Some(PassFault::TooLong),
        FormFault::Malformed => Some(PassFault::Malformed),
        FormFault::ThirdParty => Some(PassFault::ThirdParty),
        FormFault::TooMany => Some(PassFault::TooMany),
        FormFault::Memory => None,
    }
}

/// Returns the name of the key from the identifier of a pass.
fn key_in(identifier: &[u8]) -> Option<Name> {
    Name::read(identifier.strip_prefix(b"key:")?)
}

/// Adds each of the key's roots under which the pass is signed.
fn push_roots(roots: &mut Vec<Root>, key: &Key, pass: &SentPass) -> Result<(), AllocError> {
    if pass.is_signed(key.root.as_bytes()) {
        roots.push(key.root)?;
    }
    if let Some(older) = &key.older {
        if pass.is_signed(older.root.as_bytes()) {
            roots.push(older.root)?;
        }
    }
    Ok(())
}

fn copies(alloc: Global, texts: &[Vec<u8>]) -> Result<Vec<Vec<u8>>, AllocError> {
    let mut copies = Vec::new(alloc);
    for text in texts {
        copies.push(Vec::from_slice(alloc, text)?)?;
    }
    Ok(copies)
}

/// Compares two rows of a sheet by facility, hour, key and number.
fn order(one: &Booking, other: &Booking) -> Ordering {
    one.slot
        .facility
        .cmp(&other.slot.facility)
        .then(one.slot.hour.cmp(&other.slot.hour))
        .then(one.key.cmp(&other.key))
        .then(one.number.cmp(&other.number))
}

fn yes_or_no(holds: bool) -> &'static str {
    if holds { "yes" } else { "no" }
}

/// Returns the moment until which a key's older root is valid, as a text.
fn older_text(alloc: Global, key: &Key) -> Result<String, AllocError> {
    match &key.older {
        None => String::from_str(alloc, "none"),
        Some(older) => format!(in alloc; "until {}", older.until),
    }
}

impl Machine {
    /// Returns the parts of a pass that the machine reads.
    fn seen(&self, pass: &SentPass) -> Result<Pass, AllocError> {
        let mut roots = Vec::new(self.alloc);
        for key in self.club.keys() {
            push_roots(&mut roots, key, pass)?;
        }
        Ok(Pass {
            key: key_in(pass.identifier()),
            caveats: copies(self.alloc, pass.caveats())?,
            roots,
        })
    }

    /// Returns the pass that a text encodes, or the reason why the text isn't a pass.
    fn read(&self, text: &[u8]) -> Result<Result<Pass, PassFault>, Fault> {
        match read_any(self.alloc, text) {
            Ok((_, pass)) => Ok(Ok(self.seen(&pass)?)),
            Err(fault) => match pass_fault(fault) {
                Some(fault) => Ok(Err(fault)),
                None => Err(Fault::Memory),
            },
        }
    }

    /// Returns the reply to a request whose pass is this text.
    fn ask(
        &mut self,
        moment: Moment,
        text: &[u8],
        request: &club_core::Request,
    ) -> Result<Reply, Fault> {
        let words = Words {
            pass: self.read(text)?,
            request: *request,
        };
        Ok(self.club.ask(&words, moment)?)
    }

    /// Returns the number of a member's open bookings at a moment.
    fn open_count(&self, member: &Name, moment: Moment) -> usize {
        self.club
            .bookings()
            .iter()
            .filter(|booking| {
                !booking.cancelled
                    && moment.number() < booking.slot.start()
                    && self.is_of(&booking.key, member)
            })
            .count()
    }

    /// Returns true if a key belongs to this member.
    fn is_of(&self, key: &Name, member: &Name) -> bool {
        self.club
            .keys()
            .iter()
            .any(|it| it.name == *key && it.member == *member)
    }

    /// Returns the points that a key has spent.
    fn spent(&self, key: &Name) -> u64 {
        let mut spent = 0u64;
        for booking in self.club.bookings() {
            if booking.key == *key {
                let cost = booking.charge.saturating_sub(booking.refund);
                spent = spent.saturating_add(u64::from(cost));
            }
        }
        spent
    }

    /// Returns the account of a key in the desk's format.
    fn account_of(&self, key: &Key, moment: Moment) -> Result<Option<String>, Fault> {
        let mut members = self.club.members().iter();
        let Some(member) = members.find(|member| member.name == key.member) else {
            return Ok(None);
        };
        let text = format!(in self.alloc;
            "member {}\nbalance {}\nquota {}\nopen {}\nspent {}\nrevoked {}\nolder root {}\n",
            member.name,
            self.club.balance(member),
            member.quota,
            self.open_count(&member.name, moment),
            self.spent(&key.name),
            yes_or_no(key.revoked),
            older_text(self.alloc, key)?
        )?;
        Ok(Some(text))
    }
}

impl Player for Machine {
    fn reply(&mut self, moment: Moment, request: &[u8]) -> Result<String, Fault> {
        let reply = match words_of(&self.routes, request) {
            Ok(words) => (words.pass, words.request),
            Err(refusal) => return text_of(self.alloc, &Reply::Refused(refusal)),
        };
        let reply = self.ask(moment, reply.0, &reply.1)?;
        text_of(self.alloc, &reply)
    }

    fn command(&mut self, command: &Command) -> Result<OfficeReply, Fault> {
        Ok(match self.club.office(command)? {
            OfficeAnswer::Done => OfficeReply::Done,
            OfficeAnswer::NewKey { name, root } => OfficeReply::Key {
                signature: key_signature(&name, &root),
            },
            OfficeAnswer::NotDone(fault) => OfficeReply::Refused(DeskFault::from(fault)),
        })
    }

    fn sheet(&mut self, day: Day) -> Result<String, Fault> {
        let mut rows: Vec<Booking> = Vec::new(self.alloc);
        for booking in self.club.bookings() {
            if booking.slot.day == day && !booking.cancelled {
                rows.push(*booking)?;
            }
        }
        rows.sort_by(order)?;
        Ok(sheet_text(self.alloc, day, &rows)?)
    }

    fn account(&mut self, key: &Name, moment: Moment) -> Result<Option<String>, Fault> {
        let mut keys = self.club.keys().iter();
        match keys.find(|it| it.name == *key) {
            Some(key) => self.account_of(key, moment),
            None => Ok(None),
        }
    }

    fn slot(&mut self, slot: &Slot) -> Result<Option<String>, Fault> {
        let nobody = Name::read(NOBODY).ok_or(Fault::Rule("no name"))?;
        let SlotUse { taken, closed } = self.club.outside(&nobody, Some(*slot));
        let mut facilities = self.club.facilities().iter();
        let Some(facility) = facilities.find(|it| it.name == slot.facility) else {
            return Ok(None);
        };
        let text = format!(in self.alloc;
            "facility {}\nday {}\nhour {}\nkind {}\nprice {}\nplaces {}\ntaken {}\nclosed {}\n",
            slot.facility,
            slot.day,
            slot.hour.number(),
            facility.kind,
            facility.price,
            facility.places,
            taken,
            yes_or_no(closed)
        )?;
        Ok(Some(text))
    }

    fn reopened(self, _as_version_1: bool) -> Result<Machine, Fault> {
        Ok(self)
    }
}
