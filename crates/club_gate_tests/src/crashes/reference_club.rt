//! The reference machine's replies to events, and the rows that the tables must have.

use crate::crashes::desk::{Event, office_text, reply_text, words_in};
use crate::crashes::tables::{add_no_tables, none_of};
use crate::expect::{Host, push, text};
use crate::values::{command, moment, name, office_reply};
use club_reference::{Club, Words};
use club_rows::{Booking, Facility, Key, Member};
use club_values::Slot;
use test_kit::roots::ROOT;
use test_kit::signed_pass;

#[derive(Clone, Copy, PartialEq, Eq)]
pub(crate) enum Version {
    None,
    /// Tables without older roots.
    First,
    Second,
}

fn ask(rt: &impl Host, club: &mut Club, at: &str, bytes: &str) -> String {
    let pass = signed_pass(rt.alloc(), Some(name(rt, "amy-1")), ROOT, &[]);
    let words = Words {
        pass: Ok(pass.expect(rt, "a pass")),
        request: words_in(rt, bytes).request,
    };
    let reply = club.ask(&words, moment(rt, at)).expect(rt, "memory");
    reply_text(rt, &reply)
}

fn reply(rt: &impl Host, club: &mut Club, event: &Event) -> String {
    match event {
        Event::Gives(plain) => {
            let answer = club.office(&command(rt, *plain)).expect(rt, "memory");
            office_text(rt, &office_reply(&answer))
        }
        Event::Asks(at, bytes) | Event::Exchanges(at, bytes) => ask(rt, club, at, bytes),
    }
}

pub(crate) fn replies(rt: &impl Host, club: &mut Club, events: &[Event]) -> Vec<String> {
    let mut replies = Vec::new(rt.alloc());
    for event in events {
        push(rt, &mut replies, reply(rt, club, event));
    }
    replies
}

fn add_member(rt: &impl Host, lines: &mut Vec<String>, club: &Club, member: &Member) {
    let (name, credited, quota) = (&member.name, member.credited, member.quota);
    let used = credited.saturating_sub(club.balance(member));
    let line = format!(in rt.alloc(); "member {name} {credited} {quota} {used}");
    push(rt, lines, text(rt, line));
}

fn add_facility(rt: &impl Host, lines: &mut Vec<String>, facility: &Facility) {
    let (name, kind, places) = (&facility.name, facility.kind, facility.places);
    let (price, opens, shuts) = (facility.price, facility.opens, facility.shuts);
    let line = format!(in rt.alloc(); "facility {name} {kind} {places} {price} {opens} {shuts}");
    push(rt, lines, text(rt, line));
}

fn hex_of(rt: &impl Host, bytes: &[u8]) -> String {
    text(rt, hex::encode_upper(rt.alloc(), bytes))
}

fn add_key(rt: &impl Host, lines: &mut Vec<String>, key: &Key) {
    let (name, member) = (&key.name, &key.member);
    let (root, revoked) = (hex_of(rt, key.root.as_bytes()), u8::from(key.revoked));
    let line = format!(in rt.alloc(); "key {name} {member} {root} {revoked}");
    push(rt, lines, text(rt, line));
    if let Some(older) = &key.older {
        let (root, until) = (hex_of(rt, older.root.as_bytes()), older.until.number());
        let line = format!(in rt.alloc(); "old root {name} {root} {until}");
        push(rt, lines, text(rt, line));
    }
}

fn place(rt: &impl Host, slot: &Slot) -> String {
    let (facility, day, hour) = (&slot.facility, slot.day.number(), slot.hour.number());
    text(rt, format!(in rt.alloc(); "{facility} {day} {hour}"))
}

fn add_booking(rt: &impl Host, lines: &mut Vec<String>, club: &Club, booking: &Booking) {
    let (key, number, guests) = (&booking.key, booking.number.get(), booking.guests.get());
    let (charge, left, refund) = (booking.charge, booking.left, booking.refund);
    let (place, cancelled) = (place(rt, &booking.slot), u8::from(booking.cancelled));
    let line = format!(in rt.alloc();
        "booking {key} {number} {place} {guests} {charge} {left} {cancelled} {refund}"
    );
    push(rt, lines, text(rt, line));
    if !booking.cancelled {
        add_slot(rt, lines, club, &booking.slot);
    }
}

/// No member is called `nobody`, so the count includes all members.
fn add_slot(rt: &impl Host, lines: &mut Vec<String>, club: &Club, slot: &Slot) {
    let all = club.outside(&name(rt, "nobody"), Some(*slot));
    let (place, closed, taken) = (place(rt, slot), u8::from(all.closed), all.taken);
    let line = text(rt, format!(in rt.alloc(); "slot {place} {closed} {taken}"));
    if !lines.contains(&line) {
        push(rt, lines, line);
    }
}

fn add_rows(rt: &impl Host, lines: &mut Vec<String>, club: &Club) {
    for member in club.members() {
        add_member(rt, lines, club, member);
    }
    for facility in club.facilities() {
        add_facility(rt, lines, facility);
    }
    for key in club.keys() {
        add_key(rt, lines, key);
    }
    for booking in club.bookings() {
        add_booking(rt, lines, club, booking);
    }
    for slot in club.closed_slots() {
        add_slot(rt, lines, club, slot);
    }
}

pub(crate) fn lines_of(rt: &impl Host, club: &Club, version: Version) -> Vec<String> {
    let mut lines = Vec::new(rt.alloc());
    match version {
        Version::None => add_no_tables(rt, &mut lines),
        Version::First => {
            add_rows(rt, &mut lines, club);
            push(rt, &mut lines, text(rt, format!(in rt.alloc(); "desk 1")));
            push(rt, &mut lines, none_of(rt, "old_roots"));
        }
        Version::Second => {
            add_rows(rt, &mut lines, club);
            push(rt, &mut lines, text(rt, format!(in rt.alloc(); "desk 2")));
        }
    }
    lines.sort().expect(rt, "memory");
    lines
}
