//! Writes the bodies of replies. A body is a JSON object, and is written member by member.

ghost use Rattle.std.specs.Prelude.{◌≡◌, ◌≤◌, ◌+◌, ◌++◌, length, codes};
ghost use Rattle.club_core.specs.declared.reply.Reply.TheVariants.{SlotShown, Booked, Cancelled};
ghost use Rattle.club_core.specs.declared.reply.Reply.TheVariants.{AccountShown, Refused};
ghost use Rattle.http_response.specs.Body.{max_line_len};
ghost use Rattle.http_response.specs.Body as spec;

use crate::line::Line;
use club_core::{Refusal, Reply};
use club_rows::BookingNumber;
use club_values::{Kind, Name, Slot};

/// Appends the name of a member.
fn push_name(line: &mut Line, name: &[u8])
    requires { length line.old + length name.now + 3 ≤ max_line_len }
    ensures text { line.new ≡ line.old ++ spec.name_text name.now }
    ensures len { length line.new ≡ length line.old + length name.now + 3 }
{
    line.push(b"\"");
    line.push(name);
    line.push(b"\":");
}

/// Appends a text in quotes. The caller passes only texts that need no escapes.
fn push_value(line: &mut Line, text: &[u8])
    requires { length line.old + length text.now + 2 ≤ max_line_len }
    ensures text { line.new ≡ line.old ++ spec.value_text (spec.text text.now) }
    ensures len { length line.new ≡ length line.old + length text.now + 2 }
{
    line.push(b"\"");
    line.push(text);
    line.push(b"\"");
}

/// Starts an object whose first member is a text.
#[tactic(auto, unfolding(crate::specs::Body::member_text))]
fn object_of_text(name: &[u8], value: &[u8]) -> Line
    requires { length name.now + length value.now + 6 ≤ max_line_len }
    ensures text { result ≡ codes "{" ++ spec.member_text (name.now, spec.text value.now) }
    ensures len { length result ≡ length name.now + length value.now + 6 }
{
    let mut line = Line::new();
    line.push(b"{");
    push_name(&mut line, name);
    push_value(&mut line, value);
    line
}

/// Appends the next member, whose value is a text.
#[tactic(auto, unfolding(crate::specs::Body::member_text))]
fn push_text(line: &mut Line, name: &[u8], value: &[u8])
    requires { length line.old + length name.now + length value.now + 6 ≤ max_line_len }
    ensures text { line.new
        ≡ line.old ++ codes "," ++ spec.member_text (name.now, spec.text value.now) }
    ensures len { length line.new ≡ length line.old + length name.now + length value.now + 6 }
{
    line.push(b",");
    push_name(line, name);
    push_value(line, value);
}

/// Appends the next member, whose value is a number.
#[tactic(auto, unfolding(crate::specs::Body::member_text))]
fn push_number(line: &mut Line, name: &[u8], value: u64)
    requires { length line.old + length name.now + 24 ≤ max_line_len }
    ensures text { line.new
        ≡ line.old ++ codes "," ++ spec.member_text (name.now, spec.number value) }
    ensures len { length line.new ≤ length line.old + length name.now + 24 }
{
    line.push(b",");
    push_name(line, name);
    line.push_number(value);
}

/// Appends the next member, whose value is a truth value.
#[tactic(auto, unfolding(crate::specs::Body::member_text))]
fn push_truth(line: &mut Line, name: &[u8], value: bool)
    requires { length line.old + length name.now + 9 ≤ max_line_len }
    ensures text { line.new
        ≡ line.old ++ codes "," ++ spec.member_text (name.now, spec.truth value) }
    ensures len { length line.new ≤ length line.old + length name.now + 9 }
{
    line.push(b",");
    push_name(line, name);
    line.push(if value { b"true" } else { b"false" });
}

fn slot_body(slot: &Slot, kind: Kind, price: u16, places: u8, taken: u64, closed: bool) -> Line
    ensures { result ≡ spec.body_text (SlotShown slot.now kind price places taken closed) }
{
    let mut line = object_of_text(b"facility", slot.facility.as_bytes());
    push_text(&mut line, b"day", &slot.day.text());
    push_number(&mut line, b"hour", u64::from(slot.hour.number()));
    push_text(&mut line, b"kind", kind.text().as_bytes());
    push_number(&mut line, b"price", u64::from(price));
    push_number(&mut line, b"places", u64::from(places));
    push_number(&mut line, b"taken", taken);
    push_truth(&mut line, b"closed", closed);
    line.push(b"}");
    line
}

/// Starts an object whose first member identifies a booking by the booking's key and number.
#[tactic(auto, unfolding(crate::specs::Body::member_text))]
fn object_of_booking(key: &Name, number: BookingNumber) -> Line
    ensures text { result ≡ codes "{" ++ spec.member_text (spec.booking_member key.now number) }
    ensures len { length result ≤ 66 }
{
    let mut line = Line::new();
    line.push(b"{");
    push_name(&mut line, b"booking");
    line.push(b"\"");
    line.push(key.as_bytes());
    line.push(b"/");
    line.push_number(u64::from(number.get()));
    line.push(b"\"");
    line
}

fn booked_body(key: &Name, number: BookingNumber, charge: u32, left: u8) -> Line
    ensures { result ≡ spec.body_text (Booked key.now number charge left) }
{
    let mut line = object_of_booking(key, number);
    push_number(&mut line, b"charge", u64::from(charge));
    push_number(&mut line, b"left", u64::from(left));
    line.push(b"}");
    line
}

fn cancelled_body(key: &Name, number: BookingNumber, refund: u32) -> Line
    ensures { result ≡ spec.body_text (Cancelled key.now number refund) }
{
    let mut line = object_of_booking(key, number);
    push_number(&mut line, b"refund", u64::from(refund));
    line.push(b"}");
    line
}

fn account_body(member: &Name, balance: u32, quota: u8, open_count: u64, spent: u64) -> Line
    ensures { result ≡ spec.body_text (AccountShown member.now balance quota open_count spent) }
{
    let mut line = object_of_text(b"member", member.as_bytes());
    push_number(&mut line, b"balance", u64::from(balance));
    push_number(&mut line, b"quota", u64::from(quota));
    push_number(&mut line, b"open", open_count);
    push_number(&mut line, b"spent", spent);
    line.push(b"}");
    line
}

#[tactic(auto, unfolding(crate::specs::Body::member_text))]
fn fault_body(refusal: Refusal) -> Line
    ensures { result ≡ spec.body_text (Refused refusal) }
{
    let mut line = Line::new();
    line.push(b"{");
    push_name(&mut line, b"fault");
    line.push_number(u64::from(refusal.number()));
    push_text(&mut line, b"text", refusal.text().as_bytes());
    if let Some(caveat) = refusal.caveat() {
        push_number(&mut line, b"caveat", caveat as u64);
    }
    line.push(b"}");
    line
}

/// Returns the body of a reply.
pub(crate) fn body_of(reply: &Reply) -> Line
    ensures { result ≡ spec.body_text reply.now }
{
    match *reply {
        Reply::SlotShown {
            slot,
            kind,
            price,
            places,
            taken,
            closed,
        } => slot_body(&slot, kind, price, places, taken, closed),
        Reply::Booked {
            key,
            number,
            charge,
            left,
        } => booked_body(&key, number, charge, left),
        Reply::Cancelled {
            key,
            number,
            refund,
        } => cancelled_body(&key, number, refund),
        Reply::AccountShown {
            member,
            balance,
            quota,
            open_count,
            spent,
        } => account_body(&member, balance, quota, open_count, spent),
        Reply::Refused(refusal) => fault_body(refusal),
    }
}
