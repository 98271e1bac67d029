//! Decides the commands of the office from their views. Each decision tests its conditions in
//! order, and refuses the command at the first condition that fails.

ghost use Rattle.std.specs.Prelude.{◌≡◌, not, nat_lt};
ghost use Rattle.club_core.specs.Office.{are_limits, are_points, command_verdict};
ghost use Rattle.club_core.specs.Office.{office_cancel_verdict};
ghost use Rattle.club_rows.specs.Rows.{quota_limit};
ghost use Rattle.club_core.specs.declared.command.Command.TheVariants as commands;

use crate::change::Change;
use crate::command::{Command, CommandView, MAX_POINTS, OfficeFault};
use club_rows::{
    Facility, Key, LAST_HOUR, MAX_CREDITED, MAX_PLACES, MAX_PRICE, MAX_QUOTA, Member, Root,
};
use club_values::{Kind, Moment, Name, Slot};

/// Returns whether the number is at most the limit for quotas.
fn is_quota(quota: u32) -> bool
    ensures { result ≡ not (nat_lt quota_limit quota) }
{
    quota <= MAX_QUOTA
}

fn add_member(view: &CommandView, name: &Name, quota: u32) -> Result<Option<Change>, OfficeFault>
    ensures { result ≡ command_verdict view.now (commands.AddMember name.now quota) }
{
    if !is_quota(quota) {
        return Err(OfficeFault::OutOfRange);
    }
    if view.member.is_some() {
        return Err(OfficeFault::Exists);
    }
    Ok(Some(Change::InsertMember(Member {
        name: *name,
        credited: 0,
        quota: quota as u8,
    })))
}

/// Returns whether the points are within the limits of a credit or a debit.
fn are_points(points: u32) -> bool
    ensures { result ≡ are_points points }
{
    1 <= points && points <= MAX_POINTS
}

fn credit(view: &CommandView, name: &Name, points: u32) -> Result<Option<Change>, OfficeFault>
    ensures { result ≡ command_verdict view.now (commands.Credit name.now points) }
{
    if !are_points(points) {
        return Err(OfficeFault::OutOfRange);
    }
    let Some(member) = &view.member else {
        return Err(OfficeFault::Unknown);
    };
    if u64::from(member.credited) + u64::from(points) > u64::from(MAX_CREDITED) {
        return Err(OfficeFault::OutOfRange);
    }
    Ok(Some(Change::AddCredit {
        member: *name,
        points,
    }))
}

fn debit(view: &CommandView, name: &Name, points: u32) -> Result<Option<Change>, OfficeFault>
    ensures { result ≡ command_verdict view.now (commands.Debit name.now points) }
{
    if !are_points(points) {
        return Err(OfficeFault::OutOfRange);
    }
    let Some(account) = &view.account else {
        return Err(OfficeFault::Unknown);
    };
    if points > account.balance {
        return Err(OfficeFault::OutOfRange);
    }
    Ok(Some(Change::TakeCredit {
        member: *name,
        points,
    }))
}

fn set_quota(view: &CommandView, name: &Name, quota: u32) -> Result<Option<Change>, OfficeFault>
    ensures { result ≡ command_verdict view.now (commands.SetQuota name.now quota) }
{
    if !is_quota(quota) {
        return Err(OfficeFault::OutOfRange);
    }
    if view.member.is_none() {
        return Err(OfficeFault::Unknown);
    }
    Ok(Some(Change::ReplaceQuota {
        member: *name,
        quota: quota as u8,
    }))
}

/// Returns whether these numbers are within the limits for a facility.
fn are_limits(places: u32, price: u32, opens: u32, shuts: u32) -> bool
    ensures { result ≡ are_limits places price opens shuts }
{
    1 <= places && places <= MAX_PLACES && price <= MAX_PRICE && opens < shuts && shuts <= LAST_HOUR
}

fn add_facility(
    view: &CommandView,
    name: &Name,
    kind: Kind,
    places: u32,
    price: u32,
    opens: u32,
    shuts: u32,
) -> Result<Option<Change>, OfficeFault>
    ensures { result
        ≡ command_verdict view.now (commands.AddFacility name.now kind places price opens shuts) }
{
    if !are_limits(places, price, opens, shuts) {
        return Err(OfficeFault::OutOfRange);
    }
    if view.facility.is_some() {
        return Err(OfficeFault::Exists);
    }
    Ok(Some(Change::InsertFacility(Facility {
        name: *name,
        kind,
        places: places as u8,
        price: price as u16,
        opens: opens as u8,
        shuts: shuts as u8,
    })))
}

fn set_facility(
    view: &CommandView,
    name: &Name,
    places: u32,
    price: u32,
    opens: u32,
    shuts: u32,
) -> Result<Option<Change>, OfficeFault>
    ensures { result
        ≡ command_verdict view.now (commands.SetFacility name.now places price opens shuts) }
{
    if !are_limits(places, price, opens, shuts) {
        return Err(OfficeFault::OutOfRange);
    }
    if view.facility.is_none() {
        return Err(OfficeFault::Unknown);
    }
    if view.most_taken > places {
        return Err(OfficeFault::SlotInUse);
    }
    Ok(Some(Change::ReplaceNumbers {
        facility: *name,
        places: places as u8,
        price: price as u16,
        opens: opens as u8,
        shuts: shuts as u8,
    }))
}

fn add_key(
    view: &CommandView,
    name: &Name,
    member: &Name,
    root: &Root,
) -> Result<Option<Change>, OfficeFault>
    ensures { result ≡ command_verdict view.now (commands.AddKey name.now member.now root.now) }
{
    if view.member.is_none() {
        return Err(OfficeFault::Unknown);
    }
    if view.key.is_some() {
        return Err(OfficeFault::Exists);
    }
    Ok(Some(Change::InsertKey(Key {
        name: *name,
        member: *member,
        root: *root,
        older: None,
        revoked: false,
    })))
}

fn revoke_key(view: &CommandView, name: &Name) -> Result<Option<Change>, OfficeFault>
    ensures { result ≡ command_verdict view.now (commands.RevokeKey name.now) }
{
    if view.key.is_none() {
        return Err(OfficeFault::Unknown);
    }
    Ok(Some(Change::MarkRevoked { key: *name }))
}

fn rotate_key(
    view: &CommandView,
    name: &Name,
    root: &Root,
    until: Moment,
) -> Result<Option<Change>, OfficeFault>
    ensures { result ≡ command_verdict view.now (commands.RotateKey name.now root.now until) }
{
    let Some(key) = &view.key else {
        return Err(OfficeFault::Unknown);
    };
    if key.root == *root {
        return Err(OfficeFault::Exists);
    }
    Ok(Some(Change::ReplaceRoot {
        key: *name,
        former: key.root,
        root: *root,
        until,
    }))
}

fn cancel_booking(view: &CommandView) -> Result<Option<Change>, OfficeFault>
    ensures { result ≡ office_cancel_verdict view.now.key view.now.booking }
{
    let (Some(key), Some(booking)) = (&view.key, &view.booking) else {
        return Err(OfficeFault::Unknown);
    };
    if booking.cancelled {
        return Ok(None);
    }
    Ok(Some(Change::MarkCancelled {
        booking: *booking,
        member: key.member,
        refund: booking.charge,
    }))
}

fn close_slot(view: &CommandView, slot: &Slot) -> Result<Option<Change>, OfficeFault>
    ensures { result ≡ command_verdict view.now (commands.CloseSlot slot.now) }
{
    let Some(facility) = &view.facility else {
        return Err(OfficeFault::Unknown);
    };
    if !facility.is_open_at(slot.hour) {
        return Err(OfficeFault::OutOfRange);
    }
    if view.slot.closed {
        return Err(OfficeFault::Exists);
    }
    if view.slot.taken > 0 {
        return Err(OfficeFault::SlotInUse);
    }
    Ok(Some(Change::MarkClosed(*slot)))
}

fn open_slot(view: &CommandView, slot: &Slot) -> Result<Option<Change>, OfficeFault>
    ensures { result ≡ command_verdict view.now (commands.OpenSlot slot.now) }
{
    if view.facility.is_none() {
        return Err(OfficeFault::Unknown);
    }
    Ok(Some(Change::MarkOpen(*slot)))
}

/// Decides a command from the command's view, and returns the change that the command makes.
/// Returns `None` if the command cancels a booking that is already cancelled.
///
/// # Errors
///
/// - `OutOfRange`: a number or an hour is outside its limits, a credit raises the points above the
///   maximum, or a debit exceeds the balance.
/// - `Unknown`: the command's member, key, facility or booking doesn't exist.
/// - `Exists`: the new name is taken, the key already has the root, or the slot is already closed.
/// - `SlotInUse`: the slot has bookings, or one of the facility's slots has more persons than the
///   new number of places.
pub fn decide_command(view: &CommandView, command: &Command) -> Result<Option<Change>, OfficeFault>
    ensures { result ≡ command_verdict view.now command.now }
{
    match command {
        Command::AddMember { name, quota } => add_member(view, name, *quota),
        Command::Credit { member, points } => credit(view, member, *points),
        Command::Debit { member, points } => debit(view, member, *points),
        Command::SetQuota { member, quota } => set_quota(view, member, *quota),
        Command::AddFacility {
            name,
            kind,
            places,
            price,
            opens,
            shuts,
        } => add_facility(view, name, *kind, *places, *price, *opens, *shuts),
        Command::SetFacility {
            name,
            places,
            price,
            opens,
            shuts,
        } => set_facility(view, name, *places, *price, *opens, *shuts),
        Command::AddKey { name, member, root } => add_key(view, name, member, root),
        Command::RevokeKey { name } => revoke_key(view, name),
        Command::RotateKey { name, root, until } => rotate_key(view, name, root, *until),
        Command::CancelBooking { .. } => cancel_booking(view),
        Command::CloseSlot(slot) => close_slot(view, slot),
        Command::OpenSlot(slot) => open_slot(view, slot),
    }
}
