//! An ask as an object of plain numbers. An ask has those values of a request that caveats test.

ghost use Rattle.std.specs.Prelude.{◌≡◌};
ghost use Rattle.club_values.specs.Moment.{first_day, first_moment, guests_limit, last_day, last_moment};
ghost use Rattle.pass_calls.specs.Ask as spec;

use club_values::MAX_GUESTS;
use pass_caveats::{Action, Ask, Day, Hour, Kind, MAX_NAME_LEN, Moment, Name, Slot};

/// An ask as an object of plain numbers, which C code fills in. An ask has those values of a
/// request that caveats test.
#[repr(C)]
#[derive(Drop)]
pub struct AskObject {
    /// The points that the request would charge.
    pub owed: u64,
    /// The points that the key has spent so far.
    pub spent: u64,
    /// The number of the action: 1 for a view, 2 for a booking, 3 for a cancellation, 4 for an
    /// account.
    pub action: u32,
    /// The number of the facility's kind: 1 for a court, 2 for a boat, 3 for a room. The number 0
    /// means that the kind is unknown.
    pub kind: u32,
    /// The moment of the request, as minutes since 1970-01-01T00:00 on the club's clock.
    pub moment: u32,
    /// The day of the slot, as days since 1970-01-01.
    pub day: u16,
    /// The hour of the slot, from 0 to 23.
    pub hour: u8,
    /// The number of guests of a booking, from 0 to 49, or 0 for any other action.
    pub guests: u8,
    /// The length of the facility's name in bytes, or 0 if the ask has no slot.
    pub facility_len: u8,
    pub facility: [u8; MAX_NAME_LEN],
}

impl AskObject {
    ghost use Rattle.std.specs.Prelude.{◌≡◌};
    ghost use Rattle.pass_calls.specs.Ask as spec;

    /// Returns the ask, or `None` if a value is out of range.
    pub fn to_ask(&self) -> Option<Ask>
        ensures { spec.IsAskOf self.now result }
    {
        self.ask_at(self.facility())
    }

    fn ask_at(&self, facility: Option<Name>) -> Option<Ask>
        ensures { result ≡ spec.ask_at self.now facility }
    {
        let action = action_of(self.action)?;
        let slot = self.slot(facility)?;
        let kind = kind_of(self.kind)?;
        let guests = guests_of(self.guests)?;
        let moment = moment_of(self.moment)?;
        Some(Ask {
            action,
            slot,
            kind,
            guests,
            moment,
            owed: self.owed,
            spent: self.spent,
        })
    }

    // Returns the slot, or `None` if a value is out of range. Returns `Some(None)` if the ask has
    // no slot.
    fn slot(&self, facility: Option<Name>) -> Option<Option<Slot>>
        ensures { result ≡ spec.slot_within self.now facility }
    {
        if self.facility_len == 0 {
            return Some(None);
        }
        let facility = facility?;
        let day = day_of(self.day)?;
        let hour = hour_of(self.hour)?;
        Some(Some(Slot {
            facility,
            day,
            hour,
        }))
    }

    fn facility(&self) -> Option<Name>
        ensures { spec.IsFacilityNamed self.now result }
    {
        let len = usize::from(self.facility_len);
        if len > MAX_NAME_LEN {
            return None;
        }
        Name::read(&self.facility[..len])
    }
}

fn action_of(number: u32) -> Option<Action>
    ensures { result ≡ spec.action_of number }
{
    match number {
        1 => Some(Action::View),
        2 => Some(Action::Book),
        3 => Some(Action::Cancel),
        4 => Some(Action::Account),
        _ => None,
    }
}

fn kind_of(number: u32) -> Option<Option<Kind>>
    ensures { result ≡ spec.kind_of number }
{
    match number {
        0 => Some(None),
        1 => Some(Some(Kind::Court)),
        2 => Some(Some(Kind::Boat)),
        3 => Some(Some(Kind::Room)),
        _ => None,
    }
}

fn day_of(number: u16) -> Option<Day>
    ensures { result ≡ spec.number_within first_day last_day number }
{
    Day::from_number(number)
}

fn hour_of(number: u8) -> Option<Hour>
    ensures { result ≡ spec.number_within 0 23 number }
{
    Hour::from_number(number)
}

fn moment_of(number: u32) -> Option<Moment>
    ensures { result ≡ spec.number_within first_moment last_moment number }
{
    Moment::from_number(number)
}

fn guests_of(number: u8) -> Option<u8>
    ensures { result ≡ spec.number_within 0 guests_limit number }
{
    if number > MAX_GUESTS {
        return None;
    }
    Some(number)
}
