//! Reads the rows of the club. The functions in this file change nothing. The functions fail with
//! `Storage` if a row contains a value outside its limits.

ghost use Rattle.std.specs.Prelude.{◌≡◌, ◌↔◌, List, All, IsTrue, IfOk, IfErr, IfSome, option_map};
ghost use Rattle.club_core.specs.{Basis.slot_use, Club.{bookings_of, key_named, member_named}};
ghost use Rattle.club_core.specs.Club.{facility_named, older_root_of, booking_under, count_to_come};
ghost use Rattle.club_core.specs.{Club.{most_taken_in, spent_under}, Sheet.AreRowsOf};
ghost use Rattle.club_rows.specs.Rows.{row_of_key, IsFacility, IsKeyRow, IsOlderRoot, IsBooking};
ghost use Rattle.club_tables.specs.Answers.{Answers, FailsAtReading, IsFirst, IsKeyIn};
ghost use Rattle.club_tables.specs.Answers.{IsOlderRootIn, IsMemberIn, IsFacilityIn};
ghost use Rattle.club_tables.specs.Answers.{IsBookingNamed, IsUse, AreCosts, IsCount, IsMostIn};
ghost use Rattle.club_tables.specs.Answers.{reading_statement, OfKey, OfOlderRoot, OfMember};
ghost use Rattle.club_tables.specs.Answers.{OfFacility, OfSlot, OfBooking, OfCosts, OfDay, OfOpen};
ghost use Rattle.club_tables.specs.{Answers.{OfTaken, AreBookings}, Columns.IsMemberRow};
ghost use Rattle.club_tables.specs.{Columns.member_row, ReadsAndChanges.ReadsClub};
ghost use Rattle.club_tables.specs.{Transaction.{Asked, IsKept}, declared.texts.TheConstants.DAY};
ghost use Rattle.sqlite.specs.{Held.state, State.{HasCleanDisk, Survives}, Values.bound};
ghost use Rattle.sqlite_value.specs.Order.{Row as Values};

use crate::params::{of_open, of_slot};
use crate::row::{FromRows, MemberRow, bookings_in};
use crate::tables::Tables;
use crate::texts;
use club_core::{SlotUse, StoreFault};
use club_rows::{Booking, BookingNumber, Facility, KeyRow, OlderRoot};
use club_values::{Day, Moment, Name, Slot};
use sqlite::types::ValueRef;
use sqlite::{Alter, params};
use std::alloc::Global;

/// Returns `true` if the found booking has this key and number. Also returns `true` if no booking
/// was found.
fn is_named(found: &Option<Booking>, key: &Name, number: BookingNumber) -> bool
    ensures { IsTrue result ↔ IfSome found.now
        (λ booking. (booking.key ≡ key.now) × (booking.number ≡ number)) }
{
    match found {
        None => true,
        Some(booking) => booking.key == *key && booking.number == number,
    }
}

impl<S: Alter> Tables<S> {
    /// Runs a query and decodes its rows.
    fn answer<A: FromRows>(&mut self, sql: &str, params: &[ValueRef<'_>]) -> Result<A, StoreFault>
        ensures gives { Answers S.Store (sql.now, bound params.now) A.holds
            self.old self.new result }
        ensures held { IfOk result (λ found. (rows : List Values) × A.holds rows found) }
        ensures kept { IsKept (state S.Store self.old) (state S.Store self.new) }
        ensures survives { Survives (state S.Store self.old) (state S.Store self.new) (λ _. ⊥) }
    {
        let rows = match self.ask(sql, params) {
            Ok(rows) => rows,
            Err(fault) => return Err(fault),
        };
        match A::from_rows(&rows) {
            Some(found) => Ok(found),
            None => Err(StoreFault::Storage),
        }
    }

    /// Returns the row of the key with this name, or `None` if no key has this name.
    pub fn key(&mut self, name: &Name) -> Result<Option<KeyRow>, StoreFault>
        ensures reads { ReadsClub S.Store self.old self.new result
            (λ club key. key ≡ option_map row_of_key (key_named name.now club)) }
        ensures gives { Answers S.Store (reading_statement (OfKey name.now)) (IsFirst IsKeyIn)
            self.old self.new result }
        ensures limits { IfOk result (λ key. IfSome key IsKeyRow) }
    {
        self.answer(texts::KEY, &[ValueRef::Text(name.as_bytes())])
    }

    /// Returns the older root of the key with this name, or `None` if the key was never rotated.
    pub fn older_root(&mut self, key: &Name) -> Result<Option<OlderRoot>, StoreFault>
        ensures reads { ReadsClub S.Store self.old self.new result
            (λ club older. older ≡ older_root_of key.now club) }
        ensures gives { Answers S.Store (reading_statement (OfOlderRoot key.now))
            (IsFirst IsOlderRootIn)
            self.old self.new result }
        ensures limits { IfOk result (λ older. IfSome older IsOlderRoot) }
    {
        self.answer(texts::OLDER_ROOT, &[ValueRef::Text(key.as_bytes())])
    }

    /// Returns the row of the member with this name, and the points that the member has spent on
    /// bookings. Returns `None` if no member has this name.
    pub fn member(&mut self, name: &Name) -> Result<Option<MemberRow>, StoreFault>
        ensures reads { ReadsClub S.Store self.old self.new result
            (λ club row. row ≡ option_map (member_row club) (member_named name.now club)) }
        ensures gives { Answers S.Store (reading_statement (OfMember name.now)) (IsFirst IsMemberIn)
            self.old self.new result }
        ensures limits { IfOk result (λ row. IfSome row IsMemberRow) }
    {
        self.answer(texts::MEMBER, &[ValueRef::Text(name.as_bytes())])
    }

    /// Returns the facility with this name, or `None` if no facility has this name.
    pub fn facility(&mut self, name: &Name) -> Result<Option<Facility>, StoreFault>
        ensures reads { ReadsClub S.Store self.old self.new result
            (λ club facility. facility ≡ facility_named name.now club) }
        ensures gives { Answers S.Store (reading_statement (OfFacility name.now))
            (IsFirst IsFacilityIn) self.old self.new result }
        ensures limits { IfOk result (λ facility. IfSome facility IsFacility) }
    {
        self.answer(texts::FACILITY, &[ValueRef::Text(name.as_bytes())])
    }

    /// Returns the number of persons in a slot, and whether the slot is closed.
    pub fn slot(&mut self, slot: &Slot) -> Result<SlotUse, StoreFault>
        ensures reads { ReadsClub S.Store self.old self.new result
            (λ club found. found ≡ slot_use club slot.now) }
        ensures gives { Answers S.Store
            (reading_statement (OfSlot slot.now)) IsUse self.old self.new result }
    {
        self.answer(texts::SLOT, &of_slot(slot))
    }

    /// Returns the highest number of persons in any slot of the facility with this name. Returns 0
    /// if nobody has booked a slot of the facility.
    pub fn most_taken(&mut self, facility: &Name) -> Result<u32, StoreFault>
        ensures reads { ReadsClub S.Store self.old self.new result
            (λ club most. most ≡ most_taken_in facility.now club.bookings) }
        ensures gives { Answers S.Store (reading_statement (OfTaken facility.now)) IsMostIn
            self.old self.new result }
    {
        self.answer(texts::TAKEN, &[ValueRef::Text(facility.as_bytes())])
    }

    /// Returns a key's booking with this number, or `None` if the key has no booking with this
    /// number. Fails with `Storage` if SQLite returns another booking's row.
    pub fn booking(
        &mut self,
        key: &Name,
        number: BookingNumber,
    ) -> Result<Option<Booking>, StoreFault>
        ensures reads { ReadsClub S.Store self.old self.new result
            (λ club found. found ≡ booking_under key.now number club.bookings) }
        ensures gives { Answers S.Store (reading_statement (OfBooking key.now number))
            (IsFirst (IsBookingNamed key.now number)) self.old self.new result }
        ensures limits { IfOk result (λ found. IfSome found IsBooking) }
        ensures named { IfOk result (λ found. IfSome found
            (λ booking. (booking.key ≡ key.now) × (booking.number ≡ number))) }
    {
        let found: Option<Booking> = match self.answer(
            texts::BOOKING,
            params![key.as_str(), number.get()],
        ) {
            Ok(found) => found,
            Err(fault) => return Err(fault),
        };
        if is_named(&found, key, number) {
            Ok(found)
        } else {
            Err(StoreFault::Storage)
        }
    }

    /// Returns the day's bookings that aren't cancelled. The bookings are sorted by facility, hour,
    /// key and number, as in the day sheet.
    pub fn day(&mut self, alloc: Global, day: Day) -> Result<Vec<Booking>, StoreFault>
        ensures reads { ReadsClub S.Store self.old self.new result
            (λ club rows. AreRowsOf club day rows.items) }
        ensures returned { HasCleanDisk (state S.Store self.new) → IfOk result
            (λ bookings. (rows : List Values) ×
            Asked S.Store DAY.now (reading_statement (OfDay day)).1 self.old rows
            × AreBookings rows bookings.items) }
        ensures failed { HasCleanDisk (state S.Store self.new) → IfErr result
            (FailsAtReading S.Store (OfDay day) self.old self.new) }
        ensures limits { IfOk result (λ rows. All IsBooking rows.items) }
    {
        let rows = match self.ask(texts::DAY, params![u32::from(day.number())]) {
            Ok(rows) => rows,
            Err(fault) => return Err(fault),
        };
        bookings_in(alloc, &rows)
    }

    /// Returns the points that a key has spent: the total cost of its bookings.
    pub fn spent(&mut self, key: &Name) -> Result<u64, StoreFault>
        ensures reads { ReadsClub S.Store self.old self.new result
            (λ club spent. spent ≡ spent_under key.now club.bookings) }
        ensures gives { Answers S.Store (reading_statement (OfCosts key.now)) AreCosts
            self.old self.new result }
    {
        self.answer(texts::COSTS_UNDER_KEY, &[ValueRef::Text(key.as_bytes())])
    }

    /// Returns the number of a member's open bookings at a moment. A booking is open if it isn't
    /// cancelled and its slot begins after the moment.
    pub fn open_count(&mut self, member: &Name, moment: Moment) -> Result<u64, StoreFault>
        ensures reads { ReadsClub S.Store self.old self.new result
            (λ club count. count ≡ count_to_come moment (bookings_of member.now club)) }
        ensures gives { Answers S.Store (reading_statement (OfOpen member.now moment)) IsCount
            self.old self.new result }
    {
        let rows = match self.ask(texts::OPEN, &of_open(member, moment)) {
            Ok(rows) => rows,
            Err(fault) => return Err(fault),
        };
        Ok(rows.len() as u64)
    }
}
