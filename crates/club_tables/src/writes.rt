//! Applies changes to a club. Each change has its own transaction.

ghost use Rattle.std.specs.Prelude.{◌≡◌, [], ◌∷◌, Err, true, false};
ghost use Rattle.club_core.specs.{After.InLimits, Club.Club, Store.FitsClub};
ghost use Rattle.club_tables.specs.ChangeStatements.{adding_booking, cancelling, statements_of};
ghost use Rattle.club_tables.specs.{Columns.whole, ReadsAndChanges.ChangesClub};
ghost use Rattle.club_tables.specs.Transaction.{Commits};
ghost use Rattle.sqlite.specs.Values.{bound};
ghost use Rattle.sqlite_value.specs.declared.value.Value.TheVariants.{Text};

use crate::limits::{
    are_numbers, is_booking, is_facility, is_member, key_within, rotation_within, slot_within,
};
use crate::params::{
    of_booking, of_charge, of_facility, of_freed, of_key, of_member, of_name, of_number,
    of_numbers, of_older_root, of_places, of_refund, of_return, of_root, of_slot,
};
use crate::tables::Tables;
use crate::texts::{
    ADD_BOOKING, ADD_CREDIT, ADD_FACILITY, ADD_KEY, ADD_MEMBER, ADD_TAKEN, ADD_USED,
    CANCEL_BOOKING, CHARGE, CLOSE_SLOT, OPEN_SLOT, PUT_OLDER_ROOT, REVOKE_KEY, SET_NUMBERS,
    SET_QUOTA, SET_ROOT, TAKE_CREDIT,
};
use crate::transaction::Statement;
use club_core::{Change, StoreFault};
use club_laws::sound::suiting_changes_keep_sound;
use club_rows::{Booking, MAX_QUOTA};
use club_values::Name;
use sqlite::Alter;
use sqlite::types::ValueRef;

impl<S: Alter> Tables<S> {
    /// Applies a change in one transaction. Reads nothing before the change's statements. If the
    /// call fails because the database refuses a statement or the commit, the club is unchanged.
    /// But a crash after such a failure may leave the changed club.
    ///
    /// # Errors
    ///
    /// Fails if the database refuses a statement or the commit. Fails without effect in these
    /// cases:
    /// - A value of the change is outside its limits, or a new key has an older root.
    /// - A row that the change inserts already exists, or a row that the change refers to doesn't.
    /// - The rows' values differ from those in the change, or the changed club wouldn't be sound.
    pub fn apply(&mut self, change: &Change) -> Result<(), StoreFault>
        ensures commits { InLimits change.now → Commits S.Store 1 (statements_of change.now)
            self.old self.new result }
        ensures out { ¬ InLimits change.now
            → (result ≡ Err StoreFault.Storage) × (self.new ≡ self.old) }
        ensures makes { ChangesClub S.Store change.now self.old self.new result }
    {
        suiting_changes_keep_sound();
        if !is_within(change) {
            return Err(StoreFault::Storage);
        }
        self.run_change(change)
    }

    /// Runs the statements of a change. Each statement must insert or update a row.
    fn run_change(&mut self, change: &Change) -> Result<(), StoreFault>
        ensures commits { Commits S.Store 1 (statements_of change.now) self.old self.new result }
    {
        match change {
            Change::InsertMember(member) => self.run_one(ADD_MEMBER, &of_member(member)),
            Change::AddCredit { member, points } => self.run_with(ADD_CREDIT, member, *points),
            Change::TakeCredit { member, points } => self.run_with(TAKE_CREDIT, member, *points),
            Change::ReplaceQuota { member, quota } => {
                self.run_with(SET_QUOTA, member, u32::from(*quota))
            }
            Change::InsertFacility(facility) => self.run_one(ADD_FACILITY, &of_facility(facility)),
            Change::ReplaceNumbers {
                facility,
                places,
                price,
                opens,
                shuts,
            } => self.run_one(
                SET_NUMBERS,
                &of_numbers(facility, *places, *price, *opens, *shuts),
            ),
            Change::InsertKey(key) => self.run_one(ADD_KEY, &of_key(key)),
            Change::MarkRevoked { key } => self.run_one(REVOKE_KEY, &of_name(key)),
            Change::ReplaceRoot {
                key,
                former,
                root,
                until,
            } => self.run_rotation(
                &of_older_root(key, former, *until),
                &of_root(key, root, former),
            ),
            Change::MarkClosed(slot) => self.run_one(CLOSE_SLOT, &of_slot(slot)),
            Change::MarkOpen(slot) => self.run_one(OPEN_SLOT, &of_slot(slot)),
            Change::InsertBooking { booking, member } => self.book(booking, member),
            Change::MarkCancelled {
                booking,
                member,
                refund,
            } => self.cancel(booking, member, *refund),
        }
    }

    fn run_one(&mut self, text: &str, params: &[ValueRef<'_>]) -> Result<(), StoreFault>
        ensures commits { Commits S.Store 1 ((text.now, bound params.now) ∷ [])
            self.old self.new result }
    {
        self.write(&[Statement { text, params }])
    }

    /// Runs a statement whose parameters are a member's name and a number.
    fn run_with(&mut self, text: &str, member: &Name, number: u32) -> Result<(), StoreFault>
        ensures commits { Commits S.Store 1
            ((text.now, Text member.now ∷ whole number ∷ []) ∷ []) self.old self.new result }
    {
        self.run_one(text, &of_number(member, number))
    }

    /// Stores a key's older root, and sets the key's current root.
    fn run_rotation(&mut self, put: &[ValueRef<'_>], set: &[ValueRef<'_>]) -> Result<(), StoreFault>
        ensures commits { Commits S.Store 1 ((PUT_OLDER_ROOT.now, bound put.now)
            ∷ (SET_ROOT.now, bound set.now) ∷ []) self.old self.new result }
    {
        self.write(&[
            Statement {
                text: PUT_OLDER_ROOT,
                params: put,
            },
            Statement {
                text: SET_ROOT,
                params: set,
            },
        ])
    }

    /// Inserts a booking, adds the booking's persons to the slot, and charges the member.
    fn book(&mut self, booking: &Booking, member: &Name) -> Result<(), StoreFault>
        ensures commits { Commits S.Store 1 (adding_booking booking.now member.now)
            self.old self.new result }
    {
        let row = of_booking(booking);
        let taken = of_places(booking);
        let charge = of_charge(member, booking);
        self.run_three(ADD_BOOKING, &row, ADD_TAKEN, &taken, CHARGE, &charge)
    }

    /// Marks a booking as cancelled. Subtracts the refund from the points that the member has
    /// spent, and the booking's persons from the slot's persons.
    fn cancel(&mut self, booking: &Booking, member: &Name, refund: u32) -> Result<(), StoreFault>
        ensures commits { Commits S.Store 1 (cancelling booking.now member.now refund)
            self.old self.new result }
    {
        let mark = of_refund(booking, refund);
        let used = of_return(member, booking, refund);
        let taken = of_freed(booking);
        self.run_three(CANCEL_BOOKING, &mark, ADD_USED, &used, ADD_TAKEN, &taken)
    }

    /// Runs three statements, each with its parameters.
    fn run_three(
        &mut self,
        first: &str,
        one: &[ValueRef<'_>],
        second: &str,
        two: &[ValueRef<'_>],
        third: &str,
        three: &[ValueRef<'_>],
    ) -> Result<(), StoreFault>
        ensures commits { Commits S.Store 1 ((first.now, bound one.now)
            ∷ (second.now, bound two.now) ∷ (third.now, bound three.now) ∷ [])
            self.old self.new result }
    {
        self.write(&[
            Statement {
                text: first,
                params: one,
            },
            Statement {
                text: second,
                params: two,
            },
            Statement {
                text: third,
                params: three,
            },
        ])
    }
}

/// Returns whether each value of a change is within its limits. The types of the values guarantee
/// most limits. A change outside its limits fits no club.
fn is_within(change: &Change) -> bool
    ensures yes { result ≡ true → InLimits change.now }
    ensures no { result ≡ false → ¬ InLimits change.now }
    ensures unfit { result ≡ false → (club : Club) → ¬ FitsClub change.now club }
{
    match change {
        Change::InsertMember(member) => is_member(member),
        Change::AddCredit { points, .. } | Change::TakeCredit { points, .. } => {
            let _points = *points;
            true
        }
        Change::MarkRevoked { .. } => true,
        Change::ReplaceQuota { quota, .. } => u32::from(*quota) <= MAX_QUOTA,
        Change::InsertFacility(facility) => is_facility(facility),
        Change::ReplaceNumbers {
            places,
            price,
            opens,
            shuts,
            ..
        } => are_numbers(*places, *price, *opens, *shuts),
        Change::InsertKey(key) => {
            key_within(key);
            key.older.is_none()
        }
        Change::ReplaceRoot { root, until, .. } => {
            rotation_within(root, *until);
            true
        }
        Change::MarkClosed(slot) | Change::MarkOpen(slot) => {
            slot_within(slot);
            true
        }
        Change::InsertBooking { booking, .. } => is_booking(booking),
        Change::MarkCancelled {
            booking,
            refund,
            ..
        } => *refund <= booking.charge,
    }
}
