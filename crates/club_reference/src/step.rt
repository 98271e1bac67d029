//! The machine's steps. Each step answers a request or carries out a command. A step reads the view
//! of the request or command, decides, and applies the change. A view contains the rows and sums
//! that the rules need.

ghost use Rattle.std.specs.Prelude.{◌≡◌, ◌≤◌, IfOk, IfSome, IsTrue, OnErr, OnOk, option_map};
ghost use Rattle.club_core.specs.{Answer.verdict_in, Office.{office_verdict, rows_seen}};
ghost use Rattle.club_reference.specs.{Rows.outcome, Widths.AddsRow, Words.IsModelOf};
ghost use Rattle.club_reference.specs.computed.Words.{words_model};
ghost use Rattle.club_core.specs.Request as rules;
ghost use Rattle.club_core.specs.Run as machine;

use crate::club::Club;
use crate::edits::{cancel, credit, debit, open, revoke, rotate, set_numbers, set_quota};
use crate::laws::models_words;
use crate::sums::{
    balance, booking_under, most_persons_at, open_count, persons_in, recorded_booking, spent,
};
use crate::words::Words;
use club_core::{
    Change, Command, CommandView, KeyView, MemberAccount, OfficeAnswer, OfficeFault, Reply,
    Request, SlotUse, Verdict, View, decide_command,
};
use club_rows::{Facility, Key, Member};
use club_values::{Moment, Name, Slot};
use std::alloc::AllocError;

fn rows_seen(member: Option<Member>, key: Option<Key>, facility: Option<Facility>) -> CommandView
    ensures { result ≡ rows_seen member key facility }
{
    CommandView {
        member,
        account: None,
        key,
        facility,
        slot: SlotUse {
            taken: 0,
            closed: false,
        },
        most_taken: 0,
        booking: None,
    }
}

impl Club {
    ghost use Rattle.club_core.specs.After.{after, is_growth};
    ghost use Rattle.club_core.specs.Basis.{account_named, basis_of, basis_under, seen_of};
    ghost use Rattle.club_core.specs.{Basis.slot_use_by, Office.command_view};
    ghost use Rattle.club_reference.specs.Widths.{FitsWidths};

    /// Returns the number of persons in a slot, and whether the slot is closed. If `slot` is
    /// `None`, the number is 0 and `closed` is false.
    fn slot_use(&self, slot: Option<Slot>) -> SlotUse
        ensures value { result ≡ slot_use_by self.now.bookings self.now slot }
        ensures few { result.taken ≤ 50 }
    {
        match slot {
            None => SlotUse {
                taken: 0,
                closed: false,
            },
            Some(slot) => SlotUse {
                taken: persons_in(&self.bookings, &slot),
                closed: self.is_closed(&slot),
            },
        }
    }

    /// Returns the view of a request that is made with this key. Returns `None` if the key's member
    /// doesn't exist.
    #[tactic(auto, using(crate::proofs::StepLemmas::sum_filtered_le))]
    fn view_of(&self, key: &Key, request: &Request, moment: Moment) -> Option<KeyView>
        ensures few { IfSome result (λ seen. seen.view.taken ≤ 50) }
        ensures value { result
            ≡ option_map (seen_of request.now moment) (basis_under self.now request.now key.now) }
    {
        let member = self.member_named(&key.member)?;
        let (keys, bookings) = (&self.keys, &self.bookings);
        let facility = match request.slot() {
            Some(slot) => self.facility_named(&slot.facility),
            None => None,
        };
        let SlotUse { taken, closed } = self.slot_use(request.slot());
        let booking = match request.number() {
            Some(number) => recorded_booking(keys, bookings, &member.name, &key.name, number),
            None => None,
        };
        let view = View {
            key: key.row(),
            spent: spent(keys, bookings, &member.name, &key.name),
            member,
            balance: balance(keys, bookings, &member),
            open_count: open_count(keys, bookings, &member.name, moment),
            facility,
            taken: u64::from(taken),
            closed,
            booking,
        };
        Some(KeyView { key: *key, view })
    }

    /// Returns the key that the pass names, and the view of the request. Returns `None` if the pass
    /// names no key of the club.
    pub(crate) fn view_for(&self, words: &Words, moment: Moment) -> Option<KeyView>
        ensures value { result
            ≡ option_map (seen_of words.now.request moment)
            (basis_of self.now (words_model words.now)) }
        ensures few { IfSome result (λ seen. seen.view.taken ≤ 50) }
    {
        let name = words.key()?;
        match self.key_named(&name) {
            Some(key) => self.view_of(&key, &words.request, moment),
            None => None,
        }
    }

    /// Returns the member with this name, and the member's balance.
    fn account_named(&self, name: &Name) -> Option<MemberAccount>
        ensures { result ≡ account_named name.now self.now }
    {
        let member = self.member_named(name)?;
        Some(MemberAccount {
            member,
            balance: self.balance(&member),
        })
    }

    /// Returns the view of a command. The view contains the rows that the command names, and the
    /// sums that the rules need to decide the command.
    pub(crate) fn command_view(&self, command: &Command) -> CommandView
        ensures { result ≡ command_view self.now command.now }
    {
        match command {
            Command::AddMember { name, .. }
            | Command::Credit { member: name, .. }
            | Command::SetQuota { member: name, .. } => rows_seen(
                self.member_named(name),
                None,
                None,
            ),
            Command::Debit { member, .. } => CommandView {
                account: self.account_named(member),
                ..rows_seen(None, None, None)
            },
            Command::AddFacility { name, .. } => rows_seen(None, None, self.facility_named(name)),
            Command::SetFacility { name, .. } => CommandView {
                most_taken: most_persons_at(&self.bookings, name),
                ..rows_seen(None, None, self.facility_named(name))
            },
            Command::AddKey { name, member, .. } => rows_seen(
                self.member_named(member),
                self.key_named(name),
                None,
            ),
            Command::RevokeKey { name } | Command::RotateKey { name, .. } => {
                rows_seen(None, self.key_named(name), None)
            }
            Command::CancelBooking { key, number } => CommandView {
                booking: booking_under(&self.bookings, key, *number),
                ..rows_seen(None, self.key_named(key), None)
            },
            Command::OpenSlot(slot) => rows_seen(None, None, self.facility_named(&slot.facility)),
            Command::CloseSlot(slot) => CommandView {
                slot: self.slot_use(Some(*slot)),
                ..rows_seen(None, None, self.facility_named(&slot.facility))
            },
        }
    }

    /// Applies a change. Only a change that adds a row needs memory. If memory runs out, the club
    /// doesn't change.
    pub(crate) fn apply(&mut self, change: Change) -> Result<(), AllocError>
        requires { FitsWidths (after change self.old) }
        ensures ok { OnOk result (self.new ≡ after change self.old) }
        ensures err { OnErr result (self.new ≡ self.old) }
        ensures growth { OnErr result (IsTrue (is_growth change)) }
    {
        match change {
            Change::InsertMember(member) => self.members.push(member)?,
            Change::AddCredit { member, points } => credit(&mut self.members, &member, points),
            Change::TakeCredit { member, points } => debit(&mut self.members, &member, points),
            Change::ReplaceQuota { member, quota } => set_quota(&mut self.members, &member, quota),
            Change::InsertFacility(facility) => self.facilities.push(facility)?,
            Change::ReplaceNumbers {
                facility,
                places,
                price,
                opens,
                shuts,
            } => set_numbers(&mut self.facilities, &facility, places, price, opens, shuts),
            Change::InsertKey(key) => self.keys.push(key)?,
            Change::MarkRevoked { key } => revoke(&mut self.keys, &key),
            Change::ReplaceRoot {
                key,
                root,
                until,
                ..
            } => rotate(&mut self.keys, &key, &root, until),
            Change::MarkClosed(slot) => self.closed.push(slot)?,
            Change::MarkOpen(slot) => open(&mut self.closed, &slot),
            Change::InsertBooking { booking, .. } => self.bookings.push(booking)?,
            Change::MarkCancelled {
                booking,
                refund,
                ..
            } => cancel(&mut self.bookings, &booking.key, booking.number, refund),
        }
        Ok(())
    }

    /// Returns the reply to a request that comes at this moment, and the change that the request
    /// makes.
    #[tactic(auto, using(crate::proofs::StepLemmas::answers_seen))]
    fn answer(&self, words: &Words, moment: Moment) -> Verdict
        ensures value { result ≡ verdict_in self.now (words_model words.now) moment }
        ensures fits { FitsWidths self.now }
    {
        let _members = &self.members;
        words.verdict(self.view_for(words, moment).as_ref(), moment)
    }

    /// Returns the change that a command makes, or the fault if the rules refuse the command. The
    /// change is `None` if the command changes nothing.
    fn change_of(&self, command: &Command) -> Result<Option<Change>, OfficeFault>
        ensures value { result ≡ office_verdict self.now command.now }
        ensures fits { FitsWidths self.now }
    {
        let _members = &self.members;
        decide_command(&self.command_view(command), command)
    }

    /// Answers a request that comes at this moment, and applies the request's change. Only a new
    /// booking needs memory. If memory runs out, the club doesn't change.
    ///
    /// # Errors
    ///
    /// Fails if memory runs out.
    pub fn ask(&mut self, words: &Words, moment: Moment) -> Result<Reply, AllocError>
        ensures outcome { IfOk result (λ reply. (model : rules.Words) × IsModelOf words.now model
            × (outcome (machine.ToMember reply) self.new
            ≡ machine.step self.old (machine.Asked model moment))) }
        ensures err { OnErr result (self.new ≡ self.old) }
        ensures growth { OnErr result ((model : rules.Words) × IsModelOf words.now model
            × AddsRow self.old (machine.Asked model moment)) }
    {
        models_words();
        let Verdict { reply, change } = self.answer(words, moment);
        match change {
            None => Ok(reply),
            Some(change) => {
                self.apply(change)?;
                Ok(reply)
            }
        }
    }

    /// Answers a command of the office, and applies the command's change. Only a new row needs
    /// memory. If memory runs out, the club doesn't change.
    ///
    /// # Errors
    ///
    /// Fails if memory runs out.
    pub fn office(&mut self, command: &Command) -> Result<OfficeAnswer, AllocError>
        ensures outcome { IfOk result (λ answer. outcome (machine.ToOffice answer) self.new
            ≡ machine.step self.old (machine.Commanded command.now)) }
        ensures err { OnErr result (self.new ≡ self.old) }
        ensures growth { OnErr result (AddsRow self.old (machine.Commanded command.now)) }
    {
        match self.change_of(command) {
            Err(fault) => Ok(OfficeAnswer::NotDone(fault)),
            Ok(None) => Ok(OfficeAnswer::done(command)),
            Ok(Some(change)) => {
                self.apply(change)?;
                Ok(OfficeAnswer::done(command))
            }
        }
    }
}
