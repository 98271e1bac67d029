//! The desk of a club: answers requests of members and commands of the office, and prints the sheet
//! of a day.

ghost use Rattle.std.specs.{Prelude.{◌≡◌, List, Err, IfErr, None, Ok}, String.string_bytes};
ghost use Rattle.base64.specs.GeneralPurpose.{IsBytes};
ghost use Rattle.club_core.specs.{Answer.form_refusal, Club.{Club, key_named, member_named}};
ghost use Rattle.club_core.specs.{Office.{command_view, rows_seen}, Request.Words, Run.ToOffice};
ghost use Rattle.club_core.specs.{Sheet.IsSheet, Store.{KeepsClub, ReadsStore, Returns}};
ghost use Rattle.club_core.specs.declared.reply.Reply.TheVariants.{Refused};
ghost use Rattle.club_gate.specs.{DecodedPass.{AreWordsOf, fault_of}, Desk.DecidesOrFails};
ghost use Rattle.club_gate.specs.Desk.{FailsAt, FailsForCause, FitsIfAny, IsSheetFault};
ghost use Rattle.club_gate.specs.Desk.{IsStoreFault, NamesItsFault, OfItsClub, Settles, Steps};
ghost use Rattle.club_gate.specs.{Desk.change_of, Response.{answer_or_fault, reply_or_unavailable}};
ghost use Rattle.club_gate.specs.{Runs.IsHandled, Served.{IsJson, IsLawful, RefusesByFormFault}};
ghost use Rattle.club_gate.specs.computed.DecodedPass.{decoded_words};
ghost use Rattle.pass_forms.specs.declared.fault.FormFault.{FormFault};
ghost use Rattle.pass_json.specs.{AnyForm.IsAnyReading, computed.AnyForm.reading};
ghost use Rattle.club_core.specs.Run as machine;

use crate::event::{Event, EventReply, OfficeReply};
use crate::fault::Fault;
use crate::laws::{decodes, finds_names};
use club_core::{
    Change, ClubStore, Command, CommandView, OfficeAnswer, Refusal, Reply, SentWords, SlotUse,
    StoreFault, decide_command, sheet_text,
};
use club_laws::failed::never_unavailable;
use club_laws::single_request::{
    depends_on_the_basis_alone, more_caveats_never_open_more, refuses_without_a_basis,
    serves_only_the_entitled,
};
use club_laws::sound::changes_fit;
use club_rows::{Key, Member};
use club_values::{Day, Moment, Name};
use key_cache::KeptKeys;
use pass_caveats::laws::reads_what_is_understood;
use pass_forms::laws::decides_signed;
use pass_json::laws::reads_any_form_exactly;
use std::alloc::Global;
use std::marker::Model;

/// The desk of a club. A desk answers requests of members (`ask`) and commands of the office
/// (`office`), and prints the sheet of a day (`sheet`).
///
/// A desk keeps all data of the club in its store. In a contract, the value of a desk is its store.
#[derive(Drop)]
pub struct Desk<S: ClubStore> {
    pub(crate) store: S,
    pub(crate) kept: KeptKeys,
    pub(crate) alloc: Global,
}

impl<S: ClubStore> Model for Desk<S> {
    ghost Value = { S };

    ghost coded = { S.code };

    ghost view = { λ desk. desk.store };
}

/// Proves that every element of a `&[u8]` is a byte.
pub(crate) fn are_bytes(text: &[u8])
    ensures { IsBytes text.now }
{
    let _text = text;
}

/// Returns a `CommandView` without rows. Its counts are 0, and its slot isn't closed.
fn nothing_seen() -> CommandView
    ensures { result ≡ rows_seen None None None }
{
    CommandView {
        member: None,
        account: None,
        key: None,
        facility: None,
        slot: SlotUse {
            taken: 0,
            closed: false,
        },
        most_taken: 0,
        booking: None,
    }
}

impl<S: ClubStore> Desk<S> {
    /// Makes a desk over a store.
    pub fn new(alloc: Global, store: S) -> Desk<S>
        ensures { result ≡ store }
    {
        Desk {
            store,
            kept: KeptKeys::new(alloc),
            alloc,
        }
    }

    /// Returns the store, which is unchanged.
    pub fn into_store(self) -> S
        ensures { result ≡ self }
    {
        let Desk {
            store,
            kept: _,
            alloc: _,
        } = self;
        store
    }

    /// Applies a change to the store, or does nothing for `None`. The desk writes to the store only
    /// in this function. If the store fails, the club is unchanged, but the change may still take
    /// effect after a crash.
    fn settle(&mut self, change: Option<Change>) -> Result<(), StoreFault>
        ensures was_clean { S.ghosts.is_clean self.new → S.ghosts.is_clean self.old }
        ensures settled { S.ghosts.is_clean self.new → (club : Club) (others : List Club)
            → S.ghosts.represents self.old club others → FitsIfAny change club
            → Settles S.ghosts self.new change result club others }
        ensures nothing { change ≡ None → (result ≡ Ok tt) × (self.new ≡ self.old) }
        ensures failed { S.ghosts.is_clean self.new → IfErr result
            (λ fault. S.ghosts.fails change self.old fault self.new) }
    {
        match change {
            Some(change) => self.store.apply(&change),
            None => Ok(()),
        }
    }

    /// Decides a request at a moment, applies the resulting change, and returns the reply. Fails if
    /// memory ran out or storage failed.
    fn reply_to(&mut self, moment: Moment, words: &SentWords) -> Result<Reply, StoreFault>
        ensures was_clean { S.ghosts.is_clean self.new → S.ghosts.is_clean self.old }
        ensures steps { S.ghosts.is_clean self.new → DecidesOrFails S.ghosts self.old self.new
            (decoded_words words.now.pass.now words.now.request) moment
            (reply_or_unavailable result) }
        ensures failed { OfItsClub S.ghosts self.old self.new
            (λ club. FailsForCause S.ghosts self.old self.new club words.now.pass.now
            words.now.request moment (reply_or_unavailable result)) }
        ensures untouched { (fault : FormFault) → reading words.now.pass.now ≡ Err fault
            → self.new ≡ self.old }
        ensures in_place { (fault : FormFault) → ¬ IsJson words.now.pass.now
            → reading words.now.pass.now ≡ Err fault
            → result ≡ Ok (Refused (form_refusal (fault_of fault))) }
    {
        changes_fit();
        never_unavailable();
        decodes();
        are_bytes(words.pass);
        words.request.within();
        let verdict = self.verdict(words, moment)?;
        self.settle(verdict.change)?;
        Ok(verdict.reply)
    }

    /// Returns the member with this name, or `None` if the club has no such member.
    fn member(&mut self, name: &Name) -> Result<Option<Member>, StoreFault>
        ensures { ReadsStore S.ghosts self.old self.new result
            (λ club member. member ≡ member_named name.now club) }
    {
        match self.store.account(name)? {
            Some(account) => Ok(Some(account.member)),
            None => Ok(None),
        }
    }

    /// Returns the key with this name, including its older root. Returns `None` if the club has no
    /// such key.
    pub(crate) fn key(&mut self, name: &Name) -> Result<Option<Key>, StoreFault>
        ensures { ReadsStore S.ghosts self.old self.new result
            (λ club key. key ≡ key_named name.now club) }
    {
        let Some(row) = self.store.key_row(name)? else {
            return Ok(None);
        };
        let older = self.store.older_root(name)?;
        Ok(Some(Key::new(row, older)))
    }

    /// Reads the rows that a command of the office depends on.
    fn command_view(&mut self, command: &Command) -> Result<CommandView, StoreFault>
        ensures { ReadsStore S.ghosts self.old self.new result
            (λ club view. view ≡ command_view club command.now) }
    {
        let mut view = nothing_seen();
        match command {
            Command::AddMember { name, .. }
            | Command::Credit { member: name, .. }
            | Command::SetQuota { member: name, .. } => {
                view.member = self.member(name)?;
            }
            Command::Debit { member, .. } => view.account = self.store.account(member)?,
            Command::AddFacility { name, .. } => view.facility = self.store.facility(name)?,
            Command::SetFacility { name, .. } => {
                view.facility = self.store.facility(name)?;
                view.most_taken = self.store.most_taken(name)?;
            }
            Command::AddKey { name, member, .. } => {
                view.member = self.member(member)?;
                view.key = self.key(name)?;
            }
            Command::RevokeKey { name } | Command::RotateKey { name, .. } => {
                view.key = self.key(name)?;
            }
            Command::CancelBooking { key, number } => {
                view.key = self.key(key)?;
                view.booking = self.store.booking(key, *number)?;
            }
            Command::OpenSlot(slot) => view.facility = self.store.facility(&slot.facility)?,
            Command::CloseSlot(slot) => {
                view.facility = self.store.facility(&slot.facility)?;
                view.slot = self.store.slot(slot)?;
            }
        }
        Ok(view)
    }

    /// Decides a command of the office, applies the resulting change, and returns the answer. Fails
    /// if memory ran out or storage failed.
    fn answer_to(&mut self, command: &Command) -> Result<OfficeAnswer, StoreFault>
        ensures was_clean { S.ghosts.is_clean self.new → S.ghosts.is_clean self.old }
        ensures steps { S.ghosts.is_clean self.new → Steps S.ghosts self.old self.new
            (machine.Commanded command.now) (ToOffice (answer_or_fault result)) }
        ensures failed { OfItsClub S.ghosts self.old self.new (λ club. IfErr result
            (FailsAt S.ghosts self.old self.new (change_of club (machine.Commanded command.now)))) }
    {
        changes_fit();
        command.within();
        let view = self.command_view(command)?;
        match decide_command(&view, command) {
            Ok(change) => {
                self.settle(change)?;
                Ok(OfficeAnswer::done(command))
            }
            Err(fault) => Ok(OfficeAnswer::NotDone(fault)),
        }
    }

    /// Answers a request at a moment. When `ask` returns, the change of a served request is stored.
    /// A refusal changes nothing.
    ///
    /// A refusal names the first cause that applies. The causes are checked in this order:
    ///
    /// 1. the form of the pass's text
    /// 2. the key and the signature of the pass
    /// 3. the caveats of the pass, in order
    /// 4. the rules for the request
    ///
    /// `Unavailable` has only two causes: the store failed, or there was no memory to parse a pass
    /// in JSON. In both cases the club is unchanged. If the store failed to write a change, the
    /// change may still take effect after a crash.
    pub fn ask(&mut self, moment: Moment, words: &SentWords) -> Reply
        ensures was_clean { S.ghosts.is_clean self.new → S.ghosts.is_clean self.old }
        // If the request didn't fail, the reply is the decision of the rules on the decoded text.
        // The store then represents the club after this decision. If the request failed, the store
        // represents the same club as before the request.
        ensures steps { S.ghosts.is_clean self.new → (decoded : Words)
            × AreWordsOf words.now.pass.now words.now.request decoded
            × DecidesOrFails S.ghosts self.old self.new decoded moment result }
        ensures lawful { OfItsClub S.ghosts self.old self.new
            (λ club. IsLawful club words.now.pass.now words.now.request moment result) }
        // `Unavailable` means that the store failed, or that there was no memory to parse JSON. The
        // store can fail while it reads rows or applies the request's change. Parsing JSON leaves
        // the store unchanged.
        ensures failed { OfItsClub S.ghosts self.old self.new
            (λ club. FailsForCause S.ghosts self.old self.new club words.now.pass.now
            words.now.request moment result) }
        // A text that isn't a pass leaves the store unchanged. The refusal of such a text needs
        // memory only if the text is JSON.
        ensures untouched { (fault : FormFault) → IsAnyReading words.now.pass.now (Err fault)
            → self.new ≡ self.old }
        ensures in_place { RefusesByFormFault words.now.pass.now result }
    {
        serves_only_the_entitled();
        depends_on_the_basis_alone();
        refuses_without_a_basis();
        more_caveats_never_open_more();
        reads_any_form_exactly();
        decides_signed();
        finds_names();
        decodes();
        are_bytes(words.pass);
        reads_what_is_understood();
        self.reply_to(moment, words)
            .unwrap_or(Reply::Refused(Refusal::Unavailable))
    }

    /// Carries out a command of the office. When `office` returns, the change of a successful
    /// command is stored. A refusal changes nothing.
    ///
    /// `Fault::Refused` names the rule that forbids the command. `Fault::Store` has only two
    /// causes: memory ran out, or storage failed. If the store failed to write a change, the change
    /// may still take effect after a crash.
    pub fn office(&mut self, command: &Command) -> OfficeReply
        ensures was_clean { S.ghosts.is_clean self.new → S.ghosts.is_clean self.old }
        ensures steps { S.ghosts.is_clean self.new → Steps S.ghosts self.old self.new
            (machine.Commanded command.now) (ToOffice result) }
        ensures failed { OfItsClub S.ghosts self.old self.new
            (λ club. NamesItsFault S.ghosts self.old self.new club (machine.Commanded command.now)
            result) }
    {
        match self.answer_to(command) {
            Ok(answer) => OfficeReply::from_answer(answer),
            Err(fault) => OfficeReply::from_store_fault(fault),
        }
    }

    /// Answers an event: calls `ask` for a request and `office` for a command.
    pub(crate) fn event(&mut self, event: &Event) -> EventReply
        ensures { IsHandled S.ghosts self.old event.now result self.new }
    {
        match event {
            Event::Asked { words, moment } => EventReply::Replied(self.ask(*moment, words)),
            Event::Commanded(command) => EventReply::Answered(self.office(command)),
        }
    }

    /// Returns the text of the sheet for a day. Changes neither the club nor the clubs that the
    /// store may have after a crash.
    ///
    /// # Errors
    ///
    /// Fails with `Store` if memory ran out or storage failed.
    pub fn sheet(&mut self, day: Day) -> Result<String, Fault>
        ensures was_clean { S.ghosts.is_clean self.new → S.ghosts.is_clean self.old }
        ensures kept { S.ghosts.is_clean self.new →
            KeepsClub S.ghosts.represents self.old self.new }
        ensures returned { S.ghosts.is_clean self.new → Returns S.ghosts.represents self.old result
            (λ club text. IsSheet club day (string_bytes text)) }
        ensures faults { IfErr result IsStoreFault }
        ensures failed { S.ghosts.is_clean self.new → IfErr result
            (IsSheetFault S.ghosts self.old self.new) }
    {
        let rows = self.store.day(day)?;
        Ok(sheet_text(self.alloc, day, &rows)?)
    }
}
