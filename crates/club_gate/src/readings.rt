//! Reads the rows that are needed to answer a request with a signed pass. Reads only the rows and
//! sums that the caveats and the decision depend on.

ghost use Rattle.std.specs.Prelude.{◌≡◌, ◌≤◌, None, true, map, option_map};
ghost use Rattle.club_core.specs.{Answer.answer_by_view, Basis.{account_named, slot_use, view_in}};
ghost use Rattle.club_core.specs.{Club.{bookings_of, count_to_come, spent_under}, Store.ReadsStore};
ghost use Rattle.club_gate.specs.Verify.{AgreesOnRecord, IsOnRecord, OfItsPass};
ghost use Rattle.club_rows.specs.declared.key.KeyRow.{KeyRow as RowOfKey};
ghost use Rattle.pass_caveats.specs.{Fault.first_fault_of, Spending.after_spending};
ghost use Rattle.pass_caveats.specs.computed.CaveatOf.{caveat_of};
ghost use Rattle.pass_forms.specs.Pass.{Plain};

use crate::desk::Desk;
use crate::walk::{fault_after, has_kind, unspent_fault};
use club_core::laws::own_bookings_suffice;
use club_core::{ClubStore, Request, SlotUse, StoreFault, View};
use club_laws::spending::{accounts_show_what_is_used, spends_within_its_member};
use club_rows::KeyRow;
use club_values::{Moment, Slot};
use pass_caveats::{Ask, CaveatFault, Unspent};
use pass_forms::FieldSource;

impl<S: ClubStore> Desk<S> {
    /// Reads the booking with the request's number, and the facility of the request's slot. But if
    /// the booking exists, this method reads the facility only if a caveat depends on its kind. The
    /// only other value of the club that caveats depend on is the number of points that the key has
    /// spent. The source yields the fields of the pass.
    pub(crate) fn first_view<'a, F: FieldSource<'a> + Drop>(
        &mut self,
        source: &F,
        key: &KeyRow,
        request: &Request,
    ) -> Result<View, StoreFault>
        ensures { ReadsStore S.ghosts self.old self.new result
            (λ club view. OfItsPass (F.left source.now)
            (λ pass. AgreesOnRecord club key.now pass request.now view)) }
    {
        let mut view = View::of_key(key);
        match request {
            Request::View { slot } => view.facility = self.store.facility(&slot.facility)?,
            Request::Book { slot, number, .. } | Request::Cancel { slot, number } => {
                view.booking = self.store.booking(&key.name, *number)?;
                if view.booking.is_none() || has_kind(source) {
                    view.facility = self.store.facility(&slot.facility)?;
                }
            }
            Request::Account => (),
        }
        Ok(view)
    }

    /// Returns the first caveat that refuses a request with this key. The source yields the fields
    /// of the pass. If the result depends on the points that the key has spent, the call first
    /// reads the points that the key's member has used. If the member's points don't decide the
    /// result, the call also reads the points that the key has spent.
    pub(crate) fn caveat_fault<'a, F: FieldSource<'a> + Drop>(
        &mut self,
        source: &F,
        key: &KeyRow,
        ask: &Ask,
    ) -> Result<Option<CaveatFault>, StoreFault>
        ensures { ReadsStore S.ghosts self.old self.new result
            (λ club fault. IsOnRecord club key.now → OfItsPass (F.left source.now) (λ pass. fault
            ≡ first_fault_of (map caveat_of pass.caveats)
            (after_spending (spent_under key.now.name club.bookings) ask.now))) }
    {
        let Unspent { fault, slack } = unspent_fault(source, ask);
        let Some(slack) = slack else {
            return Ok(fault);
        };
        if self.has_spent_within(key, slack)? {
            return Ok(fault);
        }
        let spent = self.store.spent(&key.name)?;
        Ok(fault_after(source, ask, spent))
    }

    /// Returns whether the member of a key has used at most `most` points. A result of `true`
    /// implies that the key has spent at most `most` points.
    fn has_spent_within(&mut self, key: &KeyRow, most: u64) -> Result<bool, StoreFault>
        ensures { ReadsStore S.ghosts self.old self.new result
            (λ club within. within ≡ true → IsOnRecord club key.now
            → spent_under key.now.name club.bookings ≤ most) }
    {
        spends_within_its_member();
        accounts_show_what_is_used();
        let Some(account) = self.store.account(&key.member)? else {
            return Ok(false);
        };
        Ok(u64::from(account.used()) <= most)
    }

    /// Returns the view with `taken` and `closed` set to the slot's values.
    fn with_slot(&mut self, view: View, slot: &Slot) -> Result<View, StoreFault>
        ensures { ReadsStore S.ghosts self.old self.new result (λ club found. found ≡ record view {
          taken = (slot_use club slot.now).taken;
          closed = (slot_use club slot.now).closed;
        }) }
    {
        let SlotUse { taken, closed } = self.store.slot(slot)?;
        Ok(View {
            taken: u64::from(taken),
            closed,
            ..view
        })
    }

    /// Adds the row, the balance and the number of open bookings of the key's member to the view.
    /// Returns `None` if the club has no such member.
    fn with_member(&mut self, view: View, moment: Moment) -> Result<Option<View>, StoreFault>
        ensures { ReadsStore S.ghosts self.old self.new result
            (λ club found. found ≡ option_map (λ account. record view {
              member = account.member;
              balance = account.balance;
              open_count = count_to_come moment (bookings_of account.member.name club);
            }) (account_named view.key.member club)) }
    {
        let Some(account) = self.store.account(&view.key.member)? else {
            return Ok(None);
        };
        let open_count = self.store.open_count(&account.member.name, moment)?;
        Ok(Some(View {
            member: account.member,
            balance: account.balance,
            open_count,
            ..view
        }))
    }

    /// Adds the values of an account to the view. These are the row, the balance and the number of
    /// open bookings of the key's member, and the points that the key has spent. Returns `None` if
    /// the club has no such member.
    pub(crate) fn with_sums(
        &mut self,
        view: View,
        moment: Moment,
    ) -> Result<Option<View>, StoreFault>
        ensures { ReadsStore S.ghosts self.old self.new result
            (λ club found. found ≡ option_map (λ account. record view {
              member = account.member;
              balance = account.balance;
              open_count = count_to_come moment (bookings_of account.member.name club);
              spent = spent_under view.key.name club.bookings;
            }) (account_named view.key.member club)) }
    {
        let Some(view) = self.with_member(view, moment)? else {
            return Ok(None);
        };
        let spent = self.store.spent(&view.key.name)?;
        Ok(Some(View { spent, ..view }))
    }

    /// Adds to a view the rows and sums that the decision depends on. The view already has the
    /// values that the caveats depend on. Returns `None` only if the club doesn't have the key's
    /// member. For the resulting view, the rules give the same answer as for the key's view with
    /// all rows and sums.
    pub(crate) fn last_view(
        &mut self,
        view: View,
        request: &Request,
        moment: Moment,
    ) -> Result<Option<View>, StoreFault>
        ensures { ReadsStore S.ghosts self.old self.new result
            (λ club found. (pass : Plain) (key : RowOfKey) → IsOnRecord club key
            → AgreesOnRecord club key pass request.now view
            → answer_by_view found true None request.now moment
            ≡ answer_by_view (view_in club key.name request.now moment) true None request.now
            moment) }
    {
        own_bookings_suffice();
        match request {
            Request::View { slot } => {
                let view = self.with_slot(view, slot)?;
                Ok(Some(view))
            }
            Request::Book { slot, .. } => {
                if !view.books_anew() {
                    return Ok(Some(view));
                }
                let view = self.with_slot(view, slot)?;
                self.with_member(view, moment)
            }
            Request::Cancel { .. } => Ok(Some(view)),
            Request::Account => self.with_sums(view, moment),
        }
    }
}
