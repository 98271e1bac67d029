//! Account and slot listings for the office.

ghost use Rattle.std.specs.{Prelude.{◌≡◌, ◌++◌, IfOk, OnOk}, String.string_bytes};
ghost use Rattle.club_core.specs.Store.{ReadsStore};
ghost use Rattle.club_gate.specs.Listing as spec;

use crate::desk::Desk;
use crate::fault::Fault;
use club_core::laws::own_bookings_suffice;
use club_core::{ClubStore, OfficeFault, Reply, SlotUse, StoreFault, View, decide_account};
use club_rows::Key;
use club_values::{Kind, Moment, Name, Slot};
use std::alloc::{AllocError, Global};

impl<S: ClubStore> Desk<S> {
    /// Lists the values of a key's account at a moment, one value per line. Also lists whether the
    /// key is revoked, and when the key's older root expires. The listing contains no root, and the
    /// call changes no row.
    ///
    /// # Errors
    ///
    /// Fails with `Refused(Unknown)` if no key has the name, and with `Store` if memory ran out or
    /// storage failed.
    pub fn show_account(&mut self, key: &Name, moment: Moment) -> Result<String, Fault>
        ensures { spec.ShowsClub S.ghosts self.old self.new result
            (λ club. spec.ReturnsListing (spec.account_listing club key.now moment) result) }
    {
        let Some((key, view)) = self.account_view(key, moment)? else {
            return Err(Fault::Refused(OfficeFault::Unknown));
        };
        Ok(account_text(self.alloc, &key, &view)?)
    }

    /// Lists the values of a slot and of its facility, one value per line. Also lists how many
    /// places of the slot are taken, and whether the slot is closed. The reply to an accepted
    /// request to view the slot shows the same values. The call changes no row.
    ///
    /// # Errors
    ///
    /// Fails with `Refused(Unknown)` if the club has no such facility, and with `Store` if memory
    /// ran out or storage failed.
    pub fn show_slot(&mut self, slot: &Slot) -> Result<String, Fault>
        ensures { spec.ShowsClub S.ghosts self.old self.new result
            (λ club. spec.ReturnsListing (spec.slot_listing club slot.now) result) }
    {
        let Some(reply) = self.slot_reply(slot)? else {
            return Err(Fault::Refused(OfficeFault::Unknown));
        };
        Ok(reply_text(self.alloc, &reply)?)
    }

    // Returns a key and the view of its account, or `None` if no key has the name.
    fn account_view(
        &mut self,
        key: &Name,
        moment: Moment,
    ) -> Result<Option<(Key, View)>, StoreFault>
        ensures { ReadsStore S.ghosts self.old self.new result
            (λ club seen. seen ≡ spec.account_with_key club key.now moment) }
    {
        own_bookings_suffice();
        let Some(key) = self.key(key)? else {
            return Ok(None);
        };
        match self.with_sums(View::of_key(&key.row()), moment)? {
            Some(view) => Ok(Some((key, view))),
            None => Ok(None),
        }
    }

    // Returns the reply to a request to view a slot, or `None` if the facility is unknown. An
    // accepted request gets the same reply under every key.
    fn slot_reply(&mut self, slot: &Slot) -> Result<Option<Reply>, StoreFault>
        ensures { ReadsStore S.ghosts self.old self.new result
            (λ club reply. reply ≡ spec.slot_reply club slot.now) }
    {
        let Some(facility) = self.store.facility(&slot.facility)? else {
            return Ok(None);
        };
        let SlotUse { taken, closed } = self.store.slot(slot)?;
        Ok(Some(Reply::SlotShown {
            slot: *slot,
            kind: facility.kind,
            price: facility.price,
            places: facility.places,
            taken: u64::from(taken),
            closed,
        }))
    }
}

// Returns the lines for an account and for the key of the account.
fn account_text(alloc: Global, key: &Key, view: &View) -> Result<String, AllocError>
    ensures { IfOk result (λ text. string_bytes text ≡ spec.shown_account_text key.now view.now) }
{
    let mut text = reply_text(alloc, &decide_account(view).reply)?;
    push_key(&mut text, key)?;
    Ok(text)
}

// Returns the lines of a reply that shows an account or a slot. Returns no lines for any other
// reply.
fn reply_text(alloc: Global, reply: &Reply) -> Result<String, AllocError>
    ensures { IfOk result (λ text. string_bytes text ≡ spec.lines (spec.named_values reply.now)) }
{
    match reply {
        Reply::AccountShown {
            member,
            balance,
            quota,
            open_count,
            spent,
        } => format!(in alloc;
            "member {member}\nbalance {balance}\nquota {quota}\nopen {open_count}\nspent {spent}\n"
        ),
        Reply::SlotShown {
            slot,
            kind,
            price,
            places,
            taken,
            closed,
        } => {
            let mut text = slot_name(alloc, slot)?;
            push_state(&mut text, *kind, *price, *places, *taken, *closed)?;
            Ok(text)
        }
        _ => Ok(String::new(alloc)),
    }
}

// Returns the lines that identify a slot.
fn slot_name(alloc: Global, slot: &Slot) -> Result<String, AllocError>
    ensures { IfOk result
        (λ text. string_bytes text ≡ spec.lines (spec.values_of_slot slot.now)) }
{
    let hour = slot.hour.number();
    format!(in alloc;
        "facility {}\nday {}\nhour {hour}\n",
        slot.facility, slot.day
    )
}

// Appends the lines for a slot's state: the kind, price and places of its facility, the number of
// taken places, and whether the slot is closed.
fn push_state(
    text: &mut String,
    kind: Kind,
    price: u16,
    places: u8,
    taken: u64,
    closed: bool,
) -> Result<(), AllocError>
    ensures { OnOk result (string_bytes text.new ≡ string_bytes text.old
        ++ spec.lines (spec.values_of_state kind price places taken closed)) }
{
    let closed = yes_or_no(closed);
    writeln!(
        text,
        "kind {kind}\nprice {price}\nplaces {places}\ntaken {taken}\nclosed {closed}"
    )
}

// Appends the lines for a key. The lines contain no root.
fn push_key(text: &mut String, key: &Key) -> Result<(), AllocError>
    ensures { OnOk result
        (string_bytes text.new ≡ string_bytes text.old ++ spec.lines (spec.values_of_key key.now)) }
{
    let revoked = yes_or_no(key.revoked);
    match &key.older {
        None => writeln!(text, "revoked {revoked}\nolder root none"),
        Some(older) => writeln!(text, "revoked {revoked}\nolder root until {}", older.until),
    }
}

fn yes_or_no(holds: bool) -> &'static str
    ensures { result.now ≡ spec.yes_or_no holds }
{
    if holds { "yes" } else { "no" }
}
