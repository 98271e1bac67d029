//! The solo machine, which has only one member's rows and all facilities. For each request, the
//! caller passes the number of persons in the slot, not counting this member's bookings, and
//! whether the slot is closed. The solo machine gets no other information about other members.

ghost use Rattle.std.specs.Prelude.{◌≡◌, ◌≤◌, ◌<◌, ◌^◌, IfOk, IfSome, OnOk, OnErr, filter};
ghost use Rattle.std.specs.{Prelude.option_map, Str.bytes_eq};
ghost use Rattle.club_reference.specs.Widths.{Grows, own_bookings, others_bookings};
ghost use Rattle.club_reference.specs.{Words.{with_outside, IsModelOf}, computed.Words.words_model};
ghost use Rattle.club_rows.specs.declared.key.Key.{Key as KeyRow};
ghost use Rattle.club_rows.specs.declared.member.Member.{Member as MemberRow};
ghost use Rattle.club_core.specs.Request as rules;
ghost use Rattle.club_core.specs.Club as sums;

use crate::club::{Club, copy_rows};
use crate::laws::models_words;
use crate::sums::{is_key_of, persons};
use crate::words::Words;
use club_core::{KeyView, Reply, SlotUse, Verdict};
use club_rows::{Booking, Key, Member};
use club_values::{Moment, Name, Slot};
use std::alloc::{AllocError, Global};

fn members_of(alloc: Global, members: &[Member], name: &Name) -> Result<Vec<Member>, AllocError>
    ensures { IfOk result (λ rows. rows.items
        ≡ filter (λ (member : MemberRow). bytes_eq member.name name.now) members.now) }
{
    members
        .iter()
        .filter(|member| member.name == *name)
        .copied()
        .collect(alloc)
}

fn keys_of(alloc: Global, keys: &[Key], member: &Name) -> Result<Vec<Key>, AllocError>
    ensures { IfOk result (λ rows. rows.items
        ≡ filter (λ (key : KeyRow). bytes_eq key.member member.now) keys.now) }
{
    keys.iter()
        .filter(|key| key.member == *member)
        .copied()
        .collect(alloc)
}

fn bookings_of(
    alloc: Global,
    keys: &[Key],
    bookings: &[Booking],
    member: &Name,
) -> Result<Vec<Booking>, AllocError>
    ensures { IfOk result (λ rows. rows.items ≡ own_bookings keys.now member.now bookings.now) }
{
    bookings
        .iter()
        .filter(|booking| is_key_of(keys, member, &booking.key))
        .copied()
        .collect(alloc)
}

/// Returns the number of persons in the slot, not counting the bookings of `member`.
fn taken_by_others(keys: &[Key], bookings: &[Booking], member: &Name, slot: &Slot) -> u32
    requires { sums.taken_in slot.now (others_bookings keys.now member.now bookings.now) < 2 ^ 32 }
    ensures { result ≡ sums.taken_in slot.now (others_bookings keys.now member.now bookings.now) }
{
    bookings
        .iter()
        .filter(|booking| !is_key_of(keys, member, &booking.key))
        .filter(|booking| !booking.cancelled && booking.slot == *slot)
        .map(|booking| persons(booking))
        .sum()
}

/// Adds the persons in `others` to the persons in the view's slot. Also copies from `others`
/// whether the slot is closed.
fn with_outside(seen: Option<KeyView>, others: SlotUse) -> Option<KeyView>
    requires { IfSome seen (λ s. s.view.taken ≤ 50) }
    ensures { result ≡ option_map (with_outside others) seen }
{
    let mut seen = seen?;
    seen.view.taken += u64::from(others.taken);
    seen.view.closed = others.closed;
    Some(seen)
}

impl Club {
    ghost use Rattle.club_reference.specs.Widths.{FitsWidths};
    ghost use Rattle.club_core.specs.Run.{after_change};
    ghost use Rattle.club_core.specs.Solo as solo;

    /// Returns a member's part of the club: copies of the member's rows and of all facilities.
    pub fn part(&self, member: &Name) -> Result<Club, AllocError>
        ensures { IfOk result (λ part. part ≡ solo.part_of member.now self.now) }
    {
        let alloc = *self.members.allocator();
        let members = members_of(alloc, &self.members, member)?;
        let facilities = copy_rows(&self.facilities)?;
        let keys = keys_of(alloc, &self.keys, member)?;
        let bookings = bookings_of(alloc, &self.keys, &self.bookings, member)?;
        Ok(Club {
            members,
            facilities,
            keys,
            bookings,
            closed: Vec::new(alloc),
        })
    }

    /// Returns the number of persons in the slot, not counting the bookings of `member`, and
    /// whether the slot is closed. If `slot` is `None`, the number is 0 and `closed` is false.
    #[tactic(auto, using(crate::proofs::StepLemmas::sum_filtered_le))]
    pub fn outside(&self, member: &Name, slot: Option<Slot>) -> SlotUse
        ensures { result ≡ solo.outside member.now self.now slot }
    {
        match slot {
            None => SlotUse {
                taken: 0,
                closed: false,
            },
            Some(slot) => {
                let taken = taken_by_others(&self.keys, &self.bookings, member, &slot);
                SlotUse {
                    taken,
                    closed: self.is_closed(&slot),
                }
            }
        }
    }

    /// Returns the answer to a request of one member. `self` is the member's part of the club, and
    /// `others` is the result of `outside` for the requested slot.
    #[tactic(auto, using(crate::proofs::StepLemmas::answers_seen, crate::proofs::StepLemmas::seen_with_others))]
    fn answer_alone(&self, words: &Words, moment: Moment, others: SlotUse) -> Verdict
        ensures value { result ≡ solo.solo_verdict self.now (words_model words.now) moment others }
        ensures fits { FitsWidths self.now }
    {
        let _members = &self.members;
        let seen = with_outside(self.view_for(words, moment), others);
        words.verdict(seen.as_ref(), moment)
    }

    /// Answers a request of one member, and applies the request's change. `self` is the member's
    /// part of the club, and `others` is the result of `outside` for the requested slot. Only a new
    /// booking needs memory. If memory runs out, `self` doesn't change.
    ///
    /// # Errors
    ///
    /// Fails if memory runs out.
    pub fn ask_alone(
        &mut self,
        words: &Words,
        moment: Moment,
        others: SlotUse,
    ) -> Result<Reply, AllocError>
        ensures reply { IfOk result (λ reply. (model : rules.Words) × IsModelOf words.now model
            × (reply ≡ (solo.solo_verdict self.old model moment others).reply)) }
        ensures part { OnOk result ((model : rules.Words) × IsModelOf words.now model
            × (self.new
            ≡ after_change (solo.solo_verdict self.old model moment others).change self.old)) }
        ensures err { OnErr result (self.new ≡ self.old) }
        ensures growth { OnErr result ((model : rules.Words) × IsModelOf words.now model
            × Grows self.old
            (after_change (solo.solo_verdict self.old model moment others).change self.old)) }
    {
        models_words();
        let Verdict { reply, change } = self.answer_alone(words, moment, others);
        match change {
            None => Ok(reply),
            Some(change) => {
                self.apply(change)?;
                Ok(reply)
            }
        }
    }
}
