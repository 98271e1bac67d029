//! Decides the four kinds of requests, after the desk has accepted the pass. Each decision tests a
//! list of conditions in order. The first condition that is true determines the reply.

ghost use Rattle.std.specs.Prelude.{◌≡◌, Some};
ghost use Rattle.club_core.specs.Verdict.{shown_at, book_verdict, cancel_verdict, account_verdict};
ghost use Rattle.club_core.specs.Verdict.{verdict_of, repeat_booking_verdict, new_verdict};
ghost use Rattle.club_core.specs.Verdict.{cancel_recorded_verdict};
ghost use Rattle.club_rows.specs.Rows as facilities;

use crate::change::Change;
use crate::refusal::Refusal;
use crate::reply::Reply;
use crate::request::Request;
use crate::verdict::Verdict;
use crate::view::View;
use club_rows::{Booking, BookingNumber, Facility, Guests};
use club_values::{MINUTES_A_DAY, Moment, Name, Slot};

/// The booking window, in minutes: a slot may begin at most 60 days after the moment of the
/// request.
const BOOKING_WINDOW: u64 = 60 * MINUTES_A_DAY as u64;

/// Returns whether the facility is open at the slot's hour, and the slot begins after `moment` and
/// within the booking window.
fn is_bookable(facility: &Facility, slot: &Slot, moment: Moment) -> bool
    ensures { result ≡ facilities.is_bookable facility.now slot.now moment }
{
    let start = u64::from(slot.start());
    let now = u64::from(moment.number());
    facility.is_open_at(slot.hour) && now < start && start <= now + BOOKING_WINDOW
}

/// Returns the state of a slot and its facility, or refuses with `NoSuchFacility`.
pub fn decide_view(view: &View, slot: &Slot) -> Verdict
    ensures { result ≡ shown_at view.now slot.now view.now.facility }
{
    match view.facility {
        None => Verdict::refuse(Refusal::NoSuchFacility),
        Some(facility) => Verdict::reply_only(Reply::SlotShown {
            slot: *slot,
            kind: facility.kind,
            price: facility.price,
            places: facility.places,
            taken: view.taken,
            closed: view.closed,
        }),
    }
}

/// Answers a booking whose number the key has already used. Returns the first booking's reply if
/// the slot and the number of guests are the same. Otherwise, refuses with `NumberUsed`.
fn repeat_booking(booking: &Booking, slot: &Slot, guests: Guests) -> Verdict
    ensures { result ≡ repeat_booking_verdict booking.now slot.now guests }
{
    if booking.slot != *slot || booking.guests != guests {
        return Verdict::refuse(Refusal::NumberUsed);
    }
    Verdict::reply_only(Reply::Booked {
        key: booking.key,
        number: booking.number,
        charge: booking.charge,
        left: booking.left,
    })
}

/// Decides a booking of a known facility, with an unused number.
fn book_at(
    view: &View,
    facility: &Facility,
    slot: &Slot,
    number: BookingNumber,
    guests: Guests,
    moment: Moment,
) -> Verdict
    ensures { result ≡ new_verdict view.now slot.now number guests moment (Some facility.now) }
{
    if !is_bookable(facility, slot, moment) {
        return Verdict::refuse(Refusal::NotBookable);
    }
    if view.closed {
        return Verdict::refuse(Refusal::SlotClosed);
    }
    let taken = view.taken.saturating_add(u64::from(guests.persons()));
    if taken > u64::from(facility.places) {
        return Verdict::refuse(Refusal::NoPlaces);
    }
    if view.open_count >= u64::from(view.member.quota) {
        return Verdict::refuse(Refusal::QuotaReached);
    }
    let charge = facility.charge(guests);
    if view.balance < charge {
        return Verdict::refuse(Refusal::BalanceTooLow);
    }
    let booking = Booking {
        key: view.key.name,
        number,
        slot: *slot,
        guests,
        charge,
        left: facility.places - taken as u8,
        cancelled: false,
        refund: 0,
    };
    Verdict::new_booking(booking, &view.key.member)
}

/// Decides a booking. The verdict contains the reply. For a new booking, the verdict also contains
/// the row to insert.
pub fn decide_book(
    view: &View,
    slot: &Slot,
    number: BookingNumber,
    guests: Guests,
    moment: Moment,
) -> Verdict
    ensures { result ≡ book_verdict view.now slot.now number guests moment }
{
    match (&view.booking, &view.facility) {
        (Some(booking), _) => repeat_booking(booking, slot, guests),
        (None, None) => Verdict::refuse(Refusal::NoSuchFacility),
        (None, Some(facility)) => book_at(view, facility, slot, number, guests, moment),
    }
}

/// Decides the cancellation of a recorded booking. The booking's key belongs to `member`.
fn cancel_recorded(booking: &Booking, member: &Name, slot: &Slot, moment: Moment) -> Verdict
    ensures { result ≡ cancel_recorded_verdict booking.now member.now slot.now moment }
{
    if booking.slot != *slot {
        return Verdict::refuse(Refusal::NumberUsed);
    }
    if booking.cancelled {
        return Verdict::reply_only(Reply::Cancelled {
            key: booking.key,
            number: booking.number,
            refund: booking.refund,
        });
    }
    if booking.slot.start() <= moment.number() {
        return Verdict::refuse(Refusal::SlotHasBegun);
    }
    Verdict::new_cancellation(booking, member, booking.refund_at(moment))
}

/// Decides a cancellation. The verdict contains the reply. For a new cancellation, the verdict also
/// contains the refund to record.
pub fn decide_cancel(view: &View, slot: &Slot, moment: Moment) -> Verdict
    ensures { result ≡ cancel_verdict view.now slot.now moment }
{
    match (&view.booking, &view.facility) {
        (Some(booking), _) => cancel_recorded(booking, &view.key.member, slot, moment),
        (None, None) => Verdict::refuse(Refusal::NoSuchFacility),
        (None, Some(_)) => Verdict::refuse(Refusal::NoSuchBooking),
    }
}

/// Returns the member's balance, quota and number of open bookings, and the points that the key has
/// spent.
pub fn decide_account(view: &View) -> Verdict
    ensures { result ≡ account_verdict view.now }
{
    Verdict::reply_only(Reply::AccountShown {
        member: view.member.name,
        balance: view.balance,
        quota: view.member.quota,
        open_count: view.open_count,
        spent: view.spent,
    })
}

/// Decides a request of any kind.
pub fn decide(view: &View, request: &Request, moment: Moment) -> Verdict
    ensures { result ≡ verdict_of view.now request.now moment }
{
    match request {
        Request::View { slot } => decide_view(view, slot),
        Request::Book {
            slot,
            number,
            guests,
        } => decide_book(view, slot, *number, *guests, moment),
        Request::Cancel { slot, .. } => decide_cancel(view, slot, moment),
        Request::Account => decide_account(view),
    }
}
