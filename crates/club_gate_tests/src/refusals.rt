//! Tests of the desk's replies if its store fails, and of refusals without a call to the store.

use crate::prelude::*;
use crate::refusing::Refusing;
use pass_forms::MAX_TEXT;

/// The number of the first call that fails, and the fault of the store.
#[derive(Clone, Copy)]
struct Failure {
    first: usize,
    fault: StoreFault,
}

fn expect_failures<S: ClubStore>(rt: &impl Host, store: S, fault: StoreFault) -> S {
    let mut desk = Desk::new(rt.alloc(), store);
    let returned = reply(rt, &mut desk, NOON, AMY_V2.as_bytes(), BOOK_7);
    expect_eq(rt, returned, Reply::Refused(Refusal::Unavailable));
    let answer = answer(rt, &mut desk, PlainCommand::AddKey("amy-2", "amy", ROOT));
    expect_eq(rt, answer, OfficeReply::Refused(Fault::Store(fault)));
    expect_eq(rt, desk.sheet(day(rt, "2026-05-01")).is_err(), true);
    desk.into_store()
}

fn expect_untouched<S: ClubStore>(rt: &impl Host, store: &mut S) {
    let held = store.slot(&slot(rt, COURT_AT_18)).expect(rt, "a slot");
    expect_eq(rt, held.taken, 0);
    let key = store.key_row(&name(rt, "amy-2")).expect(rt, "no fault");
    expect_eq(rt, key.is_none(), true);
}

impl Fixture for Failure {
    fn play<S: ClubStore + Drop>(&self, rt: &impl Host, desk: Desk<S>) {
        let store = furnish(rt, desk).into_store();
        let failing = Refusing::from_call(self.first, self.fault, store);
        let mut failing = expect_failures(rt, failing, self.fault);
        expect_untouched(rt, &mut failing.store);
    }
}

#[test]
fn reports_refused_memory(rt: HostRuntime) {
    let fault = StoreFault::Memory;
    play(&rt, &Failure { first: 1, fault });
}

// A booking makes seven calls, and the last one writes.
#[test]
fn reports_refused_storage(rt: HostRuntime) {
    let fault = StoreFault::Storage;
    for first in 2..=7 {
        play(&rt, &Failure { first, fault });
    }
}

static LONG: [u8; MAX_TEXT + 1] = [b'A'; MAX_TEXT + 1];

fn expect_refused<S: ClubStore>(rt: &impl Host, desk: &mut Desk<S>, pass: &[u8], refusal: Refusal) {
    let returned = reply(rt, desk, NOON, pass, ACCOUNT);
    expect_eq(rt, returned, Reply::Refused(refusal));
}

fn expect_faults_of_form<S: ClubStore>(rt: &impl Host, store: S) -> S {
    let mut desk = Desk::new(rt.alloc(), store);
    expect_refused(rt, &mut desk, b"AgEJ", Refusal::PassMalformed);
    expect_refused(rt, &mut desk, &LONG, Refusal::PassTooLong);
    desk.into_store()
}

struct FaultsOfForm;

impl Fixture for FaultsOfForm {
    fn play<S: ClubStore + Drop>(&self, rt: &impl Host, desk: Desk<S>) {
        let store = furnish(rt, desk).into_store();
        let failing = Refusing::from_call(1, StoreFault::Storage, store);
        expect_eq(rt, expect_faults_of_form(rt, failing).calls, 0);
    }
}

#[test]
fn reports_a_fault_of_form_first(rt: HostRuntime) {
    play(&rt, &FaultsOfForm);
}
