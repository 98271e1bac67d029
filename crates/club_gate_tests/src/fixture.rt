//! The trait of tests that use a desk over tables in memory, and helpers for these tests.

use crate::expect::{Host, expect_eq};
use crate::values::{at, command, request};
use club_core::{ClubStore, Reply, StoreFault};
use club_gate::{Desk, OfficeReply, Words};
use club_store::Store;
use test_kit::{FIXTURE, PlainCommand, PlainReply, PlainRequest};

pub(crate) trait Fixture {
    fn play<S: ClubStore + Drop>(&self, rt: &impl Host, desk: Desk<S>);
}

/// Returns the fault if the tables can't be created. Only this function names the tables' type,
/// because each proof with that type takes about ten seconds.
pub(crate) fn try_to_play(rt: &impl Host, scene: &impl Fixture) -> Result<(), StoreFault> {
    let store = Store::open_in_memory(rt.alloc())?;
    scene.play(rt, Desk::new(rt.alloc(), store));
    Ok(())
}

pub(crate) fn play(rt: &impl Host, scene: &impl Fixture) {
    try_to_play(rt, scene).expect(rt, "empty tables");
}

pub(crate) fn answer<S: ClubStore>(
    rt: &impl Host,
    desk: &mut Desk<S>,
    plain: PlainCommand,
) -> OfficeReply {
    desk.office(&command(rt, plain))
}

pub(crate) fn carry_out<S: ClubStore>(rt: &impl Host, desk: &mut Desk<S>, plain: PlainCommand) {
    let fault = match answer(rt, desk, plain) {
        OfficeReply::Refused(fault) => Some(fault),
        _ => None,
    };
    expect_eq(rt, fault, None);
}

pub(crate) fn furnish<S: ClubStore>(rt: &impl Host, mut desk: Desk<S>) -> Desk<S> {
    for plain in &FIXTURE {
        carry_out(rt, &mut desk, *plain);
    }
    desk
}

pub(crate) fn reply<S: ClubStore>(
    rt: &impl Host,
    desk: &mut Desk<S>,
    moment: u32,
    pass: &[u8],
    asked: PlainRequest,
) -> Reply {
    let request = request(rt, asked);
    desk.ask(at(rt, moment), &Words { pass, request })
}

pub(crate) fn replied(rt: &impl Host, plain: PlainReply) -> Reply {
    plain.reply().expect(rt, "a reply")
}
