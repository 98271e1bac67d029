//! Random events from a fixed seed, and the club of these events.

ghost use Rattle.std.specs.Prelude.{◌<◌};

use crate::commands::PlainCommand;
use crate::minutes::START;
use crate::requests::PlainRequest;
use crate::roots::{ROOT, SECOND_ROOT};
use crate::slots::{COURT_AT_18, COURT_AT_19, PlainSlot, ROOM_AT_18};
use club_values::Kind;
use pass_forms::Form;

// The linear congruential generator of Knuth's MMIX. The events use the upper 31 bits of each
// number.
const FACTOR: u64 = 6_364_136_223_846_793_005;

const SUMMAND: u64 = 1_442_695_040_888_963_407;

const UNUSED_BITS: u32 = 33;

pub const AMY: &str = "amy";

static MEMBERS: [&str; 3] = [AMY, "bob", "cy"];

static KEYS: [&str; 4] = ["amy-1", "bob-1", "cy-1", SPARE];

const SPARE: &str = "spare";

/// All slots are on 2026-05-01.
pub static SLOTS: [PlainSlot; 3] = [COURT_AT_18, COURT_AT_19, ROOM_AT_18];

/// Tests use an audit key to read the account of the key's member. No random event uses an audit
/// key.
pub const AUDIT_AMY: &str = "audit-amy";

const AUDIT_BOB: &str = "audit-bob";

const AUDIT_CY: &str = "audit-cy";

pub static AUDITORS: [&str; 3] = [AUDIT_AMY, AUDIT_BOB, AUDIT_CY];

/// Each member has a key and an audit key.
pub static BEGINNING: [PlainCommand; 14] = [
    PlainCommand::AddMember(AMY, 2),
    PlainCommand::Credit(AMY, 1_500),
    PlainCommand::AddKey("amy-1", AMY, ROOT),
    PlainCommand::AddKey(AUDIT_AMY, AMY, ROOT),
    PlainCommand::AddMember("bob", 3),
    PlainCommand::Credit("bob", 1_500),
    PlainCommand::AddKey("bob-1", "bob", ROOT),
    PlainCommand::AddKey(AUDIT_BOB, "bob", ROOT),
    PlainCommand::AddMember("cy", 4),
    PlainCommand::Credit("cy", 1_500),
    PlainCommand::AddKey("cy-1", "cy", ROOT),
    PlainCommand::AddKey(AUDIT_CY, "cy", ROOT),
    PlainCommand::AddFacility("court-1", Kind::Court, 8, 200, 8, 22),
    PlainCommand::AddFacility("room-1", Kind::Room, 1, 601, 8, 22),
];

static CAVEATS: [&[&str]; 12] = [
    &[],
    &[],
    &[],
    &["spend <= 600"],
    &["guests <= 1"],
    &["facility = court-1"],
    &["kind = room"],
    &["hours = 18-19"],
    &["until < 2026-05-01T00:00"],
    &["weekday = fri", "actions = view,book,account"],
    &["guests <= 1", "spend <= 900"],
    &["days = 2026-05-01..2026-05-02", "shoe = red"],
];

/// At the start, all keys have the first root.
static ROOTS: [&[u8]; 2] = [ROOT, SECOND_ROOT];

static FORMS: [Form; 3] = [Form::V1, Form::V2, Form::Json];

/// A request under a pass of this key and root, with these caveats.
#[derive(Clone, Copy)]
pub struct Asking {
    pub key: &'static str,
    pub root: &'static [u8],
    pub caveats: &'static [&'static str],
    pub form: Form,
    pub asked: PlainRequest,
    pub moment: u32,
}

pub fn audit(key: &'static str) -> Asking {
    Asking {
        key,
        root: ROOT,
        caveats: &[],
        form: Form::V2,
        asked: PlainRequest::Account,
        moment: START - 1_000,
    }
}

#[derive(Clone, Copy)]
pub enum Event {
    Asked(Asking),
    Commanded(PlainCommand),
}

#[derive(Drop)]
pub struct Numbers {
    state: u64,
}

impl Numbers {
    pub fn new(first: u64) -> Numbers {
        Numbers { state: first }
    }

    fn below(&mut self, bound: u32) -> u32
        requires { 0 < bound }
        ensures { result < bound }
    {
        self.state = self.state.wrapping_mul(FACTOR).wrapping_add(SUMMAND);
        ((self.state >> UNUSED_BITS) % u64::from(bound)) as u32
    }

    fn slot(&mut self) -> PlainSlot {
        SLOTS[self.below(3) as usize]
    }

    // In three of four cases, the slot depends only on the number of the booking.
    fn slot_of(&mut self, booking: u32) -> PlainSlot {
        if self.below(4) == 0 {
            return self.slot();
        }
        SLOTS[(booking % 3) as usize]
    }

    fn draw_request(&mut self) -> PlainRequest {
        let booking = 1 + self.below(6);
        let slot = self.slot_of(booking);
        match self.below(10) {
            0..=3 => PlainRequest::Book(slot, booking, self.below(2) as u8),
            4..=6 => PlainRequest::Cancel(slot, booking),
            7 | 8 => PlainRequest::Account,
            _ => PlainRequest::View(slot),
        }
    }

    // The moment is near the start of the slots at 18, or near their first bookable minute.
    fn moment(&mut self) -> u32 {
        match self.below(8) {
            0 => START - 86_500 + self.below(200),
            _ => START - 2_000 + self.below(2_200),
        }
    }

    // One pass in four is signed under the second root.
    fn draw_asking(&mut self) -> Asking {
        let is_other = self.below(4) == 0;
        Asking {
            key: KEYS[self.below(4) as usize],
            root: ROOTS[usize::from(is_other)],
            caveats: CAVEATS[self.below(12) as usize],
            form: FORMS[self.below(3) as usize],
            asked: self.draw_request(),
            moment: self.moment(),
        }
    }

    fn rotation(&mut self, key: &'static str) -> PlainCommand {
        let root = ROOTS[self.below(2) as usize];
        PlainCommand::RotateKey(key, root, self.moment())
    }

    fn command(&mut self) -> PlainCommand {
        let member = MEMBERS[self.below(3) as usize];
        let key = KEYS[self.below(4) as usize];
        match self.below(24) {
            0..=3 => PlainCommand::Credit(member, self.below(400)),
            4 | 5 => PlainCommand::Debit(member, self.below(500)),
            6 | 7 => PlainCommand::SetQuota(member, self.below(110)),
            8 => PlainCommand::RevokeKey(key),
            9 => PlainCommand::CloseSlot(self.slot()),
            10 => PlainCommand::OpenSlot(self.slot()),
            11..=13 => self.rotation(key),
            14 => PlainCommand::CancelBooking(key, 1 + self.below(6)),
            15..=17 => PlainCommand::AddKey(SPARE, member, ROOT),
            18 => PlainCommand::AddKey(key, member, SECOND_ROOT),
            19..=21 => PlainCommand::AddMember(member, 90 + self.below(20)),
            22 => PlainCommand::SetFacility(
                "court-1",
                self.below(10),
                100 + self.below(200),
                8,
                22,
            ),
            _ => PlainCommand::AddFacility("court-2", Kind::Court, 40 + self.below(20), 200, 8, 22),
        }
    }

    pub fn event(&mut self) -> Event {
        match self.below(6) {
            0 => Event::Commanded(self.command()),
            _ => Event::Asked(self.draw_asking()),
        }
    }
}
