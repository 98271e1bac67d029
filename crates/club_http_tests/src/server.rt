//! Tests of servers with connections in memory, and helpers for the tests over sockets.

mod accepted;
mod at_the_door;
mod between;
mod by_the_door;
mod clocks;
mod doubles;
mod journal;
mod lengths;
mod limits;
mod logs;
mod over_sockets;
mod told;

use crate::desk::Desk;
use crate::expect::{Runtime, expect_eq, expect_row, expect_shown, noon};
use club_clock::{Clock, Moments, MomentsOf};
use club_core::Reply;
use club_http::{AnswerFault, Face};
use club_values::{Kind, Moment, Slot};
use desk_server::{
    Accepted, Arrival, Arrivals, ClientSocket, ClockOutOfRange, Connection, Listening, Log,
    Unlogged, serve_logged, serve_on,
};
use doubles::{Script, Step, Stopped, Wire};
pub use journal::{Call, Journal};
use std::net::TcpListener;
use std::os::unix::net::UnixListener;
use std::time::{self, Duration};
use test_kit::exchanges::UNAVAILABLE;

const REQUEST: &[u8] = b"GET /account HTTP/1.1\r\nAuthorization: Bearer AgEJ\r\n\r\n";

/// The desk of these tests returns this reply.
const REPLY: &str = UNAVAILABLE;

static UNREADABLE: Stopped = Stopped(None);

fn always(moment: Moment) -> MomentsOf<'static, 'static, Stopped> {
    MomentsOf {
        clock: Clock::Fixed(moment),
        machine: &UNREADABLE,
    }
}

fn new_face(rt: &impl Runtime) -> Face {
    Face::new(rt.alloc()).expect(rt, "a face")
}

fn desk_at_noon<'d>(rt: &impl Runtime) -> Desk<'d> {
    Desk::new(rt.alloc(), noon(rt))
}

fn patience() -> Duration {
    Duration::from_secs(10)
}

/// Returns the reply that shows a court's slot with `taken` persons.
fn slot_shown(slot: Slot, price: u16, taken: u64) -> Reply {
    Reply::SlotShown {
        slot,
        kind: Kind::Court,
        price,
        places: 4,
        taken,
        closed: false,
    }
}

/// Accepts the listener's next client. The office's commands come through `door`.
fn client_at<'a, C: time::Clock>(
    rt: &impl Runtime,
    listener: &'a TcpListener,
    door: Option<&'a UnixListener>,
    clock: &'a C,
    patience: Duration,
) -> Accepted<'a, ClientSocket<'a, C>, C> {
    let client = match Listening::new(listener, door, clock, patience).next() {
        Arrival::Client(client) => Some(client),
        Arrival::Command(_) | Arrival::Nobody => None,
    };
    client.expect(rt, "a connection")
}

/// Runs an exchange at the desk's moment.
fn exchange(
    rt: &impl Runtime,
    connection: &mut impl Connection,
    desk: &mut Desk<'_>,
) -> Result<Reply, AnswerFault> {
    let at = desk.moment;
    let face = &mut new_face(rt);
    connection.exchange(face, &mut always(at), desk, &mut Unlogged, at)
}

fn serves(
    rt: &impl Runtime,
    arrivals: &mut impl Arrivals,
    count: u32,
    desk: &mut Desk<'_>,
) -> Result<(), ClockOutOfRange> {
    let mut moments = always(noon(rt));
    serve_on(arrivals, count, &mut moments, &mut new_face(rt), desk)
}

/// The server's result, the number of waits for an arrival, and the number of requests at noon.
type Served = (Result<(), ClockOutOfRange>, u64, u64);

fn serves_script(
    rt: &impl Runtime,
    wires: &[Wire<'_>],
    count: u32,
    moments: &mut impl Moments,
    log: &mut impl Log,
) -> Served {
    let journal = Journal::new(rt.alloc());
    let mut arrivals = Script::new(&journal, wires);
    let mut desk = desk_at_noon(rt);
    let face = &mut new_face(rt);
    let outcome = serve_logged(&mut arrivals, count, moments, face, &mut desk, log);
    (outcome, arrivals.waited, desk.asked)
}

const WHOLE: &[Step<'static>] = &[Step::Bytes(0, REQUEST), Step::End(0)];

static FAILING: [Wire<'static>; 10] = [
    Wire::Client(WHOLE),
    Wire::Command(Some(b"an order")),
    Wire::Absent,
    Wire::Client(&[Step::Fails(0)]),
    Wire::Command(None),
    Wire::Command(Some(b"another order")),
    Wire::Client(&[Step::Bytes(0, b"x"), Step::End(0)]),
    Wire::Deaf(WHOLE),
    Wire::Client(WHOLE),
    Wire::Client(WHOLE),
];

/// The number of clients to serve, and the expected number of waits for an arrival. The last three
/// values are the numbers of the desk's requests, of the desk's commands, and of the commands'
/// bytes. A command doesn't count as a client.
static COUNTS: [(u32, u64, u64, u64, usize); 5] = [
    (0, 0, 0, 0, 0),
    (1, 1, 1, 0, 0),
    (2, 3, 1, 1, 8),
    (4, 7, 1, 2, 21),
    (6, 9, 3, 2, 21),
];

// A client whose connection fails counts as served. The server continues after a refused request.
#[test]
fn serves_as_many_as_asked(rt: HostRuntime) {
    for row in &COUNTS {
        let journal = Journal::new(rt.alloc());
        let mut arrivals = Script::new(&journal, &FAILING);
        let mut desk = desk_at_noon(&rt);
        let (count, waited, asked, commanded, bytes) = *row;
        let served = serves(&rt, &mut arrivals, count, &mut desk);
        let returned = (arrivals.waited, desk.asked, desk.commanded, desk.bytes);
        let wanted = (waited, asked, commanded, bytes);
        expect_row(&rt, (served, returned), (Ok(()), wanted), count);
    }
}

static WITH_REQUESTS: [Wire<'static>; 4] = [
    Wire::Absent,
    Wire::Client(WHOLE),
    Wire::Client(WHOLE),
    Wire::Client(WHOLE),
];

// The clock can be read only once.
#[test]
fn stops_without_a_moment(rt: HostRuntime) {
    let clock = clocks::noons(1);
    let mut moments = clocks::clock_in(&rt, "UTC0", &clock);
    let served = serves_script(&rt, &WITH_REQUESTS, 4, &mut moments, &mut Unlogged);
    expect_eq(&rt, served, (Err(ClockOutOfRange), 3, 1));
    expect_shown(&rt, &ClockOutOfRange, "clock out of range");
}
