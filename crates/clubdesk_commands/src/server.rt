//! Runs a server that passes requests and commands to a desk.

ghost use Rattle.std.specs.Prelude.{◌≡◌, IfOk, MatchResult, false};
ghost use Rattle.desk_server.specs.{Served.AreNoted, Trace.Trace};
ghost use Rattle.clubdesk_commands.specs.{Output.stream};
ghost use Rattle.clubdesk_commands.specs.Run as spec;

use crate::office_desk::OfficeDesk;
use club_clock::{Instants, MomentsOf};
use club_gate::laws::{followed_runs_are_lawful, follows_one_more};
use club_http::Face;
use clubdesk_arguments::{Fault, Service};
use command_line::write_text;
use desk_server::{
    ClockOutOfRange, Databases, Door, Listening, Log, MonotonicClock, Office, serve_logged,
    serve_on,
};
use std::io;
use std::io::Write;
use std::net::TcpListener;
use std::os::unix::net::UnixListener;
use std::time::Duration;

/// The address on which the server listens.
const LOOPBACK: &str = "127.0.0.1";

/// Serves the database with this name. The server opens the database before it writes its address,
/// and closes the database at the end. While the server runs, it receives the office's commands
/// through the database's door, which is a Unix socket.
///
/// # Errors
///
/// Fails in the same cases as `serve`. Fails with `Storage` or `Memory` if the server can't open
/// the database or can't make the door. In these two cases, the server has written nothing.
pub fn serve_file<C: Instants + MonotonicClock, D: Databases, W: Write, G: Log>(
    rt: &HostRuntime,
    machine: &C,
    databases: &mut D,
    file: &str,
    service: Service<'_>,
    writer: &mut W,
    log: &mut G,
) -> Result<(), Fault>
    ensures done { spec.Serves D.Databases D.Visit.Visit D.Store.ghosts
        C.Instants.shows machine.now file.now service.entry databases.old databases.new
        (stream W.contents writer.old writer.new)
        (λ turns. AreNoted G.begins G.notes log.old turns log.new) result }
    ensures unlogged { service.entry.log ≡ false → log.new ≡ log.old }
{
    follows_one_more::<D::Store>();
    followed_runs_are_lawful::<D::Store>();
    let store = match databases.open(file) {
        Ok(store) => store,
        Err(fault) => return Err(Fault::from(fault)),
    };
    let door = match databases.make_door(file) {
        Ok(door) => door,
        Err(fault) => {
            databases.close(store);
            return Err(Fault::from(fault));
        }
    };
    let mut desk = OfficeDesk::new(rt.alloc(), machine, store);
    let outcome = serve(
        rt,
        machine,
        door.listener(),
        &mut desk,
        service,
        writer,
        log,
    );
    drop(door);
    databases.close(desk.into_store());
    outcome
}

/// Listens on the loopback address, and writes the address and the port. The server then serves
/// clients, and carries out the commands that it receives through `door`.
///
/// If the service has a fixed time, the server uses this time for each client. Otherwise, the
/// server takes the time from the machine's clock, in the service's zone. The machine's clock also
/// measures the timeout of a client. If the service asks for a log, the server logs each client and
/// each command.
///
/// # Errors
///
/// - Fails with `InputOutput` if the server can't listen or the writer fails. In this case, the
///   server has served no client.
/// - Fails with `Memory` if memory runs out. In this case, the server has served no client.
/// - Fails with `ClockOutOfRange` if a client comes while the clock can't be read or shows a year
///   before 2000 or after 2099. The client gets no answer, and the server ends.
pub fn serve<D: Office, C: Instants + MonotonicClock, W: Write, G: Log>(
    rt: &HostRuntime,
    machine: &C,
    door: Option<&UnixListener>,
    desk: &mut D,
    service: Service<'_>,
    writer: &mut W,
    log: &mut G,
) -> Result<(), Fault>
    ensures served { (all : Trace) × spec.RunsServer C.Instants.shows machine.now
        D.answers D.commands service.entry all desk.old desk.new
        (λ noted. AreNoted G.begins G.notes log.old noted log.new) result }
    ensures announced { spec.Announces service.entry.port
        (stream W.contents writer.old writer.new) result }
    ensures unlogged { service.entry.log ≡ false → log.new ≡ log.old }
{
    let (listener, mut face) = match listen(rt, service.port, writer) {
        Ok(listening) => listening,
        Err(fault) => return Err(fault),
    };
    let Service {
        port: _,
        count,
        clock,
        patience,
        log: logs,
    } = service;
    let patience = Duration::from_secs(u64::from(patience));
    let mut arrivals = Listening::new(&listener, door, machine, patience);
    let mut moments = MomentsOf { clock, machine };
    if logs {
        outcome_of(serve_logged(&mut arrivals, count, &mut moments, &mut face, desk, log))
    } else {
        outcome_of(serve_on(&mut arrivals, count, &mut moments, &mut face, desk))
    }
}

// Listens on the port, allocates all memory that the server needs, and writes the address and the
// port. All this happens before the first request.
fn listen<W: Write>(
    rt: &HostRuntime,
    port: u16,
    writer: &mut W,
) -> Result<(TcpListener, Face), Fault>
    ensures { MatchResult result
        (λ _. spec.IsAnnounced port (stream W.contents writer.old writer.new))
        (spec.StopsBefore port (stream W.contents writer.old writer.new)) }
{
    let alloc = rt.alloc();
    let Ok((listener, port)) = bind(rt, port) else {
        return Err(Fault::InputOutput);
    };
    let Ok(face) = Face::new(alloc) else {
        return Err(Fault::Memory);
    };
    let Ok(line) = format!(in alloc; "listening on {LOOPBACK}:{port}\n") else {
        return Err(Fault::Memory);
    };
    match write_text(writer, line.as_str()) {
        Ok(()) => Ok((listener, face)),
        Err(_) => Err(Fault::InputOutput),
    }
}

// Listens on a port of the loopback address, and returns the port. If the port is 0, the system
// chooses a free port.
fn bind(rt: &HostRuntime, port: u16) -> io::Result<(TcpListener, u16)>
    ensures { IfOk result (λ bound. spec.IsPortFor port bound.1) }
{
    let listener = TcpListener::bind(rt, (LOOPBACK, port))?;
    listener.set_nonblocking(true)?;
    if port != 0 {
        return Ok((listener, port));
    }
    let chosen = listener.local_addr()?.port();
    Ok((listener, chosen))
}

// Converts the result of a server to the result of the program.
fn outcome_of(outcome: Result<(), ClockOutOfRange>) -> Result<(), Fault>
    ensures { result ≡ spec.outcome_of_server outcome }
{
    match outcome {
        Ok(()) => Ok(()),
        Err(ClockOutOfRange) => Err(Fault::ClockOutOfRange),
    }
}
