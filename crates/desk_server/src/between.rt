//! Carries out commands of the office, even while the server waits for a client's request.

ghost use Rattle.std.specs.Prelude.{◌≡◌, IfNone, IfSome};
ghost use Rattle.club_http.specs.{Calls.ReadsNoFurther, Exchange.{read_failures, IsCutOff}};
ghost use Rattle.club_http.specs.Exchange.{Receives};
ghost use Rattle.desk_server.specs.{Between.{Awaits, CommandsAlone}, Served.Meanwhile};
ghost use Rattle.desk_server.specs.Server.{IsCommanded};
ghost use Rattle.http_request.specs.Frame.{Covers};

use crate::log::{Log, LogEvent};
use crate::office::{Carried, Office};
use club_clock::Moments;
use club_http::{Face, HeadScan, Inlet};

/// A connection over which the office sends a command.
pub trait Handover {
    ghost use Rattle.desk_server.specs.Served.{IsCarriedOut};

    /// Reads a command, has the desk carry it out, and writes the answer. Returns `None` if no
    /// complete command arrived.
    fn carry_out<D: Office>(&mut self, desk: &mut D) -> Option<Carried>
        ensures { IsCarriedOut D.commands desk.old result desk.new };
}

/// Carries out a command and logs it.
pub(crate) fn carry_out<O: Handover + Drop, M: Moments, D: Office, G: Log>(
    mut command: O,
    moments: &mut M,
    desk: &mut D,
    log: &mut G,
)
    ensures { IsCommanded M.gives G.begins G.notes D.commands moments.old desk.old log.old
        moments.new desk.new log.new }
{
    log.begin();
    let moment = moments.now();
    let carried = command.carry_out(desk);
    drop(command);
    log.note(&LogEvent::Commanded { moment, carried });
}

/// A reader of a client's bytes that can also wait for a command of the office.
pub trait Waits: Inlet {
    ghost use Rattle.std.specs.{Io.KnownBytes.Keeps, Prelude.{◌≡◌}};

    type Command: Handover + Drop;

    // The reader before and after a call of `command_before`.
    ghost waits: { Self → Self → Type 0 };

    /// Waits for a command and returns it. Returns `None` after one of these events:
    ///
    /// - Bytes from the client arrive.
    /// - The client ends its input.
    /// - The client's time limit expires.
    /// - Waiting fails.
    ///
    /// Returns `None` at once if the server has no door. A door is a socket where commands arrive.
    fn command_before(&mut self) -> Option<Self::Command>
        ensures reads_nothing { Keeps (Self.to_come self.old) (Self.to_come self.new) }
        ensures counted { Self.failures self.new ≡ Self.failures self.old }
        ensures waited { waits self.old self.new };
}

/// A reader of a client's bytes. While the reader waits for bytes, it carries out commands of the
/// office.
#[derive(Drop)]
struct Between<'r, 'm, 'd, 'g, R, M, D, G> {
    reader: &'r mut R,
    moments: &'m mut M,
    desk: &'d mut D,
    log: &'g mut G,
}

impl<R: Waits, M: Moments, D: Office, G: Log> Inlet for Between<'_, '_, '_, '_, R, M, D, G> {
    ghost use Rattle.desk_server.specs.Between.{Awaits, CommandsAlone};

    ghost to_come = { λ between. R.to_come between.reader.now };

    ghost failures = { λ between. R.failures between.reader.now };

    ghost fills = { λ old result room new. CommandsAlone M.gives D.commands G.begins G.notes old new
        × Awaits R.waits R.fills old.reader.now result room new.reader.now };

    fn fill(&mut self, room: &mut [u8]) -> Option<usize> {
        for commanded in 0..u64::MAX {
            match self.reader.command_before() {
                Some(command) => {
                    carry_out(command, &mut *self.moments, &mut *self.desk, &mut *self.log);
                }
                None => return self.reader.fill(room),
            }
        }
        self.reader.fill(room)
    }
}

/// Reads a request as `Face::receive` does. While waiting for the request, this function carries
/// out commands of the office. For each command, this function reads the clock and logs the
/// command.
///
/// An exchange has two steps: `receive_between` is the first step, and `Face::respond` is the
/// second.
pub fn receive_between<R: Waits, M: Moments, D: Office, G: Log>(
    face: &mut Face,
    reader: &mut R,
    moments: &mut M,
    desk: &mut D,
    log: &mut G,
) -> Option<HeadScan>
    ensures covered { IfSome result (λ scan. Covers scan face.new) }
    ensures received { IfSome result
        (λ _. Receives (R.to_come reader.old) (R.to_come reader.new) face.new) }
    ensures cut_off { IfNone result
        (IsCutOff (R.to_come reader.old) (R.to_come reader.new) face.new) }
    ensures calls { ReadsNoFurther (Awaits R.waits R.fills) reader.old face.new reader.new }
    ensures counted { R.failures reader.new ≡ read_failures (R.failures reader.old) result }
    ensures meanwhile { Meanwhile M.gives D.commands G.begins G.notes
        moments.old desk.old log.old moments.new desk.new log.new }
{
    let mut between = Between {
        reader,
        moments,
        desk,
        log,
    };
    receive_in(face, &mut between)
}

// Reads a request. While waiting for the request, this function carries out commands.
fn receive_in<R: Waits, M: Moments, D: Office, G: Log>(
    face: &mut Face,
    between: &mut Between<'_, '_, '_, '_, R, M, D, G>,
) -> Option<HeadScan>
    ensures covered { IfSome result (λ scan. Covers scan face.new) }
    ensures received { IfSome result (λ _. Receives (R.to_come between.old.reader.now)
        (R.to_come between.new.reader.now) face.new) }
    ensures cut_off { IfNone result (IsCutOff (R.to_come between.old.reader.now)
        (R.to_come between.new.reader.now) face.new) }
    ensures calls { ReadsNoFurther (Awaits R.waits R.fills)
        between.old.reader.now face.new between.new.reader.now }
    ensures counted { R.failures between.new.reader.now
        ≡ read_failures (R.failures between.old.reader.now) result }
    ensures alone { CommandsAlone M.gives D.commands G.begins G.notes between.old between.new }
{
    face.receive(between)
}
