//! A law about the lines of a log.

ghost use Rattle.desk_server.specs.Log.{WritesLines};

use crate::log::{Log, LogLines};
use club_http::Outlet;
use std::time::Clock;

/// A `LogLines` writes a line for each event passed to `note`, in the order of the calls. If the
/// writer fails, only a prefix of the event's line is written.
pub fn a_log_has_its_lines<'a, W: Outlet, C: Clock + 'a>()
    ensures { WritesLines ⟦<LogLines<'a, W, C> as Log>⟧.begins ⟦<LogLines<'a, W, C> as Log>⟧.notes
        (λ log. W.taken log.writer) (λ log. W.failures log.writer) }
{}
