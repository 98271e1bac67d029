//! Laws about jobs and about parsing values. Each law is the contract of a function that returns
//! nothing.

ghost use Rattle.clubdesk_arguments.specs.{Arguments.AskForOneJob, Values.ReadExactly};
ghost use Rattle.clubdesk_arguments.specs.computed.TextReaders.{text_readers};

use crate::task::Job;
use club_values::laws::{reads_days, reads_hours, reads_kinds, reads_moments, reads_names};
use command_line::laws::{arguments_ask_once, rows_answer_once};

/// If arguments ask for a job, parsing them returns this job or runs out of memory.
pub fn ask_for_one_job()
    ensures { AskForOneJob }
{
    rows_answer_once::<Job<'static>, ()>();
    arguments_ask_once::<Job<'static>>();
}

/// Each function in `text_readers` returns a value if and only if the text encodes the value.
pub(crate) fn readers_are_exact()
    ensures { ReadExactly text_readers }
{
    reads_names();
    reads_kinds();
    reads_days();
    reads_hours();
    reads_moments();
}
