//! Laws about the jobs that arguments ask for. Each law is the contract of a function with an empty
//! body.

ghost use Rattle.command_line.specs.Job.{AskOnce, ReadsOnce, RowsAnswerOnce};
ghost use Rattle.command_line.specs.Job.{RowsTakeWhatTheyAreGiven, WordsNameARow};

use crate::job::Job;

/// If `clap` accepts arguments for a program, the arguments name a row of the program's table.
#[tactic(auto, using(crate::proofs::RowLemmas::arguments_name_a_row))]
pub fn arguments_name_a_row<C: Copy>()
    ensures { WordsNameARow C }
{}

/// `clap` accepts all values that `can_be_given` allows for a command's arguments. `clap` finds
/// exactly these values, and the defaults of the arguments without a value. An option is
/// `--NAME=VALUE` or `--NAME VALUE`, and a flag is `--NAME`. Options and flags come first, in the
/// order of the command's row in the table. After the options come `--` and the positional
/// arguments.
pub fn rows_take_what_they_are_given<C: Copy>()
    ensures { RowsTakeWhatTheyAreGiven C }
{}

/// If the expected result of a call is a job, the call returns this job or runs out of memory.
#[tactic(auto, using(crate::proofs::RowLemmas::answers_once))]
pub fn rows_answer_once<J, V>()
    ensures { RowsAnswerOnce J V }
{}

/// If arguments ask for a job, parsing them returns this job or runs out of memory. The law
/// requires `ReadsOnce`, which states the same for a command's values.
pub fn arguments_ask_once<'a, J: Job<'a>>()
    ensures { ReadsOnce J.Reads → AskOnce J.Command.table J.Reads }
{}
