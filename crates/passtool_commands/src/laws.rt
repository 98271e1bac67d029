//! Laws about the definitions in `specs/`. Each law is the contract of a function. The function's
//! body only calls other laws that the proof needs.

ghost use Rattle.passtool_commands.specs.Laws.{AnswersOnce, AskForOneCommand, MintSigns};
ghost use Rattle.passtool_commands.specs.Laws.{NarrowingKeepsSigned, VerifyDecidesSigned};

use crate::answer::BadValue;
use crate::command::Command;
use command_line::laws::{arguments_ask_once, rows_answer_once};
use pass_json::laws::{one_reading_for_each_text, one_writing_for_each_form};

/// If arguments ask for a command, they ask for no other command. The only possible fault of these
/// arguments is that memory runs out.
pub fn ask_for_one_command()
    ensures { AskForOneCommand }
{
    rows_answer_once::<Command<'static>, BadValue>();
    arguments_ask_once::<Command<'static>>();
}

/// A command has at most one answer to an input.
pub fn answers_once()
    ensures { AnswersOnce }
{
    one_reading_for_each_text();
    one_writing_for_each_form();
}

/// `verify` prints `signed` if and only if the input's pass is signed under the root.
pub fn verify_decides_signed()
    ensures { VerifyDecidesSigned }
{
    one_reading_for_each_text();
}

/// The pass that `mint` makes is signed under the root of `mint`.
#[tactic(auto, using(crate::proofs::CommandLemmas::mint_signs))]
pub fn mint_signs()
    ensures { MintSigns }
{}

/// If a pass is signed under a root, it stays signed under this root after `narrow` adds caveats.
#[tactic(auto, using(crate::proofs::CommandLemmas::narrowing_keeps_signed))]
pub fn narrowing_keeps_signed()
    ensures { NarrowingKeepsSigned }
{}
