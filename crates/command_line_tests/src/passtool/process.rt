//! Processes of `passtool`: their arguments, statuses and lines.

use super::doubles::Slow;
use super::plenty::GUESTS_64;
use super::runs::*;
use crate::expect::{Host, arguments_of, expect_case, joined, text_of};
use command_line::given_arguments;
use passtool_commands::{BadValue, Name, run_process};
use std::env::Env;
use std::fmt::Write;
use std::io::Read;
use test_kit::Process;

/// The status, the standard output and the standard error.
type Ended = (u8, String, String);

fn status_of<P: Env + Eprint + AllocGlobal>(
    rt: &impl Host,
    process: &P,
    input: &mut impl Read,
    written: &mut Vec<u8>,
) -> u8 {
    let mut process = process;
    run_process(rt.alloc(), &mut process, input, written)
}

fn end_of(rt: &impl Host, arguments: &[&[u8]], input: &mut impl Read) -> Ended {
    let process = Process::new(rt.alloc(), arguments);
    let mut written = Vec::new(rt.alloc());
    let status = status_of(rt, &process, input, &mut written);
    let written = String::from_utf8(written).ok().expect(rt, "text");
    (status, written, process.into_printed())
}

/// A line, its input, the status, and the output or the fault.
type Row = (&'static str, &'static str, u8, &'static str);

const MORE: &str =
    "error: unexpected argument 'more' found\n\nUsage: passtool show\n\nFor more information, try '--help'.\n";

const OTHER_FORM: &str =
    "error: invalid value 'v3' for '--form <FORM>'\n  [possible values: v1, v2, json]\n\nUsage: passtool <COMMAND>\n\nFor more information, try '--help'.\n";

const NO_TEXT: &str =
    "error: invalid UTF-8 was detected in one or more arguments\n\nUsage: passtool <COMMAND>\n\nFor more information, try '--help'.\n";

static ROWS: [Row; 8] = [
    (VERIFY, TEXT, 0, "signed\n"),
    (VERIFY, OTHER_TEXT, 1, "not signed\n"),
    (SHOW, "!", 3, "fault 2: malformed\n"),
    ("verify|--root|zz", TEXT, 6, "bad root\n"),
    ("narrow|shoe = red", "!", 5, "caveat 1 not understood\n"),
    ("narrow|guests <= 1|x", TEXT, 5, "caveat 2 not understood\n"),
    ("show|more", TEXT, 2, MORE),
    ("convert|--form|v3", "!", 2, OTHER_FORM),
];

const NO_TEXT_SHOWN: &[&[u8]] = &[b"passtool", b"show", b"\xff"];

fn expect_ended(rt: &impl Host, ended: Ended, status: u8, text: &str) {
    expect_case(rt, text, ended.0, status);
    let (written, printed) = if status < 2 { (text, "") } else { ("", text) };
    expect_case(rt, text, ended.1.as_str(), written);
    expect_case(rt, text, ended.2.as_str(), printed);
}

fn end_of_line(rt: &impl Host, line: &str, input: &mut impl Read) -> Ended {
    let mut arguments = Vec::new(rt.alloc());
    for text in arguments_of(rt, "passtool", line) {
        arguments.push(text.as_bytes()).expect(rt, "memory");
    }
    end_of(rt, arguments.as_slice(), input)
}

fn ends(rt: &impl Host, row: &Row) {
    let ended = end_of_line(rt, row.0, &mut row.1.as_bytes());
    expect_ended(rt, ended, row.2, row.3);
}

#[test]
fn ends_with_a_status_and_a_line(rt: HostRuntime) {
    for row in &ROWS {
        ends(&rt, row);
    }
    let ended = end_of(&rt, NO_TEXT_SHOWN, &mut TEXT.as_bytes());
    expect_ended(&rt, ended, 2, NO_TEXT);
    let ended = end_of_line(&rt, SHOW, &mut Slow::failing(rt.alloc(), b""));
    expect_ended(&rt, ended, 7, "input or output failed\n");
}

fn numbered(rt: &impl Host, number: usize) -> String {
    let mut text = String::new(rt.alloc());
    for _ in 0..=number {
        write!(text, "argument {number}, ").expect(rt, "memory");
    }
    text
}

fn expect_given(rt: &impl Host, texts: &[String]) {
    let mut arguments = Vec::new(rt.alloc());
    for text in texts {
        arguments.push(text.as_bytes()).expect(rt, "memory");
    }
    let process = Process::new(rt.alloc(), arguments.as_slice());
    let given = given_arguments::<&Process<'_>, Name, BadValue>(rt.alloc(), &&process);
    let given = given.ok().expect(rt, "arguments");
    expect_case(rt, "arguments", given.as_slice(), texts);
}

#[test]
fn is_given_all_its_arguments(rt: HostRuntime) {
    let mut texts = Vec::new(rt.alloc());
    for number in 0..70 {
        texts.push(numbered(&rt, number)).expect(&rt, "memory");
    }
    expect_given(&rt, texts.as_slice());
}

// An independent program computed the chain of HMACs over the caveats.
const SIGNATURE: &str =
    "signature 1d7296b54ce52b5364014b69c70c04b77d341727a54806f18dbc39a8fdbcb9eb\n";

fn shown_with_guests(rt: &impl Host) -> String {
    let text = "form v1\nlocation http://mybank/\nidentifier we used our secret key\n";
    let mut shown = joined(rt, &[text]);
    for number in 1..=GUESTS_64.0 {
        writeln!(shown, "caveat {number} guests <= 1").expect(rt, "memory");
    }
    shown.push_str(SIGNATURE).expect(rt, "memory");
    shown
}

fn narrowed(rt: &impl Host, line: &str) -> String {
    let (status, pass, _) = end_of_line(rt, line, &mut BARE_TEXT.as_bytes());
    expect_case(rt, line, status, 0);
    pass
}

#[test]
fn narrows_by_every_caveat(rt: HostRuntime) {
    let line = text_of(&rt, &[(1, "narrow"), GUESTS_64]);
    let pass = narrowed(&rt, line.as_str());
    let shown = output_of(&rt, SHOW, &mut pass.as_bytes());
    let want = shown_with_guests(&rt);
    expect_case(&rt, SHOW, shown.text.as_str(), want.as_str());
}
