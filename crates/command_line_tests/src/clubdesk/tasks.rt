//! The tasks that the arguments of `clubdesk` ask for.

use super::bad_arguments::asked;
use crate::expect::{Host, arguments_of, expect_case, joined};
use club_clock::Clock;
use club_rows::Root;
use clubdesk_arguments::{Job, KeyChange, KeyCommand, Service, Task, Work, laws};
use command_line::Asked;
use std::fmt::{Debug, Display, Write};

fn hex_of(rt: &impl Host, root: &Root) -> String {
    hex::encode(rt.alloc(), root.as_bytes()).expect(rt, "memory")
}

fn put(rt: &impl Host, output: &mut String, before: &str, value: &impl Display) {
    write!(output, "{before}{value}").expect(rt, "memory");
}

fn put_debug(rt: &impl Host, output: &mut String, before: &str, value: &impl Debug) {
    write!(output, "{before}{value:?}").expect(rt, "memory");
}

fn describe_clock(rt: &impl Host, output: &mut String, clock: &Clock<'_>) {
    match clock {
        Clock::Fixed(moment) => put(rt, output, " at ", moment),
        Clock::InZone(_) => put(rt, output, " by the clock", &""),
    }
}

fn describe_key(rt: &impl Host, output: &mut String, command: &KeyCommand, root: &str) {
    match &command.change {
        KeyChange::Add { member } => {
            put(rt, output, "add ", &command.name);
            put(rt, output, " of ", member);
            put(rt, output, " ", &root);
        }
        KeyChange::Rotate { until } => {
            put(rt, output, "rotate ", &command.name);
            put(rt, output, " ", &root);
            put(rt, output, " until ", until);
        }
    }
    put_debug(rt, output, " ", &command.form);
}

fn describe_service(rt: &impl Host, output: &mut String, service: &Service<'_>) {
    put(rt, output, "serve ", &service.port);
    put(rt, output, " ", &service.count);
    describe_clock(rt, output, &service.clock);
    put(rt, output, " for ", &service.patience);
    if service.log {
        put(rt, output, " with a log", &"");
    }
}

fn describe_task(rt: &impl Host, output: &mut String, task: &Task<'_>) {
    match task {
        Task::Give(command) => put_debug(rt, output, "", command),
        Task::Key(command, root) => describe_key(rt, output, command, hex_of(rt, root).as_str()),
        Task::Sheet(day) => put(rt, output, "sheet ", day),
        Task::ShowAccount { key, clock } => {
            put(rt, output, "show ", key);
            describe_clock(rt, output, clock);
        }
        Task::ShowSlot(slot) => put_debug(rt, output, "show ", slot),
    }
}

fn work_text(rt: &impl Host, work: &Work<'_>) -> String {
    let mut output = String::new(rt.alloc());
    match work {
        Work::Office(task) => describe_task(rt, &mut output, task),
        Work::Rootless(command) => describe_key(rt, &mut output, command, "by input"),
        Work::Serve(service) => describe_service(rt, &mut output, service),
    }
    output
}

fn expect_job(rt: &impl Host, line: &str, job: &Job<'_>, file: &str, want: &str) {
    expect_case(rt, line, work_text(rt, &job.work).as_str(), want);
    expect_case(rt, line, job.file, file);
}

fn asks(rt: &impl Host, line: &str, file: &str, want: &str) {
    let arguments = arguments_of(rt, "clubdesk", line);
    match &asked(rt, arguments.as_slice()) {
        Ok(Asked::Perform(job)) => expect_job(rt, line, job, file, want),
        _ => panic!(rt; "{line}"),
    }
}

/// The line and the text of its job consist of the parts.
pub(super) fn expect_asked(rt: &impl Host, line: &[&str], file: &str, want: &[&str]) {
    let (line, want) = (joined(rt, line), joined(rt, want));
    asks(rt, line.as_str(), file, want.as_str());
}

// The file is `F`. The scenarios test how commands are carried out.
static TASKS: [&str; 22] = [
    "set-facility|F|b|51|10000|9|8 \
    asks for SetFacility { name: \"b\", places: 51, price: 10000, opens: 9, shuts: 8 }",
    "cancel-booking|F|amy-1|000000001 \
    asks for CancelBooking { key: \"amy-1\", number: BookingNumber { number: 1 } }",
    "set-quota|F|amy|8 asks for SetQuota { member: \"amy\", quota: 8 }",
    "debit|F|amy|999999999 asks for Debit { member: \"amy\", points: 999999999 }",
    "credit|F|amy|000000000 asks for Credit { member: \"amy\", points: 0 }",
    "credit|F|amy|000000017 asks for Credit { member: \"amy\", points: 17 }",
    "add-key|F|k|bob|000102030405060708090a0b0c0d0e0f \
    asks for add k of bob 000102030405060708090a0b0c0d0e0f V2",
    "add-key|F|k|bob|000102030405060708090a0b0c0d0e0f|--form|v1 \
    asks for add k of bob 000102030405060708090a0b0c0d0e0f V1",
    "add-key|F|--form=json|k|bob|000102030405060708090a0b0c0d0e0f \
    asks for add k of bob 000102030405060708090a0b0c0d0e0f Json",
    "rotate-key|F|amy-1|000102030405060708090A0B0C0D0E0F|2026-04-25T00:00 \
    asks for rotate amy-1 000102030405060708090a0b0c0d0e0f until 2026-04-25T00:00 V2",
    "rotate-key|--form|json|F|k|000102030405060708090a0b0c0d0e0f|2099-12-31T23:59 \
    asks for rotate k 000102030405060708090a0b0c0d0e0f until 2099-12-31T23:59 Json",
    "add-key|F|k|bob|--root-stdin asks for add k of bob by input V2",
    "rotate-key|--form|json|--root-stdin|--|F|k|2099-12-31T23:59 \
    asks for rotate k by input until 2099-12-31T23:59 Json",
    "show-account|F|amy-1 asks for show amy-1 by the clock",
    "show-account|--zone=CET-1CEST,M3.5.0,M10.5.0/3|F|amy-1 asks for show amy-1 by the clock",
    "show-account|F|amy-1|--at|2026-04-20T12:00 asks for show amy-1 at 2026-04-20T12:00",
    "show-slot|F|court-1|2026-05-01|18 \
    asks for show Slot { facility: \"court-1\", day: Day { number: 20574 }, \
    hour: Hour { number: 18 } }",
    "serve|F|--port|0|--count|1 asks for serve 0 1 by the clock for 10",
    "serve|F|--port=65535|--count|1000000|--zone=EST5 \
    asks for serve 65535 1000000 by the clock for 10",
    "serve|--port|08080|--count=2|F|--zone=CET-1CEST,M3.5.0,M10.5.0/3 \
    asks for serve 8080 2 by the clock for 10",
    "serve|F|--port|0|--count|1|--patience|1 asks for serve 0 1 by the clock for 1",
    "serve|--patience=03600|F|--port|0|--count|1|--at|2026-04-20T12:00|--log \
    asks for serve 0 1 at 2026-04-20T12:00 for 3600 with a log",
];

#[test]
fn tasks(rt: HostRuntime) {
    for row in &TASKS {
        let (line, want) = row.split_once(" asks for ").expect(&rt, "a row");
        asks(&rt, line, "F", want);
    }
}

// Arguments after `--` aren't options.
#[test]
fn sheets(rt: HostRuntime) {
    let output = "sheet 2026-05-02";
    asks(&rt, "sheet|a file.db|2026-05-02", "a file.db", output);
    asks(&rt, "sheet|--|--port|2026-05-02", "--port", output);
}

#[test]
fn laws_hold() {
    laws::ask_for_one_job();
}
