//! Arguments that are refused, and help.

use crate::expect::{
    Host, arguments_of, expect_case, expect_end, expect_form_refused, joined, printed,
};
use clubdesk_arguments::{CommandName, Fault, Job};
use command_line::{ArgumentsFault, Asked, read_job, text_fault};
use test_kit::End::{self, Begins, Prints};
use test_kit::Output;

fn output_of_fault(rt: &impl Host, fault: ArgumentsFault<()>) -> Output {
    let fault = Fault::from(fault);
    printed(rt, fault.status(), &fault)
}

pub(super) fn asked<'a>(
    rt: &impl Host,
    arguments: &'a [&'a str],
) -> Result<Asked<Job<'a>>, ArgumentsFault<()>> {
    read_job(rt.alloc(), arguments)
}

/// Returns the text of help or of a fault. Fails if the line asks for work.
fn output_of(rt: &impl Host, line: &str) -> Output {
    let arguments = arguments_of(rt, "clubdesk", line);
    match asked(rt, arguments.as_slice()) {
        Ok(Asked::ShowText(help)) => printed(rt, 0, &help),
        Ok(Asked::Perform(_)) => panic!(rt; "{line}"),
        Err(fault) => output_of_fault(rt, fault),
    }
}

pub(super) fn expect_refused(rt: &impl Host, before: &str, rest: &str, end: End) {
    let line = joined(rt, &[before, rest]);
    expect_end(rt, &output_of(rt, line.as_str()), end, line.as_str());
}

const BAD_VALUE: End = Begins(3, "bad value");

// Arguments, then a colon and the possible endings of the line. Each ending has one bad value.
static BAD_VALUES: [&str; 19] = [
    "add-member|F|: Amy|5 |5 amybobcydideeveflogushalfi|5 amy| amy|+5 amy|1000000000 amy|0000000005",
    "credit|F|: amy!|1 amy|1.0",
    "debit|F|: amy!|1 amy|1.0 amy|1000000000",
    "set-quota|F|: amy!|1 amy|-",
    "add-facility|F|court-1|: Court|4|200|8|22 court|x|200|8|22 court|4|x|8|22 court|4|200|x|22 \
    court|4|200|8|x",
    "set-facility|F|court-1|: court|200|8|22 4|x|8|22 4|200|x|22 4|200|8|x",
    "revoke-key|F|: amy_1",
    "close-slot|F|: court-1|2026-02-29|18 court-1|2026-05-01|8 Court-1|2026-05-01|18",
    "open-slot|F|court-1|: 2026-05-01|24 2026-02-29|18",
    "cancel-booking|F|: Amy-1|7 amy-1|seven amy-1|0 amy-1|1000000000",
    "sheet|F|: 1999-12-31 2100-01-01 2026-5-1",
    "serve|F|--port|: 65536|--count|1 x|--count|1 0|--count|0 0|--count|1000001",
    "serve|F|--port|0|--count|1|--zone|:  UTC Europe/Berlin",
    "serve|F|--port|0|--count|1|--at|: 2026-05-01 2026-05-01T24:00 2026-05-01T12:00|--zone|x",
    "serve|F|--port|0|--count|1|--patience|: 0 3601 x  1.5",
    "show-account|F|: Amy-1 amy-1|--zone|UTC amy-1|--at|2026-05-01",
    "show-slot|F|court-1|: 2026-02-29|18 2026-05-01|24",
    ": add-key|F|K|bob|--root-stdin rotate-key|F|k|never|--root-stdin",
    "rotate-key|F|k|000102030405060708090a0b0c0d0e0f|: 1999-12-31T23:59",
];

// Roots of 0 bytes, of 15, of 16 and a half, of 16 with a wrong digit, and of 65.
const BAD_ROOTS: &str = " 000102030405060708090a0b0c0d0e 000102030405060708090a0b0c0d0e0f1 \
    000102030405060708090a0b0c0d0e0g \
    0000000000000000000000000000000000000000000000000000000000000000\
    000000000000000000000000000000000000000000000000000000000000000000";

/// Spaces separate the words. Each word stands between `before` and `after`.
fn expect_each_refused(rt: &impl Host, before: &str, words: &str, after: &str) {
    for word in words.split(' ') {
        expect_refused(rt, before, joined(rt, &[word, after]).as_str(), BAD_VALUE);
    }
}

fn expect_ends_refused(rt: &impl Host, row: &str) {
    let (before, ends) = row.split_once(": ").expect(rt, "a row");
    expect_each_refused(rt, before, ends, "");
}

#[test]
fn bad_values(rt: HostRuntime) {
    for row in &BAD_VALUES {
        expect_ends_refused(&rt, row);
    }
    expect_each_refused(&rt, "add-key|F|k|bob|", BAD_ROOTS, "");
    expect_each_refused(&rt, "rotate-key|F|k|", BAD_ROOTS, "|2026-04-25T00:00");
    expect_refused(&rt, "add-member|F|amy| 5", "", BAD_VALUE);
    expect_refused(&rt, "show-slot|F|court 1|2026-05-01|18", "", BAD_VALUE);
}

static OTHER_FORMS: [&str; 5] = ["", "v3", "V1", "JSON", "v1 "];

fn expect_other_form(rt: &impl Host, before: &str, form: &str) {
    let line = joined(rt, &[before, "|--form|", form]);
    expect_form_refused(rt, &output_of(rt, line.as_str()), line.as_str(), form);
}

// A form is checked before other values.
#[test]
fn bad_forms(rt: HostRuntime) {
    for form in &OTHER_FORMS {
        expect_other_form(&rt, "add-key|F|K|BOB|zz", form);
        let rotation = "rotate-key|F|k|000102030405060708090a0b0c0d0e0f|never";
        expect_other_form(&rt, rotation, form);
    }
}

// Earlier versions had `pause`. A root comes from an argument or from the input, not from both.
const BAD_ARGUMENTS: &str = "frob help|frob add-member|--version add-member add-member|F|amy \
    add-member|F|amy|5|6 add-member|F|-amy|5 add-member|F|amy|-5 add-member|F|amy|5|--form|v1 \
    credit|F debit|F|amy debit|F|amy|-1 set-quota|F|amy add-facility|F|court-1|court|4|200|8 \
    set-facility|F|court-1|4|200|8 set-facility|F|court-1|court|4|200|8|22 add-key|F|k|bob \
    add-key|F|k|bob|000102030405060708090a0b0c0d0e0f|--form \
    revoke-key|F rotate-key|F|k|000102030405060708090a0b0c0d0e0f close-slot|F|court-1|2026-05-01 \
    open-slot|F|court-1|2026-05-01 cancel-booking|F|amy-1 cancel-booking|F|amy-1|7|8 sheet|F sheet \
    serve|F serve|F|--port|0 serve|F|--count|1 serve|--port|0|--count|1 \
    serve|F|--port|0|--count|1|--verbose pause|F|60 serve|F|--port|0|--count|1|--patience \
    show-account|F show-account|F|amy-1|2026-05-01T12:00 show-slot|F|court-1|2026-05-01 \
    show-slot|F|court-1|2026-05-01|18|--at|2026-05-01T12:00 \
    add-key|F|k|bob|000102030405060708090a0b0c0d0e0f|--root-stdin \
    rotate-key|F|k|000102030405060708090a0b0c0d0e0f|2026-04-25T00:00|--root-stdin \
    rotate-key|F|k|--root-stdin add-key|F|k|bob|--root-stdin|--root-stdin";

#[test]
fn arguments_that_clap_refuses(rt: HostRuntime) {
    for line in BAD_ARGUMENTS.split(' ') {
        expect_refused(&rt, line, "", Begins(2, "error: "));
    }
}

// In Rust, `clap` itself prints this text for arguments that aren't UTF-8. `text_fault` makes the
// same text.
const NOT_TEXT: End = Prints(
    2,
    "error: invalid UTF-8 was detected in one or more arguments\n\nUsage: clubdesk <COMMAND>\n\nFor more information, try '--help'.\n",
);

#[test]
fn arguments_that_are_no_text(rt: HostRuntime) {
    let output = output_of_fault(&rt, text_fault::<CommandName, ()>(rt.alloc()));
    expect_end(&rt, &output, NOT_TEXT, "no text");
}

const HELP: &str =
    "--help help help|serve help|show-account help|show-slot add-facility|-h --version -V";

fn help_of(rt: &impl Host, line: &str) -> String {
    let output = output_of(rt, line);
    expect_case(rt, line, output.status, 0);
    output.text
}

fn shows(rt: &impl Host, help: &str, parts: &[&str]) -> bool {
    help.contains(joined(rt, parts).as_str())
}

#[test]
fn help(rt: HostRuntime) {
    for line in HELP.split(' ') {
        let text = help_of(&rt, line);
        assert!(rt; text.as_str().contains("clubdesk"), "{text}");
    }
}

const COMMANDS: &str = "add-member credit debit set-quota add-facility set-facility add-key \
    revoke-key rotate-key close-slot open-slot cancel-booking sheet serve show-account show-slot";

fn expect_example(rt: &impl Host, command: &str) {
    let text = help_of(rt, joined(rt, &[command, "|--help"]).as_str());
    let shown = text.as_str();
    let has_one = shows(rt, shown, &["\n  clubdesk ", command, " club.db "])
        || shows(rt, shown, &[" | clubdesk ", command, " club.db "]);
    assert!(rt; has_one, "{text}");
}

#[test]
fn examples(rt: HostRuntime) {
    for command in COMMANDS.split(' ') {
        expect_example(&rt, command);
    }
}
