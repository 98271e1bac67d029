//! Arguments that are refused before the input is read, and help.

use super::runs::*;
use crate::expect::{Host, expect_case, expect_form_refused, joined};
use test_kit::End::{Begins, Prints};

static BAD_ROOTS: [&str; 5] = [
    "",
    "0",
    "zz",
    "0g",
    "00000000000000000000000000000000000000000000000000000000000000000\
    00000000000000000000000000000000000000000000000000000000000000000",
];

#[test]
fn refuses_bad_roots(rt: HostRuntime) {
    for root in &BAD_ROOTS {
        expect_unread(&rt, "verify|--root|", root, Prints(6, "bad root"));
        let named = joined(&rt, &[root, "|--id|k"]);
        expect_unread(&rt, "mint|--root|", named.as_str(), Prints(6, "bad root"));
    }
}

static OTHER_FORMS: [&str; 6] = ["", "v3", "V1", "JSON", "v1 ", "binary"];

fn expect_other_form(rt: &impl Host, before: &str, form: &str) {
    let line = joined(rt, &[before, form]);
    let output = unread_output_of(rt, line.as_str());
    expect_form_refused(rt, &output, line.as_str(), form);
}

// The form is checked before the root.
#[test]
fn refuses_other_forms(rt: HostRuntime) {
    for form in &OTHER_FORMS {
        expect_other_form(&rt, "mint|--root|zz|--id|k|--form|", form);
        expect_other_form(&rt, "convert|--form|", form);
    }
}

// Spaces separate the lines, and bars separate a line's arguments. The first line has no arguments.
const BAD_ARGUMENTS: &str = " frob help|frob mint mint|--root|zz mint|--id|k mint|--root|zz|--id \
    mint|--root|00|--id|a|--id|b mint|--root|00|--id|k|-x show|more show|--form|v1 narrow \
    narrow|--any narrow|--any|--any|x narrow|-x convert convert|--form convert|v1 verify \
    verify|--root verify|--root|00|more verify|--root|00|--root|00";

#[test]
fn refuses_what_clap_refuses(rt: HostRuntime) {
    for line in BAD_ARGUMENTS.split(' ') {
        expect_unread(&rt, line, "", Begins(2, "error: "));
    }
}

fn expect_help(rt: &impl Host, line: &str, part: &str) {
    let output = unread_output_of(rt, line);
    expect_case(rt, line, output.status, 0);
    assert!(rt; output.text.as_str().contains(part), "{line}: {output:?}");
}

const HELP: &str =
    "help|mint mint|--help show|-h narrow|--help convert|--help verify|--root|ROOT|--help";

const OF_WEEKDAYS: &str =
    "\n  weekday = DAY,..          weekday = sat,sun (from mon,tue,wed,thu,fri,sat,sun, in this order)\n";

#[test]
fn shows_help(rt: HostRuntime) {
    for line in HELP.split(' ') {
        expect_help(&rt, line, "Usage:");
        expect_help(&rt, line, "Example:\n  passtool ");
    }
    expect_help(&rt, "help", "Usage:");
    expect_help(&rt, "--help", "Usage:");
    expect_help(&rt, "--help", "\n  7  input or output failed\n");
    expect_help(&rt, "narrow|--help", OF_WEEKDAYS);
}

const CAVEATS: &str = "facility = court-1,court-2|kind = court|hours = 18-20|\
    days = 2026-05-01..2026-05-31|until < 2026-05-01T18:00|guests <= 2|spend <= 600|\
    actions = view,book|weekday = sat,sun";

#[test]
fn help_of_narrow_shows_the_caveats(rt: HostRuntime) {
    for caveat in CAVEATS.split('|') {
        expect_help(&rt, "narrow|-h", caveat);
    }
    // `narrow` understands each of these caveats, so the fault is in the pass.
    let line = joined(&rt, &["narrow|", CAVEATS]);
    expect(&rt, line.as_str(), b"!", MALFORMED);
}
