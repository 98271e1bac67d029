//! Long paths, roots, numbers and words.

use super::bad_arguments::expect_refused;
use super::tasks::expect_asked;
use crate::expect::{Host, expect_case, text_of};
use clubdesk_arguments::root_of;
use test_kit::End::{self, Begins};
use test_kit::Piece;

static PATH: [Piece; 2] = [(1_999, "./"), (1, "aa")];

static WITH_A_PATH: [(&str, &str, &str); 2] = [
    ("sheet|", "|2026-05-01", "sheet 2026-05-01"),
    (
        "serve|",
        "|--port|8080|--count|7|--at|2026-05-01T12:00",
        "serve 8080 7 at 2026-05-01T12:00 for 10",
    ),
];

fn takes_path(rt: &impl Host, before: &str, path: &str, after: &str, want: &str) {
    expect_asked(rt, &[before, path, after], path, &[want]);
}

#[test]
fn takes_a_long_path(rt: HostRuntime) {
    let path = text_of(&rt, &PATH);
    for (before, after, want) in &WITH_A_PATH {
        takes_path(&rt, before, path.as_str(), after, want);
    }
}

#[test]
fn takes_numbers_of_each_length(rt: HostRuntime) {
    for points in "1 12 123 1234 12345 123456 1234567 12345678 123456789".split(' ') {
        let want = ["Credit { member: \"amy\", points: ", points, " }"];
        expect_asked(&rt, &["credit|F|amy|", points], "F", &want);
    }
}

fn takes_root(rt: &impl Host, len: usize) {
    let text = text_of(rt, &[(len, "a7")]);
    let root = root_of(text.as_str()).expect(rt, "a root");
    expect_case(rt, "a root", root.as_bytes().len(), len);
    let text = text.as_str();
    let want = ["add k of bob ", text, " V2"];
    expect_asked(rt, &["add-key|F|k|bob|", text], "F", &want);
}

#[test]
fn takes_roots_of_each_length(rt: HostRuntime) {
    for len in 16..65 {
        takes_root(&rt, len);
    }
}

static BEFORE_A_LONG_WORD: [(&str, End); 6] = [
    ("", Begins(2, "error: unrecognized subcommand 'wwwwwwww")),
    ("sheet|F|x|", Begins(2, "error: unexpected argument 'w")),
    ("sheet|F|", Begins(3, "bad value")),
    ("add-key|F|k|bob|", Begins(3, "bad value")),
    ("credit|F|amy|", Begins(3, "bad value")),
    ("serve|F|--port|1|--count|1|--zone|", Begins(3, "bad value")),
];

#[test]
fn refuses_long_words(rt: HostRuntime) {
    let word = text_of(&rt, &[(1_000, "w")]);
    for (before, end) in &BEFORE_A_LONG_WORD {
        expect_refused(&rt, before, word.as_str(), *end);
    }
}
