//! Tests of names, kinds, actions, days, hours, moments and slots.

use super::calls::*;
use crate::expect::{Host, expect_eq};
use crate::values::{moment, slot};
use club_values::ascii::text_of;
use club_values::digits::{read_digits, read_number, read_two, two_digits};
use club_values::{Day, Hour, Moment, Name, Weekday};
use std::fmt::Display;
use test_kit::COURT_AT_18;

fn is_name_again(text: &str) -> bool {
    match Name::read(text.as_bytes()) {
        Some(name) => name.as_str() == text && name.as_bytes() == text.as_bytes(),
        None => false,
    }
}

static NAMES: [(&str, bool); 9] = [
    ("a", true),
    ("court-1", true),
    ("0-", true),
    ("abcdefghijklmnopqrstuvwx", true),
    ("abcdefghijklmnopqrstuvwxy", false),
    ("", false),
    ("-a", false),
    ("Court", false),
    ("a b", false),
];

#[test]
fn names(rt: HostRuntime) {
    for (text, want) in &NAMES {
        expect_eq(&rt, is_name(text.as_bytes()), *want, text);
        expect_eq(&rt, is_name_again(text), *want, text);
    }
}

/// The day's number and date must convert back to the day.
fn is_day(rt: &impl Host, day: Day, text: &str, number: u16) {
    expect_eq(rt, day.number(), number, &text);
    expect_eq(rt, day.text().as_slice(), text.as_bytes(), &text);
    expect_eq(rt, day_numbered(number), Some(day), &text);
    expect_eq(rt, Day::from_date(day.date()), Some(day), &text);
}

static DAYS: [(&str, Option<u16>); 12] = [
    ("2000-01-01", Some(10957)),
    ("2000-02-29", Some(11016)),
    ("2024-02-29", Some(19782)),
    ("2026-12-31", Some(20818)),
    ("2099-12-31", Some(47481)),
    ("1999-12-31", None),
    ("2100-01-01", None),
    ("2026-02-29", None),
    ("2026-04-31", None),
    ("2026-5-01", None),
    ("2026/05/01", None),
    ("2026-05-011", None),
];

static NO_DAYS: [u16; 2] = [10_956, 47_482];

#[test]
fn days(rt: HostRuntime) {
    for (text, want) in &DAYS {
        let day = read_day(text.as_bytes());
        match *want {
            Some(number) => is_day(&rt, day.expect(&rt, "a day"), text, number),
            None => expect_eq(&rt, day, None, text),
        }
    }
    for number in &NO_DAYS {
        expect_eq(&rt, day_numbered(*number), None, number);
    }
    let last = day_numbered(47_481).expect(&rt, "a day");
    expect_eq(&rt, last.year_month_day(), (2099, 12, 31), &"last");
}

static WEEKDAYS: [(u16, Weekday); 4] = [
    (20_574, Weekday::Friday),
    (20_575, Weekday::Saturday),
    (20_576, Weekday::Sunday),
    (20_577, Weekday::Monday),
];

#[test]
fn weekdays(rt: HostRuntime) {
    for (number, want) in &WEEKDAYS {
        let day = day_numbered(*number).expect(&rt, "a day");
        expect_eq(&rt, day.weekday(), *want, number);
    }
}

static MOMENTS: [(&str, Option<u32>); 9] = [
    ("2000-01-01T00:00", Some(15_778_080)),
    ("2026-05-01T18:00", Some(29_627_640)),
    ("2099-12-31T23:59", Some(68_374_079)),
    ("2026-05-01T24:00", None),
    ("2026-05-01T23:60", None),
    ("2026-05-01 18:00", None),
    ("2026-05-01T18:0", None),
    ("2026-05-01", None),
    ("2026-", None),
];

static NO_MOMENTS: [u32; 2] = [15_778_079, 68_374_080];

/// The moment's number, and its day and minute, must convert back to the moment.
fn is_moment(rt: &impl Host, moment: Moment, text: &str, number: u32) {
    expect_eq(rt, moment.number(), number, &text);
    expect_eq(rt, moment.text().as_slice(), text.as_bytes(), &text);
    expect_eq(rt, moment_numbered(number), Some(moment), &text);
    let again = moment_at(moment.day(), moment.minute_of_day());
    expect_eq(rt, again, Some(moment), &text);
}

#[test]
fn moments(rt: HostRuntime) {
    for (text, want) in &MOMENTS {
        let moment = read_moment(text.as_bytes());
        match *want {
            Some(number) => is_moment(&rt, moment.expect(&rt, "a moment"), text, number),
            None => expect_eq(&rt, moment, None, text),
        }
    }
    for number in &NO_MOMENTS {
        expect_eq(&rt, moment_numbered(*number), None, number);
    }
    let day = day_numbered(20_574).expect(&rt, "a day");
    expect_eq(&rt, moment_at(day, 1440), None, &"minute 1440");
}

#[test]
fn start_of_a_slot(rt: HostRuntime) {
    let slot = slot(&rt, &COURT_AT_18);
    expect_eq(&rt, slot.start(), 29_627_640, &"2026-05-01T18:00");
}

static KINDS: [&str; 3] = ["court", "boat", "room"];

static ACTIONS: [&str; 4] = ["view", "book", "cancel", "account"];

fn expect_printed(rt: &impl Host, value: &impl Display, text: &str) {
    let printed = format!(in rt.alloc(); "{value}").expect(rt, "memory");
    expect_eq(rt, printed.as_str(), text, &text);
}

#[test]
fn kinds_and_actions(rt: HostRuntime) {
    for text in &KINDS {
        let kind = read_kind(text.as_bytes()).expect(&rt, "a kind");
        expect_printed(&rt, &kind, text);
    }
    for text in &ACTIONS {
        let action = read_action(text.as_bytes()).expect(&rt, "an action");
        expect_printed(&rt, &action, text);
    }
    expect_eq(&rt, read_kind(b"Court"), None, &"Court");
    expect_eq(&rt, read_action(b"books"), None, &"books");
}

fn hour_number(text: &str) -> Option<u8> {
    Some(Hour::read(text.as_bytes())?.number())
}

static HOURS: [(&str, Option<u8>); 5] = [
    ("00", Some(0)),
    ("23", Some(23)),
    ("24", None),
    ("8", None),
    ("0a", None),
];

#[test]
fn hours(rt: HostRuntime) {
    for (text, want) in &HOURS {
        expect_eq(&rt, hour_number(text), *want, text);
    }
    expect_eq(&rt, hour_numbered(24), None, &"24");
}

#[test]
fn displayed_values(rt: HostRuntime) {
    let slot = slot(&rt, &COURT_AT_18);
    expect_printed(&rt, &slot.facility, "court-1");
    expect_printed(&rt, &slot.day, "2026-05-01");
    expect_printed(&rt, &slot.hour, "18");
    expect_printed(&rt, &moment(&rt, "2026-05-01T18:05"), "2026-05-01T18:05");
}

static TWO_DIGITS: [([u8; 2], Option<u8>); 4] = [
    ([b'0', b'7'], Some(7)),
    ([b'9', b'9'], Some(99)),
    ([b' ', b'7'], None),
    ([b'7', b':'], None),
];

#[test]
fn digits_of_a_fixed_width(rt: HostRuntime) {
    for (text, want) in &TWO_DIGITS {
        expect_eq(&rt, read_two(text[0], text[1]), *want, text);
    }
    expect_eq(&rt, two_digits(7), *b"07", &7);
    expect_eq(&rt, text_of(b"07"), "07", &"ASCII");
}

static NUMBERS: [(&str, Option<u32>, Option<u32>); 9] = [
    ("0", Some(0), Some(0)),
    ("7", Some(7), Some(7)),
    ("00", None, Some(0)),
    ("012", None, Some(12)),
    ("999999999", Some(999_999_999), Some(999_999_999)),
    ("1000000000", None, None),
    ("", None, None),
    ("+1", None, None),
    ("1a", None, None),
];

#[test]
fn numbers(rt: HostRuntime) {
    for (text, number, digits) in &NUMBERS {
        expect_eq(&rt, read_number(text.as_bytes()), *number, text);
        expect_eq(&rt, read_digits(text.as_bytes()), *digits, text);
    }
}
