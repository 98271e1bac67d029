//! Tests of the local times that clocks show. No contract states which instant the machine's clock
//! shows. A program in another language computed the moments from the zone database.

use super::always;
use super::doubles::{HandSet, Stopped};
use crate::expect::{Runtime, expect_eq, expect_row, moment, noon};
use club_clock::{Clock, Moments, MomentsOf, Zone};
use club_values::Moment;
use jiff_core::Timestamp;
use std::time::{self, Duration};

const BERLIN: &str = "CET-1CEST,M3.5.0,M10.5.0/3";

/// A zone's rule, the seconds since the start of 1970, and the moment.
type Shown = (&'static str, i64, Option<&'static str>);

static SHOWN: [Shown; 15] = [
    ("UTC0", 1_777_658_459, Some("2026-05-01T18:00")),
    (
        "EST5EDT,M3.2.0,M11.1.0",
        1_777_651_259,
        Some("2026-05-01T12:00"),
    ),
    ("IST-5:30", 1_777_651_200, Some("2026-05-01T21:30")),
    ("UTC0", 946_684_799, None),
    ("UTC0", 946_684_800, Some("2000-01-01T00:00")),
    (BERLIN, 946_681_199, None),
    (BERLIN, 946_681_200, Some("2000-01-01T00:00")),
    ("EST5", 946_684_800, None),
    ("EST5", 946_702_800, Some("2000-01-01T00:00")),
    ("UTC0", 4_102_444_799, Some("2099-12-31T23:59")),
    ("UTC0", 4_102_444_800, None),
    (BERLIN, 4_102_441_199, Some("2099-12-31T23:59")),
    (BERLIN, 4_102_441_200, None),
    ("UTC0", -1, None),
    ("UTC0", 253_402_300_800, None),
];

fn zone_of(rt: &impl Runtime, rule: &'static str) -> Zone<'static> {
    Zone::from_rule(rule).expect(rt, "a zone")
}

pub fn clock_in<'c, C: time::Clock>(
    rt: &impl Runtime,
    rule: &'static str,
    machine: &'c C,
) -> MomentsOf<'static, 'c, C> {
    MomentsOf {
        clock: Clock::InZone(zone_of(rt, rule)),
        machine,
    }
}

/// Returns a clock that shows noon in UTC for `times` readings, and then fails.
pub fn noons(times: u64) -> HandSet {
    let clock = HandSet::new(1_776_686_400_000_000, 0);
    clock.readable.set(times);
    clock
}

/// The clock can't be read if the second is `None`.
fn moment_of(rt: &impl Runtime, rule: &'static str, second: Option<u64>) -> Option<Moment> {
    let clock = Stopped(second.map(Duration::from_secs));
    clock_in(rt, rule, &clock).now()
}

fn moment_in_zone(rt: &impl Runtime, rule: &'static str, second: i64) -> Option<Moment> {
    let nanosecond = i128::from(second) * 1_000_000_000;
    let instant = Timestamp::from_nanosecond(nanosecond).ok()?;
    zone_of(rt, rule).moment_at(instant)
}

fn shows_row(rt: &impl Runtime, (rule, second, text): Shown) {
    let wanted = text.map(|text| moment(rt, text));
    let row = (rule, second);
    expect_row(rt, &moment_in_zone(rt, rule, second), &wanted, row);
    if let Ok(second) = u64::try_from(second) {
        expect_row(rt, &moment_of(rt, rule, Some(second)), &wanted, row);
    }
}

#[test]
fn shows_the_minute_of_a_clock(rt: HostRuntime) {
    for row in &SHOWN {
        shows_row(&rt, *row);
    }
    expect_eq(&rt, moment_of(&rt, "UTC0", None), None);
}

static NO_ZONES: [&str; 5] = ["", "UTC", "Europe/Berlin", "CET-1CEST,M3.5.0", "X0"];

#[test]
fn rules_of_no_zone(rt: HostRuntime) {
    for rule in &NO_ZONES {
        expect_row(&rt, Zone::from_rule(rule).is_none(), true, *rule);
    }
}

/// The days in March on which summer time starts in Berlin, from 2000 to 2099. `OCTOBER` has the
/// days on which summer time ends. Both changes are at 01:00 UTC.
static MARCH: [u8; 100] = [
    26, 25, 31, 30, 28, 27, 26, 25, 30, 29, 28, 27, 25, 31, 30, 29, 27, 26, 25, 31, 29, 28, 27, 26,
    31, 30, 29, 28, 26, 25, 31, 30, 28, 27, 26, 25, 30, 29, 28, 27, 25, 31, 30, 29, 27, 26, 25, 31,
    29, 28, 27, 26, 31, 30, 29, 28, 26, 25, 31, 30, 28, 27, 26, 25, 30, 29, 28, 27, 25, 31, 30, 29,
    27, 26, 25, 31, 29, 28, 27, 26, 31, 30, 29, 28, 26, 25, 31, 30, 28, 27, 26, 25, 30, 29, 28, 27,
    25, 31, 30, 29,
];

static OCTOBER: [u8; 100] = [
    29, 28, 27, 26, 31, 30, 29, 28, 26, 25, 31, 30, 28, 27, 26, 25, 30, 29, 28, 27, 25, 31, 30, 29,
    27, 26, 25, 31, 29, 28, 27, 26, 31, 30, 29, 28, 26, 25, 31, 30, 28, 27, 26, 25, 30, 29, 28, 27,
    25, 31, 30, 29, 27, 26, 25, 31, 29, 28, 27, 26, 31, 30, 29, 28, 26, 25, 31, 30, 28, 27, 26, 25,
    30, 29, 28, 27, 25, 31, 30, 29, 27, 26, 25, 31, 29, 28, 27, 26, 31, 30, 29, 28, 26, 25, 31, 30,
    28, 27, 26, 25,
];

/// Ends the test unless a clock in Berlin shows `time` when `seconds` seconds have passed since
/// midnight UTC.
fn shows(rt: &impl Runtime, (year, month, day): (u16, &str, u8), seconds: u16, time: &str) {
    let text = format!(in rt.alloc(); "{year}-{month}-{day}T{time}").expect(rt, "memory");
    let wanted = moment(rt, text.as_str());
    let second = u64::from(wanted.day().number()) * 86_400 + u64::from(seconds);
    let shown = moment_of(rt, BERLIN, Some(second));
    expect_row(rt, shown, Some(wanted), text.as_str());
}

#[test]
fn shows_the_night_of_each_winter_and_summer(rt: HostRuntime) {
    for year in 2000..2100 {
        shows(&rt, (year, "01", 15), 7_380, "03:03");
        shows(&rt, (year, "07", 15), 3_780, "03:03");
    }
}

fn shows_changes(rt: &impl Runtime, month: &str, days: &[u8], before: &str, after: &str) {
    for year in 2000..2100u16 {
        let day = *days.get(usize::from(year - 2000)).expect(rt, "a day");
        shows(rt, (year, month, day), 3_599, before);
        shows(rt, (year, month, day), 3_600, after);
    }
}

#[test]
fn shows_the_beginning_of_each_summer_time(rt: HostRuntime) {
    shows_changes(&rt, "03", &MARCH, "01:59", "03:00");
}

#[test]
fn shows_the_end_of_each_summer_time(rt: HostRuntime) {
    shows_changes(&rt, "10", &OCTOBER, "02:59", "02:00");
}

const BEGINNING_OF_2030: u64 = 1_893_456_000;

#[test]
fn shows_each_minute_of_a_day(rt: HostRuntime) {
    let first = moment(&rt, "2030-01-01T00:00").number();
    for minute in 0..1_440 {
        let second = BEGINNING_OF_2030 + u64::from(minute) * 60;
        for second in [second, second + 59] {
            let wanted = Moment::from_number(first.saturating_add(minute));
            expect_row(&rt, moment_of(&rt, "UTC0", Some(second)), wanted, minute);
        }
    }
}

#[test]
fn shows_a_clock_that_advances(rt: HostRuntime) {
    let clock = HandSet::new(946_684_740_000_000, 60_000_000);
    let mut moments = clock_in(&rt, "UTC0", &clock);
    expect_eq(&rt, moments.now(), Some(moment(&rt, "2000-01-01T00:00")));
    expect_eq(&rt, moments.now(), Some(moment(&rt, "2000-01-01T00:01")));
}

fn minute_of(rt: &impl Runtime) -> u64 {
    rt.since_1970().expect(rt, "a time").as_secs() / 60
}

// The minute may change between the three readings of the clock.
#[test]
fn shows_the_machines_clock(rt: HostRuntime) {
    let before = minute_of(&rt);
    let shown = clock_in(&rt, "UTC0", &rt).now().expect(&rt, "a moment");
    let within = before..=minute_of(&rt);
    expect_eq(&rt, within.contains(&u64::from(shown.number())), true);
}

#[test]
fn gives_one_moment(rt: HostRuntime) {
    let mut fixed = always(noon(&rt));
    expect_eq(&rt, fixed.now(), Some(noon(&rt)));
    expect_eq(&rt, fixed.now(), Some(noon(&rt)));
}
