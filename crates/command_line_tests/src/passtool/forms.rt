//! Passes that are made, narrowed, shown and written in each form.

use super::runs::*;
use crate::expect::Host;
use test_kit::End::{Begins, Writes};

// The first text has an empty location, and the other texts have no location. The last text is
// JSON in base64.
static OF_KEYID: [&str; 5] = [
    "AgEAAgVrZXlpZAAABiB83ueSURxbxvUoSFgF3-myTnheKOKpkwH51xHGCeOO9w",
    "AgIFa2V5aWQAAAYgfN7nklEcW8b1KEhYBd_psk54XijiqZMB-dcRxgnjjvc",
    "{\"c\":[],\"i\":\"keyid\",\"s64\":\"fN7nklEcW8b1KEhYBd_psk54XijiqZMB-dcRxgnjjvc\",\"v\":2}",
    "{\"i\":\"keyid\",\"s64\":\"fN7nklEcW8b1KEhYBd_psk54XijiqZMB-dcRxgnjjvc\"}",
    "eyJpIjoia2V5aWQiLCJzNjQiOiJmTjdua2xFY1c4YjFLRWhZQmRfcHNrNTRYaWppcVpNQi1kY1J4Z25qanZjIn0",
];

const REORDERED: &str =
    "{\"v\":2,\"l\":\"http://mybank/\",\"i\":\"we used our secret key\",\"c\":[{\"i\":\"test = caveat\"}],\"s64\":\"GXusegRK8zMyhluSZuJtSTvdZopmDkTYjOGpmMI9vWc\"}";

// The identifier is the byte 0xff.
const OTHER_BYTES: &str = "AgIB_wAABiB83ueSURxbxvUoSFgF3-myTnheKOKpkwH51xHGCeOO9w";

const OTHER_BYTES_JSON: &str =
    "{\"c\":[],\"i64\":\"_w\",\"s64\":\"fN7nklEcW8b1KEhYBd_psk54XijiqZMB-dcRxgnjjvc\",\"v\":2}";

#[test]
fn converts_every_text_of_a_pass(rt: HostRuntime) {
    for input in &OF_KEYID {
        expect(&rt, TO_V2, input.as_bytes(), Writes(OF_KEYID[1]));
        expect(&rt, TO_JSON, input.as_bytes(), Writes(OF_KEYID[2]));
    }
    expect(&rt, TO_V1, REORDERED.as_bytes(), Writes(TEXT));
    let other = OTHER_BYTES.as_bytes();
    expect(&rt, TO_JSON, other, Writes(OTHER_BYTES_JSON));
}

const NARROWED: &str =
    "MDAxY2xvY2F0aW9uIGh0dHA6Ly9teWJhbmsvCjAwMjZpZGVudGlmaWVyIHdlIHVzZWQgb3VyIHNlY3JldCBrZXkKMDAxNmNpZCB0ZXN0ID0gY2F2ZWF0CjAwMTRjaWQgZ3Vlc3RzIDw9IDIKMDAxNWNpZCBraW5kID0gY291cnQKMDAyZnNpZ25hdHVyZSAf_pg3glc9WpwOTs7pKp9ObqBoKVAQvPENbBgmZL4UYwo";

const DASHED_TEXT: &str =
    "MDAxY2xvY2F0aW9uIGh0dHA6Ly9teWJhbmsvCjAwMjZpZGVudGlmaWVyIHdlIHVzZWQgb3VyIHNlY3JldCBrZXkKMDAwYmNpZCAteAowMDJmc2lnbmF0dXJlIH5yFLJImuHOPzWujMWYmtw37uVf1cHSu9BEnMhq071KCg";

const V1_ON_FRIDAYS: &str =
    "MDAxY2xvY2F0aW9uIGh0dHA6Ly9teWJhbmsvCjAwMjZpZGVudGlmaWVyIHdlIHVzZWQgb3VyIHNlY3JldCBrZXkKMDAxNmNpZCB0ZXN0ID0gY2F2ZWF0CjAwMTZjaWQgd2Vla2RheSA9IGZyaQowMDJmc2lnbmF0dXJlIOCJPKhxcZk4uV_uzhE34LHxO85T7Ga7-rsgg_EtqqKICg";

const V2_ON_FRIDAYS: &str =
    "AgEOaHR0cDovL215YmFuay8CFndlIHVzZWQgb3VyIHNlY3JldCBrZXkAAg10ZXN0ID0gY2F2ZWF0AAINd2Vla2RheSA9IGZyaQAABiDgiTyocXGZOLlf7s4RN-Cx8TvOU-xmu_q7IIPxLaqiiA";

const JSON_ON_FRIDAYS: &str =
    "{\"c\":[{\"i\":\"test = caveat\"},{\"i\":\"weekday = fri\"}],\"i\":\"we used our secret key\",\"l\":\"http://mybank/\",\"s64\":\"4Ik8qHFxmTi5X-7OETfgsfE7zlPsZrv6uyCD8S2qoog\",\"v\":2}";

static NARROWINGS: [Row; 5] = [
    ("narrow|guests <= 2|kind = court", TEXT, Writes(NARROWED)),
    ("narrow|--any|--|-x", BARE_TEXT, Writes(DASHED_TEXT)),
    ("narrow|weekday = fri", TEXT, Writes(V1_ON_FRIDAYS)),
    ("narrow|weekday = fri", V2_TEXT, Writes(V2_ON_FRIDAYS)),
    ("narrow|weekday = fri", JSON_TEXT, Writes(JSON_ON_FRIDAYS)),
];

#[test]
fn narrows_in_the_form_it_came_in(rt: HostRuntime) {
    expect_rows(&rt, &NARROWINGS);
}

static MINTED: [&str; 2] = [
    "mint|--id|key:amy-1|kind = court|--root|00FF prints AgIJa2V5OmFteS0xAAIMa2luZCA9IGNvdXJ0AAAGICfWuQ_cMZP6886vBgHq1h-9kfS-piIzi-4GOPexX2IH",
    "mint|--root|ROOT|--id|we used our secret key|--location=http://mybank/|--form=v1|--|-x prints MDAxY2xvY2F0aW9uIGh0dHA6Ly9teWJhbmsvCjAwMjZpZGVudGlmaWVyIHdlIHVzZWQgb3VyIHNlY3JldCBrZXkKMDAwYmNpZCAteAowMDJmc2lnbmF0dXJlIH5yFLJImuHOPzWujMWYmtw37uVf1cHSu9BEnMhq071KCg",
];

fn expect_printed(rt: &impl Host, rows: &[&'static str]) {
    for row in rows {
        let (line, text) = row.split_once(" prints ").expect(rt, "a row");
        expect_unread(rt, line, "", Writes(text));
    }
}

#[test]
fn mints_passes(rt: HostRuntime) {
    expect_printed(&rt, &MINTED);
}

const V2_OF_24_LETTERS: &str =
    "AgEJY2x1Yi1kZXNrAhxrZXk6YWJjZGVmZ2hpamtsbW5vcHFyc3R1dnd4AAAGIBNlR4VGj8m96ZmIBUTHZTXVOtB9a8tjEv3fQ5S4lfFx";

static NAMED: [&str; 6] = [
    "mint|--root|00112233445566778899aabbccddeeff|--id|key:a|--location|club-desk|--form|v1 prints MDAxN2xvY2F0aW9uIGNsdWItZGVzawowMDE1aWRlbnRpZmllciBrZXk6YQowMDJmc2lnbmF0dXJlINUNOO5RwGYyFrLLxURCWimOR2Ke7JygR9qsvDKEn0veCg",
    "mint|--root|00112233445566778899aabbccddeeff|--id|key:a|--location|club-desk|--form|v2 prints AgEJY2x1Yi1kZXNrAgVrZXk6YQAABiDVDTjuUcBmMhayy8VEQlopjkdinuycoEfarLwyhJ9L3g",
    "mint|--root|00112233445566778899aabbccddeeff|--id|key:a|--location|club-desk|--form|json prints {\"c\":[],\"i\":\"key:a\",\"l\":\"club-desk\",\"s64\":\"1Q047lHAZjIWssvFREJaKY5HYp7snKBH2qy8MoSfS94\",\"v\":2}",
    "mint|--root|00112233445566778899aabbccddeeff|--id|key:abcdefghijklmnopqrstuvwx|--location|club-desk|--form|v1 prints MDAxN2xvY2F0aW9uIGNsdWItZGVzawowMDJjaWRlbnRpZmllciBrZXk6YWJjZGVmZ2hpamtsbW5vcHFyc3R1dnd4CjAwMmZzaWduYXR1cmUgE2VHhUaPyb3pmYgFRMdlNdU60H1ry2MS_d9DlLiV8XEK",
    "mint|--root|00112233445566778899aabbccddeeff|--id|key:abcdefghijklmnopqrstuvwx|--location|club-desk|--form|v2 prints AgEJY2x1Yi1kZXNrAhxrZXk6YWJjZGVmZ2hpamtsbW5vcHFyc3R1dnd4AAAGIBNlR4VGj8m96ZmIBUTHZTXVOtB9a8tjEv3fQ5S4lfFx",
    "mint|--root|00112233445566778899aabbccddeeff|--id|key:abcdefghijklmnopqrstuvwx|--location|club-desk|--form|json prints {\"c\":[],\"i\":\"key:abcdefghijklmnopqrstuvwx\",\"l\":\"club-desk\",\"s64\":\"E2VHhUaPyb3pmYgFRMdlNdU60H1ry2MS_d9DlLiV8XE\",\"v\":2}",
];

#[test]
fn prints_passes_of_short_and_long_names(rt: HostRuntime) {
    expect_printed(&rt, &NAMED);
    let verify = "verify|--root|00112233445566778899aabbccddeeff";
    expect(&rt, verify, V2_OF_24_LETTERS.as_bytes(), Writes("signed"));
}

const SHOWN_OF_24_LETTERS: &str =
    "form v2\nlocation club-desk\nidentifier key:abcdefghijklmnopqrstuvwx\nsignature 13654785468fc9bde999880544c76535d53ad07d6bcb6312fddf4394b895f171";

// The location has a backslash, a line feed, 0x7f and a space, and the identifier is 0x00.
const ODD: &str = "AgEHYVxiCn9-IAIBAAACAsOpAAAGIHze55JRHFvG9ShIWAXf6bJOeF4o4qmTAfnXEcYJ4473";

const SHOWN_ODD: &str =
    "form v2\nlocation a\\\\b\\x0a\\x7f~ \nidentifier \\x00\ncaveat 1 \\xc3\\xa9\nsignature 7cdee792511c5bc6f528485805dfe9b24e785e28e2a99301f9d711c609e38ef7";

static PASSES: [Row; 2] = [
    (SHOW, V2_OF_24_LETTERS, Writes(SHOWN_OF_24_LETTERS)),
    (SHOW, ODD, Writes(SHOWN_ODD)),
];

#[test]
fn shows_passes(rt: HostRuntime) {
    expect_rows(&rt, &PASSES);
}

#[test]
fn refuses_caveats_outside_the_language(rt: HostRuntime) {
    let first = Begins(5, "caveat 1 not understood");
    expect_unread(&rt, "narrow|test = caveat", "", first);
    expect_unread(&rt, "narrow|--|--any", "", first);
    let second = Begins(5, "caveat 2 not understood");
    expect_unread(&rt, "narrow|guests <= 1|x", "", second);
    let understood = "narrow|hours = 18-20|until < 2026-05-01T18:00";
    expect(&rt, understood, b"!", MALFORMED);
}
