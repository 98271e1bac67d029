//! Tests with a body of each permitted length.

use crate::bodies::{BAD_REQUEST, ask_with, booked};
use crate::expect::join;

// Spaces before the JSON object make bodies of 12 to 256 bytes.
#[test]
fn books_by_bodies_of_each_length(rt: HostRuntime) {
    for spaces in 0..245 {
        let body = join(&rt, &[(spaces, " "), (1, "{\"guests\":2}")]);
        ask_with(&rt, body.as_str(), &booked(&rt));
    }
}

#[test]
fn refuses_digits_of_each_length(rt: HostRuntime) {
    for len in 0..257 {
        let body = join(&rt, &[(len, "1")]);
        ask_with(&rt, body.as_str(), &BAD_REQUEST);
    }
}
