//! The bytes of the longest reply. Writing the reply doesn't change the rest of the buffer.

use crate::expect::{Runtime, expect_bytes, expect_row};
use club_core::Reply;
use club_values::Name;
use http_response::{MAX_REPLY_LEN, reply_bytes};

static UNTOUCHED: [u8; MAX_REPLY_LEN] = [b'x'; MAX_REPLY_LEN];

fn writes(rt: &impl Runtime, reply: &Reply, text: &str, len: usize) {
    expect_row(rt, text.len(), len, text);
    let mut room = UNTOUCHED;
    let written = reply_bytes(reply, &mut room);
    expect_bytes(rt, &room[..written], text.as_bytes(), text);
    expect_bytes(rt, &room[written..], &UNTOUCHED[written..], text);
}

#[test]
fn the_longest_reply(rt: HostRuntime) {
    let reply = Reply::AccountShown {
        member: Name::read(b"a23456789-123456789-1234").expect(&rt, "a name"),
        balance: u32::MAX,
        quota: u8::MAX,
        open_count: u64::MAX,
        spent: u64::MAX,
    };
    let text = "HTTP/1.1 200 OK\r\nContent-Type: application/json\r\nContent-Length: 127\r\n\
        Connection: close\r\n\r\n\
        {\"member\":\"a23456789-123456789-1234\",\"balance\":4294967295,\"quota\":255,\
        \"open\":18446744073709551615,\"spent\":18446744073709551615}";
    writes(&rt, &reply, text, 218);
}
