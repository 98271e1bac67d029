//! Measures each part of an exchange separately, for all requests.

use crate::sent::Sent;
use anyhow::{Result, anyhow};
use club_core::{ClubStore, Reply, Request};
use club_http::{Desk, MAX_REPLY_LEN, Routes, Words, reply_bytes, words_of};
use http_request::MAX_FIELDS;
use httparse::Status;
use httparse::spans::{EMPTY_HEADER_SPAN, HeaderSpan, parse_request};
use std::rt::Clock;
use std::time::{Duration, Instant};

/// Decodes the requests into the list `asked`, and returns the time of decoding. The list has room
/// for all requests, so the time doesn't include growing the list.
pub(crate) fn words(
    rt: &impl Clock,
    routes: &Routes,
    sent: &[Sent],
    asked: &mut Vec<Request>,
) -> Result<Duration> {
    let start = Instant::now(rt)?;
    for each in sent {
        match words_of(routes, each.text.as_bytes()) {
            Ok(words) => asked.push(words.request)?,
            Err(refusal) => return Err(anyhow!("a request is refused: {refusal:?}")),
        }
    }
    Ok(start.elapsed(rt)?)
}

/// Parses only the requests' heads with `httparse`, and returns the time of parsing.
pub(crate) fn heads(rt: &impl Clock, sent: &[Sent]) -> Result<Duration> {
    let mut fields = [EMPTY_HEADER_SPAN; MAX_FIELDS];
    let start = Instant::now(rt)?;
    for each in sent {
        if !has_head(each.text.as_bytes(), &mut fields) {
            return Err(anyhow!("a request has no head"));
        }
    }
    Ok(start.elapsed(rt)?)
}

fn has_head(bytes: &[u8], fields: &mut [HeaderSpan; MAX_FIELDS]) -> bool {
    matches!(parse_request(bytes, fields), Ok(Status::Complete(_)))
}

/// Collects the desk's replies in the list `replies`, and returns the time of answering. The list
/// has room for all replies, so the time doesn't include growing the list.
pub(crate) fn replies<S: ClubStore>(
    rt: &impl Clock,
    desk: &mut Desk<S>,
    sent: &[Sent],
    asked: &[Request],
    replies: &mut Vec<Reply>,
) -> Result<Duration> {
    let start = Instant::now(rt)?;
    for (each, request) in sent.iter().zip(asked) {
        replies.push(reply(desk, each, *request))?;
    }
    Ok(start.elapsed(rt)?)
}

fn reply<S: ClubStore>(desk: &mut Desk<S>, sent: &Sent, request: Request) -> Reply {
    let words = Words {
        pass: sent.pass.as_bytes(),
        request,
    };
    desk.ask(sent.moment, &words)
}

/// Writes the texts of the replies into a buffer, and returns the time of writing. Afterwards, the
/// last text is at the front of the buffer.
pub(crate) fn texts(
    rt: &impl Clock,
    replies: &[Reply],
    room: &mut [u8; MAX_REPLY_LEN],
) -> Result<Duration> {
    let start = Instant::now(rt)?;
    for reply in replies {
        reply_bytes(reply, room);
    }
    Ok(start.elapsed(rt)?)
}
