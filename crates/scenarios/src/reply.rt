//! Makes the bytes of the replies that the lines of a scenario state.

use crate::fault::{Fault, needed};
use crate::text::{halves, number};
use std::alloc::{AllocError, Global};

const METHODS: &str = "with status 405, and with no other, the methods of the path are told";

/// Returns the reason phrase of a status.
fn phrase(status: &str) -> Option<&'static str> {
    match status {
        "200" => Some("OK"),
        "400" => Some("Bad Request"),
        "401" => Some("Unauthorized"),
        "402" => Some("Payment Required"),
        "403" => Some("Forbidden"),
        "404" => Some("Not Found"),
        "405" => Some("Method Not Allowed"),
        "409" => Some("Conflict"),
        "503" => Some("Service Unavailable"),
        _ => None,
    }
}

/// Returns the methods in the column after a reply with status 405. Returns `None` for other
/// statuses.
fn methods<'a>(status: &str, columns: &[&'a str]) -> Result<Option<&'a str>, Fault> {
    let mut found = None;
    for column in columns {
        found = column.strip_prefix("allows ").or(found);
    }
    if found.is_some() == (status == "405") {
        Ok(found)
    } else {
        Err(Fault::Rule(METHODS))
    }
}

/// Returns the header field that only replies with this status have, with CR LF. Returns an empty
/// text for other statuses.
fn own_field(alloc: Global, status: &str, methods: Option<&str>) -> Result<String, AllocError> {
    match methods {
        Some("GET") => String::from_str(alloc, "Allow: GET\r\n"),
        Some(_) => String::from_str(alloc, "Allow: PUT, DELETE\r\n"),
        None if status == "401" => String::from_str(alloc, "WWW-Authenticate: Bearer\r\n"),
        None => Ok(String::new(alloc)),
    }
}

/// Checks a stated number of bytes, such as `43 bytes` for the body or `133 in all` for the reply.
/// Fails if the number is wrong.
fn expect_count(count: &str, body: usize, all: usize) -> Result<(), Fault> {
    let (digits, what) = halves(count, ' ', "a count has a number")?;
    let found = match what {
        "bytes" => body,
        "in all" => all,
        _ => return Err(Fault::Rule("what follows a reply is a count of its bytes")),
    };
    if number(digits)? as usize == found {
        Ok(())
    } else {
        Err(Fault::Rule("the reply has another number of bytes"))
    }
}

fn expect_counts(columns: &[&str], body: usize, all: usize) -> Result<(), Fault> {
    for column in columns {
        if column.starts_with("allows ") {
            continue;
        }
        for count in column.split(", ") {
            expect_count(count, body, all)?;
        }
    }
    Ok(())
}

/// Returns the reply that the columns describe. The columns are `STATUS BODY`, then the methods,
/// then the numbers of bytes.
pub(crate) fn reply_of(alloc: Global, columns: &[&str]) -> Result<String, Fault> {
    let Some((reply, others)) = columns.split_first() else {
        return Err(Fault::Rule("no expectation"));
    };
    let (status, body) = halves(reply, ' ', "a reply has a status and a body")?;
    let phrase = needed(phrase(status), "no status of the desk")?;
    let own = own_field(alloc, status, methods(status, others)?)?;
    let len = body.len();
    let text = format!(in alloc;
        "HTTP/1.1 {status} {phrase}\r\nContent-Type: application/json\r\nContent-Length: {len}\r\n\
        {own}Connection: close\r\n\r\n{body}"
    )?;
    expect_counts(others, len, text.len())?;
    Ok(text)
}
