//! The rows of a database, as lines of text.

use crate::expect::{Host, push, text};
use sqlite::{Alter, Connection, Row};

/// The statements leave out open slots that nobody has booked.
static TABLES: [(&str, &str); 7] = [
    ("desk", "SELECT 'desk ' || version FROM desk"),
    (
        "members",
        "SELECT 'member ' || name || ' ' || credited || ' ' || quota || ' ' || used FROM members",
    ),
    (
        "facilities",
        "SELECT 'facility ' || name || ' ' || kind || ' ' || places || ' ' || price || ' ' || \
            opens || ' ' || shuts FROM facilities",
    ),
    (
        "keys",
        "SELECT 'key ' || name || ' ' || member || ' ' || hex(root) || ' ' || revoked FROM keys",
    ),
    (
        "old_roots",
        "SELECT 'old root ' || pass_key || ' ' || hex(root) || ' ' || until FROM old_roots",
    ),
    (
        "slots",
        "SELECT 'slot ' || facility || ' ' || day || ' ' || hour || ' ' || closed || ' ' || taken \
            FROM slots WHERE closed <> 0 OR taken <> 0",
    ),
    (
        "bookings",
        "SELECT 'booking ' || pass_key || ' ' || number || ' ' || facility || ' ' || day || ' ' \
            || hour || ' ' || guests || ' ' || charge || ' ' || remains || ' ' || cancelled \
            || ' ' || refund FROM bookings",
    ),
];

pub(crate) fn none_of(rt: &impl Host, table: &str) -> String {
    text(rt, format!(in rt.alloc(); "no {table}"))
}

pub(crate) fn add_no_tables(rt: &impl Host, lines: &mut Vec<String>) {
    for (table, _) in &TABLES {
        push(rt, lines, none_of(rt, table));
    }
}

fn add_rows(rt: &impl Host, lines: &mut Vec<String>, rows: &[Row]) {
    for row in rows {
        let line: Option<String> = row.get(0).ok();
        push(rt, lines, line.expect(rt, "a line"));
    }
}

pub(crate) fn lines_in<S: Alter>(rt: &impl Host, connection: &mut Connection<S>) -> Vec<String> {
    let mut lines = Vec::new(rt.alloc());
    for (table, statement) in &TABLES {
        let rows: Option<Vec<Row>> = connection.query_all(statement, &[]).ok();
        match rows {
            Some(rows) => add_rows(rt, &mut lines, rows.as_slice()),
            None => push(rt, &mut lines, none_of(rt, table)),
        }
    }
    lines.sort().expect(rt, "memory");
    lines
}
