//! Splits a file into lines, and a line into columns.

use std::alloc::{AllocError, Global};

/// The separator of two columns. More spaces are allowed.
const GAP: &str = "  ";

/// The words that can begin a line. A single space can separate such a word from the next column.
static WORDS: [&str; 11] = [
    "club", "root", "text", "at", "bytes", "office", "sheet", "account", "slot", "crash", "reopen",
];

/// Returns the indented lines at the start of `lines`. Indented lines belong to the line above
/// them.
pub(crate) fn below<'a>(lines: &'a [&'a str]) -> &'a [&'a str] {
    let next = lines.iter().position(|line| !line.starts_with(' '));
    &lines[..next.unwrap_or(lines.len())]
}

/// Splits a line into its first word and the rest. Returns `None` if no word of the scenario
/// language begins the line.
fn first_word(line: &str) -> Option<(&str, &str)> {
    let (word, rest) = line.split_once(' ').unwrap_or((line, ""));
    if WORDS.contains(&word) {
        Some((word, rest))
    } else {
        None
    }
}

fn push_columns<'a>(columns: &mut Vec<&'a str>, line: &'a str) -> Result<(), AllocError> {
    for column in line.split(GAP) {
        let column = column.trim_matches(' ');
        if !column.is_empty() {
            columns.push(column)?;
        }
    }
    Ok(())
}

/// Returns the columns of a line.
pub(crate) fn columns_of<'a>(alloc: Global, line: &'a str) -> Result<Vec<&'a str>, AllocError> {
    let mut columns = Vec::new(alloc);
    match first_word(line) {
        Some((word, rest)) => {
            columns.push(word)?;
            push_columns(&mut columns, rest)?;
        }
        None => push_columns(&mut columns, line)?,
    }
    Ok(columns)
}
