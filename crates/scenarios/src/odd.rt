//! Odd texts. Each text breaks a rule of the scenario language. The player must refuse each text at
//! the line that breaks the rule.

use crate::machine::Machines;
use crate::play::{Way, play};
use pass_forms::Form;
use std::alloc::{AllocError, Global};

/// The two lines before each text. The lines make a club and set a moment.
const CLUB: &str = "club  members amy 5 100; court-1 court 4 200 8-22; keys amy-1\n\
    at  2026-04-20T12:00\n";

/// Texts after the two lines of `CLUB`. The number is the line that the player must refuse.
static AFTER_A_CLUB: [(&str, usize); 29] = [
    ("", 2),
    ("amy-1", 3),
    ("amy-1  GET", 3),
    ("offce  revoke-key amy-1  done", 3),
    ("bob-1  GET account  200 {}", 3),
    ("amy-1 [unknown]  GET account  200 {}", 3),
    ("amy-1 [guests <= 1  GET account  200 {}", 3),
    ("amy-1  GET account", 3),
    ("amy-1  GET account  200", 3),
    ("amy-1  GET account  299 {}", 3),
    ("amy-1  GET account  200 {}", 3),
    ("amy-1  POST account  405 {}", 3),
    ("amy-1  GET account  200 {}  allows GET", 3),
    ("amy-1  POST account  405 {}  allows GET  3 bytes", 3),
    ("amy-1 [\\q]  GET account  200 {}", 3),
    ("text none  GET account  400 {}", 3),
    ("office  fly amy-1  done", 3),
    ("office  revoke-key  done", 3),
    ("office  revoke-key Amy  done", 3),
    ("office  open-slot court-1 2026-02-29 18  done", 3),
    ("office  add-key k amy 00  done", 3),
    ("office  revoke-key amy-1  dome", 3),
    ("office  revoke-key amy-1", 3),
    ("sheet  2026-05-01", 3),
    ("account  amy-1", 3),
    ("slot  court-1 2026-05-01", 3),
    ("at  2026-04-20", 3),
    ("reopen  as version 7", 3),
    ("root  third", 3),
];

/// More texts after the two lines of `CLUB`. The texts have a misplaced crash or misplaced indented
/// lines.
static MORE_LINES: [(&str, usize); 5] = [
    ("crash  at noon", 3),
    (
        "crash  anywhere in the next line; then the same line again\nreopen",
        4,
    ),
    (
        "office  credit amy 1  done\n\
        crash  anywhere in the next line; then the same line again",
        4,
    ),
    ("office  credit amy 1  done\n  more", 3),
    ("office  credit amy 1  done\n# a comment\n  more", 5),
];

/// Texts of complete files. The number is the line that the player must refuse.
static WHOLE: [(&str, usize); 10] = [
    ("amy-1  GET account  200 {}", 1),
    ("club  again", 1),
    ("club  members amy 100 5; keys amy-1", 1),
    ("club  members amy 5", 1),
    ("club  keys amy-1", 1),
    ("club  members amy 5 0, amy 5 0", 1),
    ("club  members amy 5 0; court 4 200", 1),
    ("club  members amy 5 0; keys amy-1 under x", 1),
    (" club", 1),
    ("club  empty\nnobody  GET account  200 {}", 2),
];

/// Returns true if playing a text stops at the line with this number.
fn is_refused(alloc: Global, text: &str, line: usize) -> Result<bool, AllocError> {
    let lines: Vec<&str> = text.lines().collect(alloc)?;
    let way = Way {
        form: Form::V2,
        keeps: false,
    };
    match play(alloc, &Machines, way, &lines) {
        Ok(_) => Ok(false),
        Err(at) => Ok(at.line == line),
    }
}

/// Plays texts after the lines in `front`. Returns the first text that the player doesn't refuse at
/// its line.
fn first_played<'a>(
    alloc: Global,
    front: &str,
    rows: &[(&'a str, usize)],
) -> Result<Option<&'a str>, AllocError> {
    for (text, line) in rows {
        let whole = format!(in alloc; "{front}{text}")?;
        if !is_refused(alloc, whole.as_str(), *line)? {
            return Ok(Some(*text));
        }
    }
    Ok(None)
}

/// Returns the first odd text that the player doesn't refuse at its line, or `None` if the player
/// refuses all odd texts.
pub(crate) fn first_played_of_all(alloc: Global) -> Result<Option<&'static str>, AllocError> {
    if let Some(text) = first_played(alloc, CLUB, &AFTER_A_CLUB)? {
        return Ok(Some(text));
    }
    if let Some(text) = first_played(alloc, CLUB, &MORE_LINES)? {
        return Ok(Some(text));
    }
    first_played(alloc, "", &WHOLE)
}
