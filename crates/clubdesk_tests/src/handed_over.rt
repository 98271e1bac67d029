//! Commands that are handed to a server, and bytes that encode no command.

use crate::callers::Input;
use crate::memory::play;
use crate::runs::{Fixture, ServerAnswer, expect_eq, parts_of};
use club_core::ClubStore;
use club_store::Store;
use clubdesk_commands::OfficeDesk;
use desk_server::Office;
use std::test::Fail;

/// The number of bytes that a server gets, and a row. The part after `=>` is the server's answer.
static HANDED: [(usize, &str); 10] = [
    // The bytes are `["","clubdesk","add-member","club","amy","5"]`.
    (45, "add-member amy 5 => 0 done\n"),
    (45, "add-member amy 5 => 1 refused: exists"),
    (40, "debit amy 5 => 0 done\n"),
    (44, "set-quota amy 5 => 0 done\n"),
    (62, "open-slot court-1 2026-05-01 18 => 0 done\n"),
    (43, "sheet 2026-05-02 => 0 Day sheet 2026-05-02\n"),
    (43, "sheet 2026-05-02 => 4 out of memory"),
    (43, "revoke-key amy-1 => 8 no answer"),
    (0, "credit amy none => 3 bad value"),
    // The root from the input adds 32 bytes.
    (93, "add-key amy-1 amy --root-stdin => 0 done\n"),
];

// Status 8 means that the server doesn't answer.
fn answer_of(row: &str) -> Result<ServerAnswer<'_>, Fail> {
    let (status, text) = parts_of(row)?.1.split_once(' ').ok_or("an end")?;
    match status.parse().ok() {
        Some(8) => Ok(None),
        Some(status) => Ok(Some((status, text))),
        None => Err("a status".into()),
    }
}

fn hand_over(rt: &HostRuntime, bytes: usize, row: &str) -> Result<(), Fail> {
    let scene = Fixture {
        server: Some(answer_of(row)?),
        input: Input::Bytes(b"00112233445566778899aabbccddeeff\n"),
        ..Fixture::after(&[])
    };
    let played = play(rt, &scene, row)?;
    expect_eq(rt, played.notes.handed.get(), bytes)?;
    played.expect_openings(0, 0)
}

#[test]
fn hands_commands_over(rt: HostRuntime) -> Result<(), Fail> {
    for row in &HANDED {
        hand_over(&rt, row.0, row.1)?;
    }
    Ok(())
}

/// An empty root and the arguments.
const WHOLE: &[u8] = br#"["","clubdesk","add-member","club","amy","5"]"#;

/// Status 2 means that the bytes encode no command, and status 3 means a bad value. The second
/// complete command is refused, because the member exists.
static COMMANDS: [(&[u8], u8); 19] = [
    (br#"["","clubdesk","add-member","club","amy","5"],"#, 2),
    (br#"["","clubdesk","add-member","club","amy",5]"#, 2),
    (br#"["","clubdesk","add-member","club","amy","5",null]"#, 2),
    (br#"[null,"clubdesk","add-member","club","amy","5"]"#, 2),
    (br#"[["","clubdesk","add-member","club","amy","5"]]"#, 2),
    (br#"{"":["clubdesk","add-member","club","amy","5"]}"#, 2),
    (
        b"[\"\",\"clubdesk\",\"add-member\",\"club\",\"am\xff\",\"5\"]",
        2,
    ),
    (b"5\0\0clubdesk\0add-member\0club\0amy\05\0", 2),
    (b"[]", 2),
    (br#"[""]"#, 2),
    (br#"["","clubdesk"]"#, 2),
    (br#"["","clubdesk","fly"]"#, 2),
    (br#"["","clubdesk","--help"]"#, 2),
    (br#"["","clubdesk","serve","club","--port","0"]"#, 2),
    (br#"["","clubdesk","add-member","club","amy","none"]"#, 3),
    (br#"["","clubdesk","add-member","club","a\u0000","5"]"#, 3),
    (
        b"[\"\",\"clubdesk\",\"add-member\",\"club\",\"\xc3\x84\",\"5\"]",
        3,
    ),
    (WHOLE, 0),
    (
        br#" [ "", "clubdesk", "add-member", "club", "a\u006dy", "5" ] "#,
        1,
    ),
];

fn expect_statuses<D: Office>(rt: &HostRuntime, desk: &mut D) -> Result<(), Fail> {
    for length in 0..WHOLE.len() {
        expect_eq(rt, desk.command(&WHOLE[..length]).carried.status, 2)?;
    }
    for row in &COMMANDS {
        expect_eq(rt, desk.command(row.0).carried.status, row.1)?;
    }
    Ok(())
}

fn refuse<S: ClubStore + Drop>(rt: &HostRuntime, store: S) -> Result<(), Fail> {
    expect_statuses(rt, &mut OfficeDesk::new(rt.alloc(), rt, store))
}

#[test]
fn refuses_bytes_that_are_no_command(rt: HostRuntime) -> Result<(), Fail> {
    refuse(&rt, Store::open_in_memory(rt.alloc())?)
}
