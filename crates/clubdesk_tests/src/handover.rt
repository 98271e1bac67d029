//! Commands that are handed over to a server's socket, and attempts with sleeps between them.

use crate::callers::Machine;
use crate::files::{AMY, new_club};
use crate::runs::{ClubFile, expect_eq};
use clubdesk_files::{
    Attempts, FileDoor, FileVisit, Servers, connect, gain, hand_over_to, hand_over_until_done,
    limit_answer,
};
use desk_server::{Door, Visit};
use std::alloc::Global;
use std::io::{Read, Write};
use std::net::Shutdown;
use std::os::unix::fs::symlink;
use std::os::unix::net::UnixStream;
use std::test::Fail;
use std::time::Duration;

const COMMAND: &[u8] = br#"["","clubdesk","add-member","club","amy","5"]"#;

const NO_FILE: &str = "none";

type Answer = Option<(u8, &'static str)>;

static ANSWERED: [(&[u8], Answer); 8] = [
    (b"!\0done\n\0", Some((0, "done\n"))),
    (b"!\x01refused: exists\0", Some((1, "refused: exists"))),
    (b"!\x04\0", Some((4, ""))),
    (b"!\x03\xc3\x84 is no\0", Some((3, "\u{c4} is no"))),
    // The answer is missing or incomplete.
    (b"!", None),
    (b"!\0", None),
    (b"!\0done\n", None),
    (b"!\0done\n!", None),
];

fn send(server: &mut UnixStream, bytes: &[u8]) -> Result<(), Fail> {
    server.write_all(bytes)?;
    Ok(server.shutdown(Shutdown::Write)?)
}

fn server_of(rt: &HostRuntime, bytes: &[u8]) -> Result<(UnixStream, UnixStream), Fail> {
    let (client, mut server) = UnixStream::pair(rt)?;
    send(&mut server, bytes)?;
    Ok((client, server))
}

fn expect_sent(rt: &HostRuntime, server: &mut UnixStream, bytes: &[u8]) -> Result<(), Fail> {
    let mut sent = Vec::new(rt.alloc());
    server.read_to_end(&mut sent)?;
    expect_eq(rt, sent.as_slice(), bytes)
}

fn expect_answer(rt: &HostRuntime, given: &Option<(u8, String)>, want: Answer) -> Result<(), Fail> {
    match given {
        Some((status, text)) => expect_eq(rt, Some((*status, text.as_str())), want),
        None => expect_eq(rt, None, want),
    }
}

// Hands `COMMAND` over to a server that has sent its bytes.
fn expect_handed(
    rt: &HostRuntime,
    path: &str,
    client: UnixStream,
    mut server: UnixStream,
    want: Answer,
) -> Result<(), Fail> {
    let answer = FileVisit::over(rt, path, client)?.give(COMMAND);
    expect_sent(rt, &mut server, COMMAND)?;
    expect_answer(rt, &answer, want)
}

#[test]
fn hands_a_command_over(rt: HostRuntime) -> Result<(), Fail> {
    for row in &ANSWERED {
        let (client, server) = server_of(&rt, row.0)?;
        expect_handed(&rt, NO_FILE, client, server, row.1)?;
    }
    Ok(())
}

/// Connections to the servers that haven't been asked yet. The next attempt asks the last of these
/// servers.
#[derive(Drop)]
struct Greeted(Global, Vec<UnixStream>);

impl Servers for Greeted {
    ghost hands = { λ _ _ _ _. Unit {0} };

    fn hand_over(&mut self, command: &[u8]) -> Option<(u8, String)> {
        hand_over_to(self.0, self.1.pop(), command)
    }
}

/// The servers' answers, the final answer, the number of asked servers, and the milliseconds slept.
struct Retried(&'static [&'static [u8]], Answer, usize, u64);

const UNDONE: &[u8] = b"\x09nothing was done\0";

static RETRIED: [Retried; 6] = [
    Retried(&[b"\0done\n\0", UNDONE], Some((0, "done\n")), 1, 0),
    Retried(&[UNDONE, b"\0done\n\0"], Some((0, "done\n")), 2, 10),
    Retried(&[UNDONE, UNDONE, b"\x01no\0"], Some((1, "no")), 3, 20),
    // The last asked server may have carried out the command, so no other server gets the command.
    Retried(&[b"", b"\0done\n\0"], None, 1, 0),
    Retried(&[UNDONE, b"\0done\n", b"\0done\n\0"], None, 2, 10),
    // After ten seconds, the program stops trying.
    Retried(&[UNDONE, UNDONE], Some((9, "nothing was done")), 2, 10_000),
];

fn tries_again(rt: &HostRuntime, retried: &Retried) -> Result<(), Fail> {
    let Retried(replies, want, got, millis) = retried;
    let mut servers = Vec::new(rt.alloc());
    let mut clients = Vec::new(rt.alloc());
    for bytes in *replies {
        let (client, server) = server_of(rt, bytes)?;
        servers.push(server)?;
        clients.push(client)?;
    }
    clients.reverse();
    let clock = Machine::new(Some(0), 0);
    let mut greeted = Greeted(rt.alloc(), clients);
    let answer = hand_over_until_done(&clock, &mut greeted, COMMAND);
    if replies.len().checked_sub(greeted.1.len()) != Some(*got) || clock.slept.get() != *millis {
        return Err("another number of servers was asked, or another time slept".into());
    }
    servers.truncate(*got);
    for server in servers.iter_mut() {
        expect_sent(rt, server, COMMAND)?;
    }
    expect_answer(rt, &answer, *want)
}

#[test]
fn tries_again_until_done(rt: HostRuntime) -> Result<(), Fail> {
    for retried in &RETRIED {
        tries_again(&rt, retried)?;
    }
    Ok(())
}

// The first server ended after its greeting, so it can't have carried out the command.
#[test]
fn nothing_was_done_by_a_server_that_is_gone(rt: HostRuntime) -> Result<(), Fail> {
    let (gone, server) = UnixStream::pair(&rt)?;
    drop(server);
    let (client, _server) = server_of(&rt, b"\0done\n\0")?;
    let mut greeted = Greeted(rt.alloc(), Vec::from_array(rt.alloc(), [client, gone])?);
    let clock = Machine::new(Some(0), 0);
    let answer = hand_over_until_done(&clock, &mut greeted, COMMAND);
    expect_answer(&rt, &answer, Some((0, "done\n")))
}

#[test]
fn gives_a_server_ten_minutes(rt: HostRuntime) -> Result<(), Fail> {
    let (client, _server) = UnixStream::pair(&rt)?;
    limit_answer(&client)?;
    let most = Some(Duration::from_secs(600));
    expect_eq(&rt, client.read_timeout()?, most)?;
    expect_eq(&rt, client.write_timeout()?, most)
}

/// The system resets a connection that is closed with unread bytes, so each greeting has at most
/// one byte.
static NO_GREETINGS: [&[u8]; 3] = [b"", b"?", b"\0"];

#[test]
fn hands_nothing_without_a_greeting(rt: HostRuntime) -> Result<(), Fail> {
    for bytes in &NO_GREETINGS {
        let (client, mut server) = server_of(&rt, bytes)?;
        expect_eq(&rt, FileVisit::over(&rt, NO_FILE, client).is_err(), true)?;
        expect_sent(&rt, &mut server, b"")?;
    }
    Ok(())
}

fn hand_over_by(rt: &HostRuntime, path: &str, link: &str) -> Result<(), Fail> {
    let door = FileDoor::make(rt, path)?;
    let client = connect(rt, link)?;
    let (mut server, _) = door.listener().ok_or("a door")?.accept()?;
    server.set_nonblocking(false)?;
    send(&mut server, b"!\0done\n\0")?;
    expect_handed(rt, link, client, server, Some((0, "done\n")))
}

#[test]
fn hands_over_by_a_door_behind_a_link(rt: HostRuntime) -> Result<(), Fail> {
    let club = new_club(&rt, "linked", &AMY)?;
    let link = ClubFile::new(&rt, "link")?;
    symlink(&rt, club.path(), link.path())?;
    hand_over_by(&rt, club.path(), link.path())
}

/// The number of attempts that fail before an attempt succeeds.
#[derive(Drop)]
struct Trier(u32);

impl Attempts for Trier {
    type Gain = ();

    ghost gains = { λ _ _ _. Unit {0} };

    fn attempt(&mut self) -> Option<()> {
        if self.0 == 0 {
            return Some(());
        }
        self.0 -= 1;
        None
    }
}

/// The number of failing attempts, whether one of five attempts succeeds, and the milliseconds
/// slept.
static TRIED: [(u32, bool, u64); 4] = [(0, true, 0), (1, true, 10), (4, true, 40), (5, false, 50)];

#[test]
fn sleeps_between_attempts(rt: HostRuntime) -> Result<(), Fail> {
    for (vain, gains, millis) in &TRIED {
        let clock = Machine::new(Some(0), 0);
        let gained = gain(&mut Trier(*vain), &clock, 5);
        expect_eq(
            &rt,
            (gained.is_some(), clock.slept.get()),
            (*gains, *millis),
        )?;
    }
    Ok(())
}
