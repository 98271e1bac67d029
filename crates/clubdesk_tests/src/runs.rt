//! Runs of the program, and clubs in files. A row has a command without the name of its database,
//! then the expected end. An end is a status, and the output or the line of a fault.

use crate::callers::{Caller, Input, Machine, Notes};
use club_core::StoreFault;
use club_http::WriteOutlet;
use clubdesk_commands::run_process;
use clubdesk_files::{DatabasesUser, run_over_files};
use desk_server::{Databases, Log, LogLines, Reached};
use std::alloc::AllocError;
use std::env::Env;
use std::fmt::Debug;
use std::io::{Read, Write};
use std::test::Fail;
use std::time::Clock;
use std::{env, fs, process};
use test_kit::Process;

pub type ServerAnswer<'a> = Option<(u8, &'a str)>;

#[derive(Clone, Copy)]
pub struct Fixture<'a> {
    pub before: &'a [&'a str],
    pub after: &'a [&'a str],
    /// The input, the number of writable bytes, whether a flush succeeds, and the clients'
    /// requests.
    pub input: Input<'a>,
    pub room: usize,
    pub flushes: bool,
    pub requests: &'a [&'a str],
    /// Only for a database in memory: the values of `Machine`, the fault of an opening, and a
    /// server's answer.
    pub second: Option<u64>,
    pub later: u64,
    pub fault: Option<StoreFault>,
    pub server: Option<ServerAnswer<'a>>,
    /// Only for a database in a file: whether the server is killed, and a file to remove when the
    /// server starts to listen.
    pub is_killed: bool,
    pub removed: Option<&'a str>,
}

impl<'a> Fixture<'a> {
    pub fn after(before: &'a [&'a str]) -> Fixture<'a> {
        Fixture::between(before, &[], &[])
    }

    /// A run between the rows of `before` and `after`, in which clients send `requests`.
    pub fn between(
        before: &'a [&'a str],
        requests: &'a [&'a str],
        after: &'a [&'a str],
    ) -> Fixture<'a> {
        Fixture {
            before,
            after,
            input: Input::Bytes(b""),
            room: 65_536,
            flushes: true,
            requests,
            second: Some(0),
            later: 0,
            fault: None,
            server: None,
            is_killed: false,
            removed: None,
        }
    }

    pub fn reading(mut self, input: Input<'a>) -> Fixture<'a> {
        self.input = input;
        self
    }
}

/// `returned` has the status and the text, and `taken` is the number of written bytes.
#[derive(Drop)]
pub struct Output {
    pub returned: String,
    pub taken: usize,
    pub reply: Vec<u8>,
    pub log: Vec<u8>,
}

fn text_of(rt: &HostRuntime, status: u8, error: &str, output: &[u8]) -> Result<String, AllocError> {
    if status == 0 {
        let text = str::from_utf8(output).unwrap_or("no text");
        format!(in rt.alloc(); "{status} {text}")
    } else {
        let line = error.strip_suffix('\n').unwrap_or("no line");
        format!(in rt.alloc(); "{status} {line}")
    }
}

fn arguments_of<'l>(rt: &HostRuntime, line: &'l str) -> Result<Vec<&'l [u8]>, AllocError> {
    line.split(' ')
        .map(|word| word.as_bytes())
        .collect(rt.alloc())
}

fn status_of<P: Env + Eprint + AllocGlobal, C: Clock, D: Databases, R: Read, W: Write, G: Log>(
    rt: &HostRuntime,
    process: &P,
    machine: &C,
    databases: &mut D,
    reader: &mut R,
    writer: &mut W,
    lines: &mut G,
) -> u8 {
    let mut process = process;
    run_process(rt, &mut process, machine, databases, reader, writer, lines)
}

fn run_over<C: Clock, D: Databases>(
    rt: &HostRuntime,
    machine: &C,
    notes: &Notes,
    databases: &mut D,
    scene: &Fixture<'_>,
    line: &str,
) -> Result<Output, AllocError> {
    let arguments = arguments_of(rt, line)?;
    let process = Process::new(rt.alloc(), arguments.as_slice());
    let mut input = scene.input;
    let mut caller = Caller::new(rt, scene, notes);
    let mut log = Vec::new(rt.alloc());
    let mut lines = LogLines::new(WriteOutlet::new(&mut log), machine);
    let reader = &mut input;
    let writer = &mut caller;
    let status = status_of(rt, &process, machine, databases, reader, writer, &mut lines);
    let printed = process.into_printed();
    Ok(Output {
        returned: text_of(rt, status, printed.as_str(), caller.written_bytes())?,
        taken: caller.written_bytes().len(),
        reply: caller.reply(),
        log,
    })
}

/// `--version` needs no database.
pub fn line_of(rt: &HostRuntime, name: &str, words: &str) -> Result<String, AllocError> {
    match words.split_once(' ') {
        Some((command, rest)) => format!(in rt.alloc(); "clubdesk {command} {name} {rest}"),
        None => format!(in rt.alloc(); "clubdesk {words}"),
    }
}

pub fn expect_eq<T: Copy + PartialEq + Debug>(
    rt: &HostRuntime,
    returned: T,
    want: T,
) -> Result<(), Fail> {
    if returned == want {
        return Ok(());
    }
    Err(format!(in rt.alloc(); "{returned:?} in place of {want:?}")?.into())
}

pub fn parts_of(row: &str) -> Result<(&str, &str), Fail> {
    Ok(row.split_once(" => ").ok_or("a row")?)
}

pub fn expect_end(rt: &HostRuntime, row: &str, returned: &str) -> Result<(), Fail> {
    if returned == parts_of(row)?.1 {
        return Ok(());
    }
    Err(format!(in rt.alloc(); "{row}: {returned}")?.into())
}

fn play_rows<D: Databases>(
    rt: &HostRuntime,
    databases: &mut D,
    name: &str,
    rows: &[&str],
) -> Result<(), Fail> {
    for row in rows {
        let line = line_of(rt, name, parts_of(row)?.0)?;
        let machine = Machine::new(Some(0), 0);
        let notes = Notes::default();
        let scene = Fixture::after(&[]);
        let output = run_over(rt, &machine, &notes, databases, &scene, line.as_str())?;
        expect_end(rt, row, output.returned.as_str())?;
    }
    Ok(())
}

pub fn play_over<C: Clock, D: Databases>(
    rt: &HostRuntime,
    machine: &C,
    notes: &Notes,
    databases: &mut D,
    name: &str,
    scene: &Fixture<'_>,
    words: &str,
) -> Result<Output, Fail> {
    play_rows(rt, databases, name, scene.before)?;
    let line = line_of(rt, name, words)?;
    let output = run_over(rt, machine, notes, databases, scene, line.as_str())?;
    play_rows(rt, databases, name, scene.after)?;
    Ok(output)
}

/// A killed run drops its databases without closing them.
#[derive(Drop)]
struct Fragile<'d, D> {
    databases: &'d mut D,
    is_killed: bool,
}

impl<D: Databases> Databases for Fragile<'_, D> {
    type Store = D::Store;

    type Door = D::Door;

    type Visit = D::Visit;

    ghost opens = { λ _ _ _ _. Unit {0} };

    ghost reaches = { λ _ _ _ _. Unit {0} };

    ghost closes = { λ _ _ _. Unit {0} };

    fn open(&mut self, name: &str) -> Result<D::Store, StoreFault> {
        self.databases.open(name)
    }

    fn reach(&mut self, name: &str) -> Result<Reached<D::Store, D::Visit>, StoreFault> {
        self.databases.reach(name)
    }

    fn close(&mut self, store: D::Store) {
        if self.is_killed {
            drop(store);
        } else {
            self.databases.close(store);
        }
    }

    fn make_door(&self, name: &str) -> Result<D::Door, StoreFault> {
        self.databases.make_door(name)
    }
}

#[derive(Drop)]
struct AtFile<'c, 'r, 's, 'w>(&'c ClubFile<'r>, Fixture<'s>, &'w str);

impl DatabasesUser for AtFile<'_, '_, '_, '_> {
    type Outcome = Result<Output, Fail>;

    ghost outcomes = { λ _ _. Unit {0} };

    fn run_over<D: Databases>(self, databases: &mut D) -> Result<Output, Fail> {
        let AtFile(club, scene, words) = self;
        let (rt, path) = (club.rt, club.path());
        let notes = Notes::default();
        let is_killed = scene.is_killed;
        let mut fragile = Fragile {
            databases,
            is_killed,
        };
        play_over(rt, rt, &notes, &mut fragile, path, &scene, words)
    }
}

pub struct ClubFile<'a> {
    pub rt: &'a HostRuntime,
    path: String,
}

/// Only this process uses the path.
pub fn new_path(rt: &HostRuntime, name: &str) -> Result<String, Fail> {
    let folder = env::temp_dir(rt)?;
    let folder = folder.as_str();
    let id = process::id(rt.process());
    Ok(format!(in rt.alloc(); "{folder}/clubdesk-{name}-{id}")?)
}

impl<'a> ClubFile<'a> {
    pub fn at(rt: &'a HostRuntime, path: String) -> ClubFile<'a> {
        ClubFile { rt, path }
    }

    pub fn new(rt: &'a HostRuntime, name: &str) -> Result<ClubFile<'a>, Fail> {
        Ok(ClubFile::at(rt, new_path(rt, name)?))
    }

    pub fn path(&self) -> &str {
        self.path.as_str()
    }

    pub fn path_with(&self, end: &str) -> Result<String, AllocError> {
        format!(in self.rt.alloc(); "{}{end}", self.path)
    }

    pub fn remove_with(&self, end: &str) -> Result<(), Fail> {
        Ok(fs::remove_file(self.rt, self.path_with(end)?.as_str())?)
    }

    pub fn run(&self, scene: Fixture<'_>, words: &str) -> Result<Output, Fail> {
        run_over_files(self.rt, AtFile(self, scene, words))
    }

    pub fn play_in(&self, scene: Fixture<'_>, row: &str) -> Result<(), Fail> {
        let output = self.run(scene, parts_of(row)?.0)?;
        expect_end(self.rt, row, output.returned.as_str())
    }

    pub fn play(&self, rows: &[&str]) -> Result<(), Fail> {
        for row in rows {
            self.play_in(Fixture::after(&[]), row)?;
        }
        Ok(())
    }
}

impl Drop for ClubFile<'_> {
    fn drop(self) {
        let ClubFile { rt, path } = self;
        let _ = fs::remove_file(rt, path.as_str());
        if let Ok(log) = format!(in rt.alloc(); "{path}-wal") {
            let _ = fs::remove_file(rt, log.as_str());
        }
    }
}
