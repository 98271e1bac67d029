//! Plays a file of scenarios line by line.

use crate::command::{Values, command_of, commands_of};
use crate::fault::{Fault, needed};
use crate::known::{Known, name};
use crate::page::{below, columns_of};
use crate::passes::office_pass;
use crate::player::{Maker, Player};
use crate::reply::reply_of;
use crate::request::{request_in, request_of};
use crate::text::{halves, push_repeated};
use club_gate::{OfficeReply, minted};
use club_http::Command;
use pass_forms::Form;
use pass_json::write_any;
use std::alloc::Global;

/// The text that must follow `crash` in a line.
const AGAIN: &str = "anywhere in the next line; then the same line again";

const ANSWER: &str = "no expectation";

const NO_CLUB: &str = "no club before it";

/// The options for playing a file.
#[derive(Clone, Copy)]
pub(crate) struct Way {
    /// The form of a pass if its line names no form.
    pub(crate) form: Form,
    /// True if a line takes effect before the crash that stops the line.
    pub(crate) keeps: bool,
}

/// The number of clubs and the number of lines that were played.
#[derive(Clone, Copy)]
pub(crate) struct Count {
    pub(crate) clubs: u32,
    pub(crate) lines: u32,
}

/// A fault, and the number of the line with the fault.
#[derive(Drop)]
pub(crate) struct FaultAt {
    pub(crate) line: usize,
    pub(crate) fault: Fault,
}

/// The state of playing a file.
#[derive(Drop)]
struct Fixture<'a, M: Maker>
where
    M::Made: Player + Drop,
{
    alloc: Global,
    maker: &'a M,
    way: Way,
    known: Known,
    player: Option<M::Made>,
    count: Count,
}

/// The columns of a line, and the indented lines that belong to the line.
#[derive(Clone, Copy)]
struct Line<'a> {
    columns: &'a [&'a str],
    below: &'a [&'a str],
}

/// Fails if the player's answer differs from the answer that the line states.
fn expect(alloc: Global, wanted: &str, found: &str) -> Result<(), Fault> {
    if wanted == found {
        return Ok(());
    }
    Err(Fault::Differs {
        wanted: String::from_str(alloc, wanted)?,
        found: String::from_str(alloc, found)?,
    })
}

/// Joins the lines of a text with commas.
fn on_one_line(alloc: Global, text: &str) -> Result<String, Fault> {
    let mut line = String::new(alloc);
    for value in text.lines() {
        if !line.is_empty() {
            line.push_str(", ")?;
        }
        line.push_str(value)?;
    }
    Ok(line)
}

impl<'a> Line<'a> {
    /// Returns the column with this number. Fails if the line has too few columns.
    fn column(&self, number: usize, rule: &'static str) -> Result<&'a str, Fault> {
        needed(self.columns.get(number).copied(), rule)
    }

    /// Returns all columns from this number to the last.
    fn rest(&self, number: usize) -> &'a [&'a str] {
        &self.columns[number.min(self.columns.len())..]
    }

    fn has_none_below(&self) -> Result<(), Fault> {
        if self.below.is_empty() {
            Ok(())
        } else {
            Err(Fault::Rule("no lines belong to this one"))
        }
    }

    /// Fails if the line doesn't have exactly `count` columns.
    fn has(&self, count: usize) -> Result<(), Fault> {
        if self.columns.len() == count {
            Ok(())
        } else {
            Err(Fault::Rule("another number of columns"))
        }
    }

    /// Joins all columns after the first, and the indented lines.
    fn whole(&self, alloc: Global) -> Result<String, Fault> {
        let mut text = String::new(alloc);
        for part in self.rest(1).iter().chain(self.below.iter()) {
            if !text.is_empty() {
                text.push(' ')?;
            }
            text.push_str(part.trim_matches(' '))?;
        }
        Ok(text)
    }
}

/// Returns the outcome of a command: its output, or the reason why the command was refused.
fn outcome(
    alloc: Global,
    command: &Command,
    form: Form,
    answer: &OfficeReply,
) -> Result<String, Fault> {
    match answer {
        OfficeReply::Done => Ok(String::from_str(alloc, "done")?),
        OfficeReply::Refused(fault) => Ok(format!(in alloc; "refused: {fault}")?),
        OfficeReply::Key { signature } => match command {
            Command::AddKey { name, .. } | Command::RotateKey { name, .. } => {
                Ok(write_any(alloc, form, &minted(alloc, name, *signature)?)?)
            }
            _ => Err(Fault::Player("a pass without a key")),
        },
    }
}

/// Returns the output that a line states. If the line states `done` for a key's command, the output
/// is the key's pass.
fn wanted_outcome(
    alloc: Global,
    command: &Command,
    form: Form,
    stated: &str,
) -> Result<String, Fault> {
    match command {
        Command::AddKey { name, root, .. } | Command::RotateKey { name, root, .. }
            if stated == "done" => office_pass(alloc, name, root, form),
        _ => {
            let stated = stated.strip_prefix("prints ").unwrap_or(stated);
            Ok(String::from_str(alloc, stated)?)
        }
    }
}

impl<M: Maker> Fixture<'_, M>
where
    M::Made: Player + Drop,
{
    fn player(&mut self) -> Result<&mut M::Made, Fault> {
        match &mut self.player {
            Some(player) => Ok(player),
            None => Err(Fault::Rule(NO_CLUB)),
        }
    }

    fn counts(&mut self) {
        self.count.lines = self.count.lines.saturating_add(1);
    }

    /// Carries out the commands that make a club.
    fn make(&mut self, commands: &[Command]) -> Result<(), Fault> {
        for command in commands {
            if let Command::AddKey { name, root, .. } = command {
                self.known.add_key(*name, *root)?;
            }
            if let OfficeReply::Refused(_) = self.player()?.command(command)? {
                return Err(Fault::Rule("no such club: a command is refused"));
            }
        }
        Ok(())
    }

    fn club(&mut self, line: &Line) -> Result<(), Fault> {
        let text = line.whole(self.alloc)?;
        if text.as_str() != "again" {
            self.known.club = text;
        } else if self.known.club.is_empty() {
            return Err(Fault::Rule(NO_CLUB));
        }
        if self.known.crashes {
            return Err(Fault::Rule("a crash is followed by what is stopped"));
        }
        self.known.forget_keys();
        self.player = Some(self.maker.make(self.alloc)?);
        self.count.clubs = self.count.clubs.saturating_add(1);
        let commands = commands_of(self.alloc, &self.known)?;
        self.make(&commands)
    }

    fn reopen(&mut self, as_version_1: bool) -> Result<(), Fault> {
        match self.player.take() {
            Some(player) => {
                self.player = Some(player.reopened(as_version_1)?);
                Ok(())
            }
            None => Err(Fault::Rule(NO_CLUB)),
        }
    }

    /// Returns true if the line takes effect before a crash. In this case, the caller plays the
    /// line, reopens the tables, and plays the line again. If a crash stops the line before it
    /// takes effect, this function reopens the tables.
    fn was_kept(&mut self) -> Result<bool, Fault> {
        let crashes = self.known.crashes;
        self.known.crashes = false;
        if crashes && !self.way.keeps {
            self.reopen(false)?;
        }
        Ok(crashes && self.way.keeps)
    }

    fn ask_once(&mut self, request: &[u8], wanted: &str) -> Result<(), Fault> {
        let moment = self.known.moment()?;
        let found = self.player()?.reply(moment, request)?;
        expect(self.alloc, wanted, found.as_str())
    }

    fn ask(&mut self, request: &[u8], columns: &[&str]) -> Result<(), Fault> {
        let wanted = reply_of(self.alloc, columns)?;
        self.counts();
        if self.was_kept()? {
            self.ask_once(request, wanted.as_str())?;
            self.reopen(false)?;
        }
        self.ask_once(request, wanted.as_str())
    }

    fn request(&mut self, line: &Line) -> Result<(), Fault> {
        line.has_none_below()?;
        let holder = line.column(0, "not understood")?;
        let asked = line.column(1, "not understood")?;
        let request = request_of(self.alloc, &self.known, self.way.form, holder, asked)?;
        self.ask(&request, line.rest(2))
    }

    fn bytes(&mut self, line: &Line) -> Result<(), Fault> {
        let request = request_in(self.alloc, &self.known, self.way.form, line.below)?;
        self.ask(&request, line.rest(1))
    }

    /// Defines a name for a text, or sends a text as the pass of a request.
    fn text(&mut self, line: &Line) -> Result<(), Fault> {
        let named = line.column(1, "a text has a name")?;
        if line.columns.len() > 2 {
            line.has_none_below()?;
            let holder = format!(in self.alloc; "text {named}")?;
            let asked = line.column(2, "not understood")?;
            let form = self.way.form;
            let request = request_of(self.alloc, &self.known, form, holder.as_str(), asked)?;
            return self.ask(&request, line.rest(3));
        }
        let mut text = Vec::new(self.alloc);
        for piece in line.below {
            push_repeated(&mut text, piece.trim_matches(' '))?;
        }
        self.known.add_text(name(named)?, text)
    }

    fn root(&mut self, line: &Line) -> Result<(), Fault> {
        line.has_none_below()?;
        let text = line.whole(self.alloc)?;
        let (named, root) = halves(text.as_str(), ' ', "a root has a name")?;
        let root = self.known.root(root)?;
        self.known.add_root(name(named)?, root)
    }

    fn at(&mut self, line: &Line) -> Result<(), Fault> {
        line.has_none_below()?;
        line.has(2)?;
        let mut values = Values::of(line.column(1, "no moment")?);
        self.known.moment = Some(values.moment()?);
        values.end()
    }

    fn command_once(&mut self, command: &Command, form: Form, stated: &str) -> Result<(), Fault> {
        let answer = self.player()?.command(command)?;
        let found = outcome(self.alloc, command, form, &answer)?;
        let wanted = wanted_outcome(self.alloc, command, form, stated)?;
        expect(self.alloc, wanted.as_str(), found.as_str())
    }

    fn office(&mut self, line: &Line) -> Result<(), Fault> {
        line.has_none_below()?;
        let (command, form) = command_of(&self.known, line.column(1, "no command")?)?;
        let stated = line.column(2, ANSWER)?;
        line.has(3)?;
        if let Command::AddKey { name, root, .. } = &command {
            self.known.add_key(*name, *root)?;
        }
        self.counts();
        let (first, repeated) = stated.split_once(" or ").unwrap_or((stated, stated));
        if self.was_kept()? {
            self.command_once(&command, form, first)?;
            self.reopen(false)?;
            return self.command_once(&command, form, repeated);
        }
        self.command_once(&command, form, first)
    }

    fn sheet(&mut self, line: &Line) -> Result<(), Fault> {
        line.has(2)?;
        let mut values = Values::of(line.column(1, "no day")?);
        let day = values.day()?;
        values.end()?;
        if line.below.is_empty() {
            return Err(Fault::Rule(ANSWER));
        }
        let mut wanted = format!(in self.alloc; "Day sheet {day}\n")?;
        for row in line.below {
            wanted.push_str(row.trim_matches(' '))?;
            wanted.push('\n')?;
        }
        self.counts();
        let found = self.player()?.sheet(day)?;
        expect(self.alloc, wanted.as_str(), found.as_str())
    }

    fn listed(&mut self, line: &Line, found: Option<String>) -> Result<(), Fault> {
        line.has_none_below()?;
        let wanted = line.column(2, ANSWER)?;
        line.has(3)?;
        self.counts();
        match found {
            Some(found) => {
                let found = on_one_line(self.alloc, found.as_str())?;
                expect(self.alloc, wanted, found.as_str())
            }
            None => expect(self.alloc, wanted, "refused: unknown"),
        }
    }

    fn account(&mut self, line: &Line) -> Result<(), Fault> {
        let key = name(line.column(1, "no name")?)?;
        let moment = self.known.moment()?;
        let found = self.player()?.account(&key, moment)?;
        self.listed(line, found)
    }

    fn slot(&mut self, line: &Line) -> Result<(), Fault> {
        let mut values = Values::of(line.column(1, "no slot")?);
        let slot = values.slot()?;
        values.end()?;
        let found = self.player()?.slot(&slot)?;
        self.listed(line, found)
    }

    fn crash(&mut self, line: &Line) -> Result<(), Fault> {
        line.has_none_below()?;
        if line.whole(self.alloc)?.as_str() != AGAIN {
            return Err(Fault::Rule("a crash is anywhere in the next line"));
        }
        self.known.crashes = true;
        Ok(())
    }

    fn opens_again(&mut self, line: &Line) -> Result<(), Fault> {
        line.has_none_below()?;
        match line.whole(self.alloc)?.as_str() {
            "" => self.reopen(false),
            "as version 1" => self.reopen(true),
            _ => Err(Fault::Rule("the tables are opened again, maybe as version 1")),
        }
    }

    /// Fails if the previous line states a crash. A crash can't stop this line.
    fn isnt_stopped(&self) -> Result<(), Fault> {
        if self.known.crashes {
            Err(Fault::Rule("a crash is followed by a request or a command"))
        } else {
            Ok(())
        }
    }

    fn listing(&mut self, word: &str, line: &Line) -> Result<(), Fault> {
        self.isnt_stopped()?;
        match word {
            "sheet" => self.sheet(line),
            "account" => self.account(line),
            "slot" => self.slot(line),
            _ => self.opens_again(line),
        }
    }

    fn line(&mut self, line: &Line) -> Result<(), Fault> {
        let word = line.column(0, "not understood")?;
        match word {
            "club" => self.club(line),
            "root" => self.root(line),
            "text" => self.text(line),
            "at" => self.at(line),
            "bytes" => self.bytes(line),
            "office" => self.office(line),
            "crash" => self.crash(line),
            "sheet" | "account" | "slot" | "reopen" => self.listing(word, line),
            _ => self.request(line),
        }
    }

    /// Plays a line and the indented lines that belong to it.
    fn run_lines<'x>(&mut self, text: &'x str, below: &'x [&'x str]) -> Result<(), Fault> {
        if text.starts_with(' ') {
            return Err(Fault::Rule("a line with spaces before it belongs to none"));
        }
        let columns = columns_of(self.alloc, text)?;
        self.line(&Line {
            columns: &columns,
            below,
        })
    }

    /// Plays all lines of a file.
    fn plays_all(&mut self, lines: &[&str]) -> Result<(), FaultAt> {
        // The number of lines that were played. The number includes the indented lines that belong
        // to the played lines.
        let mut played = 0;
        for number in 0..lines.len() {
            let text = lines[number];
            if number < played || text.trim_matches(' ').is_empty() || text.starts_with('#') {
                continue;
            }
            let below = below(&lines[number + 1..]);
            played = number.saturating_add(1).saturating_add(below.len());
            if let Err(fault) = self.run_lines(text, below) {
                let line = number + 1;
                return Err(FaultAt { line, fault });
            }
        }
        Ok(())
    }
}

/// Plays a file once. `maker` makes the player for each club.
pub(crate) fn play<M: Maker>(
    alloc: Global,
    maker: &M,
    way: Way,
    lines: &[&str],
) -> Result<Count, FaultAt>
where
    M::Made: Player + Drop,
{
    let known = match Known::new(alloc) {
        Ok(known) => known,
        Err(fault) => return Err(FaultAt { line: 0, fault }),
    };
    let mut scene = Fixture {
        alloc,
        maker,
        way,
        known,
        player: None,
        count: Count { clubs: 0, lines: 0 },
    };
    scene.plays_all(lines)?;
    let line = lines.len();
    if let Err(fault) = scene.isnt_stopped() {
        return Err(FaultAt { line, fault });
    }
    if scene.count.lines == 0 {
        let fault = Fault::Rule(ANSWER);
        return Err(FaultAt { line, fault });
    }
    Ok(scene.count)
}
