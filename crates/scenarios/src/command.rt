//! Parses commands of the office, and the lines that make a club.

use crate::fault::{Fault, needed};
use crate::known::{Known, name};
use crate::passes::form_named;
use crate::text::{halves, number};
use club_core::MAX_POINTS;
use club_http::{BookingNumber, Command, Day, Hour, Kind, Moment, Name, Slot};
use pass_forms::Form;
use std::alloc::Global;

const NO_COMMAND: &str = "no command";

/// The words of a line. Each call reads the next word.
#[derive(Drop)]
pub(crate) struct Values<'a> {
    left: &'a str,
}

impl<'a> Values<'a> {
    pub(crate) fn of(text: &'a str) -> Values<'a> {
        Values { left: text }
    }

    /// Returns the next word, or an empty text after the last word.
    fn word(&mut self) -> &'a str {
        let (word, left) = self.left.split_once(' ').unwrap_or((self.left, ""));
        self.left = left;
        word
    }

    fn name(&mut self) -> Result<Name, Fault> {
        name(self.word())
    }

    fn number(&mut self) -> Result<u32, Fault> {
        number(self.word())
    }

    fn kind(&mut self) -> Result<Kind, Fault> {
        needed(Kind::read(self.word().as_bytes()), "no kind")
    }

    pub(crate) fn moment(&mut self) -> Result<Moment, Fault> {
        needed(Moment::read(self.word().as_bytes()), "no moment")
    }

    pub(crate) fn day(&mut self) -> Result<Day, Fault> {
        needed(Day::read(self.word().as_bytes()), "no day")
    }

    fn hour(&mut self) -> Result<Hour, Fault> {
        needed(Hour::read(self.word().as_bytes()), "no hour")
    }

    pub(crate) fn slot(&mut self) -> Result<Slot, Fault> {
        Ok(Slot {
            facility: self.name()?,
            day: self.day()?,
            hour: self.hour()?,
        })
    }

    /// Fails if the line has more words.
    pub(crate) fn end(&self) -> Result<(), Fault> {
        if self.left.is_empty() {
            Ok(())
        } else {
            Err(Fault::Rule(NO_COMMAND))
        }
    }

    /// Reads `--form` and the name of a form. If the line has no more words, returns V2.
    fn form(&mut self) -> Result<Form, Fault> {
        match self.word() {
            "" => Ok(Form::V2),
            "--form" => needed(form_named(self.word()), "no form"),
            _ => Err(Fault::Rule(NO_COMMAND)),
        }
    }

    /// Returns the command with this name. The values of the command are the next words.
    fn command(&mut self, known: &Known, word: &str) -> Result<Command, Fault> {
        Ok(match word {
            "add-member" => Command::AddMember {
                name: self.name()?,
                quota: self.number()?,
            },
            "credit" => Command::Credit {
                member: self.name()?,
                points: self.number()?,
            },
            "debit" => Command::Debit {
                member: self.name()?,
                points: self.number()?,
            },
            "set-quota" => Command::SetQuota {
                member: self.name()?,
                quota: self.number()?,
            },
            "add-facility" => self.facility()?,
            "set-facility" => self.numbers()?,
            "add-key" => Command::AddKey {
                name: self.name()?,
                member: self.name()?,
                root: known.root(self.word())?,
            },
            "revoke-key" => Command::RevokeKey { name: self.name()? },
            "rotate-key" => Command::RotateKey {
                name: self.name()?,
                root: known.root(self.word())?,
                until: self.moment()?,
            },
            "cancel-booking" => Command::CancelBooking {
                key: self.name()?,
                number: needed(BookingNumber::new(self.number()?), "no number of a booking")?,
            },
            "close-slot" => Command::CloseSlot(self.slot()?),
            "open-slot" => Command::OpenSlot(self.slot()?),
            _ => return Err(Fault::Rule(NO_COMMAND)),
        })
    }

    fn numbers(&mut self) -> Result<Command, Fault> {
        Ok(Command::SetFacility {
            name: self.name()?,
            places: self.number()?,
            price: self.number()?,
            opens: self.number()?,
            shuts: self.number()?,
        })
    }

    fn facility(&mut self) -> Result<Command, Fault> {
        Ok(Command::AddFacility {
            name: self.name()?,
            kind: self.kind()?,
            places: self.number()?,
            price: self.number()?,
            opens: self.number()?,
            shuts: self.number()?,
        })
    }
}

/// Returns a command of the office, and a form. A command for a key prints the key's pass in this
/// form.
pub(crate) fn command_of(known: &Known, text: &str) -> Result<(Command, Form), Fault> {
    let mut values = Values::of(text);
    let word = values.word();
    let command = values.command(known, word)?;
    let form = match &command {
        Command::AddKey { .. } | Command::RotateKey { .. } => values.form()?,
        _ => Form::V2,
    };
    values.end()?;
    Ok((command, form))
}

/// Adds the commands that make a member. The text is `NAME QUOTA POINTS`.
fn push_member(commands: &mut Vec<Command>, text: &str) -> Result<(), Fault> {
    let mut values = Values::of(text);
    let name = values.name()?;
    let quota = values.number()?;
    let points = values.number()?;
    values.end()?;
    commands.push(Command::AddMember { name, quota })?;
    for _ in 0..points / MAX_POINTS {
        commands.push(Command::Credit {
            member: name,
            points: MAX_POINTS,
        })?;
    }
    if points % MAX_POINTS > 0 {
        commands.push(Command::Credit {
            member: name,
            points: points % MAX_POINTS,
        })?;
    }
    Ok(())
}

/// Returns the command that makes a facility. The text is `NAME KIND PLACES PRICE OPENS-SHUTS`.
fn facility_of(text: &str) -> Result<Command, Fault> {
    let mut values = Values::of(text);
    let name = values.name()?;
    let kind = values.kind()?;
    let places = values.number()?;
    let price = values.number()?;
    let (opens, shuts) = halves(values.word(), '-', "a facility has hours")?;
    values.end()?;
    Ok(Command::AddFacility {
        name,
        kind,
        places,
        price,
        opens: number(opens)?,
        shuts: number(shuts)?,
    })
}

/// Returns the part of a key's name before the last `-`. This part is the name of the key's member.
fn member_in(key: &str) -> &str {
    match key.rsplit_once('-') {
        Some((member, _)) => member,
        None => "",
    }
}

/// Returns the command that makes a key. The text is `KEY` or `KEY of MEMBER`, with an optional
/// `under ROOT` at the end.
fn key_of(known: &Known, text: &str) -> Result<Command, Fault> {
    let (text, root) = text.split_once(" under ").unwrap_or((text, "first"));
    let (key, member) = text.split_once(" of ").unwrap_or((text, member_in(text)));
    Ok(Command::AddKey {
        name: name(key)?,
        member: name(member)?,
        root: known.root(root)?,
    })
}

/// Adds the commands that make one part of a club, such as its members.
fn push_part(commands: &mut Vec<Command>, known: &Known, part: &str) -> Result<(), Fault> {
    if let Some(members) = part.strip_prefix("members ") {
        for member in members.split(", ") {
            push_member(commands, member)?;
        }
    } else if let Some(keys) = part.strip_prefix("keys ") {
        for key in keys.split(", ") {
            commands.push(key_of(known, key)?)?;
        }
    } else {
        for facility in part.split(", ") {
            commands.push(facility_of(facility)?)?;
        }
    }
    Ok(())
}

/// Returns the commands that make the club of the latest `club` line.
pub(crate) fn commands_of(alloc: Global, known: &Known) -> Result<Vec<Command>, Fault> {
    let mut commands = Vec::new(alloc);
    let club = known.club.as_str();
    if club != "empty" {
        for part in club.split("; ") {
            push_part(&mut commands, known, part)?;
        }
    }
    Ok(commands)
}
