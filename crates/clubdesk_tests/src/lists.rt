//! Random requests and commands as bytes. The server must write the reference machine's replies.

use crate::arriving::{Arriving, Given, Queue, Written};
use crate::callers::Machine;
use crate::runs::{expect_eq, line_of};
use club_core::{ClubStore, OfficeAnswer, Reply};
use club_gate::{key_signature, minted};
use club_http::Face;
use club_reference::{Club, Words};
use club_rows::Root;
use club_store::Store;
use club_values::{Moment, Name};
use clubdesk_commands::{OfficeDesk, command_bytes};
use desk_server::{Office, serve_on};
use http_response::{MAX_REPLY_LEN, reply_bytes};
use pass_forms::{Form, Pass, narrow};
use pass_json::write_any;
use std::alloc::AllocError;
use std::test::*;
use test_kit::drawn::{AUDIT_AMY, AUDITORS, Asking, BEGINNING, Event, Numbers, SLOTS, audit};
use test_kit::roots::ROOT;
use test_kit::{PlainCommand, PlainRequest, PlainSlot, signed_pass};

const LISTS: u32 = 10;

const EVENTS: u32 = 60;

fn root_text(bytes: &[u8]) -> &'static str {
    if bytes == ROOT {
        "00112233445566778899aabbccddeeff"
    } else {
        "ffeeddccbbaa99887766554433221100"
    }
}

fn pass_of(rt: &HostRuntime, key: &Name, root: &Root) -> Result<Pass, AllocError> {
    minted(rt.alloc(), key, key_signature(key, root))
}

fn pass_under(rt: &HostRuntime, key: &str, root: &[u8]) -> Result<Pass, Fail> {
    let key = Name::read(key.as_bytes()).ok_or("a name")?;
    let root = Root::new(root).ok_or("a root")?;
    Ok(pass_of(rt, &key, &root)?)
}

fn pass_text(rt: &HostRuntime, asking: Asking) -> Result<String, Fail> {
    let mut pass = pass_under(rt, asking.key, asking.root)?;
    for caveat in asking.caveats {
        narrow(rt.alloc(), &mut pass, caveat.as_bytes())?;
    }
    Ok(write_any(rt.alloc(), asking.form, &pass)?)
}

// Returns `front`, the slot and `end`. The slot has `between` between its parts.
fn words_at(
    rt: &HostRuntime,
    front: &str,
    slot: PlainSlot,
    between: &str,
    end: &str,
) -> Result<String, Fail> {
    let slot = slot.slot().ok_or("a slot")?;
    let (facility, day, hour) = (slot.facility, slot.day, slot.hour);
    Ok(format!(in rt.alloc(); "{front}{facility}{between}{day}{between}{hour}{end}")?)
}

// Returns the method, the path and the body, separated by spaces.
fn request_words(rt: &HostRuntime, asked: PlainRequest) -> Result<String, Fail> {
    match asked {
        PlainRequest::View(slot) => words_at(rt, "GET /slots/", slot, "/", " "),
        PlainRequest::Book(slot, number, guests) => {
            let end = format!(in rt.alloc(); "/bookings/{number} {{\"guests\":{guests}}}")?;
            words_at(rt, "PUT /slots/", slot, "/", end.as_str())
        }
        PlainRequest::Cancel(slot, number) => {
            let end = format!(in rt.alloc(); "/bookings/{number} ")?;
            words_at(rt, "DELETE /slots/", slot, "/", end.as_str())
        }
        PlainRequest::Account => Ok(String::from_str(rt.alloc(), "GET /account ")?),
    }
}

fn request_bytes(rt: &HostRuntime, asking: Asking) -> Result<Vec<u8>, Fail> {
    let pass = pass_text(rt, asking)?;
    let words = request_words(rt, asking.asked)?;
    let (line, body) = words.as_str().rsplit_once(' ').ok_or("a body")?;
    let len = body.len();
    let text = format!(in rt.alloc();
        "{line} HTTP/1.1\r\nHost: club\r\nAuthorization: Bearer {pass}\r\n\
        Content-Length: {len}\r\n\r\n{body}"
    )?;
    Ok(text.into_bytes())
}

fn number_words(rt: &HostRuntime, command: &str, name: &str, number: u32) -> Result<String, Fail> {
    Ok(format!(in rt.alloc(); "{command} {name} {number}")?)
}

fn facility_words(rt: &HostRuntime, front: &str, numbers: [u32; 4]) -> Result<String, Fail> {
    let [places, price, opens, shuts] = numbers;
    Ok(format!(in rt.alloc(); "{front} {places} {price} {opens} {shuts}")?)
}

fn rotation_words(rt: &HostRuntime, key: &str, root: &[u8], until: u32) -> Result<String, Fail> {
    let until = Moment::from_number(until).ok_or("a moment")?;
    let root = root_text(root);
    Ok(format!(in rt.alloc(); "rotate-key {key} {root} {until}")?)
}

// The program reads a new key's root from standard input.
fn command_words(rt: &HostRuntime, plain: PlainCommand) -> Result<String, Fail> {
    match plain {
        PlainCommand::AddMember(member, quota) => number_words(rt, "add-member", member, quota),
        PlainCommand::Credit(member, points) => number_words(rt, "credit", member, points),
        PlainCommand::Debit(member, points) => number_words(rt, "debit", member, points),
        PlainCommand::SetQuota(member, quota) => number_words(rt, "set-quota", member, quota),
        PlainCommand::AddFacility(name, kind, places, price, opens, shuts) => {
            let front = format!(in rt.alloc(); "add-facility {name} {kind}")?;
            facility_words(rt, front.as_str(), [places, price, opens, shuts])
        }
        PlainCommand::SetFacility(name, places, price, opens, shuts) => {
            let front = format!(in rt.alloc(); "set-facility {name}")?;
            facility_words(rt, front.as_str(), [places, price, opens, shuts])
        }
        PlainCommand::AddKey(key, member, _) => {
            Ok(format!(in rt.alloc(); "add-key {key} {member} --root-stdin")?)
        }
        PlainCommand::RevokeKey(key) => Ok(format!(in rt.alloc(); "revoke-key {key}")?),
        PlainCommand::RotateKey(key, root, until) => rotation_words(rt, key, root, until),
        PlainCommand::CancelBooking(key, number) => number_words(rt, "cancel-booking", key, number),
        PlainCommand::CloseSlot(slot) => words_at(rt, "close-slot ", slot, " ", ""),
        PlainCommand::OpenSlot(slot) => words_at(rt, "open-slot ", slot, " ", ""),
    }
}

fn bytes_of_line(rt: &HostRuntime, root: &str, line: &str) -> Result<Vec<u8>, Fail> {
    let arguments: Vec<&str> = line.split(' ').collect(rt.alloc())?;
    Ok(command_bytes(rt.alloc(), root, arguments.as_slice())?)
}

fn bytes_of_command(rt: &HostRuntime, plain: PlainCommand) -> Result<Vec<u8>, Fail> {
    let root = match plain {
        PlainCommand::AddKey(_, _, root) => root_text(root),
        _ => "",
    };
    let words = command_words(rt, plain)?;
    bytes_of_line(rt, root, line_of(rt, "club", words.as_str())?.as_str())
}

// Returns the status, the output and a zero byte.
fn answer_text(rt: &HostRuntime, answer: &OfficeAnswer) -> Result<String, Fail> {
    match answer {
        OfficeAnswer::Done => Ok(String::from_str(rt.alloc(), "\0done\n\0")?),
        OfficeAnswer::NewKey { name, root } => {
            let pass = pass_of(rt, name, root)?;
            let text = write_any(rt.alloc(), Form::V2, &pass)?;
            Ok(format!(in rt.alloc(); "\0{text}\n\0")?)
        }
        OfficeAnswer::NotDone(fault) => Ok(format!(in rt.alloc(); "\x01refused: {fault}\0")?),
    }
}

/// The arrivals with their moments, and the bytes that the server must write.
#[derive(Drop)]
struct Plan<'a> {
    rt: &'a HostRuntime,
    reference: Club,
    arriving: Vec<Arriving>,
    moments: Vec<Moment>,
    clients: u32,
    want: Vec<u8>,
}

impl Plan<'_> {
    fn give(&mut self, plain: Option<PlainCommand>, moment: Moment) -> Result<Vec<u8>, Fail> {
        let Some(plain) = plain else {
            return Ok(Vec::new(self.rt.alloc()));
        };
        let command = plain.command().ok_or("a command")?;
        let answer = self.reference.office(&command)?;
        let text = answer_text(self.rt, &answer)?;
        self.want.extend_from_slice(text.as_bytes())?;
        self.moments.push(moment)?;
        bytes_of_command(self.rt, plain)
    }

    fn reply(&mut self, asking: Asking, moment: Moment) -> Result<Reply, Fail> {
        let key = Name::read(asking.key.as_bytes());
        let pass = signed_pass(self.rt.alloc(), key, asking.root, asking.caveats);
        let words = Words {
            pass: Ok(pass.ok_or("a pass")?),
            request: asking.asked.request().ok_or("a request")?,
        };
        Ok(self.reference.ask(&words, moment)?)
    }

    fn ask(&mut self, asking: Option<Asking>, moment: Moment) -> Result<Vec<u8>, Fail> {
        let Some(asking) = asking else {
            return Ok(Vec::new(self.rt.alloc()));
        };
        let reply = self.reply(asking, moment)?;
        let mut room = [0; MAX_REPLY_LEN];
        let len = reply_bytes(&reply, &mut room);
        self.want.extend_from_slice(&room[..len])?;
        self.moments.push(moment)?;
        self.clients = self.clients.saturating_add(1);
        request_bytes(self.rt, asking)
    }

    // A command that comes with a request arrives between the request's halves. So the server
    // carries the command out first.
    fn add(&mut self, asking: Option<Asking>, plain: Option<PlainCommand>) -> Result<(), Fail> {
        let moment = asking.unwrap_or(audit(AUDIT_AMY)).moment;
        let moment = Moment::from_number(moment).ok_or("a moment")?;
        let command = self.give(plain, moment)?;
        let request = self.ask(asking, moment)?;
        Ok(self.arriving.push(Arriving { request, command })?)
    }

    // A command directly after a request in the list arrives between the two halves of the request.
    // Returns the request that waits for the next event.
    fn add_event(&mut self, waiting: Option<Asking>, event: Event) -> Result<Option<Asking>, Fail> {
        match event {
            Event::Commanded(plain) => {
                self.add(waiting, Some(plain))?;
                Ok(None)
            }
            Event::Asked(next) => {
                if waiting.is_some() {
                    self.add(waiting, None)?;
                }
                Ok(Some(next))
            }
        }
    }

    fn add_drawn(&mut self, numbers: &mut Numbers) -> Result<(), Fail> {
        let mut waiting = None;
        for _ in 0..EVENTS {
            waiting = self.add_event(waiting, numbers.event())?;
        }
        if waiting.is_some() {
            self.add(waiting, None)?;
        }
        Ok(())
    }

    fn add_audit(&mut self) -> Result<(), Fail> {
        for key in &AUDITORS {
            self.add(Some(audit(key)), None)?;
        }
        for slot in &SLOTS {
            let mut asking = audit(AUDIT_AMY);
            asking.asked = PlainRequest::View(*slot);
            self.add(Some(asking), None)?;
        }
        Ok(())
    }

    fn serve<D: Office>(&self, desk: &mut D, written: &Written) -> Result<(), Fail> {
        let mut face = Face::new(self.rt.alloc())?;
        let machine = Machine::new(Some(0), 0);
        let mut queue = Queue::new(self.arriving.as_slice(), &machine, written);
        let mut moments = Given(self.moments.as_slice());
        match serve_on(&mut queue, self.clients, &mut moments, &mut face, desk) {
            Ok(()) => Ok(()),
            Err(_) => Err("the server stopped".into()),
        }
    }

    // Each list ends with an audit.
    fn finish<D: Office>(&mut self, desk: &mut D) -> Result<(), Fail> {
        self.add_audit()?;
        let written = Written::new(self.rt.alloc());
        self.serve(desk, &written)?;
        let bytes = written.bytes(self.rt.alloc());
        let want = str::from_utf8(self.want.as_slice());
        expect_eq(self.rt, str::from_utf8(bytes.as_slice()), want)?;
        self.arriving.clear();
        self.moments.clear();
        self.clients = 0;
        self.want.clear();
        Ok(())
    }

    fn play<D: Office>(&mut self, desk: &mut D, first: u64) -> Result<(), Fail> {
        for plain in &BEGINNING {
            self.add(None, Some(*plain))?;
        }
        self.finish(desk)?;
        let mut numbers = Numbers::new(first);
        for _ in 0..LISTS {
            self.add_drawn(&mut numbers)?;
            self.finish(desk)?;
        }
        Ok(())
    }
}

fn play_lists<S: ClubStore + Drop>(rt: &HostRuntime, store: S, first: u64) -> Result<(), Fail> {
    let mut plan = Plan {
        rt,
        reference: Club::new(rt.alloc()),
        arriving: Vec::new(rt.alloc()),
        moments: Vec::new(rt.alloc()),
        clients: 0,
        want: Vec::new(rt.alloc()),
    };
    plan.play(&mut OfficeDesk::new(rt.alloc(), rt, store), first)
}

// Only this function names the type of the store, because each proof with that type takes longer.
fn play_from(rt: &HostRuntime, first: u64) -> Result<(), Fail> {
    play_lists(rt, Store::open_in_memory(rt.alloc())?, first)
}

#[test]
fn serves_as_the_reference(rt: HostRuntime) -> Result<(), Fail> {
    play_from(&rt, 2_026)
}

#[test]
fn serves_a_second_row_of_lists(rt: HostRuntime) -> Result<(), Fail> {
    play_from(&rt, 2_027)
}

#[test]
fn serves_a_third_row_of_lists(rt: HostRuntime) -> Result<(), Fail> {
    play_from(&rt, 2_028)
}
