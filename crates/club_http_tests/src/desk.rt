use crate::server::{Call, Journal};
use club_core::{Refusal, Reply, Request};
use club_http::Responder;
use club_values::Moment;
use desk_server::{Answer, Carried, Office, RequestLine};
use http_request::Words;
use std::alloc::Global;
use std::io::{Read, Write};
use std::net::TcpStream;
use std::os::unix::net::UnixStream;

/// A client that sends its request in pieces. When the desk gets a command, the client sends the
/// next piece.
#[derive(Drop)]
pub struct Sender<'d> {
    pub client: &'d TcpStream,
    pub left: &'d [u8],
    /// The largest number of bytes that the client sends at once.
    pub step: usize,
}

impl Sender<'_> {
    pub fn send(&mut self) {
        let (front, rest) = self.left.split_at(self.step.min(self.left.len()));
        self.left = rest;
        let mut client = self.client;
        let _ = client.write_all(front);
    }
}

/// A desk that counts requests and commands. All requests get the same reply, and all commands get
/// the same answer.
#[derive(Drop)]
pub struct Desk<'d> {
    pub alloc: Global,
    /// The desk counts a request only if the request comes at this moment.
    pub moment: Moment,
    pub reply: Reply,
    /// The status and the text of each answer.
    pub status: u8,
    pub text: &'d str,
    pub asked: u64,
    pub last: Option<Request>,
    pub commanded: u64,
    /// The total number of bytes of all commands.
    pub bytes: usize,
    pub sender: Option<Sender<'d>>,
    /// When the desk gets a request, it reads this connection to the end, and stores the bytes in
    /// `got`.
    pub office: Option<&'d UnixStream>,
    pub got: Vec<u8>,
    pub journal: Option<&'d Journal>,
    /// The milliseconds that the journal's clock advances for a request and for a command.
    pub asking_takes: u64,
    pub command_takes: u64,
}

impl<'d> Desk<'d> {
    /// Makes a desk that replies `Unavailable` to each request.
    pub fn new(alloc: Global, moment: Moment) -> Desk<'d> {
        Desk {
            alloc,
            moment,
            reply: Reply::Refused(Refusal::Unavailable),
            status: 1,
            text: "",
            asked: 0,
            last: None,
            commanded: 0,
            bytes: 0,
            sender: None,
            office: None,
            got: Vec::new(alloc),
            journal: None,
            asking_takes: 0,
            command_takes: 0,
        }
    }
}

impl Responder for Desk<'_> {
    ghost answers = { λ _ _ _ _ _ _. Unit {0} };

    fn ask(&mut self, moment: Moment, words: &Words<'_>) -> Reply {
        if moment == self.moment {
            self.asked = self.asked.saturating_add(1);
        }
        self.last = Some(words.request);
        if let Some(journal) = self.journal {
            journal.note(Call::Asked);
            journal.clock.advance(self.asking_takes);
        }
        if let Some(mut office) = self.office {
            let _ = office.read_to_end(&mut self.got);
        }
        self.reply
    }
}

impl Office for Desk<'_> {
    ghost commands = { λ _ _ _ _. Unit {0} };

    fn command(&mut self, bytes: &[u8]) -> Answer {
        self.commanded = self.commanded.saturating_add(1);
        self.bytes = self.bytes.saturating_add(bytes.len());
        if let Some(journal) = self.journal {
            journal.note(Call::Commanded(bytes.len()));
            journal.clock.advance(self.command_takes);
        }
        if let Some(sender) = &mut self.sender {
            sender.send();
        }
        let text = String::from_str(self.alloc, self.text);
        Answer {
            carried: Carried {
                line: RequestLine::of(b"office credit "),
                status: self.status,
            },
            text: text.unwrap_or(String::new(self.alloc)),
        }
    }
}
