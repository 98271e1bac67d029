//! Commands of the office that a server's desk carries out.

use crate::request_line::RequestLine;
use club_http::Responder;

/// The data that the log shows about a command that the desk carried out.
#[derive(Drop)]
pub struct Carried {
    /// The first bytes of a line whose second word is the command's name.
    pub line: RequestLine,
    /// The exit status of the command.
    pub status: u8,
}

/// The answer to a command.
#[derive(Drop)]
pub struct Answer {
    pub carried: Carried,
    /// The text that the command prints. The command prints the text on standard output if the
    /// status is 0, else on standard error.
    pub text: String,
}

/// A responder that also carries out commands of the office.
pub trait Office: Responder {
    ghost use Rattle.desk_server.specs.Served.{CommandRelation};

    // The possible answers to the bytes of a command, with the desk before and after the command.
    ghost commands: { CommandRelation Self };

    /// Carries out the command that the bytes encode. If the bytes encode no command, nothing
    /// changes.
    fn command(&mut self, bytes: &[u8]) -> Answer
        ensures { commands bytes.now self.old result self.new };
}
