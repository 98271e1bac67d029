//! Implements `Responder` for `Desk`.

use crate::responder::Responder;
use club_core::{ClubStore, Reply};
use club_gate::Desk;
use club_values::Moment;
use http_request::Words;

/// Answers requests by calling `Desk::ask`. The contract of `Desk::ask` implies the contract of a
/// responder.
impl<S: ClubStore> Responder for Desk<S> {
    ghost use Rattle.club_http.specs.Calls.{AnswersBy};

    ghost answers = { AnswersBy S.ghosts };

    fn ask(&mut self, moment: Moment, words: &Words<'_>) -> Reply {
        words.request.within();
        Desk::ask(self, moment, words)
    }
}
