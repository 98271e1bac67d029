//! The trait of types that answer requests.

use club_core::{Reply, Request};
use club_values::Moment;
use http_request::Words;

/// A type that answers requests, such as a desk or a wrapper around a desk.
pub trait Responder {
    ghost use Rattle.std.specs.Prelude.{ℕ};
    ghost use Rattle.club_http.specs.Exchange.{AnswerRelation};

    // The replies that a responder may give at a moment, with the state of the responder before and
    // after each reply.
    ghost answers: { ℕ → AnswerRelation Self };

    /// Answers a request at the given moment.
    fn ask(&mut self, moment: Moment, words: &Words<'_>) -> Reply
        ensures { answers moment words.now.pass.now words.now.request self.old result self.new };
}
