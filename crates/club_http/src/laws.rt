//! A law about exchanges. The law is the contract of a function that does nothing when it runs.

ghost use Rattle.club_http.specs.Exchange.{RepliesToAll};

use crate::responder::Responder;
use http_request::laws::{body_stays, whole_keeps_its_reading};

/// The reply to the received bytes is also the reply to the whole input. The input may have more
/// bytes, which the exchange didn't read.
pub fn replies_to_all<D: Responder>()
    ensures { RepliesToAll D.answers }
{
    whole_keeps_its_reading();
    body_stays();
}
