//! The HTTP statuses of replies, and the methods of the resource that a path names.

ghost use Rattle.std.specs.Prelude.{◌≡◌, ◌≤◌, length};
ghost use Rattle.http_response.specs.Text as spec;

use club_core::{Refusal, Reply, Resource};

/// Returns the HTTP status of a refusal.
fn refusal_status(refusal: Refusal) -> u16
    ensures { result ≡ spec.refusal_status refusal }
{
    match refusal {
        Refusal::BadRequest
        | Refusal::PassTooLong
        | Refusal::PassMalformed
        | Refusal::ThirdPartyCaveat
        | Refusal::TooManyCaveats => 400,
        Refusal::NoPass | Refusal::NotVerified => 401,
        Refusal::BalanceTooLow => 402,
        Refusal::KeyRevoked | Refusal::CaveatNotUnderstood(_) | Refusal::CaveatDenies(_) => 403,
        Refusal::NoSuchPath | Refusal::NoSuchFacility | Refusal::NoSuchBooking => 404,
        Refusal::MethodNotAllowed(_) => 405,
        Refusal::NumberUsed
        | Refusal::NotBookable
        | Refusal::SlotClosed
        | Refusal::NoPlaces
        | Refusal::QuotaReached
        | Refusal::SlotHasBegun => 409,
        Refusal::Unavailable => 503,
    }
}

/// Returns the HTTP status of a reply. The status is 200 if the request was served. Otherwise the
/// status depends on the kind of refusal.
pub fn status_of(reply: &Reply) -> u16
    ensures { result ≡ spec.status_of reply.now }
{
    match reply {
        Reply::Refused(refusal) => refusal_status(*refusal),
        _ => 200,
    }
}

/// Returns the methods of a path's resource, separated by commas.
pub(crate) fn methods_of(resource: Resource) -> &'static [u8]
    ensures text { result.now ≡ spec.methods_of resource }
    ensures len { length result.now ≤ 11 }
{
    match resource {
        Resource::Slot | Resource::Account => b"GET",
        Resource::Booking => b"PUT, DELETE",
    }
}
