//! Combines a method and a place into a request.

ghost use Rattle.std.specs.Prelude.{◌≡◌, Ok};
ghost use Rattle.http_request.specs.Words as spec;

use crate::path::Place;
use club_core::{Refusal, Request, Resource};
use club_rows::Guests;

/// Returns the request that has the given method and place.
pub(crate) fn request_at(place: Place, method: &[u8], guests: Guests) -> Result<Request, Refusal>
    ensures { result ≡ spec.request_at place method.now guests }
{
    match place {
        Place::SlotPlace(slot) => {
            if method == b"GET".as_slice() {
                Ok(Request::View { slot })
            } else {
                Err(Refusal::MethodNotAllowed(Resource::Slot))
            }
        }
        Place::BookingPlace(slot, number) => {
            if method == b"PUT".as_slice() {
                Ok(Request::Book {
                    slot,
                    number,
                    guests,
                })
            } else if method == b"DELETE".as_slice() {
                Ok(Request::Cancel { slot, number })
            } else {
                Err(Refusal::MethodNotAllowed(Resource::Booking))
            }
        }
        Place::AccountPlace => {
            if method == b"GET".as_slice() {
                Ok(Request::Account)
            } else {
                Err(Refusal::MethodNotAllowed(Resource::Account))
            }
        }
    }
}
