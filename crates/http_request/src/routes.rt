//! The routes of the desk, and functions that decode requests with these routes.

ghost use Rattle.std.specs.Prelude.{◌≡◌, length, map, All, codes, IfOk, MatchResult, Some, Ok};
ghost use Rattle.std.specs.Str.{IsUtf8};
ghost use Rattle.http_request.specs.{Frame.Covers, Routes.{Refuses, KnowsPlaces}};
ghost use Rattle.http_request.specs.Words.{guests_by_method, decoded_request, IsRequestReading};
ghost use Rattle.http_request.specs.Words.{NeedsMemory, HoldsBody, OrUnavailable};
ghost use Rattle.httparse.specs.Spans.{IsHeaderWithin, header_bytes};
ghost use Rattle.matchit.specs.{Route.parse_route, Router.InsertsRead};
ghost use Rattle.http_request.specs.computed.Path as path;

use crate::body::guests_in;
use crate::head_result::HeadResult;
use crate::laws::reads_places;
use crate::pass::pass_text_of;
use crate::path::{Place, place_of};
use crate::requests::request_at;
use crate::scan::HeadScan;
use club_core::{Refusal, SentWords as Words};
use club_rows::Guests;
use httparse::spans::HeaderSpan;
use matchit::Router;
use std::alloc::{AllocError, Global};
use std::str;

/// The routes of the desk's paths.
#[derive(Drop)]
pub struct Routes {
    alloc: Global,
    router: Router<()>,
    ghost knows: { KnowsPlaces router },
}

/// Adds a route. The desk's routes are valid and don't conflict, so this function fails only if
/// memory runs out.
fn add(router: &mut Router<()>, route: &str) -> Result<(), AllocError>
    ensures { IfOk result (λ _.
        InsertsRead (parse_route route.now) tt router.old router.new (Ok tt)) }
{
    match router.insert(route, ()) {
        Ok(()) => Ok(()),
        Err(_) => Err(AllocError),
    }
}

impl Routes {
    /// Makes the routes for the account, a slot and a booking.
    ///
    /// # Errors
    ///
    /// Fails if memory runs out.
    pub fn new(alloc: Global) -> Result<Routes, AllocError> {
        let mut router = Router::new(alloc);
        add(
            &mut router,
            "/slots/{facility}/{day}/{hour}/bookings/{number}",
        )?;
        add(&mut router, "/slots/{facility}/{day}/{hour}")?;
        add(&mut router, "/account")?;
        reads_places();
        Ok(Routes { alloc, router })
    }

    /// Returns the place that a target names. Returns `None` if the target has no route or one of
    /// its parts doesn't parse.
    fn place_of(&self, target: &[u8]) -> Option<Place>
        requires { IsUtf8 target.now }
        ensures { result ≡ path.place_of target.now }
    {
        let target = str::from_utf8(target).unwrap();
        if self.router.at(target).is_err() {
            return None;
        }
        place_of(target.as_bytes())
    }
}

/// Returns the number of guests of a request. For PUT the number of guests is in the body. For any
/// other method the number of guests is 0.
fn guests_of_body(alloc: Global, method: &[u8], body: &[u8]) -> Result<Guests, Refusal>
    ensures { MatchResult result
        (λ guests. guests_by_method method.now body.now ≡ Some guests)
        (Refuses (NeedsMemory method.now body.now) (guests_by_method method.now body.now)) }
{
    if method == b"PUT".as_slice() {
        return guests_in(alloc, body);
    }
    Guests::new(0).ok_or(Refusal::BadRequest)
}

/// Decodes a request from its method, its target, its fields and its body.
#[tactic(auto, unfolding(crate::specs::Words::decoded_request))]
fn decode_request<'a>(
    routes: &Routes,
    head: &'a [u8],
    fields: &[HeaderSpan],
    method: &[u8],
    target: &[u8],
    body: &[u8],
) -> Result<Words<'a>, Refusal>
    requires within { All (IsHeaderWithin (length head.now)) fields.now }
    requires text { IsUtf8 target.now }
    ensures { OrUnavailable (NeedsMemory method.now body.now)
        (λ answer.
        decoded_request method.now (path.place_of target.now)
        (map (header_bytes head.now) fields.now) body.now
        ≡ answer)
        result }
{
    let guests = guests_of_body(routes.alloc, method, body)?;
    let place = routes.place_of(target).ok_or(Refusal::NoSuchPath)?;
    let request = request_at(place, method, guests)?;
    let pass = pass_text_of(head, fields).ok_or(Refusal::NoPass)?;
    Ok(Words { pass, request })
}

/// Decodes the bytes of a request. `scan` must cover these bytes. This function uses the result of
/// the scan, and doesn't parse the head again. Bytes after the request have no effect on the
/// result.
///
/// # Errors
///
/// Fails as `words_of` does.
pub fn words_by_scan<'a>(
    routes: &Routes,
    bytes: &'a [u8],
    scan: &HeadScan,
) -> Result<Words<'a>, Refusal>
    requires { Covers scan.now bytes.now }
    ensures { OrUnavailable (HoldsBody bytes.now) (IsRequestReading bytes.now) result }
{
    reads_places();
    let HeadResult::Asking(head) = scan.front else {
        return Err(Refusal::BadRequest);
    };
    let (piece, rest) = bytes.split_at(head.len);
    if rest.len() < head.body_len {
        return Err(Refusal::BadRequest);
    }
    let body = &rest[..head.body_len];
    let method = head.spans.method.of(piece);
    let target = head.spans.path.of(piece);
    let fields = &scan.fields[..head.spans.headers];
    decode_request(routes, piece, fields, method, target, body)
}

/// Decodes the bytes of a request. Returns the text of the request's pass, and the request itself.
/// Bytes after the request have no effect on the result.
///
/// # Errors
///
/// Fails with the first of these faults that applies: `BadRequest`, `NoSuchPath`,
/// `MethodNotAllowed`, `NoPass`. Fails with `Unavailable` if memory runs out. Only the body of a
/// PUT needs memory.
pub fn words_of<'a>(routes: &Routes, bytes: &'a [u8]) -> Result<Words<'a>, Refusal>
    ensures { OrUnavailable (HoldsBody bytes.now) (IsRequestReading bytes.now) result }
{
    let mut scan = HeadScan::new();
    scan.go_on(bytes, 0);
    words_by_scan(routes, bytes, &scan)
}
