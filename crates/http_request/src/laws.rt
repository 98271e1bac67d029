//! Laws about the decoding of requests. Each law is the contract of a function that does nothing
//! when it runs.

ghost use Rattle.http_request.specs.Laws.{OneReading, WholeKeepsItsReading, BodyStays, ReadsPlaces};

use club_values::laws::{is_text_of_day, reads_days, reads_hours, reads_names, reads_numbers};

/// A target names at most one place, and `place_of` computes that place.
pub fn reads_places()
    ensures { ReadsPlaces }
{
    reads_names();
    reads_numbers();
    reads_days();
    is_text_of_day();
    reads_hours();
}

/// A list of bytes decodes in at most one way.
pub fn one_reading()
    ensures { OneReading }
{
    reads_places();
}

/// A complete request decodes in the same way, whatever bytes follow the request.
pub fn whole_keeps_its_reading()
    ensures { WholeKeepsItsReading }
{}

/// If bytes begin with a PUT request whose body isn't empty, they still do after more bytes are
/// appended.
pub fn body_stays()
    ensures { BodyStays }
{}
