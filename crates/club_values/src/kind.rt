//! The kinds of facilities, and their texts.

ghost use Rattle.std.specs.Prelude.{◌≡◌, Some};
ghost use Rattle.club_values.specs.{Kind.kind_text, Number.Reads, computed.TextOf.kind_of_text};

use std::fmt;

/// The kind of a facility: a court, a boat or a room.
#[derive(Clone, Copy, Debug, PartialEq, Eq)]
pub enum Kind {
    Court,
    Boat,
    Room,
}

fn kind_in(text: &[u8]) -> Option<Kind>
    ensures { Reads (λ kind. text.now ≡ kind_text kind) result }
{
    match text {
        b"court" => Some(Kind::Court),
        b"boat" => Some(Kind::Boat),
        b"room" => Some(Kind::Room),
        _ => None,
    }
}

impl Kind {
    /// Returns the kind with this text (`court`, `boat` or `room`), or `None` for any other text.
    pub fn read(text: &[u8]) -> Option<Kind>
        ensures spelled { Reads (λ kind. text.now ≡ kind_text kind) result }
        ensures function { result ≡ kind_of_text text.now }
    {
        kind_in(text)
    }

    /// Returns the text of the kind.
    pub fn text(self) -> &'static str
        ensures { result.now ≡ kind_text self }
    {
        match self {
            Kind::Court => "court",
            Kind::Boat => "boat",
            Kind::Room => "room",
        }
    }
}

impl fmt::Display for Kind {
    ghost output = { λ kind. Some (kind_text kind) };

    fn fmt<W: fmt::Write>(&self, f: &mut fmt::Formatter<W>) -> fmt::Result {
        f.write_str(self.text())
    }
}
