//! Facilities, their charges, opening hours and columns.

ghost use Rattle.std.specs.Prelude.{◌≡◌};
ghost use Rattle.club_values.specs.Number.{Reads};

use crate::columns::number_within;
use crate::guests::Guests;
use club_values::{HOURS_A_DAY, Hour, Kind, Name};

/// The maximum number of places in a slot.
pub const MAX_PLACES: u32 = 50;

/// The highest price of a facility, in points per person and slot.
pub const MAX_PRICE: u32 = 9_999;

/// The latest closing hour of a facility, which is the end of the day.
pub const LAST_HOUR: u32 = HOURS_A_DAY as u32;

/// A facility of the club.
#[derive(Clone, Copy, Debug, PartialEq, Eq)]
pub struct Facility {
    pub name: Name,
    pub kind: Kind,
    /// The number of places in a slot, from 1 to 50. Each person takes one place.
    pub places: u8,
    /// The price in points per person and slot, from 0 to 9,999.
    pub price: u16,
    /// The first hour of the day that members can book, from 0 to 23.
    pub opens: u8,
    /// The hour at which the last slot ends, later than `opens` and at most 24.
    pub shuts: u8,
}

/// The values of a facility's columns.
#[derive(Clone, Copy, Debug)]
pub struct FacilityColumns<'a> {
    pub name: &'a [u8],
    pub kind: &'a [u8],
    pub places: i64,
    pub price: i64,
    pub opens: i64,
    pub shuts: i64,
}

impl Facility {
    ghost use Rattle.club_rows.specs.{Columns.IsFacilityOf, Rows.{charge_of, is_open_at}};

    /// Returns the charge in points for a booking with this number of guests.
    pub fn charge(&self, guests: Guests) -> u32
        ensures { result ≡ charge_of self.now guests }
    {
        u32::from(self.price) * u32::from(guests.persons())
    }

    /// Returns true if the facility is open in this hour.
    pub fn is_open_at(&self, hour: Hour) -> bool
        ensures { result ≡ is_open_at self.now hour }
    {
        self.opens <= hour.number() && hour.number() < self.shuts
    }

    /// Returns the facility with these column values. Returns `None` if a value is outside its
    /// limits.
    pub fn from_columns(columns: &FacilityColumns<'_>) -> Option<Facility>
        ensures { Reads (IsFacilityOf columns.now) result }
    {
        let name = Name::read(columns.name)?;
        let kind = Kind::read(columns.kind)?;
        let places = number_within(columns.places, 1, MAX_PLACES)?;
        let price = number_within(columns.price, 0, MAX_PRICE)?;
        let opens = number_within(columns.opens, 0, LAST_HOUR - 1)?;
        let shuts = number_within(columns.shuts, opens + 1, LAST_HOUR)?;
        Some(Facility {
            name,
            kind,
            places: places as u8,
            price: price as u16,
            opens: opens as u8,
            shuts: shuts as u8,
        })
    }
}
