//! Decodes rows of the tables. Decoding returns `None` if a value has the wrong type or is outside
//! its limits.

ghost use Rattle.std.specs.Prelude.{◌≡◌, ◌≤◌, [], ◌∷◌, List, Err, None, Some, IfOk, option_map};
ghost use Rattle.club_rows.specs.declared.booking.Booking.{Booking as BookingRow};
ghost use Rattle.club_tables.specs.{Answers.{IsUseIn, AreBookings}, Columns.{whole, text_in}};
ghost use Rattle.club_tables.specs.Columns.{bytes_in, integer_in, no_slot_use};
ghost use Rattle.club_values.specs.Number.{Reads};
ghost use Rattle.sqlite_value.specs.Order.{column};

use club_core::{SlotUse, StoreFault};
use club_rows::{
    Booking, BookingColumns, Facility, FacilityColumns, KeyRow, MAX_CREDITED, MAX_PLACES, Member,
    OlderRoot, Root,
};
use club_values::Moment;
use sqlite::Row;
use sqlite::types::ValueRef;
use std::alloc::Global;

/// A member, and the points that the member has spent on bookings.
#[derive(Clone, Copy)]
pub struct MemberRow {
    pub member: Member,
    /// The member's charges minus refunds, from 0 to 999,999,999 points. In a sound club, this
    /// number is at most the member's credited points.
    pub used: u32,
}

fn text_at(row: &Row, at: usize) -> Option<&[u8]>
    ensures { option_map (λ text. text.now) result ≡ text_in (column row.now at) }
{
    match row.get_ref(at) {
        Ok(ValueRef::Text(text)) => Some(text),
        _ => None,
    }
}

fn bytes_at(row: &Row, at: usize) -> Option<&[u8]>
    ensures { option_map (λ bytes. bytes.now) result ≡ bytes_in (column row.now at) }
{
    match row.get_ref(at) {
        Ok(ValueRef::Blob(bytes)) => Some(bytes),
        _ => None,
    }
}

pub(crate) fn integer_at(row: &Row, at: usize) -> Option<i64>
    ensures { result ≡ integer_in (column row.now at) }
{
    match row.get_ref(at) {
        Ok(ValueRef::Int(number)) => Some(number),
        _ => None,
    }
}

/// Returns the number in a column, if the column contains an integer from 0 to `high`.
pub(crate) fn number_within(row: &Row, at: usize, high: u32) -> Option<u32>
    ensures { Reads (λ n. (n ≤ high) × (column row.now at ≡ whole n)) result }
{
    let number = u32::try_from(integer_at(row, at)?).ok()?;
    if number <= high { Some(number) } else { None }
}

/// Decodes the columns `closed` and `taken` of a slot. Returns `None` if a value has the wrong type
/// or is outside its limits. The highest value of `taken` is `MAX_PLACES`.
fn slot_use_in(row: &Row) -> Option<SlotUse>
    ensures { Reads (IsUseIn row.now) result }
{
    let closed = match number_within(row, 0, 1)? {
        0 => false,
        _ => true,
    };
    let taken = number_within(row, 1, MAX_PLACES)?;
    Some(SlotUse { taken, closed })
}

/// A value that can be decoded from a row of the tables.
pub(crate) trait FromRow: Sized {
    ghost use Rattle.club_values.specs.Number.{Reads};
    ghost use Rattle.sqlite_value.specs.Order.{Row as Values};

    // The row decodes to this value.
    ghost yields: { Values → Self → Type 0 };

    /// Decodes the row. Returns `None` if a value has the wrong type or is outside its limits.
    fn from_row(row: &Row) -> Option<Self>
        ensures { Reads (yields row.now) result };
}

/// A value that can be decoded from all rows of a query.
pub(crate) trait FromRows: Sized {
    ghost use Rattle.std.specs.Prelude.{List};
    ghost use Rattle.club_values.specs.Number.{Reads};
    ghost use Rattle.sqlite_value.specs.Order.{Row as Values};

    // The rows decode to this value.
    ghost holds: { List Values → Self → Type 0 };

    /// Decodes the rows. Returns `None` if the rows can't be decoded.
    fn from_rows(rows: &[Row]) -> Option<Self>
        ensures { Reads (holds rows.now) result };
}

impl<T: FromRow> FromRows for Option<T> {
    ghost use Rattle.club_tables.specs.Answers.{IsFirst};

    ghost holds = { IsFirst T.yields };

    /// Decodes the first row. The decoded value is `None` if there is no row.
    fn from_rows(rows: &[Row]) -> Option<Option<T>> {
        match rows.first() {
            None => Some(None),
            Some(row) => match T::from_row(row) {
                Some(found) => Some(Some(found)),
                None => None,
            },
        }
    }
}

impl FromRows for SlotUse {
    ghost use Rattle.club_tables.specs.Answers.{IsUse};

    ghost holds = { IsUse };

    /// Decodes rows into a `SlotUse`. If there is no row, the slot is open and has no persons.
    /// Returns `None` for two or more rows.
    fn from_rows(rows: &[Row]) -> Option<SlotUse> {
        match rows {
            [] => Some(SlotUse {
                taken: 0,
                closed: false,
            }),
            [row] => slot_use_in(row),
            _ => None,
        }
    }
}

impl FromRow for MemberRow {
    ghost use Rattle.club_tables.specs.Answers.{IsMemberIn};

    ghost yields = { IsMemberIn };

    /// Decodes a member's row from the columns `name`, `credited`, `quota` and `used`.
    fn from_row(row: &Row) -> Option<MemberRow> {
        let member = Member::from_columns(
            text_at(row, 0)?,
            integer_at(row, 1)?,
            integer_at(row, 2)?,
        )?;
        let used = number_within(row, 3, MAX_CREDITED)?;
        Some(MemberRow { member, used })
    }
}

impl FromRow for KeyRow {
    ghost use Rattle.club_tables.specs.Answers.{IsKeyIn};

    ghost yields = { IsKeyIn };

    fn from_row(row: &Row) -> Option<KeyRow> {
        KeyRow::from_columns(
            text_at(row, 0)?,
            text_at(row, 1)?,
            bytes_at(row, 2)?,
            integer_at(row, 3)?,
        )
    }
}

impl FromRow for OlderRoot {
    ghost use Rattle.club_tables.specs.Answers.{IsOlderRootIn};

    ghost yields = { IsOlderRootIn };

    /// Decodes the older root of a key from the columns `root` and `until`.
    fn from_row(row: &Row) -> Option<OlderRoot> {
        let root = Root::new(bytes_at(row, 0)?)?;
        let until = Moment::from_number(number_within(row, 1, u32::MAX)?)?;
        Some(OlderRoot { root, until })
    }
}

impl FromRow for Facility {
    ghost use Rattle.club_tables.specs.Answers.{IsFacilityIn};

    ghost yields = { IsFacilityIn };

    fn from_row(row: &Row) -> Option<Facility> {
        let columns = FacilityColumns {
            name: text_at(row, 0)?,
            kind: text_at(row, 1)?,
            places: integer_at(row, 2)?,
            price: integer_at(row, 3)?,
            opens: integer_at(row, 4)?,
            shuts: integer_at(row, 5)?,
        };
        Facility::from_columns(&columns)
    }
}

impl FromRow for Booking {
    ghost use Rattle.club_tables.specs.Answers.{IsBookingIn};

    ghost yields = { IsBookingIn };

    fn from_row(row: &Row) -> Option<Booking> {
        let columns = BookingColumns {
            key: text_at(row, 0)?,
            number: integer_at(row, 1)?,
            facility: text_at(row, 2)?,
            day: integer_at(row, 3)?,
            hour: integer_at(row, 4)?,
            guests: integer_at(row, 5)?,
            charge: integer_at(row, 6)?,
            left: integer_at(row, 7)?,
            cancelled: integer_at(row, 8)?,
            refund: integer_at(row, 9)?,
        };
        Booking::from_columns(&columns)
    }
}

/// Decodes each row into a booking, in order. Fails with `Storage` if a row contains a value
/// outside its limits.
pub(crate) fn bookings_in(alloc: Global, rows: &[Row]) -> Result<Vec<Booking>, StoreFault>
    ensures are { IfOk result (λ bookings. AreBookings rows.now bookings.items) }
    ensures storage { result ≡ Err StoreFault.Storage → (bookings : List BookingRow) → ¬
        (AreBookings rows.now bookings) }
{
    let mut bookings = match Vec::with_capacity(alloc, rows.len()) {
        Ok(bookings) => bookings,
        Err(_) => return Err(StoreFault::Memory),
    };
    for row in rows {
        let Some(booking) = Booking::from_row(row) else {
            return Err(StoreFault::Storage);
        };
        bookings.push_reserved(booking);
    }
    Ok(bookings)
}
