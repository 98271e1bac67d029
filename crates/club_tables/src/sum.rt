//! Decodes rows into the total cost of bookings. Decoding returns `None` if a number is outside its
//! limits.

ghost use Rattle.club_tables.specs.Columns.{IsCostIn};
ghost use Rattle.club_values.specs.Number.{Reads};

use crate::row::{FromRows, number_within};
use club_rows::MAX_CHARGE;
use sqlite::Row;

/// Returns a row's charge minus its refund. Returns `None` if the charge is outside its limit, or
/// if the refund is more than the charge.
fn cost_of(row: &Row) -> Option<u32>
    ensures { Reads (IsCostIn row.now) result }
{
    let charge = number_within(row, 0, MAX_CHARGE)?;
    let refund = number_within(row, 1, charge)?;
    Some(charge - refund)
}

impl FromRows for u64 {
    ghost use Rattle.club_tables.specs.Answers.{AreCosts};

    ghost holds = { AreCosts };

    /// Returns the total cost of the rows. Each row consists of a charge and a refund.
    fn from_rows(rows: &[Row]) -> Option<u64> {
        let mut sum = 0u64;
        for row in rows {
            let Some(cost) = cost_of(row) else {
                return None;
            };
            sum = sum.checked_add(u64::from(cost))?;
        }
        Some(sum)
    }
}
