//! Decodes rows into the highest number of persons in a slot. Decoding returns `None` if a number
//! is outside its limits.

use crate::row::{FromRows, number_within};
use club_rows::MAX_PLACES;
use sqlite::Row;

impl FromRows for u32 {
    ghost use Rattle.club_tables.specs.Answers.{IsMostIn};

    ghost holds = { IsMostIn };

    /// Returns the highest number in the column `taken`, or 0 if there are no rows.
    fn from_rows(rows: &[Row]) -> Option<u32> {
        let mut most = 0u32;
        for row in rows {
            let Some(taken) = number_within(row, 0, MAX_PLACES) else {
                return None;
            };
            most = most.max(taken);
        }
        Some(most)
    }
}
