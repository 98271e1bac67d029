//! Writes the text of the day sheet.

ghost use Rattle.std.specs.{Prelude.{◌≡◌, ◌++◌, IfOk, OnOk, flat_map, sum_by}, String.string_bytes};
ghost use Rattle.club_rows.specs.{Rows.persons_of, declared.booking.Booking.Booking as BookingRow};
ghost use Rattle.club_core.specs.Sheet as spec;

use club_rows::Booking;
use club_values::Day;
use std::alloc::{AllocError, Global};

/// Returns the text of the day sheet. The sheet has a line with the day, a line for each row, and a
/// line with the totals. A sheet without rows ends with `No bookings.` instead of the totals.
/// `rows` contains the day's bookings that aren't cancelled, ordered by facility, hour, key and
/// number. Each row has six columns: facility, hour, key, number, persons and points. The columns
/// are 24, 5, 24, 9, 2 and 6 characters wide.
///
/// # Errors
///
/// Fails only if an allocation fails.
pub fn sheet_text(alloc: Global, day: Day, rows: &[Booking]) -> Result<String, AllocError>
    ensures { IfOk result (λ text. string_bytes text ≡ spec.sheet_text day rows.now) }
{
    let mut text = format!(in alloc; "Day sheet {day}\n")?;
    push_rows(&mut text, rows)?;
    push_totals(&mut text, rows)?;
    Ok(text)
}

fn push_rows(text: &mut String, rows: &[Booking]) -> Result<(), AllocError>
    ensures { OnOk result
        (string_bytes text.new ≡ string_bytes text.old ++ flat_map spec.row_text rows.now) }
{
    for row in rows {
        push_row(text, row)?;
    }
    Ok(())
}

fn push_row(text: &mut String, row: &Booking) -> Result<(), AllocError>
    ensures { OnOk result (string_bytes text.new ≡ string_bytes text.old ++ spec.row_text row.now) }
{
    let facility = row.slot.facility.as_str();
    let key = row.key.as_str();
    let number = row.number.get();
    let persons = row.guests.persons();
    writeln!(
        text,
        "{facility:<24} {}:00 {key:<24} {number:>9} {persons:>2} {:>6}",
        row.slot.hour, row.charge
    )
}

fn push_totals(text: &mut String, rows: &[Booking]) -> Result<(), AllocError>
    ensures { OnOk result
        (string_bytes text.new ≡ string_bytes text.old ++ spec.totals_text rows.now) }
{
    if rows.is_empty() {
        return writeln!(text, "No bookings.");
    }
    let count = rows.len();
    let persons = count_persons(rows);
    let charge = sum_charges(rows);
    writeln!(
        text,
        "Total bookings {count}, persons {persons}, charge {charge}"
    )
}

fn count_persons(rows: &[Booking]) -> u128
    ensures { result ≡ sum_by persons_of rows.now }
{
    rows.iter()
        .map(|row| u128::from(row.guests.persons()))
        .sum()
}

fn sum_charges(rows: &[Booking]) -> u128
    ensures { result ≡ sum_by (λ (row : BookingRow). row.charge) rows.now }
{
    rows.iter().map(|row| u128::from(row.charge)).sum()
}
