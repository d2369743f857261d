//! The rows that a line names.

ghost use Rattle.std.specs.Prelude.{◌≡◌, ◌<◌, length, IfSome};
ghost use Rattle.edit_script.specs.Rows.{if_within, row_number, row_of, rows_in, rows_of, AreRowsOf, AreWithin, IsRowNumber};

use crate::line::Rows;
use crate::numbers::read_number;
use crate::pieces::split_at_mark;
use crate::targets::read_sheet;
use cell_values::{Int, LAST_ROW, SheetNames};

/// The number, if it is from 1 to the last row.
fn row_of(number: Int) -> Option<u32>
    ensures same { result ≡ row_of number }
    ensures within { IfSome result IsRowNumber }
{
    if 1 <= number && number <= Int::from(LAST_ROW) {
        Some(number as u32)
    } else {
        None
    }
}

/// The number from 1 to the last row that a text writes, with no zero in front.
fn read_row(text: &str) -> Option<u32>
    ensures same { result ≡ row_number text.now }
    ensures within { IfSome result IsRowNumber }
{
    match text.as_bytes() {
        [] | [b'0', ..] => None,
        _ => row_of(read_number(text)?),
    }
}

/// Reads a row, a count, and the sheet's name or none, with one space between them.
pub(crate) fn read_rows(sheets: &SheetNames, text: &str) -> Option<Rows>
    requires { 0 < length sheets.now }
    ensures same { result ≡ rows_in sheets.now text.now }
    ensures within { IfSome result (AreRowsOf sheets.now) }
{
    let (row, behind) = split_at_mark(text, ' ');
    let (count, name) = split_at_mark(behind, ' ');
    rows_of(
        sheets,
        read_row(row),
        read_row(count),
        read_sheet(sheets, name),
    )
}

/// Rows, if all that tells them is there.
fn rows_of(
    sheets: &SheetNames,
    row: Option<u32>,
    count: Option<u32>,
    sheet: Option<u8>,
) -> Option<Rows>
    requires row { IfSome row IsRowNumber }
    requires count { IfSome count IsRowNumber }
    requires sheet { IfSome sheet (λ number. number < length sheets.now) }
    ensures same { result ≡ rows_of row count sheet }
    ensures within { IfSome result (AreRowsOf sheets.now) }
{
    let _sheets = sheets;
    match (row, count, sheet) {
        (Some(row), Some(count), Some(sheet)) => Some(Rows { sheet, row, count }),
        _ => None,
    }
}

/// The rows, if the last one lies on the sheet.
pub(crate) fn if_within(sheets: &SheetNames, rows: Rows) -> Option<Rows>
    requires { AreRowsOf sheets.now rows }
    ensures same { result ≡ if_within rows }
    ensures within { IfSome result (AreRowsOf sheets.now) }
    ensures fits { IfSome result AreWithin }
{
    let _sheets = sheets;
    if rows.row + rows.count <= LAST_ROW + 1 {
        Some(rows)
    } else {
        None
    }
}
