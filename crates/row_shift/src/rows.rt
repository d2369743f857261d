//! Where inserted and deleted rows bring cells.

ghost use Rattle.std.specs.Prelude.{◌≡◌};
ghost use Rattle.row_shift.specs.Moves.{sheet_of, moved_row, row_on, move_cell};

use crate::RowChange;
use cell_values::{Addr, LAST_ROW};

/// The place of a row of the changed sheet: None for a deleted one, and for one that is pushed past the last row.
pub fn moved_row(change: RowChange, row: u32) -> Option<u32>
    ensures { result ≡ moved_row change row }
{
    match change {
        RowChange::Insert {
            row: first,
            count,
            ..
        } => {
            if row < first {
                return Some(row);
            }
            let pushed = u64::from(row) + u64::from(count);
            if pushed <= u64::from(LAST_ROW) {
                Some(pushed as u32)
            } else {
                None
            }
        }
        RowChange::Delete {
            row: first,
            count,
            ..
        } => {
            if row < first {
                Some(row)
            } else if u64::from(row) < u64::from(first) + u64::from(count) {
                None
            } else {
                Some(row - count)
            }
        }
    }
}

/// The sheet whose rows are inserted or deleted.
pub(crate) fn sheet_of(change: RowChange) -> u8
    ensures { result ≡ sheet_of change }
{
    match change {
        RowChange::Insert { sheet, .. } => sheet,
        RowChange::Delete { sheet, .. } => sheet,
    }
}

/// The place of a row of any sheet.
fn row_on(change: RowChange, sheet: u8, row: u32) -> Option<u32>
    ensures { result ≡ row_on change sheet row }
{
    if sheet == sheet_of(change) {
        moved_row(change, row)
    } else {
        Some(row)
    }
}

/// The place of a cell; cells of other sheets stay.
pub fn move_cell(change: RowChange, at: Addr) -> Option<Addr>
    ensures { result ≡ move_cell change at }
{
    match row_on(change, at.sheet, at.row) {
        Some(row) => Some(Addr { row, ..at }),
        None => None,
    }
}
