//! Whether inserted rows push cells out.

ghost use Rattle.std.specs.Prelude.{◌≡◌, ◌≤◌};
ghost use Rattle.cell_values.specs.declared.TheConstants.{LAST_ROW};
ghost use Rattle.row_shift.specs.Moves.{IsChange};
ghost use Rattle.row_shift.specs.Pushed.{pushes_out};
ghost use Rattle.moved_books.specs.Steps.{is_pushed};

use cell_values::LAST_ROW;
use row_shift::RowChange;
use workbook_core::Workbook;

/// Whether an insertion would push a cell that is not empty past the last row. A deletion pushes none.
#[tactic(auto, using(crate::proofs::Pushing::pushed_told))]
pub fn pushes_out(book: &Workbook, change: RowChange) -> bool
    requires { IsChange change }
    ensures { result ≡ pushes_out change book.now.book.cells }
{
    match change {
        RowChange::Insert { sheet, row, count } => is_pushed(book.extent(sheet), row, count),
        RowChange::Delete { .. } => false,
    }
}

/// Whether the last row with a cell, if there is one, is pushed past the last row.
fn is_pushed(last: Option<(u32, u16)>, row: u32, count: u32) -> bool
    ensures { result ≡ is_pushed last row count }
{
    match last {
        Some((last, _)) => row <= last && u64::from(LAST_ROW) < u64::from(last) + u64::from(count),
        None => false,
    }
}
