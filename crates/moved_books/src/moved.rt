//! The cells of a workbook, as they stand behind a change of rows.

ghost use Rattle.std.specs.Prelude.{◌≡◌, Some, IfOk, OnOk};
ghost use Rattle.cell_values.specs.Order.{entry_at};
ghost use Rattle.row_shift.specs.Moves.{IsChange, move_cell};
ghost use Rattle.row_shift.specs.MovedBook.{moved_cells};
ghost use Rattle.workbook_core.specs.Apart.{with_cells};
ghost use Rattle.workbook_core.specs.Books.{IsWorkbook};
ghost use Rattle.moved_books.specs.Steps.{HasMoved};

use cell_values::Addr;
use row_shift::{RowChange, move_cell, moved_tree};
use std::alloc::{AllocError, Global};
use workbook_core::{CellsApart, Content, Workbook};

/// The workbook's cells that have a place, there, with their formulas as they read there. They fit the workbook's sheets
/// and texts. Formulas that are equal then share one expression.
pub fn moved_cells(
    alloc: Global,
    book: &Workbook,
    change: RowChange,
) -> Result<CellsApart, AllocError>
    requires { IsChange change }
    ensures cells { IfOk result (λ apart. apart.cells ≡ moved_cells change book.now.book.cells) }
    ensures fit { IfOk result (λ apart. IsWorkbook (with_cells book.now apart)) }
{
    let mut apart = CellsApart::new(alloc);
    let _count = book.count();
    let mut after = None;
    while let Some(at) = book.next_cell(after) {
        put_moved(alloc, &mut apart, book, change, at)?;
        after = Some(at);
    }
    Ok(apart)
}

/// Puts what a cell holds to the cell's place, if it has one.
fn put_moved(
    alloc: Global,
    apart: &mut CellsApart,
    book: &Workbook,
    change: RowChange,
    at: Addr,
) -> Result<(), AllocError>
    requires { IsChange change }
    ensures { OnOk result (HasMoved change at (move_cell change at) (entry_at book.now.book.cells at) apart.old.cells apart.new.cells) }
{
    match move_cell(change, at) {
        Some(to) => put_there(alloc, apart, book, change, at, to),
        None => Ok(()),
    }
}

/// Puts what a cell holds to the cell's place.
fn put_there(
    alloc: Global,
    apart: &mut CellsApart,
    book: &Workbook,
    change: RowChange,
    at: Addr,
    to: Addr,
) -> Result<(), AllocError>
    requires change { IsChange change }
    requires place { move_cell change at ≡ Some to }
    ensures { OnOk result (HasMoved change at (Some to) (entry_at book.now.book.cells at) apart.old.cells apart.new.cells) }
{
    match book.content(at) {
        Some(Content::Formula(id)) => {
            let tree = book.pool().tree(alloc, id)?;
            let moved = moved_tree(alloc, &tree, change, at, to)?;
            apart.put_tree(alloc, to, &moved)
        }
        Some(plain) => apart.put(to, plain),
        None => Ok(()),
    }
}
