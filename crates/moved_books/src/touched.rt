//! The formula cells that a change of rows touches.

ghost use Rattle.std.specs.Prelude.{◌≡◌, ◌++◌, IfOk, OnOk, option_to_list};
ghost use Rattle.cell_values.specs.Order.{entry_at};
ghost use Rattle.row_shift.specs.Moves.{IsChange};
ghost use Rattle.row_shift.specs.MovedBook.{touched_places};
ghost use Rattle.moved_books.specs.Steps.{place_if_touched};

use cell_values::Addr;
use row_shift::{RowChange, move_cell, touches};
use std::alloc::{AllocError, Global};
use workbook_core::{Content, Workbook};

/// The places of the formula cells of which a reference or a range becomes `#REF!`, or of which a range gets more rows or
/// fewer.
pub fn touched_cells(
    alloc: Global,
    book: &Workbook,
    change: RowChange,
) -> Result<Vec<Addr>, AllocError>
    requires { IsChange change }
    ensures { IfOk result (λ cells. cells.items ≡ touched_places change book.now.book) }
{
    let mut touched = Vec::new(alloc);
    let _count = book.count();
    let mut after = None;
    while let Some(at) = book.next_cell(after) {
        push_touched(alloc, &mut touched, book, change, at)?;
        after = Some(at);
    }
    Ok(touched)
}

/// Appends the place of a cell, if the change touches its formula and it has a place.
fn push_touched(
    alloc: Global,
    touched: &mut Vec<Addr>,
    book: &Workbook,
    change: RowChange,
    at: Addr,
) -> Result<(), AllocError>
    requires { IsChange change }
    ensures { OnOk result (touched.new.items ≡ touched.old.items ++ option_to_list (place_if_touched change at (entry_at book.now.book.cells at))) }
{
    if let Some(place) = place_if_touched(alloc, book, change, at)? {
        touched.push(place)?;
    }
    Ok(())
}

/// The place of a cell, if the change touches its formula and it has a place.
fn place_if_touched(
    alloc: Global,
    book: &Workbook,
    change: RowChange,
    at: Addr,
) -> Result<Option<Addr>, AllocError>
    requires { IsChange change }
    ensures { IfOk result (λ place. place ≡ place_if_touched change at (entry_at book.now.book.cells at)) }
{
    let Some(Content::Formula(id)) = book.content(at) else {
        return Ok(None);
    };
    let tree = book.pool().tree(alloc, id)?;
    Ok(if touches(&tree, change, at) {
        move_cell(change, at)
    } else {
        None
    })
}
