//! The formula cells of a workbook.

ghost use Rattle.std.specs.Prelude.{◌≡◌, [], ◌∷◌, ◌++◌, IfOk, OnOk, is_some, if◌then◌else◌};
ghost use Rattle.demand_spec.specs.Book.{formulas, formula_at};

use crate::desk::tell_cells;
use cell_values::Addr;
use demand_spec::BookView;
use std::alloc::{AllocError, Global};
use workbook_core::Workbook;

/// The cells with formulas, in order of address.
pub(crate) fn formula_cells(alloc: Global, book: &Workbook) -> Result<Vec<Addr>, AllocError>
    ensures { IfOk result (λ cells. cells.items ≡ formulas book.now.book) }
{
    tell_cells(book);
    let mut cells = Vec::new(alloc);
    let mut after = None;
    while let Some(at) = book.next_cell(after) {
        add_formula(&mut cells, book, at)?;
        after = Some(at);
    }
    Ok(cells)
}

/// Puts the cell behind the others, if it has a formula.
fn add_formula(cells: &mut Vec<Addr>, book: &Workbook, at: Addr) -> Result<(), AllocError>
    ensures { OnOk result (cells.new.items ≡ cells.old.items ++ (if is_some (formula_at book.now.book at) then at ∷ [] else [])) }
{
    if book.has_formula(at) {
        cells.push(at)?;
    }
    Ok(())
}
