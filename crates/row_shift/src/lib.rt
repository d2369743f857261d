//! Rows inserted and deleted: where they bring cells and formulas, and which formulas have to be asked again.
#![tactic(auto)]

ghost use Rattle.row_shift.specs.MovedBook.{UntouchedShowTheSame, MovedPendingIsClosed, MovedCellsAreCells};

mod areas;
mod change;
mod rows;
#[cfg(test)]
mod tests;
mod touched;
mod trees;

pub use areas::moved_area;
pub use change::RowChange;
pub use rows::{move_cell, moved_row};
pub use touched::touches;
pub use trees::moved_tree;

/// A formula cell that is not pending after rows were inserted or deleted shows at its place what it showed before.
pub fn law_untouched_show_the_same()
    ensures { UntouchedShowTheSame }
{}

/// Where each cell that mentions a pending one was pending, it is so after rows were inserted or deleted.
pub fn law_moved_pending_is_closed()
    ensures { MovedPendingIsClosed }
{}

/// What inserted or deleted rows make of the cells of a book are cells of a book.
pub fn law_moved_cells_are_cells()
    ensures { MovedCellsAreCells }
{}
