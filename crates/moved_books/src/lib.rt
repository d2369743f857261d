//! Workbooks whose rows are inserted or deleted: their cells as they stand then, and which of them have to be asked again.
#![tactic(auto)]

mod moved;
mod places;
mod pushed;
mod touched;

pub use moved::moved_cells;
pub use places::push_places;
pub use pushed::pushes_out;
pub use touched::touched_cells;
