//! What is asked of a workbook.

use cell_values::{Addr, Area, Raw};

/// An edit of a workbook.
#[derive(Drop)]
pub enum Edit {
    /// A field, as `Calc::read_raw` reads it, into a cell. The empty field clears the cell.
    Put(Addr, Raw),
    /// A cell is cleared.
    Clear(Addr),
    /// What a cell holds into each cell of an area, with formulas shifted there. An empty cell clears the area.
    Copy(Addr, Area),
}
