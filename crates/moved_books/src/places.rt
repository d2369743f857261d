//! The places of cells.

ghost use Rattle.std.specs.Prelude.{◌≡◌, ◌++◌, OnOk, filter_map, option_to_list};
ghost use Rattle.row_shift.specs.Moves.{move_cell};

use cell_values::Addr;
use row_shift::{RowChange, move_cell};
use std::alloc::AllocError;

/// Appends the places of these cells, as far as they have one.
pub fn push_places(
    places: &mut Vec<Addr>,
    change: RowChange,
    cells: &[Addr],
) -> Result<(), AllocError>
    ensures { OnOk result (places.new.items ≡ places.old.items ++ filter_map (move_cell change) cells.now) }
{
    for i in 0..cells.len() {
        push_place(places, change, cells[i])?;
    }
    Ok(())
}

/// Appends the place of a cell, if it has one.
fn push_place(places: &mut Vec<Addr>, change: RowChange, at: Addr) -> Result<(), AllocError>
    ensures { OnOk result (places.new.items ≡ places.old.items ++ option_to_list (move_cell change at)) }
{
    if let Some(to) = move_cell(change, at) {
        places.push(to)?;
    }
    Ok(())
}
