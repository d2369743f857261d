//! Where inserted and deleted rows bring ranges.

ghost use Rattle.std.specs.Prelude.{◌≡◌, ◌≤◌, ◌==◌, cond, Some, IfSome};
ghost use Rattle.cell_values.specs.Areas.{IsArea};
ghost use Rattle.row_shift.specs.Ends.{both, end_rows};
ghost use Rattle.row_shift.specs.Moves.{IsChange, sheet_of, row_of, if_small, moved_rows, moved_area};

use crate::RowChange;
use crate::rows::{moved_row, sheet_of};
use cell_values::{Area, MAX_RANGE_CELLS};

/// The least rectangle that holds the places of a range's cells: None where no cell has one, where an insertion leaves
/// one without, and where it has more than 65,536 cells.
#[tactic(auto, using(crate::proofs::Ends::rows_make_area), unfolding(crate::specs::Moves::moved_area))]
pub fn moved_area(change: RowChange, area: Area) -> Option<Area>
    requires change { IsChange change }
    requires area { IsArea area }
    ensures same { result ≡ moved_area change area }
    ensures within { IfSome result IsArea }
{
    match moved_rows(change, area) {
        Some((top, bottom)) => if_small(Area {
            top,
            bottom,
            ..area
        }),
        None => None,
    }
}

/// An area of at most 65,536 cells.
fn if_small(area: Area) -> Option<Area>
    requires { IsArea area }
    ensures same { result ≡ if_small area }
    ensures within { IfSome result IsArea }
{
    if area.size() <= MAX_RANGE_CELLS {
        Some(area)
    } else {
        None
    }
}

/// The first and the last row of that rectangle.
fn moved_rows(change: RowChange, area: Area) -> Option<(u32, u32)>
    requires row { 1 ≤ row_of change }
    requires area { IsArea area }
    ensures { result ≡ moved_rows change area }
{
    rows_on(change, area.sheet, area.top, area.bottom)
}

/// The same of rows of any sheet, from the first and the last one.
fn rows_on(change: RowChange, sheet: u8, top: u32, bottom: u32) -> Option<(u32, u32)>
    requires { 1 ≤ row_of change }
    ensures { result ≡ cond (sheet == sheet_of change) (end_rows change top bottom) (Some (top, bottom)) }
{
    if sheet == sheet_of(change) {
        end_rows(change, top, bottom)
    } else {
        Some((top, bottom))
    }
}

/// The same of rows of the changed sheet.
fn end_rows(change: RowChange, top: u32, bottom: u32) -> Option<(u32, u32)>
    requires { 1 ≤ row_of change }
    ensures { result ≡ end_rows change top bottom }
{
    match change {
        RowChange::Insert { .. } => both(moved_row(change, top), moved_row(change, bottom)),
        RowChange::Delete { row, count, .. } => {
            let past = u64::from(row) + u64::from(count);
            if row <= top && u64::from(bottom) < past {
                return None;
            }
            let new_top = moved_row(change, top).unwrap_or(row);
            let new_bottom = moved_row(change, bottom).unwrap_or(row - 1);
            Some((new_top, new_bottom))
        }
    }
}

/// Two rows, if both are there.
fn both(top: Option<u32>, bottom: Option<u32>) -> Option<(u32, u32)>
    ensures { result ≡ both top bottom }
{
    match (top, bottom) {
        (Some(top), Some(bottom)) => Some((top, bottom)),
        _ => None,
    }
}
