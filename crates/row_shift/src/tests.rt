//! Worked cases of moved rows, ranges and formulas.

ghost use Rattle.std.specs.Prelude.{◌≤◌};
ghost use Rattle.cell_values.specs.declared.TheConstants.{LAST_ROW};
ghost use Rattle.row_shift.specs.Moves.{IsChange};

use crate::{RowChange, move_cell, moved_area, moved_tree, touches};
use cell_values::{Addr, Area};
use formula_trees::{Part, Reference, Tree, resolve};
use std::alloc::{AllocError, Global};
use std::test::Fail;

/// The rows of a range of the columns A and B on the first sheet after a change.
fn rows_after(change: RowChange, top: u32, bottom: u32) -> Option<(u32, u32)>
    requires change { IsChange change }
    requires from { 1 ≤ top }
    requires ordered { top ≤ bottom }
    requires to { bottom ≤ LAST_ROW }
{
    let area = Area {
        sheet: 0,
        top,
        left: 1,
        bottom,
        right: 2,
    };
    match moved_area(change, area) {
        Some(moved) => Some((moved.top, moved.bottom)),
        None => None,
    }
}

fn insert(row: u32, count: u32) -> RowChange
    requires from { 1 ≤ row }
    requires to { row ≤ LAST_ROW }
    requires some { 1 ≤ count }
    requires few { count ≤ LAST_ROW }
    ensures { IsChange result }
{
    RowChange::Insert {
        sheet: 0,
        row,
        count,
    }
}

fn delete(row: u32, count: u32) -> RowChange
    requires from { 1 ≤ row }
    requires to { row ≤ LAST_ROW }
    requires some { 1 ≤ count }
    requires few { count ≤ LAST_ROW }
    ensures { IsChange result }
{
    RowChange::Delete {
        sheet: 0,
        row,
        count,
    }
}

#[test]
fn ranges_grow_move_and_end_where_rows_are_inserted(rt: HostRuntime) {
    assert_eq!(rt; rows_after(insert(2, 1), 1, 2), Some((1, 3)));
    assert_eq!(rt; rows_after(insert(7, 1), 3, 6), Some((3, 6)));
    assert_eq!(rt; rows_after(insert(3, 1), 3, 6), Some((4, 7)));
    assert_eq!(rt; rows_after(insert(9, 1), 1, 65_536), None);
    assert_eq!(rt; rows_after(insert(9, 1), 1, 32_768), None);
}

#[test]
fn ranges_shrink_and_end_where_rows_are_deleted(rt: HostRuntime) {
    assert_eq!(rt; rows_after(delete(2, 3), 3, 6), Some((2, 3)));
    assert_eq!(rt; rows_after(delete(5, 9), 3, 6), Some((3, 4)));
    assert_eq!(rt; rows_after(delete(4, 1), 3, 6), Some((3, 5)));
    assert_eq!(rt; rows_after(delete(3, 2), 3, 4), None);
    assert_eq!(rt; rows_after(delete(1, 2), 3, 6), Some((1, 4)));
}

/// What stands for the row of a reference of column A, where the formula stands in this row of the column: None where
/// the reference becomes `#REF!`, and where the formula has no place.
fn part_after(
    alloc: Global,
    change: RowChange,
    row: u32,
    part: Part,
) -> Result<Option<Part>, AllocError>
    requires change { IsChange change }
    requires from { 1 ≤ row }
    requires to { row ≤ LAST_ROW }
{
    let at = Addr {
        sheet: 0,
        row,
        col: 1,
    };
    let reference = Reference {
        sheet: None,
        col: Part::By(0),
        row: part,
    };
    let (Some(to), Some(_)) = (move_cell(change, at), resolve(&reference, at)) else {
        return Ok(None);
    };
    if let Tree::Ref(moved) = moved_tree(alloc, &Tree::Ref(reference), change, at, to)? {
        return Ok(Some(moved.row));
    }
    Ok(None)
}

#[test]
fn references_follow_inserted_rows(rt: HostRuntime) -> Result<(), Fail> {
    let alloc = rt.alloc();
    assert_eq!(rt;
        part_after(alloc, insert(2, 1), 1, Part::By(0))?,
        Some(Part::By(0))
    );
    assert_eq!(rt;
        part_after(alloc, insert(2, 3), 5, Part::By(-4))?,
        Some(Part::By(-7))
    );
    assert_eq!(rt;
        part_after(alloc, insert(2, 3), 1, Part::At(5))?,
        Some(Part::At(8))
    );
    assert_eq!(rt;
        part_after(alloc, insert(2, 3), 5, Part::At(1))?,
        Some(Part::At(1))
    );
    assert_eq!(rt; part_after(alloc, insert(9, 1), 1, Part::At(65_536))?, None);
    Ok(())
}

#[test]
fn references_follow_deleted_rows(rt: HostRuntime) -> Result<(), Fail> {
    let alloc = rt.alloc();
    assert_eq!(rt; part_after(alloc, delete(1, 1), 2, Part::By(-1))?, None);
    assert_eq!(rt;
        part_after(alloc, delete(2, 3), 7, Part::By(-6))?,
        Some(Part::By(-3))
    );
    assert_eq!(rt;
        part_after(alloc, delete(2, 3), 1, Part::At(7))?,
        Some(Part::At(4))
    );
    assert_eq!(rt; part_after(alloc, delete(2, 3), 1, Part::At(3))?, None);
    Ok(())
}

/// Whether a change touches the range of these rows of column A, in a formula of B1.
fn range_is_touched(change: RowChange, top: u32, bottom: u32) -> bool
    requires { IsChange change }
{
    let corner = |row: u32| Reference {
        sheet: None,
        col: Part::At(1),
        row: Part::At(row),
    };
    let at = Addr {
        sheet: 0,
        row: 1,
        col: 2,
    };
    touches(&Tree::Range(corner(top), corner(bottom)), change, at)
}

#[test]
fn ranges_whose_rows_change_are_touched(rt: HostRuntime) {
    assert!(rt; range_is_touched(insert(2, 1), 1, 2));
    assert!(rt; !range_is_touched(insert(3, 1), 1, 2));
    assert!(rt; !range_is_touched(insert(1, 1), 1, 2));
    assert!(rt; range_is_touched(delete(2, 1), 1, 2));
    assert!(rt; range_is_touched(delete(1, 2), 1, 2));
    assert!(rt; !range_is_touched(delete(3, 9), 1, 2));
}
