//! Which formulas inserted and deleted rows touch.

ghost use Rattle.std.specs.Prelude.{◌≡◌, IfSome};
ghost use Rattle.cell_values.specs.Areas.{IsArea};
ghost use Rattle.formula_trees.specs.Expr.{expr_of, exprs_of};
ghost use Rattle.row_shift.specs.Moves.{IsChange};
ghost use Rattle.row_shift.specs.MovedBook.{loses_cell, area_changes, has_other_height, range_changes, have_part, touches};

use crate::RowChange;
use crate::areas::moved_area;
use crate::rows::move_cell;
use cell_values::{Addr, Area};
use formula_trees::{Args, Reference, Tree, area_of, resolve};

/// Whether the change touches the formula of the cell `at`: one of its references or ranges becomes `#REF!`, or one of
/// its ranges gets more rows or fewer.
#[cycle(touches)]
pub fn touches(tree: &Tree, change: RowChange, at: Addr) -> bool
    requires { IsChange change }
    ensures { result ≡ touches change at (expr_of tree.now) }
{
    match tree {
        Tree::Ref(r) => loses_cell(change, at, r),
        Tree::Range(r, s) => area_changes(change, area_of(r, s, at)),
        Tree::Unary(_, a) => touches(a, change, at),
        Tree::Binary(_, a, b) => touches(a, change, at) || touches(b, change, at),
        Tree::Call(_, args) => touch_args(args, change, at),
        Tree::Number(_) | Tree::Text(_) | Tree::Bool(_) | Tree::RefError => false,
    }
}

/// The same for arguments.
#[cycle(touches)]
fn touch_args(args: &Args, change: RowChange, at: Addr) -> bool
    requires { IsChange change }
    ensures { result ≡ have_part (loses_cell change at) (range_changes change at) (exprs_of args.now) }
{
    match args {
        Args::End => false,
        Args::More(a, rest) => touches(a, change, at) || touch_args(rest, change, at),
    }
}

/// Whether a reference of the cell `at` becomes `#REF!`.
fn loses_cell(change: RowChange, at: Addr, reference: &Reference) -> bool
    ensures { result ≡ loses_cell change at reference.now }
{
    match resolve(reference, at) {
        Some(named) => move_cell(change, named).is_none(),
        None => true,
    }
}

/// Whether a range of these cells becomes `#REF!`, or gets more rows or fewer.
fn area_changes(change: RowChange, area: Option<Area>) -> bool
    requires change { IsChange change }
    requires area { IfSome area IsArea }
    ensures { result ≡ area_changes change area }
{
    match area {
        Some(area) => has_other_height(area, moved_area(change, area)),
        None => true,
    }
}

/// Whether the new area is missing, or has more rows or fewer.
fn has_other_height(area: Area, moved: Option<Area>) -> bool
    requires area { IsArea area }
    requires moved { IfSome moved IsArea }
    ensures { result ≡ has_other_height area moved }
{
    match moved {
        Some(moved) => moved.rows() != area.rows(),
        None => true,
    }
}
