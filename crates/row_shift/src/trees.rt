//! What formulas become where rows are inserted or deleted.

ghost use Rattle.std.specs.Prelude.{◌≡◌, ◌≤◌, Some, IfSome, IfOk};
ghost use Rattle.cell_values.specs.declared.TheConstants.{LAST_ROW};
ghost use Rattle.cell_values.specs.Addresses.{IsOnSheet};
ghost use Rattle.cell_values.specs.Areas.{IsArea};
ghost use Rattle.formula_trees.specs.Expr.{expr_of, Range};
ghost use Rattle.formula_trees.specs.Sound.{IsSound};
ghost use Rattle.row_shift.specs.Moves.{IsChange, move_cell, to_row, ref_to, range_to, moved_ref, moved_range, moved};

use crate::RowChange;
use crate::areas::moved_area;
use crate::rows::move_cell;
use cell_values::{Addr, Area, LAST_ROW, TextId};
use formula_trees::{Part, Reference, Repoint, Tree, map_tree, resolve};
use std::alloc::{AllocError, Global};

/// The formula of the cell `at`, as it stands at that cell's place `to`: references and ranges name the places of what
/// they named, and are `#REF!` where there is none. Absolute parts stay absolute.
#[tactic(auto, using(crate::proofs::Parts::place_row))]
pub fn moved_tree(
    alloc: Global,
    tree: &Tree,
    change: RowChange,
    at: Addr,
    to: Addr,
) -> Result<Tree, AllocError>
    requires change { IsChange change }
    requires on_sheet { IsOnSheet at }
    requires place { move_cell change at ≡ Some to }
    requires sound { IsSound at (expr_of tree.now) }
    ensures same { IfOk result (λ new. expr_of new ≡ moved change at to (expr_of tree.now)) }
    ensures sound { IfOk result (λ new. IsSound to (expr_of new)) }
{
    map_tree(
        alloc,
        tree,
        &Moved {
            change,
            at,
            own: to.row,
        },
    )
}

/// What is moved: the formula of a cell, to the row `own`.
#[derive(Clone, Copy)]
struct Moved {
    change: RowChange,
    at: Addr,
    own: u32,
    ghost right: { IsChange change },
    ghost within: { own ≤ LAST_ROW },
}

impl Repoint for Moved {
    ghost cell = { λ moved r. moved_ref moved.change moved.at moved.own r };

    ghost range = { λ moved r s. moved_range moved.change moved.at moved.own r s };

    ghost text = { λ moved t. t };

    /// The reference to the place of what it names.
    #[tactic(auto, using(crate::proofs::Parts::place_to))]
    fn cell(&self, reference: &Reference) -> Tree {
        match resolve(reference, self.at) {
            Some(named) => ref_to(self.own, reference, move_cell(self.change, named)),
            None => Tree::RefError,
        }
    }

    /// The range between the places of what lies in it.
    fn range(&self, first: &Reference, second: &Reference) -> Tree {
        match (resolve(first, self.at), resolve(second, self.at)) {
            (Some(a), Some(b)) => {
                let area = moved_area(self.change, Area::between(a, b));
                range_to(self.own, first, second, a.row <= b.row, area)
            }
            _ => Tree::RefError,
        }
    }

    /// The same text.
    fn text(&self, id: TextId) -> TextId {
        id
    }
}

/// The reference to this place, if there is one.
fn ref_to(own: u32, reference: &Reference, place: Option<Addr>) -> Tree
    requires own { own ≤ LAST_ROW }
    requires place { IfSome place (λ a. a.row ≤ LAST_ROW) }
    ensures { expr_of result ≡ ref_to own reference.now place }
{
    match place {
        Some(place) => Tree::Ref(to_row(own, reference, place.row)),
        None => Tree::RefError,
    }
}

/// The range of this area, if there is one: the corner with the lesser row gets its top row.
fn range_to(own: u32, first: &Reference, second: &Reference, down: bool, area: Option<Area>) -> Tree
    requires own { own ≤ LAST_ROW }
    requires area { IfSome area IsArea }
    ensures { expr_of result ≡ range_to own first.now second.now down area }
{
    match area {
        Some(area) => {
            if down {
                range_of(own, first, area.top, second, area.bottom)
            } else {
                range_of(own, first, area.bottom, second, area.top)
            }
        }
        None => Tree::RefError,
    }
}

/// The range with its corners in these rows.
fn range_of(own: u32, first: &Reference, one: u32, second: &Reference, other: u32) -> Tree
    requires own { own ≤ LAST_ROW }
    requires one { one ≤ LAST_ROW }
    requires other { other ≤ LAST_ROW }
    ensures { expr_of result ≡ Range (to_row own first.now one) (to_row own second.now other) }
{
    Tree::Range(to_row(own, first, one), to_row(own, second, other))
}

/// The reference to the same column in another row, for a formula in the row `own`.
fn to_row(own: u32, reference: &Reference, row: u32) -> Reference
    requires own { own ≤ LAST_ROW }
    requires row { row ≤ LAST_ROW }
    ensures { result ≡ to_row own reference.now row }
{
    let row = match reference.row {
        Part::At(_) => Part::At(row),
        Part::By(_) => Part::By(row as i32 - own as i32),
    };
    Reference {
        sheet: reference.sheet,
        col: reference.col,
        row,
    }
}
