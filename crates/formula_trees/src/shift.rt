//! Formulas copied to another cell.

ghost use Rattle.std.specs.Prelude.{◌≡◌, IfOk};
ghost use Rattle.formula_trees.specs.Expr.{expr_of};
ghost use Rattle.formula_trees.specs.Shifted.{shifted, copied_cell, copied_range};
ghost use Rattle.formula_trees.specs.Sound.{IsSound};

use crate::places::{area_of, resolve};
use crate::{Reference, Repoint, Tree, map_tree};
use cell_values::{Addr, MAX_RANGE_CELLS, TextId};
use std::alloc::{AllocError, Global};

/// The formula of the cell `from`, copied to the cell `to`: offsets and absolute parts stay. A reference or a
/// range that leaves the sheet there, and a range that has more than 65,536 cells there, is `#REF!`.
pub fn shift(alloc: Global, tree: &Tree, from: Addr, to: Addr) -> Result<Tree, AllocError>
    requires { IsSound from (expr_of tree.now) }
    ensures same { IfOk result (λ copy. expr_of copy ≡ shifted to (expr_of tree.now)) }
    ensures sound { IfOk result (λ copy. IsSound to (expr_of copy)) }
{
    map_tree(alloc, tree, &Copied { to })
}

/// What is copied to a cell.
#[derive(Clone, Copy)]
struct Copied {
    to: Addr,
}

impl Repoint for Copied {
    ghost cell = { λ copy r. copied_cell copy.to r };

    ghost range = { λ copy r s. copied_range copy.to r s };

    ghost text = { λ copy t. t };

    /// The reference, where it names a cell there.
    fn cell(&self, reference: &Reference) -> Tree {
        match resolve(reference, self.to) {
            Some(_) => Tree::Ref(*reference),
            None => Tree::RefError,
        }
    }

    /// The range, where it lies in the sheet there and has at most 65,536 cells.
    fn range(&self, first: &Reference, second: &Reference) -> Tree {
        match area_of(first, second, self.to) {
            Some(area) if area.size() <= MAX_RANGE_CELLS => Tree::Range(*first, *second),
            _ => Tree::RefError,
        }
    }

    /// The same text.
    fn text(&self, id: TextId) -> TextId {
        id
    }
}
