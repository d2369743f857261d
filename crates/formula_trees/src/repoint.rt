//! Formulas whose references, ranges and texts are replaced.

ghost use Rattle.std.specs.Prelude.{◌≡◌, IfOk};
ghost use Rattle.cell_values.specs.declared.interned.TextId.{TextId};
ghost use Rattle.formula_trees.specs.declared.tree.Reference.{Reference};
ghost use Rattle.formula_trees.specs.Expr.{Expr, expr_of, exprs_of};
ghost use Rattle.formula_trees.specs.Mapped.{mapped, all_mapped};

use crate::{Args, Reference, Tree};
use cell_values::TextId;
use std::alloc::{AllocError, Global};

/// What stands in place of each reference, each range and each text of a formula.
pub trait Repoint {
    ghost cell: { Self → Reference → Expr };

    ghost range: { Self → Reference → Reference → Expr };

    ghost text: { Self → TextId → TextId };

    /// What stands in place of a reference.
    fn cell(&self, reference: &Reference) -> Tree
        ensures { expr_of result ≡ cell self.now reference.now };

    /// What stands in place of a range.
    fn range(&self, first: &Reference, second: &Reference) -> Tree
        ensures { expr_of result ≡ range self.now first.now second.now };

    /// What stands in place of a text.
    fn text(&self, id: TextId) -> TextId
        ensures { result ≡ text self.now id };
}

/// The formula with its references, ranges and texts replaced.
#[cycle(mapped)]
pub fn map_tree<R: Repoint>(alloc: Global, tree: &Tree, by: &R) -> Result<Tree, AllocError>
    ensures { IfOk result (λ copy. expr_of copy ≡ mapped (R.cell by.now) (R.range by.now) (R.text by.now) (expr_of tree.now)) }
{
    Ok(match tree {
        Tree::Number(n) => Tree::Number(*n),
        Tree::Text(id) => Tree::Text(by.text(*id)),
        Tree::Bool(b) => Tree::Bool(*b),
        Tree::Ref(r) => by.cell(r),
        Tree::Range(r, s) => by.range(r, s),
        Tree::RefError => Tree::RefError,
        Tree::Unary(sign, a) => Tree::Unary(*sign, Box::new(alloc, map_tree(alloc, a, by)?)?),
        Tree::Binary(op, a, b) => {
            let left = Box::new(alloc, map_tree(alloc, a, by)?)?;
            Tree::Binary(*op, left, Box::new(alloc, map_tree(alloc, b, by)?)?)
        }
        Tree::Call(f, args) => Tree::Call(*f, map_args(alloc, args, by)?),
    })
}

#[cycle(mapped)]
fn map_args<R: Repoint>(alloc: Global, args: &Args, by: &R) -> Result<Args, AllocError>
    ensures { IfOk result (λ copy. exprs_of copy ≡ all_mapped (R.cell by.now) (R.range by.now) (R.text by.now) (exprs_of args.now)) }
{
    Ok(match args {
        Args::End => Args::End,
        Args::More(a, rest) => {
            let first = Box::new(alloc, map_tree(alloc, a, by)?)?;
            Args::More(first, Box::new(alloc, map_args(alloc, rest, by)?)?)
        }
    })
}
