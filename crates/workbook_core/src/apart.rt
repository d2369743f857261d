//! Cells that stand apart from a workbook.

ghost use Rattle.std.specs.Prelude.{◌≡◌, [], Some, OnOk, OnErr};
ghost use Rattle.cell_values.specs.Order.{addresses};
ghost use Rattle.formula_trees.specs.Expr.{expr_of};
ghost use Rattle.demand_spec.specs.Book.{Content as BookContent};
ghost use Rattle.demand_spec.specs.Edits.{Put, IsApplied};
ghost use Rattle.shared_expressions.specs.Trees.{KeepsTrees};
ghost use Rattle.workbook_core.specs.Apart.{apart_of, AreApart};
ghost use Rattle.workbook_core.specs.Held.{content_in, IsHeldOf};

use crate::Content;
use crate::cells::CellMap;
use cell_values::Addr;
use formula_trees::Tree;
use shared_expressions::Pool;
use std::alloc::{AllocError, Global};
use std::marker::Model;
use std::mem::swap;

/// Cells with the expressions of their formulas, apart from the names of the sheets and the texts. A workbook can take
/// them in place of its own. Contracts see the cells, in order of address, and the trees of the expressions.
#[derive(Drop)]
pub struct CellsApart {
    cells: CellMap,
    pool: Pool,
}

impl Model for CellsApart {
    ghost use Rattle.workbook_core.specs.Apart.{Apart};

    ghost Value = { Apart };

    ghost use Rattle.std.specs.Coded.{codes};
    ghost use Rattle.formula_trees.specs.ExprCode.{expr_code};

    ghost coded = { Prim.hlevel (codes, expr_code) };

    ghost use Rattle.workbook_core.specs.Apart.{apart_of, AreApart};

    ghost view = { λ c. apart_of c.cells c.pool };

    ghost invariant = { λ c. AreApart c.cells c.pool };
}

impl CellsApart {
    /// No cells.
    pub fn new(alloc: Global) -> CellsApart
        ensures { result ≡ record { cells = []; pool = [] } }
    {
        CellsApart {
            cells: CellMap::new(alloc),
            pool: Pool::new(alloc),
        }
    }

    /// Puts a content into a cell. A formula is the number of one of the expressions here.
    pub fn put(&mut self, at: Addr, content: Content) -> Result<(), AllocError>
        requires { IsHeldOf self.old.pool content }
        ensures ok { OnOk result (IsApplied (Put at (Some (content_in self.old.pool content))) self.old.cells self.new.cells) }
        ensures pool { self.new.pool ≡ self.old.pool }
        ensures err { OnErr result (self.new.cells ≡ self.old.cells) }
    {
        self.cells.set(at, content)
    }

    /// Puts a formula into a cell. Equal formulas share one expression.
    pub fn put_tree(&mut self, alloc: Global, at: Addr, tree: &Tree) -> Result<(), AllocError>
        ensures ok { OnOk result (IsApplied (Put at (Some (BookContent.Formula (expr_of tree.now)))) self.old.cells self.new.cells) }
        ensures kept_trees { KeepsTrees self.old.pool self.new.pool }
        ensures err { OnErr result (self.new.cells ≡ self.old.cells) }
    {
        let id = self.pool.intern(alloc, tree)?;
        self.cells.set(at, Content::Formula(id))
    }

    /// Exchanges the cells and the expressions with these.
    pub(crate) fn exchange(&mut self, cells: &mut CellMap, pool: &mut Pool)
        requires { AreApart cells.old pool.old }
        ensures given { apart_of cells.new pool.new ≡ self.old }
        ensures right { AreApart cells.new pool.new }
        ensures taken { self.new ≡ apart_of cells.old pool.old }
    {
        swap(&mut self.cells, cells);
        swap(&mut self.pool, pool);
    }
}
