//! A search from cells to the cells that read them.

ghost use Rattle.std.specs.Prelude.{◌≡◌, Bool, [], OnOk, IfOk};
ghost use Rattle.cell_values.specs.declared.address.Addr.{Addr};
ghost use Rattle.cell_values.specs.Areas.{IsArea, is_inside};
ghost use Rattle.cell_values.specs.Order.{InOrder};
ghost use Rattle.support_graph.specs.Pending.{among};
ghost use Rattle.support_graph.specs.Support.{IsCell};
ghost use Rattle.support_graph.specs.Steps.{IsSearch, Visits};

use crate::sorted::is_among;
use crate::support::Support;
use cell_values::{Addr, Area};
use std::alloc::{AllocError, Global};
use std::collections::BTreeSet;

/// A search over a support: the cells that were pending before, which are not visited, the cells seen so
/// far, and those of them whose dependents are still to be visited.
#[derive(Drop)]
pub(crate) struct Search<'a> {
    pub pending: &'a [Addr],
    pub seen: BTreeSet<Addr>,
    pub todo: Vec<Addr>,
}

impl<'a> Search<'a> {
    /// No cell seen.
    pub(crate) fn new(alloc: Global, pending: &'a [Addr]) -> Search<'a>
        ensures pending { result.pending.now ≡ pending.now }
        ensures none { (result.seen.keys ≡ []) × (result.todo.items ≡ []) }
    {
        Search {
            pending,
            seen: BTreeSet::new(alloc),
            todo: Vec::new(alloc),
        }
    }

    /// Sees a cell that was not pending. The dependents of a new one are to be visited.
    pub(crate) fn visit(&mut self, cell: Addr) -> Result<(), AllocError>
        ensures { OnOk result (Visits (λ c. c ≡ cell) self.old self.new) }
    {
        if is_among(self.pending, cell) {
            return Ok(());
        }
        if self.seen.insert(cell)? {
            self.todo.push(cell)?;
        }
        Ok(())
    }

    /// Visits the cells of an area and those that read it.
    pub(crate) fn start(&mut self, support: &Support, changed: Area) -> Result<(), AllocError>
        requires area { IsArea changed }
        requires none { (self.old.seen.keys ≡ []) × (self.old.todo.items ≡ []) }
        ensures pending { OnOk result (self.new.pending.now ≡ self.old.pending.now) }
        ensures search { OnOk result (IsSearch support.now (is_inside changed) self.new) }
    {
        support.visit_cells(changed, self)?;
        support.visit_readers(changed, self)
    }

    /// Visits some cells, as far as the support has them, and those that read them.
    pub(crate) fn start_from(&mut self, support: &Support, cells: &[Addr]) -> Result<(), AllocError>
        requires { (self.old.seen.keys ≡ []) × (self.old.todo.items ≡ []) }
        ensures pending { OnOk result (self.new.pending.now ≡ self.old.pending.now) }
        ensures search { OnOk result (IsSearch support.now (among cells.now) self.new) }
    {
        let mut done = BTreeSet::new(*self.todo.allocator());
        for cell in cells {
            self.visit_cell(support, *cell)?;
            support.visit_dependents(*cell, &mut done, self)?;
        }
        Ok(())
    }

    /// Visits a cell if the support has it.
    fn visit_cell(&mut self, support: &Support, cell: Addr) -> Result<(), AllocError>
        ensures { OnOk result (Visits (λ c. (c ≡ cell) × IsCell support.now c) self.old self.new) }
    {
        if support.has(cell) {
            self.visit(cell)
        } else {
            Ok(())
        }
    }

    /// Visits dependents until all that can be reached are met. A block of the support is visited once,
    /// so large areas that many cells read cost no more than small ones.
    pub(crate) fn run(&mut self, support: &Support) -> Result<(), AllocError>
        ensures pending { OnOk result (self.new.pending.now ≡ self.old.pending.now) }
        ensures search { OnOk result ((from : Addr → Bool) → IsSearch support.now from self.old → IsSearch support.now from self.new) }
        ensures done { OnOk result (self.new.todo.items ≡ []) }
    {
        let mut done = BTreeSet::new(*self.todo.allocator());
        while let Some(cell) = self.todo.pop() {
            support.visit_dependents(cell, &mut done, self)?;
        }
        Ok(())
    }

    /// The cells seen, in order of address.
    pub(crate) fn found(&self, alloc: Global) -> Result<Vec<Addr>, AllocError>
        ensures cells { IfOk result (λ v. v.items ≡ self.now.seen.keys) }
        ensures in_order { InOrder self.now.seen.keys }
    {
        let mut cells = Vec::new(alloc);
        for cell in &self.seen {
            cells.push(*cell)?;
        }
        Ok(cells)
    }
}
