//! The cells that are pending: what edits changed and no recalculation has computed yet.

ghost use Rattle.std.specs.Prelude.{◌≡◌, false, ◌<◌, ◌^◌, ◌⊎◌, ◌↔◌, [], length, slice_get, true, IsTrue, IfOk, OnOk, OnErr, vec_len};
ghost use Rattle.std.specs.List.{filter};
ghost use Rattle.cell_values.specs.declared.address.Addr.{Addr};
ghost use Rattle.cell_values.specs.Areas.{IsArea, is_inside};
ghost use Rattle.cell_values.specs.Order.{InOrder, addresses};
ghost use Rattle.demand_spec.specs.Laws.{In};
ghost use Rattle.support_graph.specs.Pending.{among, IsClosedBut, IsPendingFrom, IsPendingAfter, ArePendingIn, StayClosed};
ghost use Rattle.support_graph.specs.Steps.{IsFrontier, stays};
ghost use Rattle.support_graph.specs.Support.{IsCell, Reads};

use crate::search::Search;
use crate::sorted::{first_from, is_among, is_behind, merged};
use crate::support::{Support, first_of, last_of};
use cell_values::{Addr, Area};
use std::alloc::{AllocError, Global};
use std::marker::Model;

/// The pending cells, in order of address. Contracts see the list.
#[derive(Drop)]
pub struct Stale {
    cells: Vec<Addr>,
}

impl Model for Stale {
    ghost use Rattle.std.specs.Prelude.{List, ◌<◌, ◌^◌, length};
    ghost use Rattle.cell_values.specs.declared.address.Addr.{Addr};

    ghost Value = { List Addr };

    ghost use Rattle.cell_values.specs.Order.{InOrder};

    ghost view = { λ s. s.cells.items };

    ghost invariant = { λ s. record { in_order : InOrder s.cells.items; small : length s.cells.items < 2 ^ 32 } };
}

impl Stale {
    /// No cells.
    pub fn new(alloc: Global) -> Stale
        ensures { result ≡ [] }
    {
        Stale {
            cells: Vec::new(alloc),
        }
    }

    /// How many cells.
    pub fn len(&self) -> u32
        ensures len { result ≡ length self.now }
        ensures in_order { InOrder self.now }
    {
        self.cells.len() as u32
    }

    /// The cell with a number, in order of address from 0.
    pub fn get(&self, i: u32) -> Option<Addr>
        ensures { result ≡ slice_get self.now i }
    {
        self.cells.get(i as usize).copied()
    }

    /// The cells, in order of address.
    pub fn cells(&self) -> &[Addr]
        ensures same { result.now ≡ self.now }
        ensures in_order { InOrder self.now }
    {
        &self.cells
    }

    /// Whether the cell is pending.
    pub fn holds(&self, at: Addr) -> bool
        ensures { IsTrue result ↔ In at self.now }
    {
        is_among(&self.cells, at)
    }

    /// Takes out all cells.
    pub fn empty(&mut self)
        ensures { self.new ≡ [] }
    {
        self.cells.clear();
    }

    /// Exactly the cells of the support.
    pub fn fill(&mut self, support: &Support) -> Result<(), AllocError>
        ensures ok { OnOk result (self.new ≡ addresses support.now) }
        ensures err { OnErr result (self.new ≡ self.old) }
    {
        let alloc = *self.cells.allocator();
        self.cells = bounded(support.cells(alloc)?)?;
        Ok(())
    }

    /// Adds the cells that an edit leaves pending: those of the support that lie in the area or that
    /// steps from a cell to a dependent lead to from there. Takes out cells that the support does not
    /// have.
    ///
    /// Goes on from no cell that was pending: what reads it is pending, or lies in the area. Where no
    /// cell comes or goes nothing is written, so between two recalculations each cell is reached once.
    pub fn edited(&mut self, support: &Support, changed: Area) -> Result<(), AllocError>
        requires area { IsArea changed }
        requires closed { IsClosedBut support.now self.old (is_inside changed) }
        ensures cells { OnOk result ((c : Addr) → In c self.new ↔ IsPendingAfter support.now self.old changed c) }
        ensures err { OnErr result (self.new ≡ self.old) }
        ensures pending { OnOk result (ArePendingIn support.now self.old changed self.new) }
        ensures closed { OnOk result (StayClosed support.now self.old changed self.new) }
    {
        let alloc = *self.cells.allocator();
        let found = reached_from_area(alloc, support, &self.cells, changed)?;
        if has_gone(support, &self.cells, changed) {
            let staying = without_gone(alloc, support, &self.cells, changed)?;
            self.cells = bounded(merged(alloc, &staying, &found)?)?;
            return Ok(());
        }
        if found.is_empty() {
            return Ok(());
        }
        self.cells = bounded(merged(alloc, &self.cells, &found)?)?;
        Ok(())
    }

    /// Adds these cells as far as the support has them, and all that steps from a cell to a dependent
    /// lead to from them.
    pub fn spread(&mut self, support: &Support, from: &[Addr]) -> Result<(), AllocError>
        requires cells { (c : Addr) → In c self.old → IsCell support.now c }
        requires readers { (a c : Addr) → In a self.old → Reads support.now c a → In c self.old ⊎ In c from.now }
        ensures cells { OnOk result ((c : Addr) → In c self.new ↔ IsPendingFrom support.now self.old (among from.now) c) }
        ensures err { OnErr result (self.new ≡ self.old) }
    {
        let alloc = *self.cells.allocator();
        let found = reached_from_cells(alloc, support, &self.cells, from)?;
        if found.is_empty() {
            return Ok(());
        }
        self.cells = bounded(merged(alloc, &self.cells, &found)?)?;
        Ok(())
    }
}

/// The cells that an edit of the area reaches and that were not pending, in order.
fn reached_from_area(
    alloc: Global,
    support: &Support,
    pending: &[Addr],
    changed: Area,
) -> Result<Vec<Addr>, AllocError>
    requires { IsArea changed }
    ensures in_order { IfOk result (λ v. InOrder v.items) }
    ensures frontier { IfOk result (λ v. IsFrontier support.now pending.now (is_inside changed) v.items) }
{
    let mut search = Search::new(alloc, pending);
    search.start(support, changed)?;
    search.run(support)?;
    search.found(alloc)
}

/// The same from some cells on.
fn reached_from_cells(
    alloc: Global,
    support: &Support,
    pending: &[Addr],
    from: &[Addr],
) -> Result<Vec<Addr>, AllocError>
    ensures in_order { IfOk result (λ v. InOrder v.items) }
    ensures frontier { IfOk result (λ v. IsFrontier support.now pending.now (among from.now) v.items) }
{
    let mut search = Search::new(alloc, pending);
    search.start_from(support, from)?;
    search.run(support)?;
    search.found(alloc)
}

/// Whether a pending cell of the area is none of the support's. Only pending cells from the first to the
/// last cell of the area are looked at.
fn has_gone(support: &Support, pending: &[Addr], changed: Area) -> bool
    requires { InOrder pending.now }
    ensures { result ≡ false → (c : Addr) → In c pending.now → is_inside changed c ≡ true → IsCell support.now c }
{
    let last = last_of(changed);
    let first = first_from(pending, first_of(changed));
    for cell in &pending[first..] {
        if is_behind(*cell, last) {
            return false;
        }
        if changed.holds(*cell) && !support.has(*cell) {
            return true;
        }
    }
    false
}

/// The pending cells without those of the area that are none of the support's.
fn without_gone(
    alloc: Global,
    support: &Support,
    pending: &[Addr],
    changed: Area,
) -> Result<Vec<Addr>, AllocError>
    ensures { IfOk result (λ v. v.items ≡ filter (stays support.now changed) pending.now) }
{
    pending
        .iter()
        .copied()
        .filter(|cell| !changed.holds(*cell) || support.has(*cell))
        .collect(alloc)
}

/// The cells, if a `u32` counts them.
fn bounded(cells: Vec<Addr>) -> Result<Vec<Addr>, AllocError>
    ensures { IfOk result (λ v. (v ≡ cells) × (vec_len v < 2 ^ 32)) }
{
    if cells.len() > u32::MAX as usize {
        return Err(AllocError);
    }
    Ok(cells)
}
