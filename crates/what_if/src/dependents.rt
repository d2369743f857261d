//! The cells that depend on a cell.

ghost use Rattle.std.specs.Prelude.{◌≡◌, [], ◌∷◌, ◌++◌, not, IfOk, OnOk};
ghost use Rattle.std.specs.List.{filter};
ghost use Rattle.cell_values.specs.Addresses.{same_addr};
ghost use Rattle.what_if.specs.Tables.{AreDependents};

use crate::table::tell_cells;
use cell_values::Addr;
use recalculation::Calc;
use std::alloc::{AllocError, Global};
use support_graph::Stale;

/// The formula cells that depend on a cell, in order, without the cell itself.
pub(crate) fn dependents(alloc: Global, calc: &Calc, at: Addr) -> Result<Vec<Addr>, AllocError>
    requires { calc.now.pending ≡ [] }
    ensures { IfOk result (λ cells. AreDependents calc.now.shared.book at cells.items) }
{
    tell_cells(calc.book());
    let mut reached = Stale::new(alloc);
    reached.spread(calc.support(), &[at])?;
    let cells = reached.cells();
    without(alloc, cells, at)
}

/// The addresses but for one.
#[tactic(auto, using(crate::proofs::Filtered::filtered_more))]
fn without(alloc: Global, cells: &[Addr], at: Addr) -> Result<Vec<Addr>, AllocError>
    ensures { IfOk result (λ others. others.items ≡ filter (λ a. not (same_addr at a)) cells.now) }
{
    let mut others = Vec::new(alloc);
    for i in 0..cells.len() {
        push_other(&mut others, at, cells[i])?;
    }
    Ok(others)
}

/// Appends the address, unless it is this one.
fn push_other(others: &mut Vec<Addr>, at: Addr, cell: Addr) -> Result<(), AllocError>
    ensures { OnOk result (others.new.items ≡ others.old.items ++ filter (λ a. not (same_addr at a)) (cell ∷ [])) }
{
    if at != cell {
        others.push(cell)?;
    }
    Ok(())
}
