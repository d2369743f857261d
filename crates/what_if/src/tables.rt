//! A table, from its workers to its answers.

ghost use Rattle.std.specs.Prelude.{◌≡◌, ◌≤◌, [], All, vec_len, IfOk};
ghost use Rattle.cell_values.specs.Values.{IsShownOf};
ghost use Rattle.what_if.specs.Tables.{IsTable, CanRun};
ghost use Rattle.what_if.specs.Scenarios.{IsRange, scenarios};

use crate::dependents::dependents;
use crate::gathering::fill;
use crate::runner::Runner;
use crate::starts::Starts;
use crate::table::{Table, tell_cells};
use cell_values::{Addr, Int, Shown};
use recalculation::Calc;
use std::alloc::{AllocError, Global};
use std::marker::Sync;
use std::thread::Threads;

/// The workers of a table.
fn hire<'b>(alloc: Global, table: &'b Table<'b>) -> Result<Vec<Runner<'b>>, AllocError>
    requires { IsTable table.now }
    ensures count { IfOk result (λ all. vec_len all ≡ table.now.workers) }
    ensures ready { IfOk result (λ all. All (CanRun table.now) all.items) }
{
    let mut all = Vec::with_capacity(alloc, table.workers as usize)?;
    while all.len() < table.workers as usize {
        all.push_reserved(Runner::new(alloc, table)?);
    }
    Ok(all)
}

/// What the target shows in each of so many books, 1 to 1,000: in the first one the cell `at` holds the number `low`, in
/// each further one the next number, and all other cells are as they are. The book and its results stay.
///
/// The scenarios are numbered from 0 and dealt to 1 to 64 workers in turn, in threads of their own: worker w evaluates
/// those whose number leaves w when divided by the number of workers. `starts` hears of each. A scenario looks only at
/// cells that depend on `at`, as far as the target needs them; all other results are those that the book has.
///
/// It fails where memory runs out, before any worker starts.
pub fn scenarios<R: Threads + Sync, G: Starts>(
    calc: &Calc,
    rt: &R,
    alloc: Global,
    workers: u8,
    at: Addr,
    low: Int,
    count: u32,
    target: Addr,
    starts: &G,
) -> Result<Vec<Shown>, AllocError>
    requires pending { calc.now.pending ≡ [] }
    requires workers { (1 ≤ workers) × (workers ≤ 64) }
    requires range { IsRange low count }
    ensures shown { IfOk result (λ all. all.items ≡ scenarios calc.now.shared.book at low count target) }
    ensures texts { IfOk result (λ all. All (IsShownOf calc.now.shared.book.texts) all.items) }
{
    tell_cells(calc.book());
    let mut shown = Vec::with_capacity(alloc, count as usize)?;
    let cells = dependents(alloc, calc, at)?;
    let table = Table {
        calc,
        at,
        low,
        count,
        target,
        workers: u32::from(workers).min(count),
        cells: &cells,
    };
    let mut all = hire(alloc, &table)?;
    fill(rt, &table, starts, all.as_mut_slice(), &mut shown);
    Ok(shown)
}
