//! The workers of a round that was just opened.

ghost use Rattle.std.specs.Prelude.{◌≡◌, map, All, IfOk, vec_len};
ghost use Rattle.std.specs.List.{zip};
ghost use Rattle.claim_core.specs.Passes.{IsIdle, number};
ghost use Rattle.claim_core.specs.Table.{count_from};
ghost use Rattle.demand_stack.specs.StackSeen.{AreStored};
ghost use Rattle.speculative_eval.specs.Hinted.{hints_with};
ghost use Rattle.speculative_eval.specs.Workers.{begun};

use cell_values::Addr;
use claim_core::{Pass, Round};
use demand_spec::Results;
use speculative_eval::Worker;
use std::alloc::{AllocError, Global};
use workbook_core::Workbook;
use worker_machine::{Hints, NoHints};

/// A worker for each pass, with the hints at the same place, in their order. Where memory is wanting, none.
pub(crate) fn hire<'b, H: Hints>(
    alloc: Global,
    round: &Round<'_, Workbook>,
    mut passes: Vec<Pass>,
    mut hints: Vec<H>,
    book: &'b Workbook,
    cells: &'b [Addr],
    stored: &'b Results,
) -> Result<Vec<Worker<'b, H>>, AllocError>
    requires round { (book.now.book ≡ round.now.setup.book) × (cells.now ≡ round.now.setup.cells) }
    requires stored { AreStored (record { book = book.now.book; cells = cells.now }) stored.now.entries }
    requires passes { All (IsIdle round.now) passes.items }
    requires numbers { map number passes.items ≡ count_from round.now.setup.workers 0 }
    requires hints { vec_len hints ≡ round.now.setup.workers }
    ensures workers { IfOk result (λ v. v.items ≡ map (λ p. begun round.now p.0 (hints_with (H.left p.1) (H.last p.1) (H.over p.1))) (zip passes.items hints.items)) }
    ensures count { IfOk result (λ v. vec_len v ≡ round.now.setup.workers) }
{
    let mut workers = Vec::with_capacity(alloc, passes.len())?;
    passes.reverse();
    hints.reverse();
    while let Some(pass) = passes.pop() {
        let Some(own) = hints.pop() else {
            unreachable!()
        };
        let Ok(worker) = Worker::new(alloc, round, pass, book, cells, stored, own) else {
            return Err(AllocError);
        };
        workers.push_reserved(worker);
    }
    Ok(workers)
}

/// No hints for each of so many workers.
pub(crate) fn no_hints(alloc: Global, workers: u8) -> Result<Vec<NoHints>, AllocError>
    ensures { IfOk result (λ v. vec_len v ≡ workers) }
{
    let hints = vec![in alloc; NoHints; workers as usize]?;
    Ok(hints)
}
