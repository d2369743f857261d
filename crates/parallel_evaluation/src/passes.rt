//! What comes out of the workers of a round.

ghost use Rattle.std.specs.Prelude.{◌≡◌, ◌<◌, ◌≤◌, ◌+◌, [], map, length, All, Some, vec_len, vec_capacity};
ghost use Rattle.demand_spec.specs.Book.{shown};
ghost use Rattle.claim_core.specs.Passes.{Belongs};
ghost use Rattle.speculative_eval.specs.Workers.{BelongsTo};
ghost use Rattle.parallel_evaluation.specs.Workers.{HasEnded, FirstSeesAll, BeginsWith};

use claim_core::{Pass, Round};
use result_list::ResultList;
use speculative_eval::Worker;
use workbook_core::Workbook;
use worker_machine::Hints;

// Takes the passes of these workers.
fn take_passes<H: Hints>(
    round: &Round<'_, Workbook>,
    mut workers: Vec<Worker<'_, H>>,
    passes: &mut Vec<Pass>,
)
    requires workers { All (BelongsTo round.now) workers.items }
    requires passes { All (Belongs round.now) passes.old.items }
    requires room { vec_len passes.old + vec_len workers ≤ vec_capacity passes.old }
    ensures passes { All (Belongs round.now) passes.new.items }
    ensures count { vec_len passes.new ≡ vec_len passes.old + vec_len workers.entry }
    ensures first { BeginsWith passes.new.items passes.old.items }
{
    let _round = round;
    while let Some(worker) = workers.pop() {
        passes.push_reserved(worker.into_pass());
    }
}

/// Takes the results of one worker that has finished, as it keeps them, and the passes of all.
pub(crate) fn take_back<H: Hints>(
    round: &Round<'_, Workbook>,
    first: Worker<'_, H>,
    rest: Vec<Worker<'_, H>>,
    passes: &mut Vec<Pass>,
) -> ResultList
    requires first { HasEnded round.now first }
    requires rest { All (BelongsTo round.now) rest.items }
    requires passes { (passes.old.items ≡ []) × (vec_len rest + 1 ≤ vec_capacity passes.old) }
    ensures passes { All (Belongs round.now) passes.new.items × (vec_len passes.new ≡ vec_len rest.entry + 1) }
    ensures first { FirstSeesAll (length round.now.setup.cells) passes.new.items }
    ensures results { result ≡ map (λ a. Some (shown round.now.setup.book a)) round.now.setup.cells }
{
    let (pass, results) = first.into_parts();
    passes.push_reserved(pass);
    take_passes(round, rest, passes);
    results
}

/// The same where all workers have finished.
pub(crate) fn take_all_back<H: Hints>(
    round: &Round<'_, Workbook>,
    mut workers: Vec<Worker<'_, H>>,
    passes: &mut Vec<Pass>,
) -> ResultList
    requires workers { All (HasEnded round.now) workers.items × (0 < vec_len workers) }
    requires passes { (passes.old.items ≡ []) × (vec_len workers ≤ vec_capacity passes.old) }
    ensures passes { All (Belongs round.now) passes.new.items × (vec_len passes.new ≡ vec_len workers.entry) }
    ensures first { FirstSeesAll (length round.now.setup.cells) passes.new.items }
    ensures results { result ≡ map (λ a. Some (shown round.now.setup.book a)) round.now.setup.cells }
{
    let Some(first) = workers.pop() else {
        unreachable!()
    };
    take_back(round, first, workers, passes)
}
