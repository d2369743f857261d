//! A round by workers in threads, from its opening to its close.

ghost use Rattle.std.specs.Prelude.{◌≡◌, ◌≤◌, Some, map, IfOk, OnOk, OnErr};
ghost use Rattle.demand_spec.specs.Book.{shown};
ghost use Rattle.claim_core.specs.Pending.{IsPending};
ghost use Rattle.claim_core.specs.Rule.{Each, WorkersBelow};
ghost use Rattle.demand_stack.specs.StackSeen.{AreStored};
ghost use Rattle.parallel_evaluation.specs.Summaries.{IsRoundOver, IsSummaryOf};
ghost use Rattle.parallel_evaluation.specs.Workers.{ArePending};

use crate::counting::summary_of;
use crate::hiring::hire;
use crate::passes::take_all_back;
use crate::summary::{Counts, Summary};
use crate::threads::finish_all;
use cell_values::Addr;
use claim_core::{Job, Outcome, Round};
use demand_spec::Results;
use result_list::ResultList;
use std::alloc::{AllocError, Global};
use std::marker::Sync;
use std::thread::Threads;
use steal_tasks::deal;
use workbook_core::Workbook;
use worker_machine::Pace;

// A round over these cells. All memory is taken before the first worker starts.
fn run_round<'b, R: Threads + Sync, P: Pace>(
    rt: &R,
    alloc: Global,
    book: &'b Workbook,
    cells: &'b [Addr],
    stored: &'b Results,
    workers: u8,
    pace: &P,
    results: &mut ResultList,
) -> Result<Outcome, AllocError>
    requires pending { IsPending book.now.book cells.now }
    requires workers { (1 ≤ workers) × (workers ≤ 64) }
    requires stored { AreStored (record { book = book.now.book; cells = cells.now }) stored.now.entries }
    ensures over { IfOk result (IsRoundOver book.now.book cells.now workers) }
    ensures numbers { IfOk result (λ o. Each o.words (WorkersBelow workers)) }
    ensures results { OnOk result (results.new ≡ map (λ a. Some (shown book.now.book a)) cells.now) }
    ensures err { OnErr result (results.new ≡ results.old) }
{
    let mut back = Vec::with_capacity(alloc, workers as usize)?;
    let ends = deal(alloc, cells.len() as u32, workers)?;
    let (round, passes) = Round::open(alloc, Job::new(book, cells), workers)?;
    let mut all = hire(alloc, &round, passes, ends, book, cells, stored)?;
    finish_all(rt, &round, pace, all.as_mut_slice());
    *results = take_all_back(&round, all, &mut back);
    Ok(round.close(back))
}

/// Evaluates pending cells of the book in one round, with 1 to 64 workers in threads of their own: `results` gets
/// what the book shows at each of the cells, in their order. `stored` has the same of the formula cells that
/// are not pending. `pace` hears of each step of each worker. Where no cell is pending, no round is opened.
///
/// The cells are dealt to the workers: each begins with its part, in order, and then steals from the parts of others.
///
/// It fails where memory runs out, before any worker starts; `results` is as it was then.
pub fn evaluate<R: Threads + Sync, P: Pace>(
    rt: &R,
    alloc: Global,
    book: &Workbook,
    cells: &[Addr],
    stored: &Results,
    workers: u8,
    pace: &P,
    results: &mut ResultList,
) -> Result<Summary, AllocError>
    requires pending { ArePending book.now.book cells.now }
    requires workers { (1 ≤ workers) × (workers ≤ 64) }
    requires stored { AreStored (record { book = book.now.book; cells = cells.now }) stored.now.entries }
    ensures results { OnOk result (results.new ≡ map (λ a. Some (shown book.now.book a)) cells.now) }
    ensures summary { IfOk result (IsSummaryOf book.now.book cells.now workers) }
    ensures err { OnErr result (results.new ≡ results.old) }
{
    if cells.is_empty() {
        *results = ResultList::new(alloc, 0)?;
        return Ok(Summary::of_no_round(alloc));
    }
    let claimed = Counts::zeros(alloc, workers)?;
    let published = Counts::zeros(alloc, workers)?;
    let outcome = run_round(rt, alloc, book, cells, stored, workers, pace, results)?;
    Ok(summary_of(outcome, claimed, published))
}
