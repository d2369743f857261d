//! A round whose workers step one at a time, in an order that is given.

ghost use Rattle.std.specs.Prelude.{◌≡◌, ◌≤◌, ◌<◌, ◌++◌, false, Some, map, length, All, IfOk, OnOk, OnErr};
ghost use Rattle.demand_spec.specs.Book.{shown};
ghost use Rattle.claim_core.specs.Pending.{IsPending};
ghost use Rattle.claim_core.specs.Rule.{Each, WorkersBelow};
ghost use Rattle.demand_stack.specs.StackSeen.{AreStored};
ghost use Rattle.parallel_evaluation.specs.Summaries.{IsRoundOver, IsSummaryOf};
ghost use Rattle.parallel_evaluation.specs.Workers.{ArePending};
ghost use Rattle.parallel_evaluation.specs.Order.{is_stopped, whole_run, run_order};

use crate::counting::summary_of;
use crate::hiring::{hire, no_hints};
use crate::passes::take_back;
use crate::summary::{Counts, Summary};
use crate::trace::Traced;
use crate::turns::run_all;
use cell_values::Addr;
use claim_core::{Job, Outcome, Round};
use demand_spec::Results;
use result_list::ResultList;
use std::alloc::{AllocError, Global};
use workbook_core::Workbook;

// The first worker that is not stopped.
fn first_running(workers: u8, stopped: &[u8]) -> u8
    requires { length stopped.now < workers }
    ensures { (result < workers) × (is_stopped stopped.now result ≡ false) }
{
    for by in 0..workers {
        if !stopped.contains(&by) {
            return by;
        }
    }
    unreachable!()
}

// A round over these cells in the given order. The events go to the trace before results are taken.
fn run_round_in_order<'b>(
    alloc: Global,
    book: &'b Workbook,
    cells: &'b [Addr],
    stored: &'b Results,
    workers: u8,
    order: &[u8],
    stopped: &[u8],
    trace: &mut Vec<Traced>,
    results: &mut ResultList,
) -> Result<Outcome, AllocError>
    requires pending { IsPending book.now.book cells.now }
    requires workers { (1 ≤ workers) × (workers ≤ 64) }
    requires stored { AreStored (record { book = book.now.book; cells = cells.now }) stored.now.entries }
    requires order { All (λ w. w < workers) order.now }
    requires stopped { length stopped.now < workers }
    ensures over { IfOk result (IsRoundOver book.now.book cells.now workers) }
    ensures numbers { IfOk result (λ o. Each o.words (WorkersBelow workers)) }
    ensures results { OnOk result (results.new ≡ map (λ a. Some (shown book.now.book a)) cells.now) }
    ensures trace { OnOk result (trace.new.items ≡ trace.old.items ++ (whole_run (record { book = book.now.book; cells = cells.now; workers = workers }) order.now stopped.now).events) }
    ensures err { OnErr result ((results.new ≡ results.old) × (trace.new.items ≡ trace.old.items)) }
{
    let mut back = Vec::with_capacity(alloc, workers as usize)?;
    let mut events = Vec::new(alloc);
    let hints = no_hints(alloc, workers)?;
    let (round, passes, turn) = Round::open_in_order(alloc, Job::new(book, cells), workers)?;
    let mut all = hire(alloc, &round, passes, hints, book, cells, stored)?;
    run_all(
        &round,
        all.as_mut_slice(),
        turn,
        order,
        stopped,
        &mut events,
    )?;
    trace.append(&mut events)?;
    let first = all.remove(first_running(workers, stopped) as usize);
    *results = take_back(&round, first, all, &mut back);
    Ok(round.close(back))
}

/// Evaluates pending cells of the book in one round, whose 1 to 64 workers step one at a time in this thread:
/// each worker that `order` names makes one step, and then each that is not `stopped` runs to its end, worker 0
/// first. A worker is named by its number, from 0; one that is finished makes no step. The steps are appended to
/// `trace`. `results` and `stored` are those of `evaluate`, and where no cell is pending, no round is opened.
///
/// It fails where memory runs out; `results` and the trace are as they were then.
pub fn evaluate_in_order(
    alloc: Global,
    book: &Workbook,
    cells: &[Addr],
    stored: &Results,
    workers: u8,
    order: &[u8],
    stopped: &[u8],
    trace: &mut Vec<Traced>,
    results: &mut ResultList,
) -> Result<Summary, AllocError>
    requires pending { ArePending book.now.book cells.now }
    requires workers { (1 ≤ workers) × (workers ≤ 64) }
    requires stored { AreStored (record { book = book.now.book; cells = cells.now }) stored.now.entries }
    requires order { All (λ w. w < workers) order.now }
    requires stopped { length stopped.now < workers }
    ensures results { OnOk result (results.new ≡ map (λ a. Some (shown book.now.book a)) cells.now) }
    ensures summary { IfOk result (IsSummaryOf book.now.book cells.now workers) }
    ensures trace { OnOk result (trace.new.items ≡ trace.old.items ++ run_order book.now.book cells.now workers order.now stopped.now) }
    ensures err { OnErr result ((results.new ≡ results.old) × (trace.new.items ≡ trace.old.items)) }
{
    if cells.is_empty() {
        *results = ResultList::new(alloc, 0)?;
        return Ok(Summary::of_no_round(alloc));
    }
    let claimed = Counts::zeros(alloc, workers)?;
    let published = Counts::zeros(alloc, workers)?;
    let outcome = run_round_in_order(
        alloc, book, cells, stored, workers, order, stopped, trace, results,
    )?;
    Ok(summary_of(outcome, claimed, published))
}
