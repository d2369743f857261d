//! Rounds over the pending cells.

ghost use Rattle.std.specs.Prelude.{◌≡◌, ◌≤◌, ◌<◌, ◌++◌, [], map, Some, length, All, IfOk, OnOk, OnErr};
ghost use Rattle.demand_spec.specs.Book.{shown};
ghost use Rattle.parallel_evaluation.specs.Order.{run_order};
ghost use Rattle.parallel_evaluation.specs.Summaries.{IsSummaryOf};
ghost use Rattle.recalculation.specs.Standing.{pending_in, IsProgress};
ghost use Rattle.recalculation.specs.Written.{IsReady};

use crate::book::known;
use crate::progress::Progress;
use crate::store::{reserve, store_all};
use parallel_evaluation::{Summary, Traced, evaluate, evaluate_in_order};
use result_list::ResultList;
use std::alloc::AllocError;
use std::marker::Sync;
use std::thread::Threads;
use workbook_core::Workbook;
use worker_machine::Pace;

impl Progress {
    // Makes all ready for a round over the pending cells.
    fn prepare(&mut self, book: &Workbook) -> Result<(), AllocError>
        requires { IsProgress book.now.book self.old }
        ensures progress { IsProgress book.now.book self.new }
        ensures same { pending_in book.now.book self.new ≡ pending_in book.now.book self.old }
        ensures ready { OnOk result (IsReady book.now.book self.new) }
    {
        known(book);
        self.build(book)?;
        reserve(self.alloc, &mut self.stored, self.stale.cells())?;
        Ok(())
    }

    // Takes the results of the pending cells. Nothing is pending then.
    fn take_results(&mut self, book: &Workbook, results: &ResultList)
        requires progress { IsProgress book.now.book self.old }
        requires ready { IsReady book.now.book self.old }
        requires results { results.now ≡ map (λ a. Some (shown book.now.book a)) self.old.stale }
        ensures progress { IsProgress book.now.book self.new }
        ensures done { pending_in book.now.book self.new ≡ [] }
    {
        store_all(book, &mut self.stored, self.stale.cells(), results);
        self.stale.empty();
    }

    /// Computes the pending cells with so many workers in threads of their own.
    pub(crate) fn compute<R: Threads + Sync, P: Pace>(
        &mut self,
        rt: &R,
        book: &Workbook,
        workers: u8,
        pace: &P,
    ) -> Result<Summary, AllocError>
        requires progress { IsProgress book.now.book self.old }
        requires workers { (1 ≤ workers) × (workers ≤ 64) }
        ensures progress { IsProgress book.now.book self.new }
        ensures done { OnOk result (pending_in book.now.book self.new ≡ []) }
        ensures summary { IfOk result (IsSummaryOf book.now.book (pending_in book.now.book self.old) workers) }
        ensures err { OnErr result (pending_in book.now.book self.new ≡ pending_in book.now.book self.old) }
    {
        self.prepare(book)?;
        let mut results = ResultList::new(self.alloc, 0)?;
        let summary = evaluate(
            rt,
            self.alloc,
            book,
            self.stale.cells(),
            &self.stored,
            workers,
            pace,
            &mut results,
        )?;
        self.take_results(book, &results);
        Ok(summary)
    }

    /// Computes the pending cells with workers that step in the given order.
    pub(crate) fn compute_in_order(
        &mut self,
        book: &Workbook,
        workers: u8,
        order: &[u8],
        stopped: &[u8],
        trace: &mut Vec<Traced>,
    ) -> Result<Summary, AllocError>
        requires progress { IsProgress book.now.book self.old }
        requires workers { (1 ≤ workers) × (workers ≤ 64) }
        requires order { All (λ w. w < workers) order.now }
        requires stopped { length stopped.now < workers }
        ensures progress { IsProgress book.now.book self.new }
        ensures done { OnOk result (pending_in book.now.book self.new ≡ []) }
        ensures summary { IfOk result (IsSummaryOf book.now.book (pending_in book.now.book self.old) workers) }
        ensures trace { OnOk result (trace.new.items ≡ trace.old.items ++ run_order book.now.book (pending_in book.now.book self.old) workers order.now stopped.now) }
        ensures err { OnErr result ((pending_in book.now.book self.new ≡ pending_in book.now.book self.old) × (trace.new.items ≡ trace.old.items)) }
    {
        self.prepare(book)?;
        let mut results = ResultList::new(self.alloc, 0)?;
        let summary = evaluate_in_order(
            self.alloc,
            book,
            self.stale.cells(),
            &self.stored,
            workers,
            order,
            stopped,
            trace,
            &mut results,
        )?;
        self.take_results(book, &results);
        Ok(summary)
    }
}
