//! The workers of a round, each in a thread of its own where one can be made.

ghost use Rattle.std.specs.Prelude.{◌≡◌, length, All};
ghost use Rattle.speculative_eval.specs.Workers.{IsWorkerOf};
ghost use Rattle.parallel_evaluation.specs.Workers.{HasEnded};

use claim_core::Round;
use speculative_eval::Worker;
use std::marker::{Send, Sync};
use std::thread::{Threads, for_each_mut};
use workbook_core::Workbook;
use worker_machine::{Hints, Pace};

/// Lets each worker finish, the two halves of the list side by side, and so on down to one worker.
pub(crate) fn finish_all<R: Threads + Sync, H: Hints, P: Pace>(
    rt: &R,
    round: &Round<'_, Workbook>,
    pace: &P,
    all: &mut [Worker<'_, H>],
)
    requires { All (IsWorkerOf round.now) all.old }
    ensures count { length all.new ≡ length all.old }
    ensures ended { All (HasEnded round.now) all.new }
{
    let count = all.len();
    if count == 0 {
        return;
    }
    let finish = |_: usize, worker: &mut Worker<H>| -> ()
        requires { IsWorkerOf round.now worker.old }
        ensures { HasEnded round.entry.now worker.new }
    { worker.finish(round, pace) };
    for_each_mut(rt, all, count, &finish);
}
