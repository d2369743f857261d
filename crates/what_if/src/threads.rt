//! The workers of a table, each in a thread of its own where one can be made.

ghost use Rattle.std.specs.Prelude.{◌≡◌, ◌<◌, length, All};
ghost use Rattle.what_if.specs.Tables.{IsTable, CanRun, HasRun, HaveRun};

use crate::runner::Runner;
use crate::starts::Starts;
use crate::table::Table;
use std::marker::{Send, Sync};
use std::thread::{Threads, for_each_mut};

/// Lets each worker run, the two halves of the list side by side, and so on down to one worker.
pub(crate) fn run_all<R: Threads + Sync, G: Starts>(
    rt: &R,
    table: &Table<'_>,
    starts: &G,
    all: &mut [Runner<'_>],
)
    requires table { IsTable table.now }
    requires count { length all.old ≡ table.now.workers }
    requires ready { All (CanRun table.now) all.old }
    ensures count { length all.new ≡ length all.old }
    ensures run { HaveRun table.now all.new }
{
    let count = all.len();
    if count == 0 {
        return;
    }
    let run = |worker: usize, runner: &mut Runner| -> ()
        requires { (worker < runner.old.table.now.workers) × IsTable runner.old.table.now × CanRun runner.old.table.now runner.old }
        ensures { HasRun runner.old.table.now worker runner.new }
    { runner.run(worker, starts) };
    for_each_mut(rt, all, count, &run);
}
