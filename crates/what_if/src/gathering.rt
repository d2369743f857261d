//! What the workers of a table found, as one list.

ghost use Rattle.std.specs.Prelude.{◌≡◌, ◌<◌, ◌≤◌, [], All, map, length, vec_capacity};
ghost use Rattle.cell_values.specs.Areas.{numbers_from};
ghost use Rattle.what_if.specs.Tables.{IsTable, CanRun, HaveRun, scenario_of};

use crate::runner::Runner;
use crate::starts::Starts;
use crate::table::Table;
use crate::threads::run_all;
use cell_values::Shown;
use std::marker::Sync;
use std::thread::Threads;

/// What was found of a scenario.
fn found(table: &Table<'_>, all: &[Runner<'_>], scenario: u32) -> Shown
    requires table { IsTable table.now }
    requires count { length all.now ≡ table.now.workers }
    requires run { HaveRun table.now all.now }
    requires low { scenario < table.now.count }
    ensures { result ≡ scenario_of table.now scenario }
{
    let worker = (scenario % table.workers) as usize;
    let place = (scenario / table.workers) as usize;
    let Some(shown) = all[worker].found.get(place) else {
        unreachable!()
    };
    *shown
}

/// What was found, in the order of the scenarios.
fn gather(table: &Table<'_>, all: &[Runner<'_>], shown: &mut Vec<Shown>)
    requires table { IsTable table.now }
    requires count { length all.now ≡ table.now.workers }
    requires run { HaveRun table.now all.now }
    requires room { (shown.old.items ≡ []) × (table.now.count ≤ vec_capacity shown.old) }
    ensures { shown.new.items ≡ map (scenario_of table.now) (numbers_from 0 table.now.count) }
{
    for scenario in 0..table.count {
        shown.push_reserved(found(table, all, scenario));
    }
}

/// Lets the workers run, and takes what they found.
pub(crate) fn fill<R: Threads + Sync, G: Starts>(
    rt: &R,
    table: &Table<'_>,
    starts: &G,
    all: &mut [Runner<'_>],
    shown: &mut Vec<Shown>,
)
    requires table { IsTable table.now }
    requires count { length all.old ≡ table.now.workers }
    requires ready { All (CanRun table.now) all.old }
    requires room { (shown.old.items ≡ []) × (table.now.count ≤ vec_capacity shown.old) }
    ensures { shown.new.items ≡ map (scenario_of table.now) (numbers_from 0 table.now.count) }
{
    run_all(rt, table, starts, all);
    gather(table, all, shown);
}
