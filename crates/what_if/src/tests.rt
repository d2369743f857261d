//! Tables over a small book, in one thread and in several.

ghost use Rattle.std.specs.Prelude.{◌≡◌, ◌≤◌, [], true, length, IfOk, IfSome};
ghost use Rattle.cell_values.specs.Addresses.{IsOnSheet};
ghost use Rattle.what_if.specs.Scenarios.{IsRange};

use super::*;
use cell_values::{Addr, Int, SheetNames, Shown, Texts};
use recalculation::{Calc, Edit};
use std::alloc::Global;
use std::marker::Sync;
use std::sync::atomic::{AtomicU64, Ordering};
use std::test::Fail;
use std::thread::{Threads, yield_now};
use workbook_core::{EditFault, Workbook};
use worker_machine::NoPace;

/// The cells of a sheet. F1 and G1 are a loop.
const CELLS: &str = "
    A1 7
    B1 =A1*2
    C1 =B1+D1
    D1 5
    E1 =IF(A1>2,A1,F1)
    F1 =G1
    G1 =F1
    H1 =IFERROR(10/A1,0)
    A2 =SUM(A1:D1)
    B2 =D1*3
";

/// Tables: the cell that is changed, the first number, how many numbers, the cell that is shown, and what it shows.
const TABLES: &str = "
    A1 -1 4 B1 => Val(Number(-2)) Val(Number(0)) Val(Number(2)) Val(Number(4))
    A1 -1 4 C1 => Val(Number(3)) Val(Number(5)) Val(Number(7)) Val(Number(9))
    A1 -1 4 H1 => Val(Number(-10)) Val(Number(0)) Val(Number(10)) Val(Number(5))
    A1 -1 4 A2 => Val(Number(5)) Val(Number(10)) Val(Number(15)) Val(Number(20))
    A1 1 4 E1 => ToCycle ToCycle Val(Number(3)) Val(Number(4))
    A1 1 2 A1 => Val(Number(1)) Val(Number(2))
    A1 1 2 B2 => Val(Number(15)) Val(Number(15))
    A1 1 2 F1 => Cycle(2) Cycle(2)
    A1 1 1 Z9 => Val(Blank)
    B1 100 2 C1 => Val(Number(105)) Val(Number(106))
    B1 100 2 A2 => Val(Number(217)) Val(Number(219))
    F1 4 2 G1 => Val(Number(4)) Val(Number(5))
    F1 4 1 E1 => Val(Number(7))
    Z9 1 2 B1 => Val(Number(14)) Val(Number(14))
";

/// A workbook of one sheet without cells.
fn one_sheet(alloc: Global) -> Result<Calc, Fail>
    ensures { IfOk result (λ calc. length calc.shared.names ≡ 1) }
{
    let files = vec![in alloc; String::from_str(alloc, "a.csv")?]?;
    let sheets = SheetNames::new(alloc, &files)?;
    let book = Workbook::new(alloc, sheets, Texts::new(alloc));
    Ok(Calc::new(alloc, book))
}

/// A cell of the sheet.
fn cell(text: &str) -> Option<Addr>
    ensures { IfSome result (λ a. IsOnSheet a × (a.sheet ≡ 0)) }
{
    let at = Addr::read(0, text)?;
    Some(Addr { sheet: 0, ..at })
}

/// Puts a field into a cell, as in `A1 =B1`.
fn put(calc: &mut Calc, words: &str) -> Result<(), EditFault>
    requires { length calc.old.shared.names ≡ 1 }
    ensures { calc.new.shared.names ≡ calc.old.shared.names }
{
    let Some((at, field)) = words.split_once(' ') else {
        return Ok(());
    };
    let Some(at) = cell(at) else {
        return Ok(());
    };
    let raw = calc.read_raw(field)?;
    calc.edit(&Edit::Put(at, raw))
}

/// The workbook of the cells.
fn with_cells(alloc: Global) -> Result<Calc, Fail> {
    let mut calc = one_sheet(alloc)?;
    for line in CELLS.lines() {
        put(&mut calc, line.trim_start_matches(' '))?;
    }
    Ok(calc)
}

/// The same, recalculated.
fn calculated<R: Threads + Sync>(rt: &R, alloc: Global) -> Result<Calc, Fail>
    ensures { IfOk result (λ calc. calc.pending ≡ []) }
{
    let mut calc = with_cells(alloc)?;
    calc.recalculate(rt, 1, &NoPace)?;
    Ok(calc)
}

/// Whether a table may have these numbers. Only small ones are asked for here.
fn is_range(low: Int, count: u32) -> bool
    ensures { result ≡ true → IsRange low count }
{
    -1000 <= low && low <= 1000 && 1 <= count && count <= 1000
}

/// What is shown, word by word.
fn words(alloc: Global, all: &[Shown]) -> Result<String, Fail> {
    let mut words = String::new(alloc);
    for shown in all {
        if !words.is_empty() {
            words.push(' ')?;
        }
        words.push_str(format!(in alloc; "{shown:?}")?.as_str())?;
    }
    Ok(words)
}

/// What a table is asked for.
#[derive(Drop)]
struct Asked {
    at: Addr,
    low: Int,
    count: u32,
    target: Addr,
}

/// What words as `A1 -1 4 B1` ask for; None where it is no table.
fn read_asked(words: &str) -> Option<Asked>
    ensures { IfSome result (λ a. IsRange a.low a.count) }
{
    let mut parts = words.split(' ');
    let at = cell(parts.next()?)?;
    let low = parts.next()?.parse().ok()?;
    let count = parts.next()?.parse().ok()?;
    let target = cell(parts.next()?)?;
    if !is_range(low, count) {
        return None;
    }
    Some(Asked {
        at,
        low,
        count,
        target,
    })
}

/// Whether a row of the tables is right with so many workers.
fn is_right<R: Threads + Sync, G: Starts>(
    rt: &R,
    alloc: Global,
    calc: &Calc,
    workers: u8,
    row: &str,
    starts: &G,
) -> Result<bool, Fail>
    requires pending { calc.now.pending ≡ [] }
    requires workers { (1 ≤ workers) × (workers ≤ 64) }
{
    let Some((table, due)) = row.split_once(" => ") else {
        return Ok(false);
    };
    let Some(a) = read_asked(table) else {
        return Ok(false);
    };
    let all = scenarios(
        calc, rt, alloc, workers, a.at, a.low, a.count, a.target, starts,
    )?;
    Ok(words(alloc, &all)?.as_str() == due)
}

#[test]
fn any_number_of_workers(rt: HostRuntime) -> Result<(), Fail> {
    let calc = calculated(&rt, rt.alloc())?;
    for workers in [1u8, 2, 64] {
        let mut count: usize = 0;
        for line in TABLES.lines() {
            let row = line.trim_start_matches(' ');
            if row.is_empty() {
                continue;
            }
            let right = is_right(&rt, rt.alloc(), &calc, workers.clamp(1, 64), row, &NoStarts)?;
            assert!(rt; right, "{row}");
            count = count.saturating_add(1);
        }
        assert_eq!(rt; count, 14);
    }
    Ok(())
}

/// Counts the scenarios, and those that the wrong one of two workers evaluates.
#[derive(Drop)]
struct Counted {
    all: AtomicU64,
    wrong: AtomicU64,
}

impl Starts for Counted {
    fn begin(&self, worker: u8, scenario: u32) {
        self.all.fetch_add(1, Ordering::SeqCst);
        if scenario % 2 != u32::from(worker) {
            self.wrong.store(1, Ordering::SeqCst);
        }
    }
}

#[test]
fn scenarios_are_dealt_in_turn(rt: HostRuntime) -> Result<(), Fail> {
    let calc = calculated(&rt, rt.alloc())?;
    let counted = Counted {
        all: AtomicU64::new(0),
        wrong: AtomicU64::new(0),
    };
    let row =
        "A1 3 5 B1 => Val(Number(6)) Val(Number(8)) Val(Number(10)) Val(Number(12)) Val(Number(14))";
    let right = is_right(&rt, rt.alloc(), &calc, 2, row, &counted)?;
    assert!(rt; right);
    assert_eq!(rt; counted.all.load(Ordering::SeqCst), 5);
    assert_eq!(rt; counted.wrong.load(Ordering::SeqCst), 0);
    Ok(())
}

/// How often a worker looks for the other one.
const LOOKS: u32 = 1_000_000;

/// Holds each of two workers before its first scenario until the other one has come to its first, and notes where one
/// looked for the other in vain.
#[derive(Drop)]
struct Gate {
    zero: AtomicU64,
    one: AtomicU64,
    late: AtomicU64,
}

impl Gate {
    fn hold(&self, own: &AtomicU64, other: &AtomicU64) {
        if own.swap(1, Ordering::SeqCst) == 1 {
            return;
        }
        for _ in 0..LOOKS {
            if other.load(Ordering::SeqCst) == 1 {
                return;
            }
            yield_now();
        }
        self.late.store(1, Ordering::SeqCst);
    }
}

impl Starts for Gate {
    fn begin(&self, worker: u8, _scenario: u32) {
        if worker == 0 {
            self.hold(&self.zero, &self.one);
        } else {
            self.hold(&self.one, &self.zero);
        }
    }
}

#[test]
fn two_workers_meet(rt: HostRuntime) -> Result<(), Fail> {
    let calc = calculated(&rt, rt.alloc())?;
    let gate = Gate {
        zero: AtomicU64::new(0),
        one: AtomicU64::new(0),
        late: AtomicU64::new(0),
    };
    let row = "A1 3 2 C1 => Val(Number(11)) Val(Number(13))";
    let right = is_right(&rt, rt.alloc(), &calc, 2, row, &gate)?;
    assert!(rt; right);
    assert_eq!(rt; gate.zero.load(Ordering::SeqCst), 1);
    assert_eq!(rt; gate.one.load(Ordering::SeqCst), 1);
    assert_eq!(rt; gate.late.load(Ordering::SeqCst), 0);
    Ok(())
}
