//! Recalculations of small workbooks with many workers, in threads and in a given order.

ghost use Rattle.std.specs.Prelude.{◌≡◌, ◌<◌, ◌≤◌, [], length, All, IfOk, OnOk};

use super::*;
use crate::plain::plain_of;
use crate::tests::{make, one_sheet};
use cell_values::{Addr, LAST_ROW, Shown, Value};
use demand_spec::slow_shown;
use std::alloc::Global;
use std::marker::Sync;
use std::process::Abort;
use std::sync::atomic::{AtomicU64, Ordering};
use std::test::Fail;
use std::thread::{Threads, yield_now};

const CHAIN: &str = "
    =A2+1 shows Val(Number(7))
    =A3*2 shows Val(Number(6))
    =3 shows Val(Number(3))
    =1/0 shows Val(Error(Div))
    =IFERROR(A4,A1) shows Val(Number(7))
    =SUM(A1:A3,A5) shows Val(Number(23))
    =A1>A2 shows Val(Bool(true))
    5 shows Val(Number(5))
    =A8 shows Val(Number(5))
";

const LOOPS: &str = "
    =A1 shows Cycle(1)
    =A3 shows Cycle(2)
    =A2+A1 shows Cycle(2)
    =A5 shows Cycle(5)
    =A6+1 shows Cycle(5)
    =A7 shows Cycle(5)
    =A8 shows Cycle(5)
    =A4*2 shows Cycle(5)
    =A5 shows ToCycle
    =A9+A11 shows ToCycle
    =2 shows Val(Number(2))
    =IFERROR(A2,A11) shows ToCycle
    =IF(A11>1,A11,A4) shows Val(Number(2))
    =1/0+A1 shows Val(Error(Div))
    =A1+1/0 shows ToCycle
";

/// A cell of the first column.
fn at(row: u32) -> Addr {
    Addr {
        sheet: 0,
        row: row.clamp(1, LAST_ROW),
        col: 1,
    }
}

/// Puts a field into a cell of the first column.
fn put_at(rt: &impl Abort, calc: &mut Calc, row: u32, field: &str)
    requires { length calc.old.shared.names ≡ 1 }
    ensures { length calc.new.shared.names ≡ 1 }
{
    let at = Addr {
        sheet: 0,
        row: row.clamp(1, LAST_ROW),
        col: 1,
    };
    let raw = calc.read_raw(field).expect(rt, "memory");
    if let Err(fault) = calc.edit(&Edit::Put(at, raw)) {
        panic!(rt; "{field}: {fault:?}");
    }
}

/// A workbook with these fields in A1, A2 and so on, each before the word `shows`.
fn calc_of(rt: &impl Abort, alloc: Global, lines: &str) -> Result<Calc, Fail>
    ensures { IfOk result (λ calc. length calc.shared.names ≡ 1) }
{
    let mut calc = one_sheet(alloc)?;
    let mut row: u32 = 0;
    for line in lines.lines() {
        if let Some((field, _)) = line.trim_start().split_once(" shows ") {
            row = row.saturating_add(1);
            put_at(rt, &mut calc, row, field);
        }
    }
    Ok(calc)
}

/// A cell of the line is told as it says.
fn is_told(
    rt: &impl Abort,
    alloc: Global,
    shown: Shown,
    want: &str,
    line: &str,
) -> Result<(), Fail> {
    let told = format!(in alloc; "{shown:?}")?;
    assert_eq!(rt; told.as_str(), want, "{line}");
    Ok(())
}

/// Each cell shows what stands behind `shows`.
fn shows_all(rt: &impl Abort, alloc: Global, calc: &Calc, lines: &str) -> Result<(), Fail>
    requires { calc.now.pending ≡ [] }
{
    let mut row: u32 = 0;
    for line in lines.lines() {
        if let Some((_, want)) = line.trim_start().split_once(" shows ") {
            row = row.saturating_add(1);
            let shown = calc.shown(at(row));
            is_told(rt, alloc, shown, want, line)?;
        }
    }
    Ok(())
}

/// Each formula cell shows what rounds over the whole workbook give; so many there are.
pub(crate) fn shows_as_defined(rt: &impl Abort, alloc: Global, calc: &Calc) -> Result<u32, Fail>
    requires { calc.now.pending ≡ [] }
{
    let book = calc.book();
    let plain = plain_of(rt, alloc, book)?;
    let mut count: u32 = 0;
    for (at, shows) in &slow_shown(alloc, &plain, book.texts())? {
        let shown = calc.shown(*at);
        assert_eq!(rt; shown, *shows, "{at:?}");
        count = count.saturating_add(1);
    }
    Ok(count)
}

/// The summary has a number for each worker, or none where nothing was pending.
fn tells_of(rt: &impl Abort, summary: &Summary, workers: u8) {
    let count = if summary.pending == 0 {
        0
    } else {
        workers as usize
    };
    assert_eq!(rt; summary.claimed.numbers().len(), count);
    assert_eq!(rt; summary.published.numbers().len(), count);
    assert_eq!(rt; summary.outcome.is_some(), count > 0);
}

/// A recalculation. Gives how many cells were pending.
fn computed<R: Abort + Threads + Sync, P: Pace>(
    rt: &R,
    calc: &mut Calc,
    workers: u8,
    pace: &P,
) -> Result<u32, Fail>
    requires { (1 ≤ workers) × (workers ≤ 64) }
    ensures done { OnOk result (calc.new.pending ≡ []) }
    ensures book { calc.new.shared ≡ calc.old.shared }
{
    let summary = calc.recalculate(rt, workers, pace)?;
    tells_of(rt, &summary, workers);
    Ok(summary.pending)
}

/// The workbook of these lines, computed with so many workers. So many cells were pending.
fn computed_calc<R: Abort + Threads + Sync, P: Pace>(
    rt: &R,
    alloc: Global,
    lines: &str,
    workers: u8,
    pace: &P,
    pending: u32,
) -> Result<Calc, Fail>
    requires { (1 ≤ workers) × (workers ≤ 64) }
    ensures names { IfOk result (λ calc. length calc.shared.names ≡ 1) }
    ensures done { IfOk result (λ calc. calc.pending ≡ []) }
{
    let mut calc = calc_of(rt, alloc, lines)?;
    let found = computed(rt, &mut calc, workers, pace)?;
    assert_eq!(rt; found, pending);
    shows_all(rt, alloc, &calc, lines)?;
    Ok(calc)
}

/// Computes the workbook of these lines with so many workers, and once more, when nothing is pending.
fn computes<R: Abort + Threads + Sync>(
    rt: &R,
    alloc: Global,
    lines: &str,
    workers: u8,
    pending: u32,
) -> Result<(), Fail>
    requires { (1 ≤ workers) × (workers ≤ 64) }
{
    let mut calc = computed_calc(rt, alloc, lines, workers, &NoPace, pending)?;
    let formulas = shows_as_defined(rt, alloc, &calc)?;
    assert_eq!(rt; formulas, pending);
    let found = computed(rt, &mut calc, workers, &NoPace)?;
    assert_eq!(rt; found, 0);
    shows_all(rt, alloc, &calc, lines)
}

#[test]
fn any_number_of_workers(rt: HostRuntime) -> Result<(), Fail> {
    for workers in [1u8, 2, 3, 8, 64] {
        let workers = workers.clamp(1, 64);
        computes(&rt, rt.alloc(), CHAIN, workers, 8)?;
        computes(&rt, rt.alloc(), LOOPS, workers, 15)?;
    }
    Ok(())
}

/// Counts the steps.
#[derive(Drop)]
struct Steps {
    count: AtomicU64,
}

impl Pace for Steps {
    fn before(&self, _worker: u8, _kind: Kind) {
        self.count.fetch_add(1, Ordering::SeqCst);
    }
}

/// How many steps a recalculation by one worker makes after an edit that leaves one cell pending.
fn steps_after<R: Abort + Threads + Sync>(rt: &R, calc: &mut Calc, line: &str) -> Result<u64, Fail>
    requires { length calc.old.shared.names ≡ 1 }
    ensures { OnOk result (calc.new.pending ≡ []) }
{
    make(calc, line)?;
    let steps = Steps {
        count: AtomicU64::new(0),
    };
    let pending = computed(rt, calc, 1, &steps)?;
    assert_eq!(rt; pending, 1);
    Ok(steps.count.load(Ordering::SeqCst))
}

const LOOP_AND_VALUE: &str = "
    =A1 shows Cycle(1)
    =1 shows Val(Number(1))
";

const LOOP_AND_READER: &str = "
    =A1 shows Cycle(1)
    =A1 shows ToCycle
";

// Of two formula cells one alone is pending the second time: it is looked at, claimed, and published with a record of
// a tag and one value word.
#[test]
fn only_what_is_pending_is_computed(rt: HostRuntime) -> Result<(), Fail> {
    let alloc = rt.alloc();
    let mut calc = computed_calc(&rt, alloc, LOOP_AND_VALUE, 1, &NoPace, 2)?;
    let steps = steps_after(&rt, &mut calc, "set A2 =A1")?;
    assert_eq!(rt; steps, 6);
    shows_all(&rt, alloc, &calc, LOOP_AND_READER)
}

/// A workbook of 3,000 cells, each of which shows the cell beside it.
fn filled(alloc: Global) -> Result<Calc, Fail>
    ensures { IfOk result (λ calc. length calc.shared.names ≡ 1) }
{
    let mut calc = one_sheet(alloc)?;
    make(&mut calc, "set A1 =B1")?;
    make(&mut calc, "copy A1 A2:A3000")?;
    Ok(calc)
}

// Of thousands of formula cells one alone is computed after what it reads has changed; its record has a tag and the two
// value words of a number.
#[test]
fn an_edit_of_many_cells_asks_what_reads_it(rt: HostRuntime) -> Result<(), Fail> {
    let mut calc = filled(rt.alloc())?;
    let pending = computed(&rt, &mut calc, 3, &NoPace)?;
    assert_eq!(rt; pending, 3000);
    let steps = steps_after(&rt, &mut calc, "set B1500 7")?;
    assert_eq!(rt; steps, 7);
    let shown = calc.shown(at(1500));
    assert_eq!(rt; shown, Shown::Val(Value::Number(7)));
    Ok(())
}

/// How often a worker looks for the other one.
const LOOKS: u32 = 1_000_000;

/// Waits for a while until the number is so much. Gives whether it came to that.
fn comes_to(number: &AtomicU64, least: u64) -> bool {
    for _ in 0..LOOKS {
        if number.load(Ordering::SeqCst) >= least {
            return true;
        }
        yield_now();
    }
    false
}

/// Holds each of two workers before its first step until the other one has come to its first step, and notes where one
/// looked for the other in vain.
#[derive(Drop)]
struct Gate {
    zero: AtomicU64,
    one: AtomicU64,
    late: AtomicU64,
}

impl Gate {
    /// No worker has come yet.
    fn new() -> Gate {
        Gate {
            zero: AtomicU64::new(0),
            one: AtomicU64::new(0),
            late: AtomicU64::new(0),
        }
    }

    fn hold(&self, own: &AtomicU64, other: &AtomicU64) {
        if own.swap(1, Ordering::SeqCst) == 0 && !comes_to(other, 1) {
            self.late.store(1, Ordering::SeqCst);
        }
    }

    /// Both workers have come, and neither looked for the other in vain.
    fn saw_both(&self, rt: &impl Abort) {
        let zero = self.zero.load(Ordering::SeqCst);
        let one = self.one.load(Ordering::SeqCst);
        let late = self.late.load(Ordering::SeqCst);
        assert!(rt; zero == 1 && one == 1 && late == 0);
    }
}

impl Pace for Gate {
    fn before(&self, worker: u8, _kind: Kind) {
        if worker == 0 {
            self.hold(&self.zero, &self.one);
        } else {
            self.hold(&self.one, &self.zero);
        }
    }
}

const TWO_VALUES: &str = "
    =1 shows Val(Number(1))
    =2 shows Val(Number(2))
";

#[test]
fn two_workers_meet(rt: HostRuntime) -> Result<(), Fail> {
    let gate = Gate::new();
    computed_calc(&rt, rt.alloc(), TWO_VALUES, 2, &gate, 2)?;
    gate.saw_both(&rt);
    Ok(())
}

/// Holds worker 0 before its first step until worker 1 has come to its own, and that one until worker 0 has come to
/// its fourth look. Notes what worker 0 does between its third look and its fourth, and where one waited in vain.
#[derive(Drop)]
struct Theft {
    one: AtomicU64,
    looks: AtomicU64,
    published: AtomicU64,
    late: AtomicU64,
}

impl Theft {
    /// No worker has come yet.
    fn new() -> Theft {
        Theft {
            one: AtomicU64::new(0),
            looks: AtomicU64::new(0),
            published: AtomicU64::new(0),
            late: AtomicU64::new(0),
        }
    }

    fn wait(&self, number: &AtomicU64, least: u64) {
        if !comes_to(number, least) {
            self.late.store(1, Ordering::SeqCst);
        }
    }

    fn zero_before(&self, kind: Kind) {
        match kind {
            Kind::Look => {
                if self.looks.fetch_add(1, Ordering::SeqCst) == 0 {
                    self.wait(&self.one, 1);
                }
            }
            Kind::Publish => {
                if self.looks.load(Ordering::SeqCst) == 3 {
                    self.published.store(1, Ordering::SeqCst);
                }
            }
            _ => {}
        }
    }

    /// Nobody waited in vain, and worker 0 published the third cell that it looked at before it looked at a fourth.
    fn saw_it(&self, rt: &impl Abort) {
        let published = self.published.load(Ordering::SeqCst);
        let late = self.late.load(Ordering::SeqCst);
        assert!(rt; published == 1 && late == 0);
    }
}

impl Pace for Theft {
    fn before(&self, worker: u8, kind: Kind) {
        if worker == 0 {
            self.zero_before(kind);
        } else if self.one.swap(1, Ordering::SeqCst) == 0 {
            self.wait(&self.looks, 4);
        }
    }
}

const FOUR_CELLS: &str = "
    =1 shows Val(Number(1))
    =1 shows Val(Number(1))
    =A4 shows Val(Number(1))
    =1 shows Val(Number(1))
";

// Two cells are dealt to each worker. While worker 1 has taken its first and no more, worker 0 is done with its own and
// steals the last cell: in order it would come to the third one first, and find that it needs the last.
#[test]
fn a_worker_steals(rt: HostRuntime) -> Result<(), Fail> {
    let theft = Theft::new();
    computed_calc(&rt, rt.alloc(), FOUR_CELLS, 2, &theft, 4)?;
    theft.saw_it(&rt);
    Ok(())
}

const TWO_CELLS: &str = "
    =A2 shows Cycle(2)
    =A1 shows Cycle(2)
";

// Worker 1 runs to its end, while worker 0 has stopped after its claim.
const OTHER_FIRST: &str = "
    0 Look { cell: 0, seen: Stale }
    0 Claim { cell: 0, answer: Won }
    1 Look { cell: 1, seen: Stale }
    1 Claim { cell: 1, answer: Won }
    1 Look { cell: 0, seen: Claimed(0) }
    1 TakeRecord { rec: 0 }
    1 StoreValue { rec: 0, k: 0, word: 2 }
    1 StoreTag { rec: 0, word: 6 }
    1 Publish { cell: 0, rec: 0, answer: Won }
    1 TakeRecord { rec: 1 }
    1 StoreValue { rec: 1, k: 0, word: 2 }
    1 StoreTag { rec: 1, word: 6 }
    1 Publish { cell: 1, rec: 1, answer: Won }
";

// And then worker 0: a mark of a cycle that another worker published is not believed, so the cell is walked again.
const AND_THEN: &str = "
    0 Look { cell: 1, seen: Done { publisher: 1, claimer: 1, rec: 1 } }
    0 LoadTag { rec: 1, word: 6 }
    0 TakeRecord { rec: 2 }
    0 StoreValue { rec: 2, k: 0, word: 2 }
    0 StoreTag { rec: 2, word: 6 }
    0 Publish { cell: 0, rec: 2, answer: Lost { publisher: 1, claimer: 0, rec: 0 } }
";

/// The order whose turns are these digits, 0 or 1.
fn order_of(alloc: Global, digits: &str) -> Result<Vec<u8>, Fail>
    ensures { IfOk result (λ order. All (λ w. w < 2) order.items) }
{
    let mut order = Vec::new(alloc);
    for digit in digits.as_bytes() {
        order.push(u8::from(*digit == b'1'))?;
    }
    Ok(order)
}

/// The steps, a line each, behind an empty one.
fn told(alloc: Global, trace: &[Traced]) -> Result<String, Fail> {
    let mut told = String::from_str(alloc, "\n")?;
    for step in trace {
        let worker = step.worker;
        let event = step.event;
        told.push_str(format!(in alloc; "    {worker} {event:?}\n")?.as_str())?;
    }
    Ok(told)
}

/// A recalculation by two workers in this order. Gives its steps.
fn computed_in_order(
    alloc: Global,
    calc: &mut Calc,
    order: &[u8],
    stopped: &[u8],
) -> Result<Vec<Traced>, Fail>
    requires order { All (λ w. w < 2) order.now }
    requires stopped { length stopped.now < 2 }
    ensures { OnOk result (calc.new.pending ≡ []) }
{
    let mut trace = Vec::new(alloc);
    calc.recalculate_in_order(2, order, stopped, &mut trace)?;
    Ok(trace)
}

/// Two workers compute the two cells in this order, and the cells show what they should. Gives the steps.
fn steps_of(rt: &impl Abort, alloc: Global, digits: &str, stopped: &[u8]) -> Result<String, Fail>
    requires { length stopped.now < 2 }
{
    let order = order_of(alloc, digits)?;
    let mut calc = calc_of(rt, alloc, TWO_CELLS)?;
    let trace = computed_in_order(alloc, &mut calc, &order, stopped)?;
    shows_all(rt, alloc, &calc, TWO_CELLS)?;
    told(alloc, &trace)
}

/// The run has these steps, those of the second text behind those of the first.
fn has_steps(
    rt: &impl Abort,
    alloc: Global,
    digits: &str,
    stopped: &[u8],
    first: &str,
    second: &str,
) -> Result<(), Fail>
    requires { length stopped.now < 2 }
{
    let steps = steps_of(rt, alloc, digits, stopped)?;
    let mut want = String::from_str(alloc, first)?;
    want.push_str(second.trim_start_matches('\n'))?;
    assert_eq!(rt; steps.as_str(), want.as_str());
    Ok(())
}

#[test]
fn steps_in_a_given_order(rt: HostRuntime) -> Result<(), Fail> {
    has_steps(&rt, rt.alloc(), "0011111111111", &[], OTHER_FIRST, AND_THEN)
}

// A stopped worker makes the steps of its turns alone.
#[test]
fn a_worker_stops(rt: HostRuntime) -> Result<(), Fail> {
    has_steps(&rt, rt.alloc(), "00", &[0], OTHER_FIRST, "")
}

/// Edits of a workbook with loops.
const RANDOM: &str = "
    set A1 =B1
    set A1 =A2+1
    set A1 3
    set A2 =A1
    set A2 =IFERROR(C1,A3)
    set A3 =SUM(A1:B2)
    set A3 =A3
    set A4 =1/0
    set A4 TRUE
    set B1 =A1*2
    set B1 =B2
    set B2 =B3
    set B3 =B1
    set B3 =IF(A1>2,B4,A4)
    set B4 x
    set C1 =B4
    clear A1
    clear A2
    clear B3
    copy A1 B2:C3
    copy B1 A3:A4
    copy A2 C1:C4
    copy B4 A1:B2
    copy Z9 A2:B3
";

/// The next of a sequence of numbers that look random.
fn shuffled(seed: u64) -> u64 {
    seed.wrapping_mul(6_364_136_223_846_793_005)
        .wrapping_add(1_442_695_040_888_963_407)
}

/// A line of the text, by its number.
fn line_of(lines: &str, number: u64) -> &str {
    let mut left = number;
    for line in lines.lines() {
        if left == 0 {
            return line.trim_start();
        }
        left = left.saturating_sub(1);
    }
    ""
}

/// Makes the edit of a number from 1 to 24.
fn edit_of(rt: &impl Abort, calc: &mut Calc, number: u64)
    requires { length calc.old.shared.names ≡ 1 }
    ensures { length calc.new.shared.names ≡ 1 }
{
    make(calc, line_of(RANDOM, number)).expect(rt, "an edit");
}

/// Three edits, by the numbers behind this one. Gives the last of them.
fn three_edits(rt: &impl Abort, calc: &mut Calc, seed: u64) -> u64
    requires { length calc.old.shared.names ≡ 1 }
    ensures { length calc.new.shared.names ≡ 1 }
{
    let mut seed = seed;
    for _ in 0..3u32 {
        seed = shuffled(seed);
        edit_of(rt, calc, (seed >> 40) % 24 + 1);
    }
    seed
}

/// From 1 to 4 workers, by a number.
fn workers_of(seed: u64) -> u8
    ensures { (1 ≤ result) × (result ≤ 64) }
{
    ((seed >> 50) % 4) as u8 + 1
}

/// A recalculation, after which each formula cell shows what the workbook means. Gives how many there are.
fn recomputed<R: Abort + Threads + Sync>(
    rt: &R,
    alloc: Global,
    calc: &mut Calc,
    workers: u8,
) -> Result<u32, Fail>
    requires { (1 ≤ workers) × (workers ≤ 64) }
    ensures { calc.new.shared ≡ calc.old.shared }
{
    computed(rt, calc, workers, &NoPace)?;
    shows_as_defined(rt, alloc, calc)
}

// After edits here and there each cell shows what the workbook means as it is then.
#[test]
fn edits_and_recalculations(rt: HostRuntime) -> Result<(), Fail> {
    let mut calc = one_sheet(rt.alloc())?;
    let mut seed = 7;
    let mut cells: u32 = 0;
    for _ in 0..40u32 {
        seed = three_edits(&rt, &mut calc, seed);
        let formulas = recomputed(&rt, rt.alloc(), &mut calc, workers_of(seed))?;
        cells = cells.saturating_add(formulas);
    }
    assert!(rt; cells > 100);
    Ok(())
}
