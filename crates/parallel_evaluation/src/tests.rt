//! Rounds over small books, in threads and in a given order.

ghost use Rattle.std.specs.Prelude.{◌≡◌, ◌∷◌, ◌<◌, ◌≤◌, length, map, option_map, All, IfOk, OnOk, IfSome, Some};
ghost use Rattle.cell_values.specs.Addresses.{IsOnSheet};
ghost use Rattle.cell_values.specs.Order.{addresses, entry_at};
ghost use Rattle.demand_spec.specs.Book.{formula_at, formula_of, shown};
ghost use Rattle.demand_spec.specs.Listed.{AreCellsOf, content_of};
ghost use Rattle.shared_expressions.specs.Trees.{Trees, tree_at};
ghost use Rattle.workbook_core.specs.Books.{IsWorkbook};
ghost use Rattle.workbook_core.specs.Held.{content_in};
ghost use Rattle.demand_stack.specs.StackSeen.{AreStored};
ghost use Rattle.parallel_evaluation.specs.TestBooks.{AreAlone, AreFormulaCells, MentionsNone};
ghost use Rattle.parallel_evaluation.specs.Workers.{ArePending};

use super::*;
use cell_values::{Addr, SheetNames, Texts};
use cell_words::CellWord;
use demand_spec::{BookView, Cell, PlainBook, Results, slow_shown};
use result_list::ResultList;
use shared_expressions::ExprId;
use std::alloc::Global;
use std::marker::Sync;
use std::process::Abort;
use std::sync::atomic::{AtomicU64, Ordering};
use std::test::Fail;
use std::thread::{Threads, yield_now};
use workbook_core::{Content, Workbook};
use worker_machine::{Kind, NoPace, Pace};

// Books: each line has a cell, its field and, for a formula, what the cell shows, in order of address. The cells of the
// second sheet stand behind `b!`.

const VALUES: &str = "
    A1 =1 shows Val(Number(1))
    A2 =A1 shows Val(Number(1))
";

const TWO_CELLS: &str = "
    A1 =A2 shows Cycle(2)
    A2 =A1 shows Cycle(2)
";

const CHAIN: &str = "
    A1 =A2+1 shows Val(Number(7))
    B1 5
    A2 =A3*2 shows Val(Number(6))
    B2 TRUE
    A3 =3 shows Val(Number(3))
    A4 =1/0 shows Val(Error(Div))
    A5 =IFERROR(A4,A1) shows Val(Number(7))
    A6 =SUM(A1:A3,A5) shows Val(Number(23))
    A7 =A1>A2 shows Val(Bool(true))
    A8 =B1+B2 shows Val(Error(Value))
    A9 =B1+B9 shows Val(Number(5))
";

const LOOPS: &str = "
    A1 =A1 shows Cycle(1)
    A2 =A3 shows Cycle(2)
    A3 =A2+A1 shows Cycle(2)
    A4 =A5 shows Cycle(5)
    A5 =A6+1 shows Cycle(5)
    A6 =A7 shows Cycle(5)
    A7 =A8 shows Cycle(5)
    A8 =A4*2 shows Cycle(5)
    A9 =A5 shows ToCycle
    A10 =A9+A11 shows ToCycle
    A11 =2 shows Val(Number(2))
    A12 =IFERROR(A2,A11) shows ToCycle
    A13 =IF(A11>1,A11,A4) shows Val(Number(2))
    A14 =1/0+A1 shows Val(Error(Div))
    A15 =A1+1/0 shows ToCycle
";

const TWO_SHEETS: &str = "
    A1 =b!A1+1 shows Val(Number(5))
    A2 =b!A2 shows Cycle(3)
    A3 =A2 shows Cycle(3)
    b!A1 =b!B1*2 shows Val(Number(4))
    b!B1 2
    b!A2 =a!A3 shows Cycle(3)
    b!A3 =IFERROR(a!A1,a!A2) shows Val(Number(5))
    b!A4 =IFERROR(a!A2,a!A1) shows ToCycle
";

/// A cell of the two sheets.
fn place(text: &str) -> Option<Addr>
    ensures { IfSome result (λ a. IsOnSheet a × (a.sheet < 2)) }
{
    match text.strip_prefix("b!") {
        Some(text) => Addr::read(1, text),
        None => Addr::read(0, text),
    }
}

/// Puts a field into a cell.
fn put(rt: &impl Abort, alloc: Global, book: &mut Workbook, at: &str, field: &str)
    requires { length book.old.names ≡ 2 }
    ensures { length book.new.names ≡ 2 }
{
    let Some(at) = place(at) else {
        panic!(rt; "{at}")
    };
    let raw = book.read_raw(alloc, field).expect(rt, "memory");
    if let Err(fault) = book.put(alloc, at, &raw) {
        panic!(rt; "{field}: {fault:?}");
    }
}

/// The field of a line, behind its cell.
fn field_of(rest: &str) -> &str {
    match rest.split_once(" shows ") {
        Some((field, _)) => field,
        None => rest,
    }
}

/// The book of these lines, of two sheets.
fn book_of(rt: &impl Abort, alloc: Global, lines: &str) -> Result<Workbook, Fail> {
    let first = String::from_str(alloc, "a.csv")?;
    let second = String::from_str(alloc, "b.csv")?;
    let files = vec![in alloc; first, second]?;
    let sheets = SheetNames::new(alloc, &files)?;
    let mut book = Workbook::new(alloc, sheets, Texts::new(alloc));
    for line in lines.lines() {
        if let Some((at, rest)) = line.trim_start().split_once(' ') {
            put(rt, alloc, &mut book, at, field_of(rest));
        }
    }
    Ok(book)
}

/// The cells of a book in order.
fn cells_of_book(alloc: Global, book: &Workbook) -> Result<Vec<Addr>, Fail>
    ensures cells { IfOk result (λ cells. cells.items ≡ addresses book.now.book.cells) }
    ensures workbook { IsWorkbook book.now }
{
    // `content` tells what all workbooks keep.
    let _content = book.content(Addr {
        sheet: 0,
        row: 1,
        col: 1,
    });
    let mut cells = Vec::new(alloc);
    let mut next = book.next_cell(None);
    while let Some(at) = next {
        cells.push(at)?;
        next = book.next_cell(Some(at));
    }
    Ok(cells)
}

/// The formula cells of a book in order.
fn formula_cells(alloc: Global, book: &Workbook) -> Result<Vec<Addr>, Fail>
    ensures { IfOk result (λ cells. AreFormulaCells book.now cells.items) }
{
    let all = cells_of_book(alloc, book)?;
    let mut cells = Vec::new(alloc);
    for i in 0..all.len() {
        if book.has_formula(all[i]) {
            cells.push(all[i])?;
        }
    }
    Ok(cells)
}

/// What a cell holds, with its formula as a tree.
fn plain_cell(alloc: Global, book: &Workbook, at: Addr) -> Result<Option<Cell>, Fail>
    ensures { IfOk result (λ cell. option_map content_of cell ≡ entry_at book.now.book.cells at) }
{
    let cell = match book.content(at) {
        Some(Content::Number(number)) => Cell::Number(number),
        Some(Content::Text(text)) => Cell::Text(text),
        Some(Content::Bool(truth)) => Cell::Bool(truth),
        Some(Content::Formula(id)) => Cell::Formula(book.pool().tree(alloc, id)?),
        None => return Ok(None),
    };
    Ok(Some(cell))
}

/// The same book without shared expressions.
fn plain_book(rt: &impl Abort, alloc: Global, book: &Workbook) -> Result<PlainBook, Fail>
    ensures { IfOk result (AreCellsOf book.now.book.texts) }
{
    let all = cells_of_book(alloc, book)?;
    let mut plain = PlainBook::new(alloc);
    for i in 0..all.len() {
        let at = all[i];
        let Some(cell) = plain_cell(alloc, book, at)? else {
            panic!(rt; "no cell")
        };
        plain.push(at, cell)?;
    }
    Ok(plain)
}

/// The results are those of the plain evaluator, for the same cells.
fn are_plain(
    rt: &impl Abort,
    alloc: Global,
    book: &Workbook,
    cells: &[Addr],
    results: &ResultList,
) -> Result<(), Fail> {
    let plain = plain_book(rt, alloc, book)?;
    let all = slow_shown(alloc, &plain, book.texts())?;
    assert!(rt; all.len() == cells.len() && all.len() == results.len());
    for i in 0..all.len() {
        let (at, shown) = all[i];
        assert_eq!(rt; at, cells[i]);
        assert_eq!(rt; Some(shown), results.get(i), "{at:?}");
    }
    Ok(())
}

/// The results are those that stand behind `shows`.
fn shows_all(
    rt: &impl Abort,
    alloc: Global,
    results: &ResultList,
    lines: &str,
) -> Result<(), Fail> {
    let mut count: usize = 0;
    for line in lines.lines() {
        if let Some((_, want)) = line.split_once(" shows ") {
            let Some(shown) = results.get(count) else {
                panic!(rt; "no result")
            };
            assert_eq!(rt; format!(in alloc; "{shown:?}")?.as_str(), want, "{line}");
            count = count.saturating_add(1);
        }
    }
    assert_eq!(rt; count, results.len());
    Ok(())
}

/// The numbers of so many workers make up so many cells.
fn make_up(rt: &impl Abort, counts: &Counts, workers: u8, cells: u32) {
    assert_eq!(rt; counts.numbers().len(), workers as usize);
    let mut sum: u32 = 0;
    for number in counts.numbers() {
        sum = sum.saturating_add(*number);
    }
    assert_eq!(rt; sum, cells);
}

/// The summary tells of a round of so many workers over these cells, all of which are done, or of none.
fn tells_of(rt: &impl Abort, summary: &Summary, workers: u8, cells: &[Addr]) {
    let workers = if cells.is_empty() { 0 } else { workers };
    assert_eq!(rt; summary.pending as usize, cells.len());
    make_up(rt, &summary.claimed, workers, summary.pending);
    make_up(rt, &summary.published, workers, summary.pending);
    let Some(outcome) = &summary.outcome else {
        assert_eq!(rt; workers, 0);
        return;
    };
    assert_eq!(rt; outcome.workers(), workers);
    assert_eq!(rt; outcome.len(), summary.pending);
    for i in 0..outcome.len() {
        assert_eq!(rt; outcome.cell(i), cells[i as usize]);
        assert!(rt; matches!(outcome.word(i), CellWord::Done { .. }));
    }
}

/// A round over all formula cells of the book of these lines. Gives how many they are.
fn evaluated<R: Abort + Threads + Sync, P: Pace>(
    rt: &R,
    alloc: Global,
    lines: &str,
    workers: u8,
    pace: &P,
) -> Result<usize, Fail>
    requires { (1 ≤ workers) × (workers ≤ 64) }
{
    let book = book_of(rt, alloc, lines)?;
    let cells = formula_cells(alloc, &book)?;
    let stored = Results::new(alloc);
    let mut results = ResultList::new(alloc, 1)?;
    let summary = evaluate(
        rt,
        alloc,
        &book,
        &cells,
        &stored,
        workers,
        pace,
        &mut results,
    )?;
    shows_all(rt, alloc, &results, lines)?;
    are_plain(rt, alloc, &book, &cells, &results)?;
    tells_of(rt, &summary, workers, &cells);
    Ok(cells.len())
}

/// A round over each of the books with so many workers.
fn every_book<R: Abort + Threads + Sync>(rt: &R, alloc: Global, workers: u8) -> Result<(), Fail>
    requires { (1 ≤ workers) × (workers ≤ 64) }
{
    assert_eq!(rt; evaluated(rt, alloc, "", workers, &NoPace)?, 0);
    assert_eq!(rt; evaluated(rt, alloc, VALUES, workers, &NoPace)?, 2);
    assert_eq!(rt; evaluated(rt, alloc, CHAIN, workers, &NoPace)?, 9);
    assert_eq!(rt; evaluated(rt, alloc, LOOPS, workers, &NoPace)?, 15);
    assert_eq!(rt; evaluated(rt, alloc, TWO_SHEETS, workers, &NoPace)?, 7);
    Ok(())
}

#[test]
fn any_number_of_workers(rt: HostRuntime) -> Result<(), Fail> {
    for workers in [1u8, 2, 3, 8, 64] {
        every_book(&rt, rt.alloc(), workers.clamp(1, 64))?;
    }
    Ok(())
}

/// How often a worker looks for the other one.
const LOOKS: u32 = 1_000_000;

/// Holds each of two workers before its first step until the other one has come to its first step, and notes where one
/// looked for the other in vain.
#[derive(Drop)]
struct Gate {
    zero: AtomicU64,
    one: AtomicU64,
    late: AtomicU64,
}

impl Gate {
    fn hold(&self, own: &AtomicU64, other: &AtomicU64) {
        if own.swap(1, Ordering::SeqCst) == 1 {
            return;
        }
        for _ in 0..LOOKS {
            if other.load(Ordering::SeqCst) == 1 {
                return;
            }
            yield_now();
        }
        self.late.store(1, Ordering::SeqCst);
    }
}

impl Pace for Gate {
    fn before(&self, worker: u8, _kind: Kind) {
        if worker == 0 {
            self.hold(&self.zero, &self.one);
        } else {
            self.hold(&self.one, &self.zero);
        }
    }
}

#[test]
fn two_workers_meet(rt: HostRuntime) -> Result<(), Fail> {
    let gate = Gate {
        zero: AtomicU64::new(0),
        one: AtomicU64::new(0),
        late: AtomicU64::new(0),
    };
    assert_eq!(rt; evaluated(&rt, rt.alloc(), TWO_CELLS, 2, &gate)?, 2);
    assert_eq!(rt; gate.zero.load(Ordering::SeqCst), 1);
    assert_eq!(rt; gate.one.load(Ordering::SeqCst), 1);
    assert_eq!(rt; gate.late.load(Ordering::SeqCst), 0);
    Ok(())
}

/// The steps, a line each, behind an empty one.
fn told(alloc: Global, trace: &[Traced]) -> Result<String, Fail> {
    let mut told = String::from_str(alloc, "\n")?;
    for step in trace {
        let worker = step.worker;
        let event = step.event;
        told.push_str(format!(in alloc; "    {worker} {event:?}\n")?.as_str())?;
    }
    Ok(told)
}

/// The order whose turns are these digits, 0 or 1.
fn order_of(alloc: Global, digits: &str) -> Result<Vec<u8>, Fail>
    ensures { IfOk result (λ order. All (λ w. w < 2) order.items) }
{
    let mut order = Vec::new(alloc);
    for digit in digits.as_bytes() {
        order.push(u8::from(*digit == b'1'))?;
    }
    Ok(order)
}

/// A round of two workers in this order over the formula cells of the book of these lines. Gives its steps.
fn steps_of(
    rt: &impl Abort,
    alloc: Global,
    lines: &str,
    digits: &str,
    stopped: &[u8],
) -> Result<String, Fail>
    requires { length stopped.now < 2 }
{
    let book = book_of(rt, alloc, lines)?;
    let cells = formula_cells(alloc, &book)?;
    let stored = Results::new(alloc);
    let order = order_of(alloc, digits)?;
    let mut trace = Vec::new(alloc);
    let mut results = ResultList::new(alloc, 0)?;
    let summary = evaluate_in_order(
        alloc,
        &book,
        &cells,
        &stored,
        2,
        &order,
        stopped,
        &mut trace,
        &mut results,
    )?;
    shows_all(rt, alloc, &results, lines)?;
    are_plain(rt, alloc, &book, &cells, &results)?;
    tells_of(rt, &summary, 2, &cells);
    told(alloc, &trace)
}

const BY_TURNS: &str = "
    0 Look { cell: 0, seen: Stale }
    1 Look { cell: 1, seen: Stale }
    0 Claim { cell: 0, answer: Won }
    1 Claim { cell: 1, answer: Won }
    0 Look { cell: 1, seen: Claimed(1) }
    1 Look { cell: 0, seen: Claimed(0) }
    0 TakeRecord { rec: 0 }
    1 TakeRecord { rec: 1 }
    0 StoreValue { rec: 0, k: 0, word: 2 }
    1 StoreValue { rec: 1, k: 0, word: 2 }
    0 StoreTag { rec: 0, word: 6 }
    1 StoreTag { rec: 1, word: 6 }
    0 Publish { cell: 1, rec: 0, answer: Won }
    1 Publish { cell: 0, rec: 1, answer: Won }
    0 TakeRecord { rec: 2 }
    1 TakeRecord { rec: 3 }
    0 StoreValue { rec: 2, k: 0, word: 2 }
    0 StoreTag { rec: 2, word: 6 }
    0 Publish { cell: 0, rec: 2, answer: Lost { publisher: 1, claimer: 0, rec: 1 } }
    1 StoreValue { rec: 3, k: 0, word: 2 }
    1 StoreTag { rec: 3, word: 6 }
    1 Publish { cell: 1, rec: 3, answer: Lost { publisher: 0, claimer: 1, rec: 0 } }
";

// Worker 1 runs to its end, while worker 0 has stopped after its claim.
const OTHER_FIRST: &str = "
    0 Look { cell: 0, seen: Stale }
    0 Claim { cell: 0, answer: Won }
    1 Look { cell: 1, seen: Stale }
    1 Claim { cell: 1, answer: Won }
    1 Look { cell: 0, seen: Claimed(0) }
    1 TakeRecord { rec: 0 }
    1 StoreValue { rec: 0, k: 0, word: 2 }
    1 StoreTag { rec: 0, word: 6 }
    1 Publish { cell: 0, rec: 0, answer: Won }
    1 TakeRecord { rec: 1 }
    1 StoreValue { rec: 1, k: 0, word: 2 }
    1 StoreTag { rec: 1, word: 6 }
    1 Publish { cell: 1, rec: 1, answer: Won }
";

// And then worker 0: a mark of a cycle that another worker published is not believed, so the cell is walked again.
const AND_THEN: &str = "
    0 Look { cell: 1, seen: Done { publisher: 1, claimer: 1, rec: 1 } }
    0 LoadTag { rec: 1, word: 6 }
    0 TakeRecord { rec: 2 }
    0 StoreValue { rec: 2, k: 0, word: 2 }
    0 StoreTag { rec: 2, word: 6 }
    0 Publish { cell: 0, rec: 2, answer: Lost { publisher: 1, claimer: 0, rec: 0 } }
";

const ALONE: &str = "
    0 Look { cell: 0, seen: Stale }
    0 Claim { cell: 0, answer: Won }
    0 TakeRecord { rec: 0 }
    0 StoreValue { rec: 0, k: 0, word: 1 }
    0 StoreValue { rec: 0, k: 1, word: 0 }
    0 StoreTag { rec: 0, word: 1 }
    0 Publish { cell: 0, rec: 0, answer: Won }
    0 Look { cell: 1, seen: Stale }
    0 Claim { cell: 1, answer: Won }
    0 TakeRecord { rec: 1 }
    0 StoreValue { rec: 1, k: 0, word: 1 }
    0 StoreValue { rec: 1, k: 1, word: 0 }
    0 StoreTag { rec: 1, word: 1 }
    0 Publish { cell: 1, rec: 1, answer: Won }
";

// Worker 1 behind worker 0.
const BEHIND: &str = "
    1 Look { cell: 1, seen: Done { publisher: 0, claimer: 0, rec: 1 } }
    1 LoadTag { rec: 1, word: 1 }
    1 LoadValue { rec: 1, k: 0, word: 1 }
    1 LoadValue { rec: 1, k: 1, word: 0 }
    1 Look { cell: 0, seen: Done { publisher: 0, claimer: 0, rec: 0 } }
    1 LoadTag { rec: 0, word: 1 }
    1 LoadValue { rec: 0, k: 0, word: 1 }
    1 LoadValue { rec: 0, k: 1, word: 0 }
";

/// The round has these steps, those of the second text behind those of the first.
fn has_steps(
    rt: &impl Abort,
    alloc: Global,
    lines: &str,
    digits: &str,
    stopped: &[u8],
    first: &str,
    second: &str,
) -> Result<(), Fail>
    requires { length stopped.now < 2 }
{
    let steps = steps_of(rt, alloc, lines, digits, stopped)?;
    let mut want = String::from_str(alloc, first)?;
    want.push_str(second.trim_start_matches('\n'))?;
    assert_eq!(rt; steps.as_str(), want.as_str());
    Ok(())
}

#[test]
fn steps_in_a_given_order(rt: HostRuntime) -> Result<(), Fail> {
    let alloc = rt.alloc();
    has_steps(&rt, alloc, TWO_CELLS, "0101010101010101", &[], BY_TURNS, "")?;
    has_steps(
        &rt,
        alloc,
        TWO_CELLS,
        "0011111111111",
        &[],
        OTHER_FIRST,
        AND_THEN,
    )?;
    has_steps(&rt, alloc, VALUES, "", &[], ALONE, BEHIND)
}

// A stopped worker makes the steps of its turns alone, and the results are those of the other one.
#[test]
fn a_worker_stops(rt: HostRuntime) -> Result<(), Fail> {
    let alloc = rt.alloc();
    has_steps(&rt, alloc, TWO_CELLS, "00", &[0], OTHER_FIRST, "")?;
    has_steps(&rt, alloc, VALUES, "", &[1], ALONE, "")?;
    steps_of(&rt, alloc, LOOPS, "0110100110010110", &[0])?;
    steps_of(&rt, alloc, TWO_SHEETS, "1110001110", &[1])?;
    Ok(())
}

/// How many steps a worker makes at most in a round over two cells.
const MOST_STEPS: usize = 48;

// Worker 0 stops after each of its steps: the other one finishes alone, within as many steps as two cells take.
#[test]
fn a_worker_stops_after_any_step(rt: HostRuntime) -> Result<(), Fail> {
    let alloc = rt.alloc();
    let mut digits = String::new(alloc);
    for made in 0..=10 {
        let steps = steps_of(&rt, alloc, TWO_CELLS, &digits, &[0])?;
        let others = steps.lines().filter(|line| line.starts_with("1 ")).count();
        assert_eq!(rt; others <= MOST_STEPS, true, "after {made}");
        digits.push_str("0")?;
    }
    Ok(())
}

/// The formula of what a cell holds.
fn formula_in(content: Option<Content>) -> Option<ExprId>
    ensures { (p : Trees) → option_map (tree_at p) result ≡ formula_of (option_map (content_in p) content) }
{
    match content {
        Some(Content::Formula(id)) => Some(id),
        Some(Content::Number(_) | Content::Text(_) | Content::Bool(_)) | None => None,
    }
}

/// The formula of a cell.
fn formula(book: &Workbook, at: Addr) -> Option<ExprId>
    ensures { option_map (tree_at book.now.pool) result ≡ formula_at book.now.book at }
{
    formula_in(book.content(at))
}

/// The formula of the cell names no cell.
fn mentions_none(rt: &impl Abort, alloc: Global, book: &Workbook, at: Addr) -> Result<(), Fail>
    ensures { OnOk result (MentionsNone book.now.book at) }
{
    let Some(id) = formula(book, at) else {
        panic!(rt; "no formula")
    };
    let mut named = Vec::new(alloc);
    book.pool().areas(id, at, &mut named)?;
    if !named.is_empty() {
        panic!(rt; "an area");
    }
    Ok(())
}

/// The result of the first formula cell alone, whose formula mentions no cell.
fn first_stored(
    rt: &impl Abort,
    alloc: Global,
    book: &Workbook,
    first: Addr,
    rest: &[Addr],
    results: &ResultList,
) -> Result<Results, Fail>
    requires cells { AreFormulaCells book.now (first ∷ rest.now) }
    requires results { results.now ≡ map (λ a. Some (shown book.now.book a)) (first ∷ rest.now) }
    ensures { IfOk result (λ stored. AreAlone book.now.book rest.now stored.entries) }
{
    mentions_none(rt, alloc, book, first)?;
    let mut stored = Results::new(alloc);
    let Some(shown) = results.get(0) else {
        panic!(rt; "no result")
    };
    stored.insert(first, shown)?;
    Ok(stored)
}

/// One worker makes the steps of the cells behind the stored one, and no other.
fn alone_in_order(
    rt: &impl Abort,
    alloc: Global,
    book: &Workbook,
    rest: &[Addr],
    stored: &Results,
) -> Result<(), Fail>
    requires { AreAlone book.now.book rest.now stored.now.entries }
{
    let mut trace = Vec::new(alloc);
    let mut results = ResultList::new(alloc, 0)?;
    let summary = evaluate_in_order(
        alloc,
        book,
        rest,
        stored,
        1,
        &[],
        &[],
        &mut trace,
        &mut results,
    )?;
    assert_eq!(rt; told(alloc, &trace)?.as_str(), ALONE);
    shows_all(rt, alloc, &results, VALUES)?;
    tells_of(rt, &summary, 1, rest);
    Ok(())
}

/// What so many workers in threads find at these cells, which lie behind those that are stored.
fn in_threads<R: Abort + Threads + Sync>(
    rt: &R,
    alloc: Global,
    book: &Workbook,
    cells: &[Addr],
    stored: &Results,
    workers: u8,
) -> Result<ResultList, Fail>
    requires alone { AreAlone book.now.book cells.now stored.now.entries }
    requires workers { (1 ≤ workers) × (workers ≤ 64) }
    ensures { IfOk result (λ results. results ≡ map (λ a. Some (shown book.now.book a)) cells.now) }
{
    let mut results = ResultList::new(alloc, 0)?;
    let summary = evaluate(
        rt,
        alloc,
        book,
        cells,
        stored,
        workers,
        &NoPace,
        &mut results,
    )?;
    tells_of(rt, &summary, workers, cells);
    Ok(results)
}

const THREE: &str = "
    A1 =1 shows Val(Number(1))
    A2 =A1 shows Val(Number(1))
    A3 =A2 shows Val(Number(1))
";

// The first cell is not evaluated again: the steps are those of the two cells behind it.
#[test]
fn what_is_stored_is_not_evaluated(rt: HostRuntime) -> Result<(), Fail> {
    let alloc = rt.alloc();
    let book = book_of(&rt, alloc, THREE)?;
    let cells = formula_cells(alloc, &book)?;
    let Some((first, rest)) = cells.split_first() else {
        panic!(rt; "no cell")
    };
    let all = in_threads(&rt, alloc, &book, &cells, &Results::new(alloc), 1)?;
    let stored = first_stored(&rt, alloc, &book, *first, rest, &all)?;
    alone_in_order(&rt, alloc, &book, rest, &stored)?;
    let results = in_threads(&rt, alloc, &book, rest, &stored, 8)?;
    shows_all(&rt, alloc, &results, VALUES)
}
