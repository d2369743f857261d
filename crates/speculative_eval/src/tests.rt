//! Two workers of a round, stepped in given orders over books whose cells are all formulas.

ghost use Rattle.std.specs.Prelude.{◌≡◌, ◌≤◌, [], ◌∷◌, ◌++◌, true, length, ◌<◌, All, IfOk, OnOk, IsSome};
ghost use Rattle.cell_values.specs.Order.{addresses, InOrder, IsAfterAll};
ghost use Rattle.demand_spec.specs.Book.{formula_at};
ghost use Rattle.demand_spec.specs.Laws.{In};
ghost use Rattle.demand_spec.specs.Listed.{AreCellsOf};
ghost use Rattle.workbook_core.specs.Books.{IsWorkbook};
ghost use Rattle.claim_core.specs.Passes.{Belongs, IsIdle, IsPassOf, IsTurnOf};
ghost use Rattle.speculative_eval.specs.Workers.{BelongsTo, IsWorkerOf};
ghost use Rattle.speculative_eval.specs.TestRound.{AreAllCells, IsRoundOf};

use crate::{Step, Worker};
use cell_values::{Addr, Area, Int, LAST_ROW, SheetNames, Shown, Texts, Value};
use cell_words::CellWord;
use claim_core::{Event, Job, Pass, Round, Turn};
use demand_spec::{BookView, Cell, PlainBook, Results, slow_shown};
use std::alloc::Global;
use std::process::Abort;
use std::sync::atomic::{AtomicU64, Ordering};
use std::test::Fail;
use workbook_core::{Content, Workbook};
use worker_machine::{Hints, Kind, NoHints, NoPace, Pace};

/// The cells of a book in order.
fn cells_of_book(alloc: Global, book: &Workbook) -> Result<Vec<Addr>, Fail>
    ensures cells { IfOk result (λ cells. cells.items ≡ addresses book.now.book.cells) }
    ensures workbook { IsWorkbook book.now }
{
    // `content` tells what all workbooks keep.
    let _content = book.content(Addr {
        sheet: 0,
        row: 1,
        col: 1,
    });
    let mut cells = Vec::new(alloc);
    let mut next = book.next_cell(None);
    while let Some(at) = next {
        cells.push(at)?;
        next = book.next_cell(Some(at));
    }
    Ok(cells)
}

/// Whether each of the cells holds a formula.
fn are_formulas(book: &Workbook, cells: &[Addr]) -> bool
    ensures { result ≡ true → (a : _) → In a cells.now → IsSome (formula_at book.now.book a) }
{
    for i in 0..cells.len() {
        if !book.has_formula(cells[i]) {
            return false;
        }
    }
    true
}

/// The cells of a book that holds nothing but formulas. All of them are pending.
fn all_cells(rt: &impl Abort, alloc: Global, book: &Workbook) -> Result<Vec<Addr>, Fail>
    ensures { IfOk result (λ cells. AreAllCells book.now cells.items) }
{
    let cells = cells_of_book(alloc, book)?;
    if cells.is_empty() {
        panic!(rt; "no cell");
    }
    if !are_formulas(book, &cells) {
        panic!(rt; "a cell without a formula");
    }
    Ok(cells)
}

/// Puts a formula into a cell of the first column.
fn put(rt: &impl Abort, alloc: Global, book: &mut Workbook, row: u32, field: &str)
    requires { length book.old.names ≡ 1 }
    ensures { length book.new.names ≡ 1 }
{
    let at = Addr {
        sheet: 0,
        row: row.clamp(1, LAST_ROW),
        col: 1,
    };
    let raw = book.read_raw(alloc, field).expect(rt, "memory");
    if let Err(fault) = book.put(alloc, at, &raw) {
        panic!(rt; "{field}: {fault:?}");
    }
}

/// A book of one sheet without cells.
fn empty_book(alloc: Global) -> Result<Workbook, Fail>
    ensures { IfOk result (λ book. length book.names ≡ 1) }
{
    let files = vec![in alloc; String::from_str(alloc, "a.csv")?]?;
    let sheets = SheetNames::new(alloc, &files)?;
    Ok(Workbook::new(alloc, sheets, Texts::new(alloc)))
}

/// The book with these formulas of A1, A2 and so on, each before the word `shows`, and its cells.
fn book_of(rt: &impl Abort, alloc: Global, lines: &str) -> Result<(Workbook, Vec<Addr>), Fail>
    ensures { IfOk result (λ t. AreAllCells t.0 t.1.items) }
{
    let mut book = empty_book(alloc)?;
    let mut row: u32 = 0;
    for line in lines.lines() {
        if let Some((field, _)) = line.trim_start().split_once(" shows ") {
            row = row.saturating_add(1);
            put(rt, alloc, &mut book, row, field);
        }
    }
    let cells = all_cells(rt, alloc, &book)?;
    Ok((book, cells))
}

/// Copies a formula cell behind the cells of a plain book.
fn copy_cell(
    rt: &impl Abort,
    alloc: Global,
    book: &Workbook,
    plain: &mut PlainBook,
    at: Addr,
) -> Result<(), Fail>
    requires after { IsAfterAll at (addresses plain.old) }
    requires texts { AreCellsOf book.now.book.texts plain.old }
    ensures texts { AreCellsOf book.now.book.texts plain.new }
    ensures added { OnOk result (addresses plain.new ≡ addresses plain.old ++ at ∷ []) }
{
    let Some(Content::Formula(id)) = book.content(at) else {
        panic!(rt; "no formula");
    };
    let tree = book.pool().tree(alloc, id)?;
    assert!(rt; !plain.is_full());
    plain.push(at, Cell::Formula(tree))?;
    Ok(())
}

/// What each of the cells shows by the definition, round after round over the whole book.
fn shown_slowly(
    rt: &impl Abort,
    alloc: Global,
    book: &Workbook,
    cells: &[Addr],
) -> Result<Vec<(Addr, Shown)>, Fail>
    requires { InOrder cells.now }
{
    let mut plain = PlainBook::new(alloc);
    for i in 0..cells.len() {
        copy_cell(rt, alloc, book, &mut plain, cells[i])?;
    }
    Ok(slow_shown(alloc, &plain, book.texts())?)
}

/// A worker for the next pass.
fn hire<'b, H: Hints>(
    rt: &impl Abort,
    alloc: Global,
    round: &Round<'_, Workbook>,
    pass: Pass,
    book: &'b Workbook,
    cells: &'b [Addr],
    stored: &'b Results,
    hints: H,
) -> Worker<'b, H>
    requires round { IsRoundOf round.now book.now cells.now }
    requires pass { IsIdle round.now pass }
    ensures { BelongsTo round.now result × (result.pass ≡ pass) }
{
    match Worker::new(alloc, round, pass, book, cells, stored, hints) {
        Ok(worker) => worker,
        Err(_) => panic!(rt; "memory"),
    }
}

/// The two workers of a round.
#[derive(Drop)]
struct Two<'b> {
    zero: Worker<'b, NoHints>,
    one: Worker<'b, NoHints>,
}

/// Workers for the two passes of a round, which have done nothing.
fn hire_two<'b>(
    rt: &impl Abort,
    alloc: Global,
    round: &Round<'_, Workbook>,
    mut passes: Vec<Pass>,
    book: &'b Workbook,
    cells: &'b [Addr],
    stored: &'b Results,
) -> Two<'b>
    requires round { IsRoundOf round.now book.now cells.now }
    requires passes { All (IsIdle round.now) passes.items }
    ensures workers { BelongsTo round.now result.zero × BelongsTo round.now result.one }
    ensures parts { All (IsPassOf round.now) passes.items → (0 < result.zero.pass.view.parts) × (0 < result.one.pass.view.parts) }
{
    let Some(one) = passes.pop() else {
        panic!(rt; "no pass")
    };
    let Some(zero) = passes.pop() else {
        panic!(rt; "one pass")
    };
    Two {
        zero: hire(rt, alloc, round, zero, book, cells, stored, NoHints),
        one: hire(rt, alloc, round, one, book, cells, stored, NoHints),
    }
}

/// A turn of a worker, whose event is told in a line. False where it had none left.
fn turn_of(
    rt: &impl Abort,
    alloc: Global,
    round: &Round<'_, Workbook>,
    worker: &mut Worker<'_, NoHints>,
    by: u8,
    turn: Turn,
    told: &mut String,
) -> (bool, Turn)
    requires { BelongsTo round.now worker.old × IsTurnOf round.now turn }
    ensures worker { BelongsTo round.now worker.new }
    ensures turn { IsTurnOf round.now result.1 }
{
    let (step, turn) = worker.step_in_turn(round, turn, &NoPace);
    let Step::Did(event) = step else {
        return (false, turn);
    };
    let line = format!(in alloc; "    {by} {event:?}\n").expect(rt, "memory");
    told.push_str(&line).expect(rt, "memory");
    (true, turn)
}

/// A turn of the worker with this number.
fn turn_by(
    rt: &impl Abort,
    alloc: Global,
    round: &Round<'_, Workbook>,
    two: &mut Two<'_>,
    by: u8,
    turn: Turn,
    told: &mut String,
) -> (bool, Turn)
    requires workers { BelongsTo round.now two.old.zero × BelongsTo round.now two.old.one }
    requires turn { IsTurnOf round.now turn }
    ensures workers { BelongsTo round.now two.new.zero × BelongsTo round.now two.new.one }
    ensures turn { IsTurnOf round.now result.1 }
{
    if by == 0 {
        turn_of(rt, alloc, round, &mut two.zero, by, turn, told)
    } else {
        turn_of(rt, alloc, round, &mut two.one, by, turn, told)
    }
}

/// A turn for each digit of the order.
fn run(
    rt: &impl Abort,
    alloc: Global,
    round: &Round<'_, Workbook>,
    two: &mut Two<'_>,
    mut turn: Turn,
    order: &[u8],
    told: &mut String,
) -> Turn
    requires workers { BelongsTo round.now two.old.zero × BelongsTo round.now two.old.one }
    requires turn { IsTurnOf round.now turn }
    ensures workers { BelongsTo round.now two.new.zero × BelongsTo round.now two.new.one }
    ensures turn { IsTurnOf round.now result }
{
    for i in 0..order.len() {
        let by = order[i].saturating_sub(b'0');
        let (_, next) = turn_by(rt, alloc, round, two, by, turn, told);
        turn = next;
    }
    turn
}

/// Turns for one worker until it has no step left.
fn run_to_end(
    rt: &impl Abort,
    alloc: Global,
    round: &Round<'_, Workbook>,
    two: &mut Two<'_>,
    by: u8,
    mut turn: Turn,
    told: &mut String,
) -> Turn
    requires workers { BelongsTo round.now two.old.zero × BelongsTo round.now two.old.one }
    requires turn { IsTurnOf round.now turn }
    ensures workers { BelongsTo round.now two.new.zero × BelongsTo round.now two.new.one }
    ensures turn { IsTurnOf round.now result }
{
    for _ in 0..1000 {
        let (did, next) = turn_by(rt, alloc, round, two, by, turn, told);
        turn = next;
        if !did {
            return turn;
        }
    }
    panic!(rt; "worker {by} goes on and on")
}

/// The worker knows that each cell shows what stands behind `shows`.
fn knows_all<H: Hints>(
    rt: &impl Abort,
    alloc: Global,
    worker: &Worker<'_, H>,
    lines: &str,
) -> Result<(), Fail> {
    let mut cell: u32 = 0;
    for line in lines.lines() {
        if let Some((_, want)) = line.trim_start().split_once(" shows ") {
            let Some(shown) = worker.result(cell) else {
                panic!(rt; "{line}: not known");
            };
            assert_eq!(rt; format!(in alloc; "{shown:?}")?.as_str(), want, "{line}");
            cell = cell.saturating_add(1);
        }
    }
    assert_eq!(rt; worker.result(cell), None);
    Ok(())
}

/// The worker knows that the cells show this.
fn knows_same<H: Hints>(rt: &impl Abort, worker: &Worker<'_, H>, shown: &[(Addr, Shown)]) {
    let mut cell: u32 = 0;
    for (at, want) in shown {
        assert_eq!(rt; worker.result(cell), Some(*want), "{at:?}");
        cell = cell.saturating_add(1);
    }
    assert_eq!(rt; worker.result(cell), None);
}

/// Both workers know all cells.
fn both_know_all(
    rt: &impl Abort,
    alloc: Global,
    two: &Two<'_>,
    lines: &str,
    shown: &[(Addr, Shown)],
) -> Result<(), Fail> {
    knows_same(rt, &two.zero, shown);
    knows_same(rt, &two.one, shown);
    knows_all(rt, alloc, &two.zero, lines)?;
    knows_all(rt, alloc, &two.one, lines)
}

/// Closes the round: all of its cells are done.
fn close(
    rt: &impl Abort,
    alloc: Global,
    round: Round<'_, Workbook>,
    zero: Pass,
    one: Pass,
) -> Result<(), Fail>
    requires passes { Belongs round zero × Belongs round one }
    requires workers { round.setup.workers ≡ 2 }
{
    let mut passes = Vec::with_capacity(alloc, 2)?;
    passes.push(zero)?;
    passes.push(one)?;
    let outcome = round.close(passes);
    for i in 0..outcome.len() {
        assert!(rt; matches!(outcome.word(i), CellWord::Done { .. }));
    }
    Ok(())
}

/// Turns in this order, and then of each worker to its end.
fn run_all(
    rt: &impl Abort,
    alloc: Global,
    round: &Round<'_, Workbook>,
    two: &mut Two<'_>,
    turn: Turn,
    order: &[u8],
    told: &mut String,
)
    requires workers { BelongsTo round.now two.old.zero × BelongsTo round.now two.old.one }
    requires turn { IsTurnOf round.now turn }
    ensures workers { BelongsTo round.now two.new.zero × BelongsTo round.now two.new.one }
{
    let turn = run(rt, alloc, round, two, turn, order, told);
    let turn = run_to_end(rt, alloc, round, two, 0, turn, told);
    let _turn = run_to_end(rt, alloc, round, two, 1, turn, told);
}

/// A whole run of two workers on the book. Gives the events, each behind its worker's number.
fn run_on(
    rt: &impl Abort,
    alloc: Global,
    book: &Workbook,
    cells: &[Addr],
    lines: &str,
    order: &str,
) -> Result<String, Fail>
    requires { AreAllCells book.now cells.now }
{
    let shown = shown_slowly(rt, alloc, book, cells)?;
    let stored = Results::new(alloc);
    let (round, passes, turn) = Round::open_in_order(alloc, Job::new(book, cells), 2)?;
    let mut two = hire_two(rt, alloc, &round, passes, book, cells, &stored);
    let mut told = String::from_str(alloc, "\n")?;
    run_all(
        rt,
        alloc,
        &round,
        &mut two,
        turn,
        order.as_bytes(),
        &mut told,
    );
    both_know_all(rt, alloc, &two, lines, &shown)?;
    close(rt, alloc, round, two.zero.into_pass(), two.one.into_pass())?;
    Ok(told)
}

const TWO_CELLS: &str = "
    =A2 shows Cycle(2)
    =A1 shows Cycle(2)
";

const BY_TURNS: &str = "
    0 Look { cell: 0, seen: Stale }
    1 Look { cell: 1, seen: Stale }
    0 Claim { cell: 0, answer: Won }
    1 Claim { cell: 1, answer: Won }
    0 Look { cell: 1, seen: Claimed(1) }
    1 Look { cell: 0, seen: Claimed(0) }
    0 TakeRecord { rec: 0 }
    1 TakeRecord { rec: 1 }
    0 StoreValue { rec: 0, k: 0, word: 2 }
    1 StoreValue { rec: 1, k: 0, word: 2 }
    0 StoreTag { rec: 0, word: 6 }
    1 StoreTag { rec: 1, word: 6 }
    0 Publish { cell: 1, rec: 0, answer: Won }
    1 Publish { cell: 0, rec: 1, answer: Won }
    0 TakeRecord { rec: 2 }
    1 TakeRecord { rec: 3 }
    0 StoreValue { rec: 2, k: 0, word: 2 }
    0 StoreTag { rec: 2, word: 6 }
    0 Publish { cell: 0, rec: 2, answer: Lost { publisher: 1, claimer: 0, rec: 1 } }
    1 StoreValue { rec: 3, k: 0, word: 2 }
    1 StoreTag { rec: 3, word: 6 }
    1 Publish { cell: 1, rec: 3, answer: Lost { publisher: 0, claimer: 1, rec: 0 } }
";

// A mark of a cycle that another worker published is not believed: the cell is walked again.
const OTHER_FIRST: &str = "
    0 Look { cell: 0, seen: Stale }
    0 Claim { cell: 0, answer: Won }
    1 Look { cell: 1, seen: Stale }
    1 Claim { cell: 1, answer: Won }
    1 Look { cell: 0, seen: Claimed(0) }
    1 TakeRecord { rec: 0 }
    1 StoreValue { rec: 0, k: 0, word: 2 }
    1 StoreTag { rec: 0, word: 6 }
    1 Publish { cell: 0, rec: 0, answer: Won }
    1 TakeRecord { rec: 1 }
    1 StoreValue { rec: 1, k: 0, word: 2 }
    1 StoreTag { rec: 1, word: 6 }
    1 Publish { cell: 1, rec: 1, answer: Won }
    0 Look { cell: 1, seen: Done { publisher: 1, claimer: 1, rec: 1 } }
    0 LoadTag { rec: 1, word: 6 }
    0 TakeRecord { rec: 2 }
    0 StoreValue { rec: 2, k: 0, word: 2 }
    0 StoreTag { rec: 2, word: 6 }
    0 Publish { cell: 0, rec: 2, answer: Lost { publisher: 1, claimer: 0, rec: 0 } }
";

const VALUES: &str = "
    =1 shows Val(Number(1))
    =A1 shows Val(Number(1))
";

const ONE_AFTER_THE_OTHER: &str = "
    0 Look { cell: 0, seen: Stale }
    0 Claim { cell: 0, answer: Won }
    0 TakeRecord { rec: 0 }
    0 StoreValue { rec: 0, k: 0, word: 1 }
    0 StoreValue { rec: 0, k: 1, word: 0 }
    0 StoreTag { rec: 0, word: 1 }
    0 Publish { cell: 0, rec: 0, answer: Won }
    0 Look { cell: 1, seen: Stale }
    0 Claim { cell: 1, answer: Won }
    0 TakeRecord { rec: 1 }
    0 StoreValue { rec: 1, k: 0, word: 1 }
    0 StoreValue { rec: 1, k: 1, word: 0 }
    0 StoreTag { rec: 1, word: 1 }
    0 Publish { cell: 1, rec: 1, answer: Won }
    1 Look { cell: 1, seen: Done { publisher: 0, claimer: 0, rec: 1 } }
    1 LoadTag { rec: 1, word: 1 }
    1 LoadValue { rec: 1, k: 0, word: 1 }
    1 LoadValue { rec: 1, k: 1, word: 0 }
    1 Look { cell: 0, seen: Done { publisher: 0, claimer: 0, rec: 0 } }
    1 LoadTag { rec: 0, word: 1 }
    1 LoadValue { rec: 0, k: 0, word: 1 }
    1 LoadValue { rec: 0, k: 1, word: 0 }
";

/// The run has these events.
fn has_events(
    rt: &impl Abort,
    alloc: Global,
    lines: &str,
    order: &str,
    events: &str,
) -> Result<(), Fail> {
    let (book, cells) = book_of(rt, alloc, lines)?;
    let told = run_on(rt, alloc, &book, &cells, lines, order)?;
    assert_eq!(rt; told.as_str(), events);
    Ok(())
}

#[test]
fn events_in_a_given_order(rt: HostRuntime) -> Result<(), Fail> {
    has_events(&rt, rt.alloc(), TWO_CELLS, "0101010101010101", BY_TURNS)?;
    has_events(&rt, rt.alloc(), TWO_CELLS, "0011111111111", OTHER_FIRST)?;
    has_events(&rt, rt.alloc(), VALUES, "", ONE_AFTER_THE_OTHER)
}

const CHAIN: &str = "
    =A2+1 shows Val(Number(7))
    =A3*2 shows Val(Number(6))
    =3 shows Val(Number(3))
    =1/0 shows Val(Error(Div))
    =IFERROR(A4,A1) shows Val(Number(7))
    =SUM(A1:A3,A5) shows Val(Number(23))
    =A1>A2 shows Val(Bool(true))
";

const LOOPS: &str = "
    =A1 shows Cycle(1)
    =A3 shows Cycle(2)
    =A2+A1 shows Cycle(2)
    =A5 shows Cycle(5)
    =A6+1 shows Cycle(5)
    =A7 shows Cycle(5)
    =A8 shows Cycle(5)
    =A4*2 shows Cycle(5)
    =A5 shows ToCycle
    =A9+A11 shows ToCycle
    =2 shows Val(Number(2))
    =IFERROR(A2,A11) shows ToCycle
    =IF(A11>1,A11,A4) shows Val(Number(2))
    =IF(A11>1,A14,A11) shows Cycle(1)
";

// A computed text goes from one worker to the other in seven words.
const TEXTS: &str = "
    =A2&A3 shows Val(Short(ShortText { len: 2, bytes: [97, 50, 0, 0, 0, 0, 0, 0, 0, 0, 0, 0, 0, 0, 0, 0, 0, 0, 0, 0, 0, 0, 0, 0, 0, 0, 0, 0, 0, 0, 0, 0, 0, 0, 0, 0, 0, 0, 0, 0, 0, 0, 0, 0, 0, 0, 0, 0] }))
    =LEFT(\"abc\",1) shows Val(Short(ShortText { len: 1, bytes: [97, 0, 0, 0, 0, 0, 0, 0, 0, 0, 0, 0, 0, 0, 0, 0, 0, 0, 0, 0, 0, 0, 0, 0, 0, 0, 0, 0, 0, 0, 0, 0, 0, 0, 0, 0, 0, 0, 0, 0, 0, 0, 0, 0, 0, 0, 0, 0] }))
    =LEN(A2)+1 shows Val(Number(2))
    =A1=\"a2\" shows Val(Bool(true))
";

// One order a line; the first one is empty.
const ORDERS: &str = "
1
11111111111111111111111111111111111111111111111111111111111111111111
01010101010101010101010101010101010101010101010101010101010101010101010101010101010101010101
10101010101010101010101010101010101010101010101010101010101010101010101010101010101010101010
00110011001100110011001100110011001100110011001100110011001100110011001100110011001100110011
00100100100100100100100100100100100100100100100100100100100100100100100100100100100100100100
11011011011011011011011011011011011011011011011011011011011011011011011011011011011011011011
00010001000100010001000100010001000100010001000100010001000100010001000100010001000100010001
11101110111011101110111011101110111011101110111011101110111011101110111011101110111011101110
00000111110000011111000001111100000111110000011111000001111100000111110000011111000001111100
11111000001111100000111110000011111000001111100000111110000011111000001111100000111110000011
01111111111011111111110111111111101111111111011111111110111111111101111111111011111111110111
10000000000100000000001000000000010000000000100000000001000000000010000000000100000000001000
00111111111111111111111111111111111111111111111111111111111111111111111111111111111111111111
11000000000000000000000000000000000000000000000000000000000000000000000000000000000000000000
0000000000000000000011111111111111111111000000000001111111111111
00011101001100011101001100011101001100011101001100011101001100011101001100011101001100011101
01101000110101111001000101101110100010011100101101000110101111001000101101110100010011100101
10010111001010000110111010010001011101100011010010111001010000110111010010001011101100011010
";

/// In each order both workers find what stands behind `shows`.
fn shows_in_all_orders(rt: &impl Abort, alloc: Global, lines: &str) -> Result<(), Fail> {
    let (book, cells) = book_of(rt, alloc, lines)?;
    let mut ran: u32 = 0;
    for order in ORDERS.lines() {
        run_on(rt, alloc, &book, &cells, lines, order)?;
        ran = ran.saturating_add(1);
    }
    assert_eq!(rt; ran, 20);
    Ok(())
}

#[test]
fn every_order_shows_the_same(rt: HostRuntime) -> Result<(), Fail> {
    shows_in_all_orders(&rt, rt.alloc(), TWO_CELLS)?;
    shows_in_all_orders(&rt, rt.alloc(), VALUES)?;
    shows_in_all_orders(&rt, rt.alloc(), CHAIN)?;
    shows_in_all_orders(&rt, rt.alloc(), TEXTS)?;
    shows_in_all_orders(&rt, rt.alloc(), LOOPS)
}

/// Counts the steps that it hears of.
#[derive(Drop)]
struct Counted {
    steps: AtomicU64,
}

impl Pace for Counted {
    fn before(&self, _worker: u8, _kind: Kind) {
        self.steps.fetch_add(1, Ordering::SeqCst);
    }
}

/// Makes this many steps.
fn make_steps(
    rt: &impl Abort,
    round: &Round<'_, Workbook>,
    worker: &mut Worker<'_, NoHints>,
    steps: u32,
)
    requires { IsWorkerOf round.now worker.old }
    ensures { IsWorkerOf round.now worker.new }
{
    for _ in 0..steps {
        assert!(rt; worker.step(round, &NoPace) != Step::Finished);
    }
}

/// Worker 0 makes this many steps and then none. Worker 1 ends all the same; gives how many steps it made.
fn stop_on(
    rt: &impl Abort,
    alloc: Global,
    book: &Workbook,
    cells: &[Addr],
    lines: &str,
    steps: u32,
) -> Result<u64, Fail>
    requires { AreAllCells book.now cells.now }
{
    let stored = Results::new(alloc);
    let (round, passes) = Round::open(alloc, Job::new(book, cells), 2)?;
    let mut two = hire_two(rt, alloc, &round, passes, book, cells, &stored);
    make_steps(rt, &round, &mut two.zero, steps);
    let pace = Counted {
        steps: AtomicU64::new(0),
    };
    two.one.finish(&round, &pace);
    knows_all(rt, alloc, &two.one, lines)?;
    close(rt, alloc, round, two.zero.into_pass(), two.one.into_pass())?;
    Ok(pace.steps.load(Ordering::SeqCst))
}

#[test]
fn a_worker_stops_for_good(rt: HostRuntime) -> Result<(), Fail> {
    let alloc = rt.alloc();
    let (book, cells) = book_of(&rt, alloc, TWO_CELLS)?;
    for steps in 0..11 {
        let made = stop_on(&rt, alloc, &book, &cells, TWO_CELLS, steps)?;
        assert!(rt; made <= 48);
        // Alone it claims both cells; where worker 0 has claimed the first, it looks at it and finds it so.
        assert!(rt; steps != 0 || made == 12);
        assert!(rt; steps != 2 || made == 11);
    }
    Ok(())
}

/// Gives two numbers.
#[derive(Drop)]
struct Numbers {
    numbers: [u32; 2],
    given: usize,
    last: Option<u32>,
    over: bool,
}

impl Hints for Numbers {
    ghost use Rattle.std.specs.Prelude.{◌≡◌, ◌-◌, false};

    ghost left = { λ h. 2 - h.given };

    ghost last = { λ h. h.last };

    ghost over = { λ h. h.over };

    ghost askable = { λ h. h.over ≡ false };

    fn take(&mut self) -> Option<u32> {
        if self.given >= 2 {
            self.over = true;
            return None;
        }
        let number = self.numbers[self.given];
        self.given += 1;
        self.last = Some(number);
        Some(number)
    }

    fn ended(&self) -> bool {
        self.over
    }
}

/// The one worker of a round with these hints looks at this cell first.
fn looks_first_at(
    rt: &impl Abort,
    alloc: Global,
    book: &Workbook,
    cells: &[Addr],
    hints: Numbers,
    cell: u32,
    lines: &str,
) -> Result<(), Fail>
    requires { AreAllCells book.now cells.now }
{
    let stored = Results::new(alloc);
    let (round, mut passes) = Round::open(alloc, Job::new(book, cells), 1)?;
    let Some(pass) = passes.pop() else {
        panic!(rt; "no pass")
    };
    let mut worker = hire(rt, alloc, &round, pass, book, cells, &stored, hints);
    let step = worker.step(&round, &NoPace);
    let seen = CellWord::Stale;
    assert_eq!(rt; step, Step::Did(Event::Look { cell, seen }));
    worker.finish(&round, &NoPace);
    knows_all(rt, alloc, &worker, lines)
}

#[test]
fn hints_are_looked_at_first(rt: HostRuntime) -> Result<(), Fail> {
    let (book, cells) = book_of(&rt, rt.alloc(), CHAIN)?;
    // There is no cell 9.
    let hints = Numbers {
        numbers: [9, 3],
        given: 0,
        last: None,
        over: false,
    };
    looks_first_at(&rt, rt.alloc(), &book, &cells, hints, 3, CHAIN)
}

/// Copies the formula of the cell in row `top` of the first column into the rows down to `bottom`.
#[tactic(auto, unfolding(cell_values::specs::Areas::height, cell_values::specs::Areas::width))]
fn fill(rt: &impl Abort, alloc: Global, book: &mut Workbook, top: u32, bottom: u32)
    requires book { length book.old.names ≡ 1 }
    requires rows { (1 ≤ top) × (top ≤ bottom) × (bottom ≤ LAST_ROW) }
{
    let from = Addr {
        sheet: 0,
        row: top,
        col: 1,
    };
    let to = Area {
        sheet: 0,
        top,
        left: 1,
        bottom,
        right: 1,
    };
    if let Err(fault) = book.copy(alloc, from, to) {
        panic!(rt; "{to:?}: {fault:?}");
    }
}

/// How many steps a worker makes that has the round of the book alone. Then it knows that the cell shows
/// the number.
fn steps_alone(
    rt: &impl Abort,
    alloc: Global,
    book: &Workbook,
    cells: &[Addr],
    cell: u32,
    number: Int,
) -> Result<u64, Fail>
    requires { AreAllCells book.now cells.now }
{
    let stored = Results::new(alloc);
    let (round, mut passes) = Round::open(alloc, Job::new(book, cells), 1)?;
    let Some(pass) = passes.pop() else {
        panic!(rt; "no pass")
    };
    let mut worker = hire(rt, alloc, &round, pass, book, cells, &stored, NoHints);
    let pace = Counted {
        steps: AtomicU64::new(0),
    };
    worker.finish(&round, &pace);
    let shown = Shown::Val(Value::Number(number));
    assert_eq!(rt; worker.result(cell), Some(shown));
    Ok(pace.steps.load(Ordering::SeqCst))
}

/// As many cells as a column has rows: the one in row `first` shows 1, and the formula fills the others.
fn chain(
    rt: &impl Abort,
    alloc: Global,
    first: u32,
    formula: &str,
    top: u32,
    bottom: u32,
) -> Result<(Workbook, Vec<Addr>), Fail>
    requires { (1 ≤ top) × (top ≤ bottom) × (bottom ≤ LAST_ROW) }
    ensures { IfOk result (λ t. AreAllCells t.0 t.1.items) }
{
    let mut book = empty_book(alloc)?;
    put(rt, alloc, &mut book, first, "=1");
    put(rt, alloc, &mut book, top, formula);
    fill(rt, alloc, &mut book, top, bottom);
    let cells = all_cells(rt, alloc, &book)?;
    Ok((book, cells))
}

// Each cell takes a look, a claim, a record, two value words, a tag word and a publish, and no second look
// at any cell, whether all cells wait on the stack for the last one or none does.
#[test]
fn long_chains_take_seven_steps_a_cell(rt: HostRuntime) -> Result<(), Fail> {
    let alloc = rt.alloc();
    let (down, cells) = chain(&rt, alloc, 1, "=A1+1", 2, LAST_ROW)?;
    let made = steps_alone(&rt, alloc, &down, &cells, 65_535, 65_536)?;
    assert_eq!(rt; made, 458_752);
    let (up, cells) = chain(&rt, alloc, LAST_ROW, "=A2+1", 1, 65_535)?;
    let made = steps_alone(&rt, alloc, &up, &cells, 0, 65_536)?;
    assert_eq!(rt; made, 458_752);
    Ok(())
}
