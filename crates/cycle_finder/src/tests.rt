//! Small books with loops, and a loop of 100,000 cells. The results are told one after the other, and each is shown to
//! be right where it is told.
ghost use Rattle.std.specs.Prelude.{◌≡◌, ◌<◌, ◌+◌, Some, None, true, is_some, cond, length, slice_index_or, IfOk};
ghost use Rattle.cell_values.specs.declared.address.Addr.{Addr};
ghost use Rattle.cell_values.specs.Addresses.{same_addr, IsOnSheet};
ghost use Rattle.cell_values.specs.Order.{InOrder, addresses, entry_at};
ghost use Rattle.demand_spec.specs.declared.Asked.TheVariants.{Needs};
ghost use Rattle.demand_spec.specs.Book.{ask_cell, formula_at};
ghost use Rattle.demand_spec.specs.Laws.{Chain};
ghost use Rattle.formula_trees.specs.Expr.{Expr};
ghost use Rattle.cycle_finder.specs.Loops.{HoldShown};
ghost use Rattle.cycle_finder.specs.Search.{values_in};
ghost use Rattle.cycle_finder.specs.Told.{AreRight, AllTold, IsMark, Marks};

use crate::recalled::{ask_over, result_of};
use crate::{Loop, cycles};
use cell_values::{Addr, Area, SheetNames, Shown, Texts};
use demand_spec::{BookView, Results};
use formula_eval::{Asked, Frames};
use formula_trees::MAX_NODES;
use std::alloc::Global;
use std::collections::BTreeMap;
use std::process::Abort;
use std::test::Fail;
use workbook_core::Workbook;

/// A workbook of the sheets `a` and `b`.
fn two_sheets(alloc: Global) -> Result<Workbook, Fail>
    ensures { IfOk result (λ book. length book.names ≡ 2) }
{
    let files = vec![in alloc;
        String::from_str(alloc, "a.csv")?,
        String::from_str(alloc, "b.csv")?,
    ]?;
    let sheets = SheetNames::new(alloc, &files)?;
    Ok(Workbook::new(alloc, sheets, Texts::new(alloc)))
}

fn put(rt: &impl Abort, alloc: Global, book: &mut Workbook, at: Addr, field: &str)
    requires on_sheet { IsOnSheet at }
    requires sheet { at.sheet < length book.old.names }
    ensures { book.new.names ≡ book.old.names }
{
    let raw = book.read_raw(alloc, field).expect(rt, "memory");
    if let Err(fault) = book.put(alloc, at, &raw) {
        panic!(rt; "{field}: {fault:?}")
    }
}

/// What a formula cell gives over the results that are told.
fn asked(rt: &impl Abort, alloc: Global, book: &Workbook, told: &Results, cell: Addr) -> Asked
    requires { AreRight book.now.book told.now.entries }
    ensures { ask_cell book.now.book (values_in told.now.entries) cell ≡ Some result }
{
    let mut frames = Frames::new(alloc, MAX_NODES).expect(rt, "memory");
    match ask_over(&mut frames, book, told, cell) {
        Some(answer) => answer,
        None => panic!(rt; "no formula at {cell:?}"),
    }
}

/// A cell needs this one.
fn ask_need(rt: &impl Abort, alloc: Global, book: &Workbook, told: &Results, cell: Addr, need: Addr)
    requires { AreRight book.now.book told.now.entries }
    ensures { ask_cell book.now.book (values_in told.now.entries) cell ≡ Some (Needs need) }
{
    let answer = asked(rt, alloc, book, told, cell);
    let wanted = Asked::Needs(need);
    assert!(rt; answer == wanted);
}

/// A result of a cell that had none.
fn tell(rt: &impl Abort, told: &mut Results, cell: Addr, shown: Shown)
    ensures absent { entry_at told.old.entries cell ≡ None }
    ensures told { (a : Addr) → entry_at told.new.entries a ≡ cond (same_addr cell a) (Some shown) (entry_at told.old.entries a) }
{
    let known = result_of(told, cell);
    assert!(rt; known.is_none());
    let added: Result<_, _> = told.insert(cell, shown);
    added.expect(rt, "memory");
}

/// A cell that gives a value.
fn tell_value(rt: &impl Abort, alloc: Global, book: &Workbook, told: &mut Results, cell: Addr)
    requires { AreRight book.now.book told.old.entries }
    ensures { AreRight book.now.book told.new.entries }
{
    match asked(rt, alloc, book, told, cell) {
        Asked::Val(value) => tell(rt, told, cell, Shown::Val(value)),
        Asked::Needs(need) => panic!(rt; "{cell:?} needs {need:?}"),
    }
}

/// The mark that a cell shows.
fn mark_of(rt: &impl Abort, told: &Results, cell: Addr) -> Shown
    ensures there { entry_at told.now.entries cell ≡ Some result }
    ensures mark { IsMark result }
{
    match result_of(told, cell) {
        Some(Shown::Cycle(length)) => Shown::Cycle(length),
        Some(Shown::ToCycle) => Shown::ToCycle,
        other => panic!(rt; "{cell:?} shows {other:?}"),
    }
}

/// A cell that needs one that shows a mark, and is on no loop that was told.
fn tell_lead(rt: &impl Abort, alloc: Global, book: &Workbook, told: &mut Results, cell: Addr)
    requires { AreRight book.now.book told.old.entries }
    ensures { AreRight book.now.book told.new.entries }
{
    match asked(rt, alloc, book, told, cell) {
        Asked::Needs(need) => {
            let _mark = mark_of(rt, told, need);
            tell(rt, told, cell, Shown::ToCycle)
        }
        Asked::Val(value) => panic!(rt; "{cell:?} gives {value:?}"),
    }
}

/// The cell behind one of a loop.
fn next_of(ring: &[Addr], i: usize, first: Addr) -> Addr
    requires { i < length ring.now }
    ensures { result ≡ slice_index_or ring.now (i + 1) first }
{
    match ring.get(i + 1) {
        Some(next) => *next,
        None => first,
    }
}

/// Each cell of a list needs the next one, and the last needs the first.
fn ask_ring(
    rt: &impl Abort,
    alloc: Global,
    book: &Workbook,
    told: &Results,
    ring: &[Addr],
    first: Addr,
)
    requires { AreRight book.now.book told.now.entries }
    ensures { Chain book.now.book ring.now first }
{
    for i in 0..ring.len() {
        let next = next_of(ring, i, first);
        ask_need(rt, alloc, book, told, ring[i], next);
    }
}

/// Each cell of a list, which has none twice, shows this.
fn mark_ring(rt: &impl Abort, told: &mut Results, ring: &[Addr], shown: Shown)
    ensures { Marks ring.now shown told.old.entries told.new.entries }
{
    for cell in ring {
        tell(rt, told, *cell, shown);
    }
}

/// The cells of a loop, along its needs.
fn tell_ring(rt: &impl Abort, alloc: Global, book: &Workbook, told: &mut Results, ring: &[Addr])
    requires { AreRight book.now.book told.old.entries }
    ensures { AreRight book.now.book told.new.entries }
{
    match ring {
        [first, ..] => {
            ask_ring(rt, alloc, book, told, ring, *first);
            assert!(rt; ring.len() < 1_000_000);
            mark_ring(rt, told, ring, Shown::Cycle(ring.len() as u32));
        }
        [] => {}
    }
}

/// A cell holds no formula, or has a result.
fn check_told(rt: &impl Abort, book: &Workbook, told: &Results, cell: Addr)
    ensures told { (t : Expr) → formula_at book.now.book cell ≡ Some t → is_some (entry_at told.now.entries cell) ≡ true }
    ensures order { InOrder (addresses book.now.book.cells) }
{
    let _content = book.content(cell);
    let is_formula = book.has_formula(cell);
    let known = result_of(told, cell);
    assert!(rt; !is_formula || known.is_some());
}

/// All formula cells have their results.
fn end_told(rt: &impl Abort, book: &Workbook, told: &Results)
    requires { AreRight book.now.book told.now.entries }
    ensures { HoldShown book.now.book told.now.entries }
{
    let mut last = None;
    while let Some(cell) = book.next_cell(last) {
        check_told(rt, book, told, cell);
        last = Some(cell);
    }
}

/// A cell as the lines write it, as `B2`, and `b.B2` on the second sheet.
fn cell_of(rt: &impl Abort, word: &str) -> Addr
    ensures on_sheet { IsOnSheet result }
    ensures sheet { result.sheet < 2 }
{
    let (sheet, text) = match word.strip_prefix("b.") {
        Some(text) => (1, text),
        None => (0, word),
    };
    match Addr::read(sheet, text) {
        Some(at) => at,
        None => panic!(rt; "{word} is no cell"),
    }
}

/// The cells of a loop, as `A1>B1>C1`.
fn ring_of(rt: &impl Abort, alloc: Global, text: &str) -> Vec<Addr> {
    let mut ring = Vec::new(alloc);
    for word in text.split('>') {
        ring.push(cell_of(rt, word)).expect(rt, "memory");
    }
    ring
}

/// The cells of a book, as `A1=B1 B1=A1`.
fn fill(rt: &impl Abort, alloc: Global, book: &mut Workbook, cells: &str)
    requires { length book.old.names ≡ 2 }
{
    for word in cells.split(' ') {
        let Some((cell, _)) = word.split_once('=') else {
            panic!(rt; "{word} has no formula")
        };
        let field = word.strip_prefix(cell).unwrap_or(word);
        put(rt, alloc, book, cell_of(rt, cell), field);
    }
}

/// The results of a book, told in this order: a loop along its needs as `A1>B1`, a cell that leads into one as `C1?`, a
/// cell with a value as `D1!`.
fn results_of(rt: &impl Abort, alloc: Global, book: &Workbook, steps: &str) -> Results
    ensures { HoldShown book.now.book result.entries }
{
    let mut told = BTreeMap::new(alloc);
    for step in steps.split(' ') {
        if let Some(word) = step.strip_suffix('?') {
            tell_lead(rt, alloc, book, &mut told, cell_of(rt, word));
        } else if let Some(word) = step.strip_suffix('!') {
            tell_value(rt, alloc, book, &mut told, cell_of(rt, word));
        } else {
            tell_ring(rt, alloc, book, &mut told, &ring_of(rt, alloc, step));
        }
    }
    end_told(rt, book, &told);
    told
}

/// The loops that are found are these, as `A1>B1 C1`.
fn compare(rt: &impl Abort, alloc: Global, found: &[Loop], wanted: &str) {
    let mut rest = found;
    for text in wanted.split(' ') {
        let Some((first, others)) = rest.split_first() else {
            panic!(rt; "{text} was not found")
        };
        let ring = ring_of(rt, alloc, text);
        assert!(rt; first.cells() == ring.as_slice(), "{text} is {first:?}");
        rest = others;
    }
    assert_eq!(rt; rest.len(), 0);
}

/// Books, how their results are told, and their loops.
const BOOKS: &str = "
    A1=A1 | A1 | A1
    A1=B1 B1=A1 | A1>B1 | A1>B1
    B1=C1 C1=B2 B2=A3 A3=A2 A2=B1 A1=A2+1 | A2>B1>C1>B2>A3 A1? | B1>C1>B2>A3>A2
    A1=B1 B1=C1 C1=B1 D1=A1 | C1>B1 A1? D1? | B1>C1
    A1=C1 B1=D1 C1=A1 D1=B1 A2=E1 E1=7 | D1>B1 A1>C1 E1! A2! | A1>C1 B1>D1
    B2=b!A1 C1=IF(E1,C1,B2) E1=1 b.A1=a!B2+1 b.A2=b!A2 | b.A2 E1! C1 b.A1>B2 | C1 B2>b.A1 b.A2
";

#[test]
fn lists_loops_from_their_least_cells(rt: HostRuntime) -> Result<(), Fail> {
    let alloc = rt.alloc();
    for line in BOOKS.lines() {
        let Some((cells, line)) = line.trim_start().split_once(" | ") else {
            continue;
        };
        let Some((steps, wanted)) = line.split_once(" | ") else {
            continue;
        };
        let mut book = two_sheets(alloc)?;
        fill(&rt, alloc, &mut book, cells);
        let results = results_of(&rt, alloc, &book, steps);
        compare(&rt, alloc, &cycles(alloc, &book, &results)?, wanted);
    }
    Ok(())
}

/// Two columns of 50,000 cells: each of the first needs the one beside it, and each of the second the next of the first.
fn long_ring(rt: &impl Abort, alloc: Global, book: &mut Workbook) -> Vec<Addr>
    requires { length book.old.names ≡ 2 }
{
    put(rt, alloc, book, cell_of(rt, "A1"), "=B1");
    put(rt, alloc, book, cell_of(rt, "B1"), "=A2");
    copy_down(rt, alloc, book, cell_of(rt, "A1"));
    copy_down(rt, alloc, book, cell_of(rt, "B1"));
    put(rt, alloc, book, cell_of(rt, "B50000"), "=A1");
    let mut ring = Vec::new(alloc);
    for row in 0..50_000 {
        for col in 0..2 {
            let at = Addr {
                sheet: 0,
                row: row + 1,
                col: col + 1,
            };
            ring.push(at).expect(rt, "memory");
        }
    }
    ring
}

/// Copies a cell to all rows down to the 50,000th.
#[tactic(auto, unfolding(cell_values::specs::Areas::height, cell_values::specs::Areas::width))]
fn copy_down(rt: &impl Abort, alloc: Global, book: &mut Workbook, from: Addr)
    requires on_sheet { IsOnSheet from }
    requires names { length book.old.names ≡ 2 }
    requires sheet { from.sheet < 2 }
    ensures { book.new.names ≡ book.old.names }
{
    let to = Area {
        sheet: from.sheet,
        top: 1,
        left: from.col,
        bottom: 50_000,
        right: from.col,
    };
    if let Err(fault) = book.copy(alloc, from, to) {
        panic!(rt; "{fault:?}")
    }
}

#[test]
fn lists_a_loop_of_a_hundred_thousand_cells(rt: HostRuntime) -> Result<(), Fail> {
    let alloc = rt.alloc();
    let mut book = two_sheets(alloc)?;
    let ring = long_ring(&rt, alloc, &mut book);
    let mut told = BTreeMap::new(alloc);
    tell_ring(&rt, alloc, &book, &mut told, &ring);
    end_told(&rt, &book, &told);
    let found = cycles(alloc, &book, &told)?;
    assert_eq!(rt; found.len(), 1);
    assert!(rt; found[0].cells() == ring.as_slice());
    Ok(())
}
