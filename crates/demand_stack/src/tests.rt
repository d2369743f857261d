//! A small caller: all formula cells of a book, which hold nothing else, are pending, and are evaluated alone.
ghost use Rattle.std.specs.Prelude.{◌≡◌, ◌<◌, true, [], length, IfOk, IsSome};
ghost use Rattle.cell_values.specs.Addresses.{IsOnSheet};
ghost use Rattle.cell_values.specs.Order.{addresses};
ghost use Rattle.demand_spec.specs.Book.{formula_at};
ghost use Rattle.demand_spec.specs.Laws.{In};
ghost use Rattle.workbook_core.specs.Books.{IsWorkbook};

use crate::DemandStack;
use cell_values::{Addr, LAST_ROW, SheetNames, Texts};
use demand_spec::{BookView, Results};
use std::alloc::Global;
use std::process::Abort;
use std::test::Fail;
use workbook_core::{BookWith, Workbook};

/// Evaluates one cell after the other until all are known, a thousand at most.
fn run(stack: &mut DemandStack)
    requires { stack.old.stack ≡ [] }
    ensures { stack.new.cells ≡ stack.old.cells }
{
    for _ in 0..1000 {
        let _count = stack.count();
        match stack.first_unknown() {
            Some(cell) => {
                let _shown = stack.evaluate(cell);
            }
            None => return,
        }
    }
}

/// The cells of a book in order.
fn cells_of_book(alloc: Global, book: &Workbook) -> Result<Vec<Addr>, Fail>
    ensures cells { IfOk result (λ cells. cells.items ≡ addresses book.now.book.cells) }
    ensures workbook { IsWorkbook book.now }
{
    // `content` tells what all workbooks keep.
    let _content = book.content(Addr {
        sheet: 0,
        row: 1,
        col: 1,
    });
    let mut cells = Vec::new(alloc);
    let mut next = book.next_cell(None);
    while let Some(at) = next {
        cells.push(at)?;
        next = book.next_cell(Some(at));
    }
    Ok(cells)
}

/// Whether each of the cells holds a formula.
fn are_formulas(book: &Workbook, cells: &[Addr]) -> bool
    ensures { result ≡ true → (a : _) → In a cells.now → IsSome (formula_at book.now.book a) }
{
    for i in 0..cells.len() {
        if !book.has_formula(cells[i]) {
            return false;
        }
    }
    true
}

/// Formulas of A1, A2 and so on, with what is shown there.
const FORMULAS: &str = "
    =A2+1 shows Val(Number(7))
    =A3*2 shows Val(Number(6))
    =3 shows Val(Number(3))
    =A5 shows Cycle(3)
    =A6+1 shows Cycle(3)
    =A4 shows Cycle(3)
    =A5*2 shows ToCycle
    =IFERROR(A9,A10) shows Val(Number(70))
    =1/0 shows Val(Error(Div))
    =A1*10 shows Val(Number(70))
    =SUM(A1:A3,A8) shows Val(Number(86))
    =IF(A3>2,A12,1) shows Cycle(1)
    =IF(A3>2,A1,A12) shows Val(Number(7))
    =A7+A1 shows ToCycle
";

/// Puts a formula into a cell of the first column.
fn put(rt: &impl Abort, alloc: Global, book: &mut Workbook, row: u32, field: &str)
    requires { length book.old.names ≡ 1 }
    ensures { length book.new.names ≡ 1 }
{
    let at = Addr {
        sheet: 0,
        row: row.clamp(1, LAST_ROW),
        col: 1,
    };
    let raw = book.read_raw(alloc, field).expect(rt, "memory");
    if let Err(fault) = book.put(alloc, at, &raw) {
        panic!(rt; "{field}: {fault:?}");
    }
}

/// The book of the formulas.
fn book_of(rt: &impl Abort, alloc: Global) -> Result<Workbook, Fail> {
    let files = vec![in alloc; String::from_str(alloc, "a.csv")?]?;
    let sheets = SheetNames::new(alloc, &files)?;
    let mut book = Workbook::new(alloc, sheets, Texts::new(alloc));
    let mut row: u32 = 0;
    for line in FORMULAS.lines() {
        if let Some((field, _)) = line.trim_start().split_once(" shows ") {
            row = row.saturating_add(1);
            put(rt, alloc, &mut book, row, field);
        }
    }
    Ok(book)
}

/// The cells show what they are to show, with the search for an unknown cell begun at `first`.
fn shows_all(rt: &impl Abort, alloc: Global, book: &Workbook, first: u32) -> Result<(), Fail> {
    let cells = cells_of_book(alloc, book)?;
    if !are_formulas(book, &cells) {
        panic!(rt; "a cell without a formula");
    }
    if cells.is_empty() {
        panic!(rt; "no cell");
    }
    if first as usize > cells.len() {
        panic!(rt; "no cell {first}");
    }
    let stored = Results::new(alloc);
    let mut stack = DemandStack::new(alloc, BookWith::new(book), &cells, &stored, first)?;
    run(&mut stack);
    assert_eq!(rt; stack.top(), None);
    let mut cell: u32 = 0;
    for line in FORMULAS.lines() {
        if let Some((_, want)) = line.trim_start().split_once(" shows ") {
            let Some(shown) = stack.known(cell) else {
                panic!(rt; "{line}: not known");
            };
            assert_eq!(rt; format!(in alloc; "{shown:?}")?.as_str(), want, "{line}");
            cell = cell.saturating_add(1);
        }
    }
    assert_eq!(rt; cell, stack.count());
    Ok(())
}

#[test]
fn cells_alone(rt: HostRuntime) -> Result<(), Fail> {
    let alloc = rt.alloc();
    let book = book_of(&rt, alloc)?;
    for first in [0, 3, 6, 8, 13, 14] {
        shows_all(&rt, alloc, &book, first)?;
    }
    Ok(())
}
