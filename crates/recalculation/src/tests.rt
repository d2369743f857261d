//! Worked edits of a small workbook.

ghost use Rattle.std.specs.Prelude.{◌≡◌, [], true, length, IfOk, IfSome};
ghost use Rattle.cell_values.specs.Addresses.{IsOnSheet};

use super::*;
use cell_values::{Addr, Area, MAX_RANGE_CELLS, SheetNames, Shown, Texts, Value};
use formula_grammar::FaultKind;
use std::alloc::Global;
use std::test::Fail;
use workbook_core::{EditFault, Workbook};

/// Edits of a workbook of one sheet, each with the cells that are pending after it; `-` before the support is built,
/// when all formula cells are. A1 and B1 are a loop, C1 leads into it, and E1 reads D1. `bad` is a formula that ends too
/// early.
const EDITS: &str = "
    set A1 =B1 => -
    set B1 =A1 => -
    set C1 =A1+1 => -
    set D1 5 => -
    set E1 =D1*2 => -
    set G1 =E1 => -
    bad E1 =1+ => -
    clear G1 => -
    build => A1 B1 C1 E1
    build => A1 B1 C1 E1
    set D1 6 => A1 B1 C1 E1
    bad E1 =1+ => A1 B1 C1 E1
    set E1 7 => A1 B1 C1
    clear A1 => B1 C1
    copy C1 F1:F2 => B1 C1 F1 F2
    copy D1 F1:F1 => B1 C1 F2
    copy Z9 B1:F2 => none
    build => none
    set A1 =A1 => A1
    copy A1 A1:B2 => A1 B1 A2 B2
";

/// A workbook of one sheet without cells.
pub(crate) fn one_sheet(alloc: Global) -> Result<Calc, Fail>
    ensures { IfOk result (λ calc. length calc.shared.names ≡ 1) }
{
    let files = vec![in alloc; String::from_str(alloc, "a.csv")?]?;
    let sheets = SheetNames::new(alloc, &files)?;
    let book = Workbook::new(alloc, sheets, Texts::new(alloc));
    Ok(Calc::new(alloc, book))
}

/// A cell of the sheet.
pub(crate) fn cell(text: &str) -> Option<Addr>
    ensures { IfSome result (λ a. IsOnSheet a × (a.sheet ≡ 0)) }
{
    let at = Addr::read(0, text)?;
    Some(Addr { sheet: 0, ..at })
}

/// What a field reads as into a cell, as in `A1 =B1`.
pub(crate) fn put(calc: &mut Calc, words: &str) -> Result<(), EditFault>
    requires { length calc.old.shared.names ≡ 1 }
    ensures { calc.new.shared.names ≡ calc.old.shared.names }
{
    let Some((at, field)) = words.split_once(' ') else {
        return Ok(());
    };
    let Some(at) = cell(at) else {
        return Ok(());
    };
    let raw = calc.read_raw(field)?;
    calc.edit(&Edit::Put(at, raw))
}

/// A cell that is cleared.
fn clear(calc: &mut Calc, at: &str) -> Result<(), EditFault>
    ensures { calc.new.shared.names ≡ calc.old.shared.names }
{
    match cell(at) {
        Some(at) => calc.edit(&Edit::Clear(at)),
        None => Ok(()),
    }
}

/// A copy, as in `A1 B1:B2`.
fn copy(calc: &mut Calc, words: &str) -> Result<(), EditFault>
    requires { length calc.old.shared.names ≡ 1 }
    ensures { calc.new.shared.names ≡ calc.old.shared.names }
{
    let Some((from, to)) = words.split_once(' ') else {
        return Ok(());
    };
    let (Some(from), Some((first, last))) = (cell(from), to.split_once(':')) else {
        return Ok(());
    };
    let (Some(first), Some(last)) = (cell(first), cell(last)) else {
        return Ok(());
    };
    let to = Area::between(first, last);
    if to.size() > MAX_RANGE_CELLS {
        return Ok(());
    }
    calc.edit(&Edit::Copy(from, to))
}

/// What the line asks for.
pub(crate) fn make(calc: &mut Calc, line: &str) -> Result<(), EditFault>
    requires { length calc.old.shared.names ≡ 1 }
    ensures { calc.new.shared.names ≡ calc.old.shared.names }
{
    match line.split_once(' ') {
        Some(("clear", at)) => clear(calc, at),
        Some(("copy", words)) => copy(calc, words),
        Some((_, words)) => put(calc, words),
        None => Ok(calc.build()?),
    }
}

/// Whether these are the pending cells.
fn are_pending(calc: &Calc, names: &str) -> bool {
    match calc.pending() {
        Some(cells) => are_named(cells, names),
        None => names == "-",
    }
}

/// Whether these are the cells' names, in order.
fn are_named(cells: &[Addr], names: &str) -> bool {
    let mut count: usize = 0;
    for name in names.split_whitespace() {
        if name != "none" && cells.get(count).copied() != cell(name) {
            return false;
        }
        if name != "none" {
            count = count.saturating_add(1);
        }
    }
    count == cells.len()
}

#[test]
fn edits_let_cells_pend(rt: HostRuntime) -> Result<(), Fail> {
    let mut calc = one_sheet(rt.alloc())?;
    let mut count: usize = 0;
    let bad = Err(EditFault::BadFormula {
        place: 3,
        kind: FaultKind::Misplaced,
    });
    for row in EDITS.lines() {
        let Some((line, names)) = row.trim_start_matches(' ').split_once(" => ") else {
            continue;
        };
        let made = make(&mut calc, line);
        let due = if line.starts_with("bad") { bad } else { Ok(()) };
        assert_eq!(rt; made, due, "{row}");
        assert!(rt; are_pending(&calc, names), "{row}");
        count = count.saturating_add(1);
    }
    assert_eq!(rt; count, 20);
    Ok(())
}

/// Whether no cell is pending, and the support is built.
pub(crate) fn none_pend(calc: &Calc) -> bool
    ensures { result ≡ true → calc.now.pending ≡ [] }
{
    match calc.pending() {
        Some(cells) => cells.is_empty(),
        None => false,
    }
}

fn at(row: u32) -> Addr {
    Addr {
        sheet: 0,
        row,
        col: 1,
    }
}

#[test]
fn values_are_shown_as_they_are(rt: HostRuntime) -> Result<(), Fail> {
    let mut calc = one_sheet(rt.alloc())?;
    put(&mut calc, "A1 5")?;
    put(&mut calc, "A2 TRUE")?;
    calc.build()?;
    assert!(rt; none_pend(&calc));
    assert_eq!(rt; calc.shown(at(1)), Shown::Val(Value::Number(5)));
    assert_eq!(rt; calc.shown(at(2)), Shown::Val(Value::Bool(true)));
    assert_eq!(rt; calc.shown(at(3)), Shown::Val(Value::Blank));
    assert_eq!(rt; calc.stored(at(1)), None);
    assert_eq!(rt; calc.results().len(), 0);
    assert!(rt; !calc.support().has(at(1)));
    Ok(())
}
