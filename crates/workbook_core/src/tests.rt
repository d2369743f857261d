//! Cells put, copied and taken out, with what the workbook holds then.
ghost use Rattle.std.specs.Prelude.{◌≡◌, ◌<◌, length, IfOk};
ghost use Rattle.cell_values.specs.Addresses.{IsOnSheet};

use super::*;
use cell_values::{Addr, Area, Raw, SheetNames, Texts};
use formula_grammar::FaultKind;
use formula_trees::Tree;
use std::alloc::Global;
use std::test::Fail;

fn cell(sheet: u8, row: u32, col: u16) -> Addr
    ensures { result ≡ record { sheet = sheet; row = row; col = col } }
{
    Addr { sheet, row, col }
}

fn area(sheet: u8, top: u32, left: u16, bottom: u32, right: u16) -> Area
    ensures { result ≡ record { sheet = sheet; top = top; left = left; bottom = bottom; right = right } }
{
    Area {
        sheet,
        top,
        left,
        bottom,
        right,
    }
}

/// A workbook of the sheets `a` and `b`.
fn two_sheets(alloc: Global) -> Result<Workbook, Fail>
    ensures { IfOk result (λ book. length book.names ≡ 2) }
{
    let files = vec![in alloc;
        String::from_str(alloc, "a.csv")?,
        String::from_str(alloc, "b.csv")?,
    ]?;
    let sheets = SheetNames::new(alloc, &files)?;
    Ok(Workbook::new(alloc, sheets, Texts::new(alloc)))
}

fn put(alloc: Global, book: &mut Workbook, at: Addr, field: &str) -> Result<(), EditFault>
    requires on_sheet { IsOnSheet at }
    requires sheet { at.sheet < length book.old.names }
    ensures { book.new.names ≡ book.old.names }
{
    let raw = book.read_raw(alloc, field)?;
    book.put(alloc, at, &raw)
}

#[test]
#[tactic(auto, unfolding(cell_values::specs::Areas::height, cell_values::specs::Areas::width))]
fn reads_and_puts_fields(rt: HostRuntime) -> Result<(), Fail> {
    let alloc = rt.alloc();
    let mut book = two_sheets(alloc)?;
    let raw = book.read_raw(alloc, "5")?;
    assert!(rt; matches!(raw, Raw::Number(5)));
    let fault = Err(EditFault::BadFormula {
        place: 3,
        kind: FaultKind::Misplaced,
    });
    assert_eq!(rt; put(alloc, &mut book, cell(0, 1, 1), "=1+"), fault);
    assert_eq!(rt; book.count(), 0);
    put(alloc, &mut book, cell(0, 1, 1), "5")?;
    assert_eq!(rt; book.content(cell(0, 1, 1)), Some(Content::Number(5)));
    book.copy(alloc, cell(0, 1, 1), area(0, 1, 1, 2, 1))?;
    assert_eq!(rt; book.content(cell(0, 2, 1)), Some(Content::Number(5)));
    assert_eq!(rt; book.count(), 2);
    book.clear(cell(0, 2, 1));
    put(alloc, &mut book, cell(0, 1, 1), "TRUE")?;
    assert_eq!(rt; book.content(cell(0, 1, 1)), Some(Content::Bool(true)));
    assert_eq!(rt; book.count(), 1);
    put(alloc, &mut book, cell(0, 1, 1), "")?;
    assert_eq!(rt; book.count(), 0);
    Ok(())
}

#[test]
fn walks_cells(rt: HostRuntime) -> Result<(), Fail> {
    let alloc = rt.alloc();
    let mut book = two_sheets(alloc)?;
    put(alloc, &mut book, cell(0, 3, 2), "1")?;
    put(alloc, &mut book, cell(0, 2, 4), "2")?;
    put(alloc, &mut book, cell(1, 9, 1), "3")?;
    book.pack(alloc)?;
    assert_eq!(rt; book.next_cell(None), Some(cell(0, 2, 4)));
    assert_eq!(rt; book.next_cell(Some(cell(0, 2, 4))), Some(cell(0, 3, 2)));
    assert_eq!(rt; book.next_cell(Some(cell(1, 9, 1))), None);
    assert_eq!(rt; book.extent(0), Some((3, 4)));
    book.clear(cell(0, 2, 4));
    assert_eq!(rt; book.extent(0), Some((3, 2)));
    book.clear(cell(1, 9, 1));
    assert_eq!(rt; book.extent(1), None);
    Ok(())
}

#[test]
#[tactic(auto, unfolding(cell_values::specs::Areas::height, cell_values::specs::Areas::width))]
fn copies_share_expressions(rt: HostRuntime) -> Result<(), Fail> {
    let alloc = rt.alloc();
    let mut book = two_sheets(alloc)?;
    put(alloc, &mut book, cell(0, 2, 2), "=$A$1+A2")?;
    book.copy(alloc, cell(0, 2, 2), area(0, 2, 2, 3, 2))?;
    book.copy(alloc, cell(0, 3, 2), area(1, 7, 2, 7, 2))?;
    let shared = book.content(cell(0, 2, 2));
    assert!(rt; shared.is_some());
    assert_eq!(rt; book.content(cell(0, 3, 2)), shared);
    assert_eq!(rt; book.content(cell(1, 7, 2)), shared);
    assert_eq!(rt; book.count(), 3);
    book.copy(alloc, cell(1, 1, 1), area(0, 1, 1, 3, 2))?;
    assert_eq!(rt; book.extent(0), None);
    Ok(())
}

#[test]
#[tactic(auto, unfolding(cell_values::specs::Areas::height, cell_values::specs::Areas::width))]
fn copies_past_the_edge(rt: HostRuntime) -> Result<(), Fail> {
    let alloc = rt.alloc();
    let mut book = two_sheets(alloc)?;
    put(alloc, &mut book, cell(0, 2, 2), "=A1")?;
    book.copy(alloc, cell(0, 2, 2), area(0, 1, 3, 1, 3))?;
    let tree = match book.content(cell(0, 1, 3)) {
        Some(Content::Formula(id)) => Some(book.pool().tree(alloc, id)?),
        _ => None,
    };
    assert_eq!(rt; tree, Some(Tree::RefError));
    Ok(())
}

#[test]
#[tactic(auto, unfolding(cell_values::specs::Areas::height, cell_values::specs::Areas::width))]
fn keeps_the_limit(rt: HostRuntime) -> Result<(), Fail> {
    let alloc = rt.alloc();
    let mut book = two_sheets(alloc)?;
    put(alloc, &mut book, cell(0, 1, 1), "5")?;
    book.copy(alloc, cell(0, 1, 1), area(0, 1, 1, 256, 256))?;
    book.copy(alloc, cell(0, 1, 1), area(0, 257, 1, 512, 256))?;
    book.copy(alloc, cell(0, 1, 1), area(0, 513, 1, 768, 256))?;
    book.copy(alloc, cell(0, 1, 1), area(0, 769, 1, 784, 212))?;
    assert_eq!(rt; book.count(), 200_000);
    assert_eq!(rt;
        put(alloc, &mut book, cell(1, 1, 1), "5"),
        Err(EditFault::TooManyCells)
    );
    let fault = Err(EditFault::BadFormula {
        place: 3,
        kind: FaultKind::Misplaced,
    });
    assert_eq!(rt; put(alloc, &mut book, cell(1, 1, 1), "=1+"), fault);
    assert_eq!(rt; put(alloc, &mut book, cell(0, 1, 1), "6"), Ok(()));
    let more = book.copy(alloc, cell(0, 1, 1), area(0, 784, 212, 784, 213));
    assert_eq!(rt; more, Err(EditFault::TooManyCells));
    assert_eq!(rt; book.content(cell(0, 784, 212)), Some(Content::Number(5)));
    assert_eq!(rt; book.count(), 200_000);
    Ok(())
}
