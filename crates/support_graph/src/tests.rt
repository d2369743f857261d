//! Worked examples, and a large support.

ghost use Rattle.std.specs.Prelude.{◌≡◌, ◌≤◌, false, ◌↔◌, [], OnOk};
ghost use Rattle.cell_values.specs.declared.address.Addr.{Addr};
ghost use Rattle.cell_values.specs.Addresses.{IsOnSheet};
ghost use Rattle.cell_values.specs.Areas.{IsArea};
ghost use Rattle.demand_spec.specs.Laws.{In};
ghost use Rattle.support_graph.specs.Pending.{IsClosedBut};
ghost use Rattle.support_graph.specs.Support.{IsCell};

use crate::{Stale, Support};
use cell_values::{Addr, Area};
use std::alloc::AllocError;
use std::test::Fail;

fn cell(row: u32, col: u16) -> Addr
    ensures { result ≡ record { sheet = 0; row = row; col = col } }
{
    Addr { sheet: 0, row, col }
}

/// Some rows of a column.
fn rows(top: u32, bottom: u32, col: u16) -> Area
    requires top { 1 ≤ top }
    requires rows { top ≤ bottom }
    requires bottom { bottom ≤ 65536 }
    requires from { 1 ≤ col }
    requires to { col ≤ 256 }
    ensures { IsArea result }
{
    Area {
        sheet: 0,
        top,
        left: col,
        bottom,
        right: col,
    }
}

/// A cell with one area, if it is not there yet.
fn put(support: &mut Support, cell: Addr, area: Area) -> Result<(), AllocError>
    requires { IsArea area }
{
    if support.has(cell) {
        return Ok(());
    }
    support.add(cell, &[area])
}

/// How many cells read an address.
fn readers(rt: HostRuntime, support: &Support, addr: Addr) -> Result<usize, AllocError> {
    let mut found = Vec::new(rt.alloc());
    support.dependents(addr, &mut found)?;
    Ok(found.len())
}

#[test]
fn an_area_is_read_in_each_of_its_cells(rt: HostRuntime) -> Result<(), Fail> {
    let alloc = rt.alloc();
    let mut support = Support::new(alloc);
    let area = Area {
        sheet: 0,
        top: 1,
        left: 2,
        bottom: 1,
        right: 3,
    };
    support.add(cell(1, 1), &[area])?;
    let mut found = Vec::new(alloc);
    support.dependents(cell(1, 3), &mut found)?;
    assert_eq!(rt; found, vec![in alloc; cell(1, 1)]?);
    assert_eq!(rt; readers(rt, &support, cell(1, 4))?, 0);
    support.drop_cell(cell(1, 1));
    assert_eq!(rt; readers(rt, &support, cell(1, 3))?, 0);
    Ok(())
}

/// An edit where no cell was pending.
fn first_edit(support: &Support, stale: &mut Stale, changed: Area) -> Result<(), AllocError>
    requires area { IsArea changed }
    requires none { stale.old ≡ [] }
    ensures { OnOk result (IsClosedBut support.now stale.new (λ _. false)) }
{
    stale.edited(support, changed)
}

/// A formula is cleared.
fn clear(support: &mut Support, stale: &mut Stale, at: Addr) -> Result<(), AllocError>
    requires place { IsOnSheet at }
    requires closed { IsClosedBut support.old stale.old (λ _. false) }
{
    support.drop_cell(at);
    stale.edited(support, Area::of(at))
}

#[test]
fn an_edit_leaves_all_that_it_reaches_pending(rt: HostRuntime) -> Result<(), Fail> {
    let alloc = rt.alloc();
    let mut support = Support::new(alloc);
    // `=B1` in A1 and C1, and no formula in B1.
    put(&mut support, cell(1, 1), rows(1, 1, 2))?;
    put(&mut support, cell(1, 3), rows(1, 1, 2))?;
    // `=SUM(A1:A9)` in D4, which an edit reaches by A1.
    put(&mut support, cell(4, 4), rows(1, 9, 1))?;
    let mut stale = Stale::new(alloc);
    first_edit(&support, &mut stale, rows(1, 1, 2))?;
    assert_eq!(rt; stale.cells().len(), 3);
    assert_eq!(rt; stale.get(0), Some(cell(1, 1)));
    assert_eq!(rt; stale.get(1), Some(cell(1, 3)));
    assert_eq!(rt; stale.get(2), Some(cell(4, 4)));
    assert!(rt; stale.holds(cell(4, 4)) && !stale.holds(cell(1, 2)));
    // A1 is no formula any more, and D4 is pending still.
    clear(&mut support, &mut stale, cell(1, 1))?;
    assert_eq!(rt; stale.len(), 2);
    assert_eq!(rt; stale.get(0), Some(cell(1, 3)));
    stale.empty();
    assert_eq!(rt; stale.len(), 0);
    Ok(())
}

/// What a changed cell reaches, where no cell was pending.
fn spread_from(support: &Support, stale: &mut Stale, from: Addr) -> Result<(), AllocError>
    requires { stale.old ≡ [] }
{
    stale.spread(support, &[from])
}

#[test]
fn a_cell_without_a_formula_spreads_to_its_readers(rt: HostRuntime) -> Result<(), Fail> {
    let alloc = rt.alloc();
    let mut support = Support::new(alloc);
    put(&mut support, cell(1, 1), rows(1, 1, 2))?;
    put(&mut support, cell(4, 4), rows(1, 9, 1))?;
    let mut stale = Stale::new(alloc);
    spread_from(&support, &mut stale, cell(1, 2))?;
    assert_eq!(rt; stale.len(), 2);
    stale.empty();
    spread_from(&support, &mut stale, cell(4, 4))?;
    assert_eq!(rt; stale.get(0), Some(cell(4, 4)));
    assert_eq!(rt; stale.len(), 1);
    Ok(())
}

/// A formula that reads the area, in each of the rows of column B.
fn add_readers(support: &mut Support, area: Area, count: u32) -> Result<(), AllocError>
    requires { IsArea area }
{
    for row in 0..count {
        put(support, cell(row, 2), area)?;
    }
    Ok(())
}

/// A chain down a column: each cell reads the one above, and the first one a cell of another column.
fn add_chain(support: &mut Support, col: u16, first: Area, count: u32) -> Result<(), AllocError>
    requires count { count ≤ 65536 }
    requires from { 1 ≤ col }
    requires to { col ≤ 256 }
    requires first { IsArea first }
{
    put(support, cell(1, col), first)?;
    for above in 1..count {
        put(support, cell(above + 1, col), rows(above, above, col))?;
    }
    Ok(())
}

#[test]
fn whole_columns_and_a_long_chain(rt: HostRuntime) -> Result<(), Fail> {
    let alloc = rt.alloc();
    let mut support = Support::new(alloc);
    // `=SUM(A1:A65536)`
    add_readers(&mut support, rows(1, 65_536, 1), 40_000)?;
    // 100,000 cells. The first half stands in column A, so that each of its cells is read by the 40,000.
    add_chain(&mut support, 1, rows(1, 1, 10), 50_000)?;
    add_chain(&mut support, 4, rows(50_000, 50_000, 1), 50_000)?;
    assert_eq!(rt; readers(rt, &support, cell(65_536, 1))?, 40_000);
    assert_eq!(rt; readers(rt, &support, cell(50_000, 1))?, 40_001);
    assert_eq!(rt; readers(rt, &support, cell(1, 10))?, 1);
    assert_eq!(rt; readers(rt, &support, cell(50_000, 4))?, 0);
    let mut stale = Stale::new(alloc);
    first_edit(&support, &mut stale, rows(50_000, 50_000, 4))?;
    assert_eq!(rt; stale.len(), 1);
    stale.empty();
    first_edit(&support, &mut stale, rows(1, 1, 10))?;
    assert_eq!(rt; stale.len(), 140_000);
    support.drop_cell(cell(2, 1));
    stale.empty();
    first_edit(&support, &mut stale, rows(1, 1, 10))?;
    assert_eq!(rt; stale.len(), 40_001);
    Ok(())
}

/// Takes out the formulas in the rows of column B, but for the first one.
fn drop_readers(support: &mut Support, count: u32) {
    for row in 1..count {
        support.drop_cell(cell(row, 2));
    }
}

#[test]
fn one_large_area_that_many_cells_read(rt: HostRuntime) -> Result<(), Fail> {
    let alloc = rt.alloc();
    let mut support = Support::new(alloc);
    // `=SUM(A1:IV256)`
    let area = Area {
        sheet: 0,
        top: 1,
        left: 1,
        bottom: 256,
        right: 256,
    };
    add_readers(&mut support, area, 40_000)?;
    assert_eq!(rt; readers(rt, &support, cell(1, 1))?, 40_000);
    assert_eq!(rt; readers(rt, &support, cell(256, 256))?, 40_000);
    assert_eq!(rt; readers(rt, &support, cell(257, 256))?, 0);
    // The blocks of the area stay as long as a cell reads it.
    drop_readers(&mut support, 40_000);
    assert_eq!(rt; readers(rt, &support, cell(256, 256))?, 1);
    support.drop_cell(cell(0, 2));
    assert_eq!(rt; readers(rt, &support, cell(256, 256))?, 0);
    Ok(())
}

/// All cells are pending.
fn fill(support: &Support, stale: &mut Stale) -> Result<(), AllocError>
    ensures { OnOk result ((c : Addr) → In c stale.new ↔ IsCell support.now c) }
{
    stale.fill(support)
}

/// Edits of single cells of a column, one after the other, where all cells are pending.
fn edit_rows(support: &Support, stale: &mut Stale, col: u16, count: u32) -> Result<(), AllocError>
    requires count { count ≤ 65536 }
    requires from { 1 ≤ col }
    requires to { col ≤ 256 }
    requires all { (c : Addr) → In c stale.old ↔ IsCell support.now c }
{
    for above in 0..count {
        edit_one(support, stale, rows(above + 1, above + 1, col))?;
    }
    Ok(())
}

/// An edit where all cells are pending.
fn edit_one(support: &Support, stale: &mut Stale, changed: Area) -> Result<(), AllocError>
    requires area { IsArea changed }
    requires all { (c : Addr) → In c stale.old ↔ IsCell support.now c }
    ensures { OnOk result ((c : Addr) → In c stale.new ↔ IsCell support.now c) }
{
    stale.edited(support, changed)
}

#[test]
fn ten_thousand_edits_of_pending_cells(rt: HostRuntime) -> Result<(), Fail> {
    let alloc = rt.alloc();
    let mut support = Support::new(alloc);
    // 100,000 cells, which an edit of the first one reaches.
    add_chain(&mut support, 1, rows(1, 1, 10), 50_000)?;
    add_chain(&mut support, 4, rows(50_000, 50_000, 1), 50_000)?;
    let mut stale = Stale::new(alloc);
    fill(&support, &mut stale)?;
    assert_eq!(rt; stale.len(), 100_000);
    edit_rows(&support, &mut stale, 1, 10_000)?;
    assert_eq!(rt; stale.len(), 100_000);
    Ok(())
}
