//! The support of a workbook, cell by cell.

ghost use Rattle.std.specs.Prelude.{◌≡◌, false, IfOk, OnOk};
ghost use Rattle.cell_values.specs.Areas.{is_inside, IsArea};
ghost use Rattle.cell_values.specs.Order.{InOrder, addresses};
ghost use Rattle.support_graph.specs.Support.{IsSupportOf};
ghost use Rattle.demand_spec.specs.Laws.{Set};
ghost use Rattle.recalculation.specs.Standing.{with_half, IsLinkedBut, Links, LinksAlone};

use crate::book::{formula, known};
use cell_values::{Addr, Area};
use std::alloc::{AllocError, Global};
use support_graph::Support;
use workbook_core::Workbook;

/// Brings a cell of the support up to date.
fn link(alloc: Global, support: &mut Support, book: &Workbook, at: Addr) -> Result<(), AllocError>
    ensures { OnOk result (Links book.now.book at support.old support.new) }
{
    support.drop_cell(at);
    let Some(id) = formula(book, at) else {
        return Ok(());
    };
    let mut areas = Vec::new(alloc);
    book.pool().areas(id, at, &mut areas)?;
    support.add(at, &areas)
}

/// Brings the cells of an area up to date.
pub(crate) fn link_area(
    alloc: Global,
    support: &mut Support,
    book: &Workbook,
    changed: Area,
) -> Result<(), AllocError>
    requires area { IsArea changed }
    requires linked { IsLinkedBut book.now.book (is_inside changed) support.old }
    ensures { OnOk result (IsSupportOf book.now.book support.new) }
{
    for i in 0..changed.size() {
        link(alloc, support, book, changed.nth(i))?;
    }
    Ok(())
}

/// Brings the cells of every second row up to date, where the support has none of these: the rows whose number leaves
/// `rest`, divided by 2.
fn link_half(
    alloc: Global,
    support: &mut Support,
    book: &Workbook,
    rest: u32,
) -> Result<(), AllocError>
    ensures { OnOk result ((cells : Set) → LinksAlone book.now.book cells support.old → LinksAlone book.now.book (with_half rest cells) support.new) }
{
    known(book);
    let mut after = None;
    while let Some(at) = book.next_cell(after) {
        if at.row % 2 == rest {
            link(alloc, support, book, at)?;
        }
        after = Some(at);
    }
    Ok(())
}

/// The support of a workbook.
///
/// It is filled in two passes: nodes that are filled in order stay half empty, and the second half of the rows fills
/// those that the first half left.
pub(crate) fn support_of(alloc: Global, book: &Workbook) -> Result<Support, AllocError>
    ensures { IfOk result (IsSupportOf book.now.book) }
{
    let mut support = Support::new(alloc);
    link_half(alloc, &mut support, book, 0)?;
    link_half(alloc, &mut support, book, 1)?;
    Ok(support)
}
