//! What is stored for cells.

ghost use Rattle.std.specs.Prelude.{◌≡◌, cond, None, Some, map, IfOk, OnOk, OnErr};
ghost use Rattle.cell_values.specs.declared.address.Addr.{Addr as Cell};
ghost use Rattle.cell_values.specs.Addresses.{same_addr};
ghost use Rattle.cell_values.specs.Order.{entry_at};
ghost use Rattle.demand_spec.specs.Book.{shown};
ghost use Rattle.demand_spec.specs.Laws.{In};
ghost use Rattle.recalculation.specs.Written.{HasRoomFor, HasResultsOf, OthersStay};

use cell_values::{Addr, Shown};
use demand_spec::Results;
use result_list::ResultList;
use std::alloc::{AllocError, Global};
use workbook_core::Workbook;

/// Stores a result. Where something stood there, no memory is taken.
pub(crate) fn store(stored: &mut Results, at: Addr, shown: Shown) -> Result<(), AllocError>
    ensures ok { OnOk result ((q : Cell) → entry_at stored.new.entries q ≡ cond (same_addr at q) (Some shown) (entry_at stored.old.entries q)) }
    ensures absent { OnErr result (entry_at stored.old.entries at ≡ None) }
    ensures err { OnErr result (stored.new.entries ≡ stored.old.entries) }
{
    stored.insert(at, shown)?;
    Ok(())
}

// A mark for each of the cells. A map that is made at once takes half the room of one that is filled in order.
fn marks(alloc: Global, cells: &[Addr]) -> Result<Results, AllocError>
    ensures room { IfOk result (λ marks. HasRoomFor cells.now marks.entries) }
    ensures others { IfOk result (λ marks. (q : Cell) → (In q cells.now → ⊥) → entry_at marks.entries q ≡ None) }
{
    cells.iter().map(|at| (*at, Shown::ToCycle)).collect(alloc)
}

// Stores a mark for each of the cells, one after the other.
fn mark_each(stored: &mut Results, cells: &[Addr]) -> Result<(), AllocError>
    ensures room { OnOk result (HasRoomFor cells.now stored.new.entries) }
    ensures others { OthersStay cells.now stored.old.entries stored.new.entries }
{
    for i in 0..cells.len() {
        store(stored, cells[i], Shown::ToCycle)?;
    }
    Ok(())
}

/// Stores a mark for each of the cells, so that their results then take no memory.
pub(crate) fn reserve(alloc: Global, stored: &mut Results, cells: &[Addr]) -> Result<(), AllocError>
    ensures room { OnOk result (HasRoomFor cells.now stored.new.entries) }
    ensures others { OthersStay cells.now stored.old.entries stored.new.entries }
{
    if !stored.is_empty() {
        return mark_each(stored, cells);
    }
    *stored = marks(alloc, cells)?;
    Ok(())
}

/// Stores the results of the cells, one for each in their order.
pub(crate) fn store_all(book: &Workbook, stored: &mut Results, cells: &[Addr], results: &ResultList)
    requires room { HasRoomFor cells.now stored.old.entries }
    requires results { results.now ≡ map (λ a. Some (shown book.now.book a)) cells.now }
    ensures results { HasResultsOf book.now.book cells.now stored.new.entries }
    ensures others { OthersStay cells.now stored.old.entries stored.new.entries }
{
    let _book = book;
    for i in 0..cells.len() {
        let Some(shown) = results.get(i) else {
            unreachable!()
        };
        let Ok(()) = store(stored, cells[i], shown) else {
            unreachable!()
        };
    }
}
