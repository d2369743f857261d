//! Rows inserted or deleted, in a workbook and in what is kept beside it.

ghost use Rattle.std.specs.Prelude.{◌≡◌, ◌++◌, true, Some, IfOk, OnOk, OnErr, filter_map};
ghost use Rattle.cell_values.specs.Order.{entry_at};
ghost use Rattle.row_shift.specs.Moves.{IsChange, move_cell};
ghost use Rattle.row_shift.specs.MovedBook.{moved_book, pending_moved, touched_places};
ghost use Rattle.support_graph.specs.Support.{IsSupportOf};
ghost use Rattle.recalculation.specs.Shifts.{IsCarried, AreCarried, AreReached};
ghost use Rattle.recalculation.specs.Standing.{pending_in, IsProgress};

use crate::book::known;
use crate::links::support_of;
use crate::progress::{Progress, ordered};
use crate::store::store;
use cell_values::{Addr, Shown};
use demand_spec::Results;
use moved_books::{moved_cells, push_places, touched_cells};
use row_shift::{RowChange, move_cell};
use std::alloc::{AllocError, Global};
use std::collections::BTreeMap;
use support_graph::Stale;
use workbook_core::Workbook;

/// Why rows are neither inserted nor deleted.
#[derive(Clone, Copy, Debug, PartialEq, Eq)]
pub enum ShiftFault {
    /// An insertion would push a cell that is not empty past the last row.
    RowsFull,
    OutOfMemory,
}

impl From<AllocError> for ShiftFault {
    ghost use Rattle.std.specs.Prelude.{◌≡◌};
    ghost use Rattle.recalculation.specs.declared.shift.ShiftFault.{ShiftFault};

    ghost from_gives = { λ _ fault. fault ≡ ShiftFault.OutOfMemory };

    fn from(_error: AllocError) -> ShiftFault {
        ShiftFault::OutOfMemory
    }
}

/// Inserts or deletes rows. Where memory runs out, all is as it was.
pub(crate) fn shift_both(
    book: &mut Workbook,
    progress: &mut Progress,
    change: RowChange,
) -> Result<(), AllocError>
    requires change { IsChange change }
    requires progress { IsProgress book.old.book progress.old }
    ensures progress { IsProgress book.new.book progress.new }
    ensures ok { OnOk result (book.new.book ≡ moved_book change book.old.book) }
    ensures pending { OnOk result (pending_in book.new.book progress.new ≡ pending_moved change book.old.book (pending_in book.old.book progress.old)) }
    ensures names { book.new.names ≡ book.old.names }
    ensures err { OnErr result (book.new ≡ book.old) }
    ensures kept { OnErr result (progress.new ≡ progress.old) }
{
    known(book);
    if progress.built {
        shift_built(book, progress, change)
    } else {
        shift_book(progress.alloc, book, change)
    }
}

/// Inserts or deletes rows of a workbook.
fn shift_book(alloc: Global, book: &mut Workbook, change: RowChange) -> Result<(), AllocError>
    requires { IsChange change }
    ensures ok { OnOk result (book.new.book ≡ moved_book change book.old.book) }
    ensures names { book.new.names ≡ book.old.names }
    ensures err { OnErr result (book.new ≡ book.old) }
{
    let mut cells = moved_cells(alloc, book, change)?;
    book.swap_cells(&mut cells);
    Ok(())
}

/// Inserts or deletes rows where the support is built.
fn shift_built(
    book: &mut Workbook,
    progress: &mut Progress,
    change: RowChange,
) -> Result<(), AllocError>
    requires change { IsChange change }
    requires built { progress.old.built ≡ true }
    requires progress { IsProgress book.old.book progress.old }
    ensures progress { IsProgress book.new.book progress.new }
    ensures built { progress.new.built ≡ true }
    ensures ok { OnOk result (book.new.book ≡ moved_book change book.old.book) }
    ensures pending { OnOk result (progress.new.stale ≡ pending_moved change book.old.book progress.old.stale) }
    ensures names { book.new.names ≡ book.old.names }
    ensures err { OnErr result (book.new ≡ book.old) }
    ensures kept { OnErr result (progress.new ≡ progress.old) }
{
    let alloc = progress.alloc;
    known(book);
    let from = starts(alloc, book, progress, change)?;
    let results = moved_results(alloc, book, &progress.stored, change)?;
    let mut cells = moved_cells(alloc, book, change)?;
    book.swap_cells(&mut cells);
    match standing(alloc, book, &from, results) {
        Ok(moved) => {
            *progress = moved;
            Ok(())
        }
        Err(error) => {
            book.swap_cells(&mut cells);
            Err(error)
        }
    }
}

/// The places of the cells that the change touches, and of the pending ones.
fn starts(
    alloc: Global,
    book: &Workbook,
    progress: &Progress,
    change: RowChange,
) -> Result<Vec<Addr>, AllocError>
    requires { IsChange change }
    ensures { IfOk result (λ from. from.items ≡ touched_places change book.now.book ++ filter_map (move_cell change) progress.now.stale) }
{
    let mut from = touched_cells(alloc, book, change)?;
    push_places(&mut from, change, progress.stale.cells())?;
    Ok(from)
}

/// What is kept beside a workbook where these cells are pending and all that depend on them, and these are the results of
/// the others.
fn standing(
    alloc: Global,
    book: &Workbook,
    from: &[Addr],
    stored: Results,
) -> Result<Progress, AllocError>
    ensures built { IfOk result (λ p. p.built ≡ true) }
    ensures support { IfOk result (λ p. IsSupportOf book.now.book p.support) }
    ensures stale { IfOk result (λ p. AreReached book.now.book from.now p.stale) }
    ensures stored { IfOk result (λ p. p.stored.entries ≡ stored.entries) }
{
    let support = support_of(alloc, book)?;
    let mut stale = Stale::new(alloc);
    stale.spread(&support, from)?;
    ordered(&stale);
    Ok(Progress {
        support,
        stale,
        stored,
        built: true,
        alloc,
    })
}

/// The results of the cells, at their places.
fn moved_results(
    alloc: Global,
    book: &Workbook,
    stored: &Results,
    change: RowChange,
) -> Result<Results, AllocError>
    ensures { IfOk result (λ moved. AreCarried change book.now.book.cells stored.now.entries moved.entries) }
{
    known(book);
    let mut moved = BTreeMap::new(alloc);
    let mut after = None;
    while let Some(at) = book.next_cell(after) {
        carry(&mut moved, stored, change, at)?;
        after = Some(at);
    }
    Ok(moved)
}

/// Stores a cell's result at its place, if there are both.
fn carry(
    moved: &mut Results,
    stored: &Results,
    change: RowChange,
    at: Addr,
) -> Result<(), AllocError>
    ensures { OnOk result (IsCarried (move_cell change at) (entry_at stored.now.entries at) moved.old.entries moved.new.entries) }
{
    match move_cell(change, at) {
        Some(to) => carry_to(moved, to, stored.get(&at).copied()),
        None => Ok(()),
    }
}

/// Stores a result at a place, if it is there.
fn carry_to(moved: &mut Results, to: Addr, shown: Option<Shown>) -> Result<(), AllocError>
    ensures { OnOk result (IsCarried (Some to) shown moved.old.entries moved.new.entries) }
{
    match shown {
        Some(shown) => store(moved, to, shown),
        None => Ok(()),
    }
}
