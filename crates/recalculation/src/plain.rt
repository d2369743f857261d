//! The workbook of a test as a plain book, for the evaluator that goes by rounds over the whole book.

ghost use Rattle.std.specs.Prelude.{◌≡◌, option_map, IfOk};
ghost use Rattle.cell_values.specs.declared.address.Addr.{Addr as Place};
ghost use Rattle.cell_values.specs.Addresses.{IsBefore};
ghost use Rattle.cell_values.specs.Order.{addresses, entry_at, IsAfterAll};
ghost use Rattle.demand_spec.specs.Listed.{content_of, AreCellsOf};

use crate::book::known;
use cell_values::Addr;
use demand_spec::{Cell, PlainBook};
use std::alloc::{AllocError, Global};
use std::process::Abort;
use std::test::Fail;
use workbook_core::{Content, Workbook};

/// What a cell holds, with its formula as a tree.
fn held(alloc: Global, book: &Workbook, at: Addr) -> Result<Option<Cell>, AllocError>
    ensures { IfOk result (λ cell. option_map content_of cell ≡ entry_at book.now.book.cells at) }
{
    match book.content(at) {
        Some(Content::Number(n)) => Ok(Some(Cell::Number(n))),
        Some(Content::Text(t)) => Ok(Some(Cell::Text(t))),
        Some(Content::Bool(b)) => Ok(Some(Cell::Bool(b))),
        Some(Content::Formula(id)) => {
            let tree = book.pool().tree(alloc, id)?;
            Ok(Some(Cell::Formula(tree)))
        }
        None => Ok(None),
    }
}

/// Puts a cell of the workbook behind those that the plain book has.
fn add(
    rt: &impl Abort,
    alloc: Global,
    plain: &mut PlainBook,
    book: &Workbook,
    at: Addr,
) -> Result<(), Fail>
    requires last { IsAfterAll at (addresses plain.old) }
    requires texts { AreCellsOf book.now.book.texts plain.old }
    ensures last { (a : Place) → IsBefore at a → IsAfterAll a (addresses plain.old) → IsAfterAll a (addresses plain.new) }
    ensures texts { AreCellsOf book.now.book.texts plain.new }
{
    let full = plain.is_full();
    if full {
        panic!(rt; "too many cells");
    }
    known(book);
    if let Some(cell) = held(alloc, book, at)? {
        plain.push(at, cell)?;
    }
    Ok(())
}

/// The workbook as a plain book.
pub(crate) fn plain_of(rt: &impl Abort, alloc: Global, book: &Workbook) -> Result<PlainBook, Fail>
    ensures { IfOk result (AreCellsOf book.now.book.texts) }
{
    let mut plain = PlainBook::new(alloc);
    let mut after = None;
    while let Some(at) = book.next_cell(after) {
        add(rt, alloc, &mut plain, book, at)?;
        after = Some(at);
    }
    Ok(plain)
}
