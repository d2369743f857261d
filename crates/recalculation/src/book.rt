//! Edits of the workbook alone, and what its cells read.

ghost use Rattle.std.specs.Prelude.{◌≡◌, ℕ, OnOk, OnErr, IfErr, MatchResult, option_map};
ghost use Rattle.cell_values.specs.Areas.{IsArea};
ghost use Rattle.cell_values.specs.Interned.{KeepsTexts};
ghost use Rattle.formula_grammar.specs.declared.faults.FaultKind.{FaultKind};
ghost use Rattle.demand_spec.specs.Book.{formula_at, formula_of};
ghost use Rattle.shared_expressions.specs.Trees.{Trees, KeepsTrees, tree_at};
ghost use Rattle.workbook_core.specs.Books.{IsWorkbook};
ghost use Rattle.workbook_core.specs.Edits.{IsThisFault, IsTooMany};
ghost use Rattle.workbook_core.specs.Held.{content_in};
ghost use Rattle.recalculation.specs.Edits.{area_of, IsEditOf, IsEdited, PutsFault, MakesTooLarge, IsFaultOf};

use crate::edit::Edit;
use cell_values::{Addr, Area};
use shared_expressions::ExprId;
use std::alloc::Global;
use workbook_core::{Content, EditFault, Workbook};

/// What holds of every workbook, as a look-up tells it.
pub(crate) fn known(book: &Workbook)
    ensures { IsWorkbook book.now }
{
    let _content = book.content(Addr {
        sheet: 0,
        row: 1,
        col: 1,
    });
}

/// The area that an edit writes.
pub(crate) fn area(book: &Workbook, edit: &Edit) -> Area
    requires { IsEditOf book.now edit.now }
    ensures same { result ≡ area_of edit.now }
    ensures within { IsArea result }
{
    let _book = book;
    match edit {
        Edit::Put(at, _) | Edit::Clear(at) => Area::of(*at),
        Edit::Copy(_, to) => *to,
    }
}

/// Makes an edit.
pub(crate) fn change(alloc: Global, book: &mut Workbook, edit: &Edit) -> Result<(), EditFault>
    requires { IsEditOf book.old edit.now }
    ensures ok { OnOk result (IsEdited book.old edit.now book.new) }
    ensures fault { IfErr result (IsFaultOf book.old edit.now) }
    ensures err { OnErr result (book.new.book.cells ≡ book.old.book.cells) }
    ensures refused { (place : ℕ) (kind : FaultKind) → PutsFault book.old edit.now place kind → MatchResult result (λ _. ⊥) (IsThisFault place kind) }
    ensures large { MakesTooLarge book.old edit.now → MatchResult result (λ _. ⊥) IsTooMany }
    ensures names { book.new.names ≡ book.old.names }
    ensures kept_texts { KeepsTexts book.old.book.texts book.new.book.texts }
    ensures kept_trees { KeepsTrees book.old.pool book.new.pool }
{
    known(book);
    match edit {
        Edit::Put(at, raw) => book.put(alloc, *at, raw),
        Edit::Clear(at) => {
            book.clear(*at);
            known(book);
            Ok(())
        }
        Edit::Copy(from, to) => book.copy(alloc, *from, *to),
    }
}

/// The formula of a cell, None where it has none.
pub(crate) fn formula(book: &Workbook, at: Addr) -> Option<ExprId>
    ensures { option_map (tree_at book.now.pool) result ≡ formula_at book.now.book at }
{
    formula_in(book.content(at))
}

/// The formula of what a cell holds.
fn formula_in(content: Option<Content>) -> Option<ExprId>
    ensures { (p : Trees) → option_map (tree_at p) result ≡ formula_of (option_map (content_in p) content) }
{
    match content {
        Some(Content::Formula(id)) => Some(id),
        Some(Content::Number(_) | Content::Text(_) | Content::Bool(_)) | None => None,
    }
}
