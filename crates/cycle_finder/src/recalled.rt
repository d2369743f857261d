//! The evaluation of a cell over the results of others.
ghost use Rattle.std.specs.Prelude.{◌≡◌, ◌≤◌, [], option_map};
ghost use Rattle.cell_values.specs.Order.{entry_at};
ghost use Rattle.formula_eval.specs.Evaluations.{found_as, MeansValue};
ghost use Rattle.demand_spec.specs.Book.{look, formula_of, ask_cell};
ghost use Rattle.formula_trees.specs.declared.TheConstants.{MAX_NODES};
ghost use Rattle.shared_expressions.specs.Trees.{Trees, tree_at};
ghost use Rattle.workbook_core.specs.Held.{content_in};
ghost use Rattle.cycle_finder.specs.Search.{own_in, value_of, values_in, AreShown};

use cell_values::{Addr, Shown, Value};
use demand_spec::Results;
use formula_eval::{Asked, Frames, Known, Look, ask};
use shared_expressions::ExprId;
use std::marker::Model;
use workbook_core::{Content, Workbook};

/// A book and what some of its formula cells show. The value of such a cell is known, and none where it shows a mark.
#[derive(Drop)]
pub(crate) struct Recalled<'a> {
    pub book: &'a Workbook,
    pub results: &'a Results,
}

impl<'a> Model for Recalled<'a> {
    ghost use Rattle.cycle_finder.specs.Search.{Recall};

    ghost Value = { Recall };

    ghost use Rattle.std.specs.Coded.{codes};
    ghost use Rattle.formula_trees.specs.ExprCode.{expr_code};

    ghost coded = { Prim.hlevel (codes, expr_code) };

    ghost use Rattle.cycle_finder.specs.Search.{AreShown};

    ghost view = { λ r. record { book = r.book.now.book; results = r.results.now.entries } };

    ghost invariant = { λ r. AreShown r.book.now.book r.results.now.entries };
}

/// What a result tells of a cell.
pub(crate) fn result_of(results: &Results, at: Addr) -> Option<Shown>
    ensures { result ≡ entry_at results.now.entries at }
{
    results.get(&at).copied()
}

/// The value of a result.
fn value_of(shown: Option<Shown>) -> Option<Value>
    ensures { result ≡ value_of shown }
{
    match shown {
        Some(Shown::Val(value)) => Some(value),
        _ => None,
    }
}

/// The value of a cell that holds no formula.
fn own_value(content: Option<Content>) -> Option<Value>
    ensures { (p : Trees) → result ≡ own_in (option_map (content_in p) content) }
{
    match content {
        None => Some(Value::Blank),
        Some(Content::Number(n)) => Some(Value::Number(n)),
        Some(Content::Text(t)) => Some(Value::Text(t)),
        Some(Content::Bool(b)) => Some(Value::Bool(b)),
        Some(Content::Formula(_)) => None,
    }
}

impl<'a> Recalled<'a> {
    /// What is known of a cell.
    fn seen(&self, at: Addr) -> Look
        ensures found { found_as result at ≡ look self.now.book (values_in self.now.results) at }
        ensures texts { MeansValue self.now.book.texts result }
    {
        match own_value(self.book.content(at)) {
            Some(value) => Look::Val(value),
            None => match value_of(result_of(self.results, at)) {
                Some(value) => Look::Val(value),
                None => Look::Missing,
            },
        }
    }
}

impl<'a> Known for Recalled<'a> {
    ghost use Rattle.cycle_finder.specs.Search.{values_in};

    ghost book = { λ r. r.book };

    ghost values = { λ r. values_in r.results };

    ghost looks = { λ r. 18446744073709551615 };

    fn look(&mut self, at: Addr) -> Look {
        self.seen(at)
    }
}

/// The expression of a formula cell.
pub(crate) fn expression(content: Option<Content>) -> Option<ExprId>
    ensures { (p : Trees) → option_map (tree_at p) result ≡ formula_of (option_map (content_in p) content) }
{
    match content {
        Some(Content::Formula(id)) => Some(id),
        _ => None,
    }
}

/// What a cell's formula gives over the values that results tell, None at a cell without one.
pub(crate) fn ask_over(
    frames: &mut Frames,
    book: &Workbook,
    results: &Results,
    cell: Addr,
) -> Option<Asked>
    requires idle { frames.old.frames ≡ [] }
    requires room { MAX_NODES ≤ frames.old.room }
    requires shown { AreShown book.now.book results.now.entries }
    ensures asked { result ≡ ask_cell book.now.book (values_in results.now.entries) cell }
    ensures frames { frames.new ≡ frames.old }
{
    match expression(book.content(cell)) {
        Some(id) => {
            let mut known = Recalled { book, results };
            Some(ask(frames, book.pool(), book.texts(), id, cell, &mut known))
        }
        None => None,
    }
}
