//! The values over which a formula is asked.
ghost use Rattle.std.specs.Prelude.{◌≡◌, Some, option_map};
ghost use Rattle.cell_values.specs.Order.{InOrder, entry_at};
ghost use Rattle.formula_trees.specs.Expr.{Expr};
ghost use Rattle.demand_spec.specs.Book.{look, formula_at};
ghost use Rattle.formula_eval.specs.Evaluations.{found_as, MeansValue};
ghost use Rattle.shared_expressions.specs.Trees.{Trees};
ghost use Rattle.workbook_core.specs.Held.{content_in};
ghost use Rattle.worker_machine.specs.Jobs.{number_in};
ghost use Rattle.worker_machine.specs.Evaluation.{values, known_value};
ghost use Rattle.demand_stack.specs.Recall.{recalled_cells, known_of, own_in};

use crate::notes::Notes;
use cell_values::{Addr, Shown, Value};
use demand_spec::Results;
use formula_eval::{Known, Look};
use std::marker::Model;
use workbook_core::{BookWith, Content};

/// A book, what is known of its pending cells, and the stored results of the others.
#[derive(Drop)]
pub struct Recalled<'a, 'b> {
    book: &'a BookWith<'b>,
    cells: &'a [Addr],
    notes: &'a Notes,
    stored: &'a Results,
}

impl<'a, 'b> Model for Recalled<'a, 'b> {
    ghost use Rattle.demand_stack.specs.Recall.{Recall};

    ghost Value = { Recall };

    ghost use Rattle.std.specs.Coded.{codes};
    ghost use Rattle.formula_trees.specs.ExprCode.{expr_code};

    ghost coded = { Prim.hlevel (codes, expr_code) };

    ghost use Rattle.demand_stack.specs.Recall.{known_of, IsRecall};

    ghost view = { λ r. record { shared = r.book.now; cells = r.cells.now; known = known_of r.notes.now } };

    ghost invariant = { λ r. IsRecall r.book.now r.cells.now (known_of r.notes.now) r.stored.now.entries };
}

/// The number of a pending cell, found by halves.
pub(crate) fn number_in(cells: &[Addr], at: Addr) -> Option<usize>
    requires { InOrder cells.now }
    ensures { result ≡ number_in cells.now at }
{
    match cells.binary_search(&at) {
        Ok(number) => Some(number),
        Err(_) => None,
    }
}

/// The stored result of a cell.
fn result_of(stored: &Results, at: Addr) -> Option<Shown>
    ensures { result ≡ entry_at stored.now.entries at }
{
    stored.get(&at).copied()
}

/// The value of a result.
fn value_of(shown: Option<Shown>) -> Option<Value>
    ensures { result ≡ known_value shown }
{
    match shown {
        Some(Shown::Val(value)) => Some(value),
        _ => None,
    }
}

/// The value of a cell that holds no formula.
fn own_value(content: Option<Content>) -> Option<Value>
    ensures { (p : Trees) → result ≡ own_in (option_map (content_in p) content) }
{
    match content {
        None => Some(Value::Blank),
        Some(Content::Number(n)) => Some(Value::Number(n)),
        Some(Content::Text(t)) => Some(Value::Text(t)),
        Some(Content::Bool(b)) => Some(Value::Bool(b)),
        Some(Content::Formula(_)) => None,
    }
}

impl<'a, 'b> Recalled<'a, 'b> {
    ghost use Rattle.demand_stack.specs.Recall.{IsRecall};

    /// What is known of the cells of a book.
    pub fn new(
        book: &'a BookWith<'b>,
        cells: &'a [Addr],
        notes: &'a Notes,
        stored: &'a Results,
    ) -> Recalled<'a, 'b>
        requires { IsRecall book.now cells.now (known_of notes.now) stored.now.entries }
        ensures { result ≡ record { shared = book.now; cells = cells.now; known = known_of notes.now } }
    {
        Recalled {
            book,
            cells,
            notes,
            stored,
        }
    }

    /// The value of a formula cell, as far as it is known.
    fn value_at(&self, at: Addr) -> Option<Value>
        requires { (t : Expr) × (formula_at self.now.shared.book at ≡ Some t) }
        ensures { result ≡ values (recalled_cells self.now) self.now.known at }
    {
        match number_in(self.cells, at) {
            Some(cell) => value_of(self.notes.shown(cell)),
            None => value_of(result_of(self.stored, at)),
        }
    }

    /// What is known of a cell.
    fn seen(&self, at: Addr) -> Look
        ensures found { found_as result at ≡ look self.now.shared.book (values (recalled_cells self.now) self.now.known) at }
        ensures texts { MeansValue self.now.shared.book.texts result }
    {
        match own_value(self.book.content(at)) {
            Some(value) => Look::Val(value),
            None => match self.value_at(at) {
                Some(value) => Look::Val(value),
                None => Look::Missing,
            },
        }
    }
}

impl<'a, 'b> Known for Recalled<'a, 'b> {
    ghost use Rattle.worker_machine.specs.Evaluation.{values as values_over};
    ghost use Rattle.demand_stack.specs.Recall.{recalled_cells};

    ghost book = { λ r. r.shared.book };

    ghost values = { λ r. values_over (recalled_cells r) r.known };

    ghost looks = { λ r. 18446744073709551615 };

    fn look(&mut self, at: Addr) -> Look {
        self.seen(at)
    }
}
