//! What formulas are asked over.
ghost use Rattle.std.specs.Prelude.{◌≡◌, option_map, option_copied, IfOk};
ghost use Rattle.cell_values.specs.Values.{IsValueOf};
ghost use Rattle.demand_spec.specs.Asks.{any_value};
ghost use Rattle.demand_spec.specs.Book.{ask_cell};
ghost use Rattle.cell_values.specs.Order.{entry_at};
ghost use Rattle.demand_spec.specs.Listed.{content_of, AreCellsOf, AreKnownOf};

use crate::outcomes::any_value;
use crate::{Asked, Cell, PlainBook};
use cell_values::{Addr, Texts, Value};
use std::collections::BTreeMap;
use std::marker::Model;

/// A book with its texts, and the values of formula cells that are known so far.
#[derive(Drop)]
pub(crate) struct Stage<'a> {
    book: &'a PlainBook,
    texts: &'a Texts,
    known: &'a BTreeMap<Addr, Value>,
}

impl<'a> Model for Stage<'a> {
    ghost use Rattle.demand_spec.specs.Stage.{Sight};

    ghost Value = { Sight };

    ghost use Rattle.std.specs.Coded.{codes};
    ghost use Rattle.formula_trees.specs.ExprCode.{expr_code};

    ghost coded = { Prim.hlevel (codes, expr_code) };

    ghost use Rattle.demand_spec.specs.Stage.{IsSight};

    ghost view = { λ s. record { cells = s.book.now; texts = s.texts.now; known = s.known.now.entries } };

    ghost invariant = { λ s. IsSight (record { cells = s.book.now; texts = s.texts.now; known = s.known.now.entries }) };
}

impl<'a> Stage<'a> {
    ghost use Rattle.demand_spec.specs.Stage.{book_of, known_of, look_on, IsSight as IsSeen};

    /// A book over the values that are known of it.
    pub(crate) fn over(
        book: &'a PlainBook,
        texts: &'a Texts,
        known: &'a BTreeMap<Addr, Value>,
    ) -> Stage<'a>
        requires cells { AreCellsOf texts.now book.now }
        requires known { AreKnownOf texts.now (entry_at known.now.entries) }
        ensures { result ≡ record { cells = book.now; texts = texts.now; known = known.now.entries } }
    {
        Stage { book, texts, known }
    }

    /// The value that is known of a cell.
    pub(crate) fn known(&self, at: Addr) -> Option<Value>
        ensures { result ≡ known_of self.now at }
    {
        known_value(self.known, at)
    }

    /// What the formula of a cell gives, `None` at a cell without one.
    #[tactic(auto, unfolding(crate::specs::Book::ask_cell, crate::specs::Book::formula_at))]
    pub(crate) fn ask_cell(&self, at: Addr) -> Option<Asked>
        ensures { result ≡ ask_cell (book_of self.now) (known_of self.now) at }
    {
        match self.book.get(at) {
            Some(Cell::Formula(tree)) => Some(self.ask(tree, at)),
            Some(Cell::Number(_) | Cell::Text(_) | Cell::Bool(_)) | None => None,
        }
    }

    /// What a demand of a cell gives.
    #[tactic(auto, unfolding(crate::specs::Book::formula_at, crate::specs::Book::own))]
    pub(crate) fn look(&self, at: Addr) -> Asked
        ensures { result ≡ look_on self.now at }
    {
        match self.book.get(at) {
            None => Asked::Val(Value::Blank),
            Some(Cell::Number(n)) => Asked::Val(Value::Number(*n)),
            Some(Cell::Text(t)) => Asked::Val(Value::Text(*t)),
            Some(Cell::Bool(b)) => Asked::Val(Value::Bool(*b)),
            Some(Cell::Formula(_)) => match known_value(self.known, at) {
                Some(v) => Asked::Val(v),
                None => Asked::Needs(at),
            },
        }
    }

    /// The value of a cell; a need ends the formula.
    #[tactic(auto, using(crate::proofs::Texts::look_text))]
    pub(crate) fn demand(&self, at: Addr) -> Result<Value, Asked>
        ensures same { result ≡ any_value (look_on self.now at) }
        ensures text { IfOk result (IsValueOf self.now.texts) }
    {
        let _ = &self.texts;
        any_value(self.look(at))
    }

    /// The texts of the book.
    pub(crate) fn texts(&self) -> &Texts
        ensures same { result.now ≡ self.now.texts }
        ensures texts { IsSeen self.now }
    {
        self.texts
    }
}

/// The value that is known of a cell.
fn known_value(known: &BTreeMap<Addr, Value>, at: Addr) -> Option<Value>
    ensures { result ≡ entry_at known.now.entries at }
{
    known.get(&at).copied()
}
