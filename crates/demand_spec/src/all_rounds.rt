//! Rounds over the whole book.
ghost use Rattle.std.specs.Prelude.{◌≡◌, ◌||◌, OnOk, IfOk};
ghost use Rattle.demand_spec.specs.Book.{finished, round};
ghost use Rattle.demand_spec.specs.Listed.{content_of, contents, AreCellsOf, AreKnownOf, IsContentOf};
ghost use Rattle.cell_values.specs.Order.{entry_at};
ghost use Rattle.demand_spec.specs.Rounds.{put, given_at, round_from, adds};
ghost use Rattle.demand_spec.specs.Stage.{book_of, book_with, known_of};

use crate::context::Stage;
use crate::{Asked, Cell, PlainBook};
use cell_values::{Addr, Texts, Value};
use std::alloc::{AllocError, Global};
use std::collections::BTreeMap;

/// What a round over the whole book gives.
#[derive(Drop)]
struct NextRound {
    /// The values of the formula cells that get one.
    known: BTreeMap<Addr, Value>,
    /// Whether one of these cells had no value before.
    grew: bool,
}

/// A value on for a cell.
fn put_value(known: &mut BTreeMap<Addr, Value>, at: Addr, value: Value) -> Result<(), AllocError>
    ensures { OnOk result (entry_at known.new.entries ≡ put at value (entry_at known.old.entries)) }
{
    known.insert(at, value)?;
    Ok(())
}

/// The value that a cell's formula gives, `None` without a formula or a value.
fn given(stage: &Stage, at: Addr, cell: &Cell) -> Option<Value>
    requires { IsContentOf stage.now.texts (content_of cell.now) }
    ensures { result ≡ given_at (book_of stage.now) (known_of stage.now) at (content_of cell.now) }
{
    match cell {
        Cell::Formula(tree) => match stage.ask(tree, at) {
            Asked::Val(value) => Some(value),
            Asked::Needs(_) => None,
        },
        Cell::Number(_) | Cell::Text(_) | Cell::Bool(_) => None,
    }
}

/// Whether one of two tests holds.
fn either(first: bool, second: bool) -> bool
    ensures { result ≡ (first || second) }
{
    first || second
}

impl NextRound {
    ghost use Rattle.demand_spec.specs.Rounds.{put_given, is_new};

    /// The value of a cell on, if its formula gives one.
    fn add(&mut self, stage: &Stage, at: Addr, cell: &Cell) -> Result<(), AllocError>
        requires { IsContentOf stage.now.texts (content_of cell.now) }
        ensures known { OnOk result (entry_at self.new.known.entries ≡ put_given at (given_at (book_of stage.now) (known_of stage.now) at (content_of cell.now)) (entry_at self.old.known.entries)) }
        ensures grew { OnOk result (self.new.grew ≡ (self.old.grew || is_new (given_at (book_of stage.now) (known_of stage.now) at (content_of cell.now)) (known_of stage.now at))) }
    {
        match given(stage, at, cell) {
            Some(value) => {
                self.grew = either(self.grew, stage.known(at).is_none());
                put_value(&mut self.known, at, value)
            }
            None => Ok(()),
        }
    }
}

/// A round over the cells of a list.
#[tactic(auto, using(crate::proofs::Listed::or_moves))]
fn round_over(alloc: Global, stage: &Stage, cells: &[(Addr, Cell)]) -> Result<NextRound, AllocError>
    requires { AreCellsOf stage.now.texts (contents cells.now) }
    ensures known { IfOk result (λ r. entry_at r.known.entries ≡ round_from (book_of stage.now) (known_of stage.now) (λ a. None) (contents cells.now)) }
    ensures grew { IfOk result (λ r. r.grew ≡ adds (book_of stage.now) (known_of stage.now) (contents cells.now)) }
{
    let mut next = NextRound {
        known: BTreeMap::new(alloc),
        grew: false,
    };
    for (address, cell) in cells {
        next.add(stage, *address, cell)?;
    }
    Ok(next)
}

/// A round over the whole book.
fn next_round(
    alloc: Global,
    book: &PlainBook,
    texts: &Texts,
    known: &BTreeMap<Addr, Value>,
) -> Result<NextRound, AllocError>
    requires cells { AreCellsOf texts.now book.now }
    requires known { AreKnownOf texts.now (entry_at known.now.entries) }
    ensures known { IfOk result (λ r. entry_at r.known.entries ≡ round (book_with book.now texts.now) (entry_at known.now.entries)) }
    ensures grew { IfOk result (λ r. r.grew ≡ adds (book_with book.now texts.now) (entry_at known.now.entries) book.now) }
{
    let stage = Stage::over(book, texts, known);
    round_over(alloc, &stage, book.cells())
}

/// The values of all formula cells that get one: rounds over the whole book, from no values on, up to
/// the first one that adds nothing.
pub(crate) fn finish(
    alloc: Global,
    book: &PlainBook,
    texts: &Texts,
) -> Result<BTreeMap<Addr, Value>, AllocError>
    requires { AreCellsOf texts.now book.now }
    ensures { IfOk result (λ k. entry_at k.entries ≡ finished (book_with book.now texts.now)) }
{
    let mut known = BTreeMap::new(alloc);
    for round in 0..book.cells().len() {
        let next = next_round(alloc, book, texts, &known)?;
        if !next.grew {
            return Ok(known);
        }
        known = next.known;
    }
    Ok(known)
}
