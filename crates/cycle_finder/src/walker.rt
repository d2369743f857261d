//! Walks along the needs of a book.
ghost use Rattle.std.specs.Prelude.{◌≡◌, Some, IfOk};
ghost use Rattle.cell_values.specs.Order.{InOrder, addresses};
ghost use Rattle.demand_spec.specs.Book.{cell_needed, need};
ghost use Rattle.cycle_finder.specs.Loops.{loop_length, trail, HoldShown};
ghost use Rattle.cycle_finder.specs.Search.{length_of};

use crate::finder::Loop;
use crate::recalled::{ask_over, expression, result_of};
use cell_values::{Addr, Shown};
use demand_spec::Results;
use formula_eval::{Asked, Frames};
use formula_trees::MAX_NODES;
use std::alloc::{AllocError, Global};
use std::marker::Model;
use workbook_core::Workbook;

/// A book, its results, and the frames for one evaluation, in room for the deepest formula. Contracts see the book.
#[derive(Drop)]
pub(crate) struct Walker<'a> {
    book: &'a Workbook,
    results: &'a Results,
    frames: Frames,
}

impl<'a> Model for Walker<'a> {
    ghost use Rattle.demand_spec.specs.Book.{Book};

    ghost Value = { Book };

    ghost use Rattle.std.specs.Coded.{codes};
    ghost use Rattle.formula_trees.specs.ExprCode.{expr_code};

    ghost coded = { Prim.hlevel (codes, expr_code) };

    ghost use Rattle.std.specs.Prelude.{◌≡◌, ◌≤◌, []};
    ghost use Rattle.formula_trees.specs.declared.TheConstants.{MAX_NODES};
    ghost use Rattle.cycle_finder.specs.Loops.{HoldShown};

    ghost view = { λ w. w.book.now.book };

    ghost invariant = { λ w. record {
      holds : HoldShown w.book.now.book w.results.now.entries;
      idle : w.frames.frames ≡ [];
      room : MAX_NODES ≤ w.frames.room;
    } };
}

/// How long the loop is that a cell shows.
fn length_of(shown: Option<Shown>) -> Option<u32>
    ensures { result ≡ length_of shown }
{
    match shown {
        Some(Shown::Cycle(length)) => Some(length),
        _ => None,
    }
}

/// The cell that an evaluation lacks.
fn lacking(answer: Option<Asked>) -> Option<Addr>
    ensures { result ≡ cell_needed answer }
{
    match answer {
        Some(Asked::Needs(cell)) => Some(cell),
        _ => None,
    }
}

impl<'a> Walker<'a> {
    /// A walk has the room that any formula needs.
    pub(crate) fn new(
        alloc: Global,
        book: &'a Workbook,
        results: &'a Results,
    ) -> Result<Walker<'a>, AllocError>
        requires { HoldShown book.now.book results.now.entries }
        ensures { IfOk result (λ walker. walker ≡ book.now.book) }
    {
        let frames = Frames::new(alloc, MAX_NODES as usize)?;
        Ok(Walker {
            book,
            results,
            frames,
        })
    }

    /// How many needs lead from a cell back to it first, None at a cell on no loop.
    pub(crate) fn loop_length(&self, cell: Addr) -> Option<u32>
        ensures length { result ≡ loop_length self.now cell }
        ensures order { InOrder (addresses self.now.cells) }
    {
        match expression(self.book.content(cell)) {
            Some(_) => length_of(result_of(self.results, cell)),
            None => None,
        }
    }

    /// The cell that a formula cell still needs.
    fn need(&mut self, cell: Addr) -> Option<Addr>
        ensures need { result ≡ need self.old cell }
        ensures book { self.new ≡ self.old }
    {
        lacking(ask_over(&mut self.frames, self.book, self.results, cell))
    }

    /// The next so many cells along the needs, from a cell on.
    pub(crate) fn trail(
        &mut self,
        alloc: Global,
        from: Addr,
        steps: u32,
    ) -> Result<Loop, AllocError>
        ensures trail { IfOk result (λ cells. cells ≡ trail self.old steps (Some from)) }
        ensures book { self.new ≡ self.old }
    {
        let mut cells = Vec::new(alloc);
        let mut next = Some(from);
        for _ in 0..steps {
            let Some(cell) = next else { break };
            cells.push(cell)?;
            next = self.need(cell);
        }
        Ok(Loop { cells })
    }
}
