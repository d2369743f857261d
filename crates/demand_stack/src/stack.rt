//! A stack of pending cells whose evaluations stay open along it.
ghost use Rattle.std.specs.Prelude.{◌≡◌, ◌<◌, ◌≤◌, true, false, Some, None, [], ◌∷◌, length, get_or, set, IfOk, IfSome};
ghost use Rattle.cell_values.specs.declared.address.Addr.{Addr};
ghost use Rattle.cell_values.specs.Values.{IsShownOf};
ghost use Rattle.demand_spec.specs.Book.{formula_at};
ghost use Rattle.demand_spec.specs.Laws.{In};
ghost use Rattle.worker_machine.specs.declared.state.Entry.{Entry as OnStack};
ghost use Rattle.worker_machine.specs.Jobs.{cell_number};
ghost use Rattle.worker_machine.specs.Evaluation.{LinkTo, cells_of, first_from, has, learn_top, mark_cycle, part_to, pop};

use crate::evaluations::{abandon_if, evaluate, is_need, room_for};
use crate::marks::{abandon_to, next_unknown, note_cycle, top_cell};
use crate::notes::Notes;
use crate::recalled::{Recalled, number_in};
use cell_values::{Addr, Shown};
use demand_spec::Results;
use formula_eval::{Asked, Frames, law_drops_to_base, law_stands_on, law_stands_ready};
use result_list::ResultList;
use std::alloc::{AllocError, Global};
use std::marker::Model;
use workbook_core::BookWith;
use worker_machine::Entry;

/// A stack of pending cells and what is known of all of them. The evaluation of each cell that was asked, and of which
/// nothing is known, stands open. A cell is named by its number among the pending ones, from 0. All memory is taken by
/// `new`: for each cell an entry and a note of 34 bytes, and for each level of its formula 96 bytes.
#[derive(Drop)]
pub struct DemandStack<'b> {
    book: BookWith<'b>,
    cells: &'b [Addr],
    stored: &'b Results,
    stack: Vec<Entry>,
    notes: Notes,
    frames: Frames,
    first: u32,
    // All cells from `first` to `ahead`, and from 0 to `passed`, are known.
    ahead: u32,
    passed: u32,
}

impl<'b> Model for DemandStack<'b> {
    ghost use Rattle.std.specs.Prelude.{reverse};
    ghost use Rattle.std.specs.Vec.{vec_capacity};
    ghost use Rattle.worker_machine.specs.Evaluation.{cells_of};
    ghost use Rattle.demand_stack.specs.StackSeen.{StackSeen};
    ghost use Rattle.demand_stack.specs.Recall.{known_of};
    ghost use Rattle.demand_stack.specs.Kept.{IsKept};

    ghost Value = { StackSeen };

    ghost use Rattle.std.specs.Coded.{codes};
    ghost use Rattle.formula_trees.specs.ExprCode.{expr_code};

    ghost coded = { Prim.hlevel (codes, expr_code) };

    ghost view = { λ m. record { shared = m.book; cells = m.cells.now; first = m.first; stack = reverse m.stack.items; known = known_of m.notes } };

    ghost invariant = { λ m. IsKept m.book m.cells.now m.stored.now.entries m.first (cells_of (reverse m.stack.items)) m.notes m.frames (vec_capacity m.stack) m.ahead m.passed };
}

impl<'b> DemandStack<'b> {
    ghost use Rattle.claim_core.specs.Pending.{IsPending};
    ghost use Rattle.demand_stack.specs.StackSeen.{at_first, pending_of, with_stack, with_known, top_of, ask_entry, AreStored, IsDemandStack, IsUnknownTop, IsKnownTop, TopDemands, IsFound};

    /// An empty stack over pending cells, of which nothing is known. `stored` has the results of all other formula
    /// cells, and the search for a cell that is not known begins at `first`. Fails where memory runs out.
    pub fn new(
        alloc: Global,
        book: BookWith<'b>,
        cells: &'b [Addr],
        stored: &'b Results,
        first: u32,
    ) -> Result<DemandStack<'b>, AllocError>
        requires pending { IsPending book.book cells.now }
        requires stored { AreStored (record { book = book.book; cells = cells.now }) stored.now.entries }
        requires first { first ≤ length cells.now }
        ensures { IfOk result (λ s. s ≡ at_first book.entry cells.now first) }
    {
        let stack = Vec::with_capacity(alloc, cells.len())?;
        let notes = Notes::new(alloc, cells.len())?;
        let frames = Frames::new(alloc, room_for(&book, cells))?;
        Ok(DemandStack {
            book,
            cells,
            stored,
            stack,
            notes,
            frames,
            first,
            ahead: first,
            passed: 0,
        })
    }

    /// The same cells over another workbook, where they have the same formulas: nothing is begun, and nothing is known.
    /// `stored` has the results of all other formula cells there. Takes no memory.
    pub fn restart(&mut self, book: BookWith<'b>, stored: &'b Results)
        requires idle { self.old.stack ≡ [] }
        requires pending { IsPending book.book self.old.cells }
        requires stored { AreStored (record { book = book.book; cells = self.old.cells }) stored.now.entries }
        requires formulas { (a : Addr) → In a self.old.cells → formula_at book.book a ≡ formula_at self.old.shared.book a }
        ensures { self.new ≡ at_first book.entry self.old.cells self.old.first }
    {
        self.notes.forget_all();
        self.book = book;
        self.stored = stored;
        self.ahead = self.first;
        self.passed = 0;
    }

    /// How many cells are pending.
    pub fn count(&self) -> u32
        ensures count { result ≡ length self.now.cells }
        ensures sees { IsDemandStack self.now }
    {
        self.cells.len() as u32
    }

    /// The top of the stack, None where it is empty.
    pub fn top(&self) -> Option<Entry>
        ensures top { result ≡ top_of self.now }
        ensures sees { IsDemandStack self.now }
    {
        let _ = &self.book;
        self.stack.last().copied()
    }

    /// What is known of a cell.
    pub fn known(&self, i: u32) -> Option<Shown>
        ensures known { result ≡ get_or self.now.known i None }
        ensures texts { IfSome result (IsShownOf self.now.shared.book.texts) }
        ensures sees { IsDemandStack self.now }
    {
        // `texts` tells what an evaluation keeps of a workbook.
        let _texts = self.book.texts();
        self.notes.shown(i as usize)
    }

    /// Whether a cell is on the stack.
    pub fn is_on_stack(&self, i: u32) -> bool
        ensures { result ≡ has i (cells_of self.now.stack) }
    {
        let _ = &self.book;
        self.notes.is_on_stack(i as usize)
    }

    /// The number of a pending cell, None of any other.
    pub fn number_of(&self, at: Addr) -> Option<u32>
        ensures number { result ≡ cell_number (pending_of self.now) at }
        ensures sees { IsDemandStack self.now }
    {
        match number_in(self.cells, at) {
            Some(i) => Some(i as u32),
            None => None,
        }
    }

    /// The first cell from the first one of this stack on that is not known, or else the first of all. All calls
    /// together look at each cell twice at most, and once more at a call.
    pub fn first_unknown(&mut self) -> Option<u32>
        ensures first { result ≡ first_from self.old.known self.old.first }
        ensures same { self.new ≡ self.old }
    {
        let count = self.cells.len() as u32;
        self.ahead = next_unknown(&self.notes, self.ahead);
        if self.ahead < count {
            return Some(self.ahead);
        }
        self.passed = next_unknown(&self.notes, self.passed);
        if self.passed < count {
            Some(self.passed)
        } else {
            None
        }
    }

    /// What the top cell's formula gives over the known values. Where it needs a cell, its evaluation stays open there,
    /// and goes on at the next call.
    pub fn ask(&mut self) -> Asked
        requires { (f : OnStack) × IsUnknownTop self.old f }
        ensures answer { (f : OnStack) → IsUnknownTop self.old f → ask_entry self.old f ≡ Some result }
        ensures same { self.new ≡ self.old }
    {
        law_stands_ready();
        let cell = top_cell(&self.stack) as usize;
        let at = self.cells[cell];
        let begun = self.notes.is_begun(cell);
        let mut known = Recalled::new(&self.book, self.cells, &self.notes, self.stored);
        let answer = evaluate(&mut self.frames, &self.book, &mut known, at, begun);
        self.notes.set_begun(cell, is_need(answer));
        answer
    }

    /// Puts a cell on the stack, which is demanded by the top.
    pub fn push(&mut self, entry: Entry)
        requires there { entry.cell < length self.old.cells }
        requires new { has entry.cell (cells_of self.old.stack) ≡ false }
        requires linked { LinkTo (pending_of self.old) entry.cell (cells_of self.old.stack) }
        ensures { self.new ≡ with_stack self.old (entry ∷ self.old.stack) }
    {
        self.stack.push_reserved(entry);
        self.notes.set_on_stack(entry.cell as usize, true);
    }

    /// Takes the top off, which is known.
    pub fn pop(&mut self)
        requires { (f : OnStack) × IsKnownTop self.old f }
        ensures { self.new ≡ with_stack self.old (pop self.old.stack) }
    {
        let cell = top_cell(&self.stack) as usize;
        let _top = self.stack.pop();
        self.notes.set_on_stack(cell, false);
    }

    /// This is the result of the top cell. Its evaluation is dropped where it stands open.
    pub fn learn_top(&mut self, shown: Shown)
        requires { (f : OnStack) × (IsUnknownTop self.old f × IsFound self.old f.cell shown) }
        ensures { self.new ≡ with_known self.old (learn_top self.old.stack shown self.old.known) }
    {
        law_stands_on();
        law_drops_to_base();
        let cell = top_cell(&self.stack) as usize;
        abandon_if(&mut self.frames, self.notes.is_begun(cell));
        self.notes.learn(cell, shown);
    }

    /// This is the result of a cell that is not on the stack.
    pub fn learn(&mut self, i: u32, shown: Shown)
        requires there { i < length self.old.cells }
        requires off { has i (cells_of self.old.stack) ≡ false }
        requires found { IsFound self.old i shown }
        ensures { self.new ≡ with_known self.old (set self.old.known i (Some shown)) }
    {
        law_stands_on();
        if self.notes.is_known(i as usize) {
            return;
        }
        self.notes.learn(i as usize, shown);
    }

    /// The top demands a cell of the stack: the cells from that one up to the top are a cycle. Their evaluations are
    /// dropped.
    pub fn close(&mut self, i: u32)
        requires demands { (f : OnStack) × TopDemands self.old i f }
        requires there { has i (cells_of self.old.stack) ≡ true }
        ensures { self.new ≡ with_known self.old (mark_cycle (part_to i (cells_of self.old.stack)) self.old.known) }
    {
        law_stands_on();
        let count = abandon_to(&mut self.frames, &self.stack, &self.notes, i);
        note_cycle(&self.stack, &mut self.notes, i, count as u32);
    }

    /// The list of what it knows, one entry for each pending cell. All else is dropped.
    pub fn into_results(self) -> ResultList
        ensures { result ≡ self.entry.known }
    {
        let DemandStack {
            book: _,
            cells: _,
            stored: _,
            stack: _,
            notes,
            frames: _,
            first: _,
            ahead: _,
            passed: _,
        } = self;
        notes.into_results()
    }
}
