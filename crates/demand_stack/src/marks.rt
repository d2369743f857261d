//! What is noted of the cells of the stack, and the search for a cell that is not known.
ghost use Rattle.std.specs.Prelude.{◌≡◌, ◌≤◌, ◌∷◌, ℕ, List, length, reverse, map};
ghost use Rattle.cell_values.specs.declared.address.Addr.{Addr};
ghost use Rattle.demand_spec.specs.Book.{Book};
ghost use Rattle.demand_spec.specs.declared.Asked.{Asked as Answer};
ghost use Rattle.shared_expressions.specs.Trees.{Trees};
ghost use Rattle.worker_machine.specs.Evaluation.{Below, cells_of, part_to};
ghost use Rattle.worker_machine.specs.declared.state.Entry.{Entry as OnStack};
ghost use Rattle.demand_stack.specs.Open.{AreOpen, begun_of};
ghost use Rattle.demand_stack.specs.Recall.{known_of};
ghost use Rattle.demand_stack.specs.Kept.{IsNextUnknown, lower, note_cycle};

use crate::evaluations::abandon_if;
use crate::notes::Notes;
use formula_eval::{Frames, law_drops_to_base};
use worker_machine::Entry;

/// The cell on top of a stack that is not empty.
pub(crate) fn top_cell(stack: &[Entry]) -> u32
    requires { (f : OnStack) × (rest : List OnStack) × (reverse stack.now ≡ f ∷ rest) }
    ensures { (rest : List ℕ) × (cells_of (reverse stack.now) ≡ result ∷ rest) }
{
    stack[stack.len() - 1].cell
}

/// The first cell from here on that is not known, or how many there are.
pub(crate) fn next_unknown(notes: &Notes, from: u32) -> u32
    requires bound { from ≤ length notes.now }
    requires few { length notes.now ≤ 200000 }
    ensures { IsNextUnknown (known_of notes.now) from result }
{
    let mut next = from;
    while (next as usize) < notes.len() && notes.is_known(next as usize) {
        next += 1;
    }
    next
}

/// Drops the open evaluations of the cells from the top down to this one, and counts these cells.
pub(crate) fn abandon_to(frames: &mut Frames, stack: &[Entry], notes: &Notes, cell: u32) -> usize
    requires { Below (length notes.now) (cells_of (reverse stack.now)) }
    ensures open { (p : Trees) (b : Book) (l : Addr → Answer) (f : ℕ → Addr) → AreOpen p b l (map f (begun_of notes.now (cells_of (reverse stack.now)))) frames.old.frames → AreOpen p b l (map f (begun_of notes.now (lower cell (cells_of (reverse stack.now))))) frames.new.frames }
    ensures count { result ≡ length (part_to cell (cells_of (reverse stack.now))) }
    ensures room { frames.new.room ≡ frames.old.room }
{
    law_drops_to_base();
    let count = stack.len();
    for n in 0..count {
        let at = stack[count - 1 - n].cell;
        abandon_if(frames, notes.is_begun(at as usize));
        if at == cell {
            return n + 1;
        }
    }
    count
}

/// Notes the cells from the top down to this one as a cycle of that many cells.
pub(crate) fn note_cycle(stack: &[Entry], notes: &mut Notes, cell: u32, length_of_cycle: u32)
    requires { Below (length notes.old) (cells_of (reverse stack.now)) }
    ensures { notes.new ≡ note_cycle length_of_cycle (part_to cell (cells_of (reverse stack.now))) notes.old }
{
    let count = stack.len();
    for n in 0..count {
        let at = stack[count - 1 - n].cell;
        notes.mark_cycle(at as usize, length_of_cycle);
        if at == cell {
            return;
        }
    }
}
