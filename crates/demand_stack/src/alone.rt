//! The evaluation of a cell by one stack alone, without a round.
ghost use Rattle.std.specs.Prelude.{◌≡◌, ◌<◌, Some, [], length};
ghost use Rattle.cell_values.specs.Values.{IsShownOf};
ghost use Rattle.demand_spec.specs.declared.Asked.TheVariants.{Needs};
ghost use Rattle.worker_machine.specs.Jobs.{shows};
ghost use Rattle.demand_stack.specs.StackSeen.{IsUnknownTop, ask_entry, pending_of, top_of};
ghost use Rattle.demand_stack.specs.Alone.{GoesOn, IsOver};

use crate::DemandStack;
use cell_values::{Addr, Shown};
use formula_eval::Asked;
use worker_machine::Entry;

impl<'b> DemandStack<'b> {
    /// The top cell needs a cell that has no value.
    fn need(&mut self, top: Entry, at: Addr)
        requires top { IsUnknownTop self.old top }
        requires needs { ask_entry self.old top ≡ Some (Needs at) }
        ensures { GoesOn self.old self.new }
    {
        match self.number_of(at) {
            None => self.learn_top(Shown::ToCycle),
            Some(cell) => match self.known(cell) {
                Some(_) => self.learn_top(Shown::ToCycle),
                None => {
                    if self.is_on_stack(cell) {
                        self.close(cell);
                    } else {
                        self.push(Entry { cell, owed: None });
                    }
                }
            },
        }
    }

    /// Works at the top cell.
    fn work(&mut self, top: Entry)
        requires { top_of self.old ≡ Some top }
        ensures { GoesOn self.old self.new }
    {
        match self.known(top.cell) {
            Some(_) => self.pop(),
            None => match self.ask() {
                Asked::Val(value) => self.learn_top(Shown::Val(value)),
                Asked::Needs(at) => self.need(top, at),
            },
        }
    }

    /// What a cell shows. Evaluates it and what it demands, as far as it is not known; the stack is empty before and
    /// after.
    pub fn evaluate(&mut self, cell: u32) -> Shown
        requires idle { self.old.stack ≡ [] }
        requires there { cell < length self.old.cells }
        ensures shown { result ≡ shows (pending_of self.old) cell }
        ensures text { IsShownOf self.old.shared.book.texts result }
        ensures over { IsOver self.old self.new }
    {
        if let Some(shown) = self.known(cell) {
            return shown;
        }
        self.push(Entry { cell, owed: None });
        while let Some(top) = self.top() {
            self.work(top);
        }
        match self.known(cell) {
            Some(shown) => shown,
            None => unreachable!(),
        }
    }
}
