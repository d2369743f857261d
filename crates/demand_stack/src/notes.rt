//! What is noted of each pending cell.
ghost use Rattle.std.specs.Prelude.{◌≡◌, ◌<◌, false, Some, None, length, get_or, set, replicate, is_some, IfOk};
ghost use Rattle.demand_stack.specs.Open.{blank};
ghost use Rattle.demand_stack.specs.Kept.{cycled};
ghost use Rattle.demand_stack.specs.Recall.{known_of};

use cell_values::Shown;
use result_list::ResultList;
use std::alloc::{AllocError, Global};
use std::marker::Model;

/// What is known of a cell, whether it is on the stack, and whether its evaluation stands open.
#[derive(Clone, Copy, Debug, PartialEq, Eq)]
pub struct Note {
    pub shown: Option<Shown>,
    pub on_stack: bool,
    pub begun: bool,
}

/// The part of a note that is kept beside the results.
#[derive(Clone, Copy, Debug, PartialEq, Eq)]
pub struct Marks {
    pub on_stack: bool,
    pub begun: bool,
}

// A note takes two bytes beside its result.
const _: () = prove!(size_of::<Marks>() == 2);

/// The marks of a cell that was not met.
const UNMARKED: Marks = Marks {
    on_stack: false,
    begun: false,
};

/// The notes of all pending cells.
#[derive(Drop)]
pub struct Notes {
    results: ResultList,
    marks: Vec<Marks>,
}

impl Model for Notes {
    ghost use Rattle.std.specs.Prelude.{◌≡◌, List, length};
    ghost use Rattle.demand_stack.specs.declared.notes.Note.{Note as Noted};
    ghost use Rattle.demand_stack.specs.Notes.{noted};

    ghost Value = { List Noted };

    ghost view = { λ n. noted n.results n.marks.items };

    ghost invariant = { λ n. length n.results ≡ length n.marks.items };
}

impl Notes {
    /// Notes of as many cells as are given, which were not met. Fails where memory runs out.
    pub fn new(alloc: Global, count: usize) -> Result<Notes, AllocError>
        ensures { IfOk result (λ n. n ≡ replicate count blank) }
    {
        let results = ResultList::new(alloc, count)?;
        let marks = vec![in alloc; UNMARKED; count]?;
        Ok(Notes { results, marks })
    }

    /// How many cells there are.
    pub fn len(&self) -> usize
        ensures { result ≡ length self.now }
    {
        self.marks.len()
    }

    /// What is known of a cell.
    pub fn shown(&self, i: usize) -> Option<Shown>
        ensures { result ≡ (get_or self.now i blank).shown }
    {
        let _ = &self.marks;
        self.results.get(i)
    }

    /// Whether a cell is known.
    pub fn is_known(&self, i: usize) -> bool
        ensures { result ≡ is_some (get_or self.now i blank).shown }
    {
        let _ = &self.marks;
        self.results.is_known(i)
    }

    /// The marks of a cell.
    fn marks(&self, i: usize) -> Marks
        ensures on_stack { result.on_stack ≡ (get_or self.now i blank).on_stack }
        ensures begun { result.begun ≡ (get_or self.now i blank).begun }
    {
        if i < self.marks.len() {
            self.marks[i]
        } else {
            UNMARKED
        }
    }

    /// Whether a cell is noted as one of the stack.
    pub fn is_on_stack(&self, i: usize) -> bool
        ensures { result ≡ (get_or self.now i blank).on_stack }
    {
        self.marks(i).on_stack
    }

    /// Whether the evaluation of a cell stands open.
    pub fn is_begun(&self, i: usize) -> bool
        ensures { result ≡ (get_or self.now i blank).begun }
    {
        self.marks(i).begun
    }

    /// The evaluation of a cell stands open, or does not.
    pub fn set_begun(&mut self, i: usize, begun: bool)
        requires { i < length self.old }
        ensures { self.new ≡ set self.old i (record { shown = (get_or self.old i blank).shown; on_stack = (get_or self.old i blank).on_stack; begun = begun }) }
    {
        let on_stack = self.marks[i].on_stack;
        self.marks[i] = Marks { on_stack, begun };
    }

    /// A cell is one of the stack, or is not. Its evaluation does not stand open.
    pub fn set_on_stack(&mut self, i: usize, on_stack: bool)
        requires { i < length self.old }
        ensures { self.new ≡ set self.old i (record { shown = (get_or self.old i blank).shown; on_stack = on_stack; begun = false }) }
    {
        self.marks[i] = Marks {
            on_stack,
            begun: false,
        };
    }

    /// This is the result of a cell that is not known. Its evaluation does not stand open.
    pub fn learn(&mut self, i: usize, shown: Shown)
        requires there { i < length self.old }
        requires unknown { (get_or self.old i blank).shown ≡ None }
        ensures { self.new ≡ set self.old i (record { shown = Some shown; on_stack = (get_or self.old i blank).on_stack; begun = false }) }
    {
        let on_stack = self.marks[i].on_stack;
        self.results.learn(i, shown);
        self.marks[i] = Marks {
            on_stack,
            begun: false,
        };
    }

    /// A cell is on a cycle of that many cells. Its evaluation does not stand open.
    pub fn mark_cycle(&mut self, i: usize, length_of_cycle: u32)
        requires { i < length self.old }
        ensures { self.new ≡ set self.old i (cycled length_of_cycle (get_or self.old i blank)) }
    {
        let on_stack = self.marks[i].on_stack;
        self.results.mark_cycle(i, length_of_cycle);
        self.marks[i] = Marks {
            on_stack,
            begun: false,
        };
    }

    /// Nothing is noted of any cell.
    pub fn forget_all(&mut self)
        ensures { self.new ≡ replicate (length self.old) blank }
    {
        self.results.forget_all();
        self.marks.fill(UNMARKED);
    }

    /// What is known of all cells.
    pub fn into_results(self) -> ResultList
        ensures { result ≡ known_of self }
    {
        let Notes { results, marks: _ } = self;
        results
    }
}
