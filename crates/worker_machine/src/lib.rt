//! The machine by which a worker of a shared round evaluates cells: what it knows, what its stack
//! means, what each of its steps does, that each result that it knows is what the book shows, and that
//! it makes few steps, whatever the other workers do.
//!
//! `specs/Machine.antt` says what a worker does, over plain data, `specs/Evaluation.antt` what is known
//! and what the stack means, without a round, and `specs/Invariant.antt` what holds between its steps. No
//! worker runs here: one that does keeps these states, and its clauses cite these laws.
#![tactic(auto)]

ghost use Rattle.worker_machine.specs.Runs.{ResultsRight, StepsAllowed, EndsWithAll, FewSteps, WorkerBegins, ChangesKeep, SettlesInTurn, StepsKeep, StaysSmall};
ghost use Rattle.worker_machine.specs.TwoCells.{TwoCellsRun};

mod action;
mod hints;
mod pace;
mod state;

pub use action::{Action, Change, Next};
pub use hints::{Hints, NoHints};
pub use pace::{Kind, NoPace, Pace};
pub use state::{Doing, Entry, Store};

/// What holds of a worker between its steps holds at its start, and each change and each step keeps it.
pub fn law_worker_goes_on()
    ensures begins { WorkerBegins }
    ensures changes { ChangesKeep }
    ensures settling { SettlesInTurn }
    ensures steps { StepsKeep }
{}

/// A worker's stack never holds more cells than are pending, nor does it read more value words than a
/// record has.
pub fn law_stays_small()
    ensures { StaysSmall }
{}

/// Each result that a worker knows, at any time, is what the book shows.
pub fn law_results_right()
    ensures { ResultsRight }
{}

/// Each step of a worker is one that the round allows.
pub fn law_steps_allowed()
    ensures { StepsAllowed }
{}

/// A worker that has no step left knows every cell, and has seen every cell done.
pub fn law_ends_with_all()
    ensures { EndsWithAll }
{}

/// A worker makes at most `16 * m + 16` steps for m cells.
pub fn law_few_steps()
    ensures { FewSteps }
{}

/// An example: two cells that name each other, and a whole run of the first of two workers, where the
/// other one finishes first.
pub fn law_two_cells()
    ensures { TwoCellsRun }
{}
