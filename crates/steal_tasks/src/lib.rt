//! The numbers of pending cells, dealt to workers, and stolen where a worker's own are used up.
#![tactic(auto)]

ghost use Rattle.steal_tasks.specs.Dealing.{DealtOnce};
ghost use Rattle.steal_tasks.specs.Sharing.{TakenOnce};

mod dealer;
mod deque;
mod share;
mod task_end;

pub use dealer::deal;
pub use share::{Dealt, Share};
pub use task_end::TaskEnd;

/// The parts of all workers, one after another, are the numbers below the count. So no two deques have a
/// number in common.
pub fn law_dealt_once()
    ensures { DealtOnce }
{}

/// No two ends have taken a number of a deque that was dealt only once, whatever the state that the rule
/// of the deques allows.
pub fn law_taken_once()
    ensures { TakenOnce }
{}

#[cfg(test)]
mod tests;
