//! The open evaluations of a worker: a stack of pending cells, each demanded by the one below it, what is known of all
//! of them, and the evaluation of each cell's formula, which stays open where it stopped at a cell without a value.
//!
//! `specs/StackSeen.antt` says what callers see. What a formula gives over the known values, which cells a cycle has and
//! what is learnt of them are those of `worker_machine`; this crate does it in place, on memory that is taken once.
#![tactic(auto)]

mod alone;
mod evaluations;
mod marks;
mod notes;
mod recalled;
pub mod stack;
#[cfg(test)]
mod tests;

pub use stack::DemandStack;
