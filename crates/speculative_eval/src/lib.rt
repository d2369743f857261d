//! The worker of a shared round: it evaluates pending cells along a stack of its own, claims and
//! publishes them on the words that all workers share, and takes over what others have published.
//!
//! Each call of `Worker::step` makes exactly one atomic step of the round, and it is the step of the
//! machine of `worker_machine`. `Machine` keeps the machine's state, `perform` makes a step on the
//! round, and `Worker` joins both with the worker's pass and its hints.
#![tactic(auto)]

mod hinted;
mod machine;
mod perform;
mod read_words;
mod step;
mod steps;
#[cfg(test)]
mod tests;
mod worker;

pub use step::Step;
pub use worker::Worker;
