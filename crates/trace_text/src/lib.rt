//! The lines that tell of a run in a given order: one for each step, and one where a worker is finished.
#![tactic(auto)]

mod counting;
mod events;
mod lines;
#[cfg(test)]
mod tests;

pub use lines::TraceText;
