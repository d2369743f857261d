//! A round over pending cells: by workers in threads of their own, or in an order that is given.
#![tactic(auto)]

mod counting;
mod evaluation;
mod hiring;
mod ordered;
mod passes;
pub mod summary;
#[cfg(test)]
mod tests;
mod threads;
pub mod trace;
mod turns;

pub use evaluation::evaluate;
pub use ordered::evaluate_in_order;
pub use summary::{Counts, Summary};
pub use trace::Traced;
