//! A workbook that is edited and recalculated: its cells, which of them are pending, and what the others show.
#![tactic(auto)]

mod book;
pub mod calc;
pub mod edit;
mod links;
#[cfg(test)]
mod plain;
mod progress;
#[cfg(test)]
mod round_tests;
mod rounds;
pub mod shift;
#[cfg(test)]
mod shift_tests;
mod store;
#[cfg(test)]
mod tests;

pub use calc::Calc;
pub use edit::Edit;
pub use parallel_evaluation::{Counts, Summary, Traced};
pub use shift::ShiftFault;
pub use worker_machine::{Kind, NoPace, Pace};
