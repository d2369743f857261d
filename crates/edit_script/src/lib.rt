//! The lines of an edit script.
#![tactic(auto)]

pub mod line;
mod numbers;
mod pieces;
mod reading;
mod rows;
mod targets;

pub use line::{Line, LineFault, Rows};
pub use reading::read_line;

#[cfg(test)]
mod tests;
