//! Formulas: how they are read and printed.
#![tactic(auto)]

pub mod faults;
pub mod formula;
mod kinds;
pub mod laws;
mod meanings;
mod parser;
pub mod print;

pub use faults::{FaultKind, FormulaFault};
pub use formula::read_formula;
pub use print::print_formula;

#[cfg(test)]
mod tests;
