//! The operators and accumulators of the formula language, on values alone.
#![tactic(auto)]

mod arithmetic;
mod comparisons;
pub mod folds;
pub mod laws;
pub mod operators;

pub use folds::{Fold, FoldKind, Go};
pub use operators::{Op2, Sign2, binary, condition, same, unary};

#[cfg(test)]
mod tests;
