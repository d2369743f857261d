//! The tokens of formulas, and how a text falls into them.
#![tactic(auto)]

pub mod laws;
mod lexemes;
pub mod lexer;
pub mod token;
pub mod words;

pub use lexer::read_tokens;
pub use token::{Coordinate, Corner, Literal, Spot, Token, Word};
pub use words::function_name;

#[cfg(test)]
mod tests;
