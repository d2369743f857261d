//! What is known of cells, by number, in 32 bytes for each.
//!
//! A result has 80 bytes, since a value may have a short text in itself. Nearly all results are numbers: here the short
//! texts stand apart, in memory that is reserved for all cells at first and is not touched before a text comes.
#![tactic(auto)]

mod list;
#[cfg(test)]
mod tests;

pub use list::ResultList;
