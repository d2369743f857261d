//! What-if tables: what a cell shows where another cell holds each of some numbers. The book stays as it is.
#![tactic(auto)]

mod dependents;
mod gathering;
mod runner;
pub mod starts;
mod table;
mod tables;
#[cfg(test)]
mod tests;
mod threads;

pub use starts::{NoStarts, Starts};
pub use tables::scenarios;
