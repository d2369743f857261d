//! Sheets as CSV: their cells, and rows as text.
#![tactic(auto)]

pub mod reading;
pub mod writing;

pub use reading::{SheetFault, read_sheet};
pub use writing::write_row;

#[cfg(test)]
mod tests;
