//! Sheets saved as CSV: their contents in place of what they show, read back as the same cells.
#![tactic(auto)]

pub mod faults;
mod fields;
pub mod laws;
pub mod rows;
pub mod saving;

pub use faults::SaveFault;
pub use rows::SavedRows;
pub use saving::save_sheet;

#[cfg(test)]
mod tests;
