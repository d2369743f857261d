//! The sheets of a run, from CSV, as one workbook.
#![tactic(auto)]

pub mod faults;
mod fields;
pub mod laws;
pub mod loader;

pub use faults::{FieldFault, LoadFault, SheetRefusal, SheetsFault};
pub use loader::{Loader, load_sheets};

/// The most bytes of all sheets together: 64 MiB.
pub const SHEET_BYTES: usize = 67_108_864;

#[cfg(test)]
mod tests;
