//! The book as a finite map whose formulas share expressions, and its edits.
#![tactic(auto)]

pub mod apart;
pub mod book_with;
mod bulk;
mod cells;
mod copies;
pub mod edits;
#[cfg(test)]
mod tests;
pub mod workbook;

pub use apart::CellsApart;
pub use book_with::BookWith;
use cell_values::{Int, TextId};
pub use edits::EditFault;
use shared_expressions::ExprId;
pub use workbook::Workbook;

/// What a cell holds. A formula is the number of its tree in the workbook's pool.
#[derive(Clone, Copy, Debug, PartialEq, Eq)]
pub enum Content {
    Number(Int),
    Text(TextId),
    Bool(bool),
    Formula(ExprId),
}
