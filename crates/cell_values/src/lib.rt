//! Addresses, texts, values, fields as read, and sheet names.
#![tactic(auto)]

pub mod address;
pub mod fields;
pub mod interned;
pub mod names;
pub mod short;
pub mod values;

pub use address::{Addr, Area, column_text};
pub use fields::{FieldText, Raw};
pub use interned::{TextId, Texts};
pub use names::{NameFault, SheetNames, is_plain_name};
pub use short::ShortText;
pub use values::{Code, Shown, Value};

/// A whole number of the formula language, of 128 bits.
pub type Int = i128;

/// The least number.
pub const INT_MIN: Int = i128::MIN;

/// The greatest number.
pub const INT_MAX: Int = i128::MAX;

/// The last column, IV. Columns count from 1.
pub const LAST_COLUMN: u16 = 256;

/// The last row. Rows count from 1.
pub const LAST_ROW: u32 = 65_536;

/// The most cells of a range in a formula, and of the area of a copy.
pub const MAX_RANGE_CELLS: u32 = 65_536;

/// The most cells of a book that are not empty, all sheets together.
pub const MAX_BOOK_CELLS: u32 = 200_000;

/// The most bytes of a text that a value has in itself.
pub const MAX_SHORT_BYTES: usize = 48;

#[cfg(test)]
mod tests;
