//! Where an argument stands in the sheets.

use cell_values::Area;

/// Where an argument stands in the sheets.
#[derive(Clone, Copy, Debug, PartialEq, Eq)]
pub enum Place {
    /// An expression.
    Nowhere,
    /// `#REF!`, or outside the sheet.
    Bad,
    /// A reference or a range.
    Cells(Area),
}
