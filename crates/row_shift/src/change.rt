//! Rows that are inserted or deleted.

/// Rows that are inserted above a row of a sheet, or deleted from one on.
#[derive(Clone, Copy, Debug, PartialEq, Eq)]
pub enum RowChange {
    /// So many empty rows above this one: it and those below it are pushed down.
    Insert { sheet: u8, row: u32, count: u32 },
    /// So many rows from this one on: those below them move up.
    Delete { sheet: u8, row: u32, count: u32 },
}
