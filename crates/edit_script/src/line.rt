//! What a line of a script asks for, and why a line is refused.

use cell_values::{Addr, Area, FieldText, Int};
use std::alloc::AllocError;

/// A row of a sheet and a number of rows, each from 1 to the last row.
#[derive(Clone, Copy, Debug, PartialEq, Eq)]
pub struct Rows {
    pub sheet: u8,
    pub row: u32,
    pub count: u32,
}

/// What a line asks for.
#[derive(Drop)]
pub enum Line {
    /// Nothing: the line is empty, or a comment.
    Nothing,
    /// A field is put into the cell, by the rules for fields of a sheet; an empty one clears it.
    Set(Addr, FieldText),
    /// The cell is cleared.
    Clear(Addr),
    /// Each cell of the area gets a copy of the cell. The area has at most 65,536 cells.
    Copy(Addr, Area),
    /// The cell is shown.
    Show(Addr),
    /// The sheet with this number, from 0, is written.
    Print(u8),
    /// The sheet with this number, from 0, is written with what its cells hold in place of what they show.
    Save(u8),
    /// The book is recalculated.
    Recalc,
    /// The cycles are listed.
    Cycles,
    /// So many empty rows are inserted above a row of a sheet: it and those below it are pushed down.
    Insert(Rows),
    /// So many rows of a sheet, from one on, are deleted: those below them move up. The last of them lies on the sheet.
    Delete(Rows),
    /// For each number from one on, of so many from 1 to 1,000, the last cell is shown as it would be with that number in
    /// the first cell.
    WhatIf(Addr, Int, u32, Addr),
}

/// Why a line is refused.
#[derive(Clone, Copy, Debug, PartialEq, Eq)]
pub enum LineFault {
    /// E1: the command is none that there is.
    UnknownCommand,
    /// E2: a cell, an area, a sheet's name or a number is missing, has another form, lies outside the sheets, is too
    /// large or has too many cells, there are too many numbers or none, or something stands behind the command's words.
    BadReference,
    /// E5: the bytes are no UTF-8.
    NotUtf8,
    OutOfMemory,
}

impl From<AllocError> for LineFault {
    ghost use Rattle.std.specs.Prelude.{◌≡◌};
    ghost use Rattle.edit_script.specs.declared.line.LineFault.{LineFault};

    ghost from_gives = { λ _ fault. fault ≡ LineFault.OutOfMemory };

    fn from(_: AllocError) -> LineFault {
        LineFault::OutOfMemory
    }
}
