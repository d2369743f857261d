//! Why sheets are not loaded.

ghost use Rattle.std.specs.Prelude.{◌≡◌};

use cell_values::Addr;
use formula_grammar::FaultKind;
use sheet_csv::SheetFault;
use std::alloc::AllocError;

/// Why a field of a sheet is refused.
#[derive(Clone, Copy, Debug, PartialEq, Eq)]
pub enum FieldFault {
    /// Its bytes are no UTF-8.
    NotUtf8,
    /// It is not empty and lies outside the sheet.
    OutOfSheet,
    /// It is not empty, and as many cells as a book may have stand before it, those of earlier sheets included.
    TooManyCells,
}

/// Why a sheet is refused.
#[derive(Clone, Copy, Debug, PartialEq, Eq)]
pub enum SheetRefusal {
    /// It has more bytes than the sheets before it left.
    TooLong,
    /// A field: its row and column, counted from 1, and its fault. They may lie outside the sheet.
    Field {
        row: usize,
        col: usize,
        fault: FieldFault,
    },
    /// The formula of a cell: the place of its fault, counted in bytes from 0 at the `=`, and what is wrong there.
    Formula {
        at: Addr,
        place: u32,
        kind: FaultKind,
    },
}

/// Why a sheet is not loaded.
#[derive(Clone, Copy, Debug, PartialEq, Eq)]
pub enum LoadFault {
    Refused(SheetRefusal),
    OutOfMemory,
}

/// Why sheets give no workbook.
#[derive(Clone, Copy, Debug, PartialEq, Eq)]
pub enum SheetsFault {
    /// The sheet with this number, counted from 0, is the first that is refused.
    Refused { sheet: u8, why: SheetRefusal },
    OutOfMemory,
}

impl LoadFault {
    ghost use Rattle.sheet_loading.specs.Faults.{sheets_fault_of};

    /// The fault of the sheet with this number, as that of all sheets.
    pub fn of_sheet(self, sheet: u8) -> SheetsFault
        ensures { result ≡ sheets_fault_of sheet self }
    {
        match self {
            LoadFault::Refused(why) => SheetsFault::Refused { sheet, why },
            LoadFault::OutOfMemory => SheetsFault::OutOfMemory,
        }
    }
}

impl From<AllocError> for LoadFault {
    ghost use Rattle.sheet_loading.specs.declared.faults.LoadFault.{LoadFault};

    ghost from_gives = { λ _ fault. fault ≡ LoadFault.OutOfMemory };

    fn from(_error: AllocError) -> LoadFault {
        LoadFault::OutOfMemory
    }
}

impl From<SheetFault> for LoadFault {
    ghost use Rattle.sheet_loading.specs.Faults.{load_fault_of};

    ghost from_gives = { λ fault made. made ≡ load_fault_of fault };

    fn from(fault: SheetFault) -> LoadFault {
        let (row, col, fault) = match fault {
            SheetFault::NotUtf8(row, col) => (row, col, FieldFault::NotUtf8),
            SheetFault::OutOfSheet(row, col) => (row, col, FieldFault::OutOfSheet),
            SheetFault::TooManyCells(row, col) => (row, col, FieldFault::TooManyCells),
            SheetFault::OutOfMemory => return LoadFault::OutOfMemory,
        };
        LoadFault::Refused(SheetRefusal::Field { row, col, fault })
    }
}

impl From<AllocError> for SheetsFault {
    ghost use Rattle.sheet_loading.specs.declared.faults.SheetsFault.{SheetsFault};

    ghost from_gives = { λ _ fault. fault ≡ SheetsFault.OutOfMemory };

    fn from(_error: AllocError) -> SheetsFault {
        SheetsFault::OutOfMemory
    }
}
