//! Why an edit is refused.

use formula_grammar::{FaultKind, FormulaFault};
use std::alloc::AllocError;

/// Why an edit is refused.
#[derive(Clone, Copy, Debug, PartialEq, Eq)]
pub enum EditFault {
    /// The formula has this fault: the byte where its token begins, counted from 0 at the `=`, and what is wrong
    /// there.
    BadFormula { place: u32, kind: FaultKind },
    /// The book would have more than 200,000 cells.
    TooManyCells,
    OutOfMemory,
}

impl From<AllocError> for EditFault {
    ghost use Rattle.std.specs.Prelude.{◌≡◌};
    ghost use Rattle.workbook_core.specs.declared.edits.EditFault.{EditFault};

    ghost from_gives = { λ _ fault. fault ≡ EditFault.OutOfMemory };

    fn from(_error: AllocError) -> EditFault {
        EditFault::OutOfMemory
    }
}

impl From<FormulaFault> for EditFault {
    ghost use Rattle.std.specs.Prelude.{◌≡◌};
    ghost use Rattle.workbook_core.specs.Faults.{edit_fault_of};

    ghost from_gives = { λ fault made. made ≡ edit_fault_of fault };

    fn from(fault: FormulaFault) -> EditFault {
        match fault {
            FormulaFault::Bad { place, kind } => EditFault::BadFormula { place, kind },
            FormulaFault::OutOfMemory => EditFault::OutOfMemory,
        }
    }
}
