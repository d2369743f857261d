//! Why a sheet is not saved.

use cell_values::Addr;
use std::alloc::AllocError;

/// Why a sheet is not saved.
#[derive(Clone, Copy, Debug, PartialEq, Eq)]
pub enum SaveFault {
    /// The formula of this cell prints to more than 1,024 bytes, and would not be read again. It is the first such
    /// cell of the sheet, in order of address.
    TooLong(Addr),
    OutOfMemory,
}

impl From<AllocError> for SaveFault {
    ghost use Rattle.std.specs.Prelude.{◌≡◌};
    ghost use Rattle.book_save.specs.declared.faults.SaveFault.{SaveFault};

    ghost from_gives = { λ _ fault. fault ≡ SaveFault.OutOfMemory };

    fn from(_error: AllocError) -> SaveFault {
        SaveFault::OutOfMemory
    }
}
