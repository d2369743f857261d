//! Blocks of rows. Block `number` of a level has `2^level` rows of one column, from row
//! `number * 2^level` on. The rows of an area are cut into at most two blocks of each level, and a row
//! lies in one block of each level.

ghost use Rattle.std.specs.Prelude.{◌≡◌, ◌-◌, ◌%◌, ◌&&◌, ◌==◌, nat_lt, if◌then◌else◌, Some, None};

use cell_values::Addr;

/// How many levels there are. Rows are at most 65,536, and no larger block lies between two of them.
pub(crate) const LEVELS: u8 = 16;

/// Some rows of a column.
#[derive(Clone, Copy, PartialEq, Eq, PartialOrd, Ord)]
pub(crate) struct Block {
    pub sheet: u8,
    pub col: u16,
    pub level: u8,
    pub number: u32,
}

/// An area by its first and its last cell.
#[derive(Clone, Copy, PartialEq, Eq, PartialOrd, Ord)]
pub(crate) struct Corners {
    pub first: Addr,
    pub last: Addr,
}

/// A block that an area was cut into.
#[derive(Clone, Copy, PartialEq, Eq, PartialOrd, Ord)]
pub(crate) struct Key {
    pub block: Block,
    pub area: Corners,
}

/// A cell that reads an area.
#[derive(Clone, Copy, PartialEq, Eq, PartialOrd, Ord)]
pub(crate) struct Reader {
    pub area: Corners,
    pub cell: Addr,
}

/// The block at the lower end of the blocks from `low` up to and without `high`, where it is not the
/// first half of a block of the next level.
pub(crate) fn low_end(low: u32, high: u32) -> Option<u32>
    ensures { result ≡ (if nat_lt low high && (low % 2 == 1) then Some low else None) }
{
    if low < high && low % 2 == 1 {
        Some(low)
    } else {
        None
    }
}

/// The block at the upper end, where it is not the second half of a block of the next level.
pub(crate) fn high_end(low: u32, high: u32) -> Option<u32>
    ensures { result ≡ (if nat_lt low high && (high % 2 == 1) then Some (high - 1) else None) }
{
    if low < high && high % 2 == 1 {
        Some(high - 1)
    } else {
        None
    }
}
