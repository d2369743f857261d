//! The cells of a book by address, and their addresses by column.
ghost use Rattle.std.specs.Prelude.{◌≡◌, ◌+◌, ◌<◌, ◌≤◌, [], Some, None, is_some, cond, if◌then◌else◌, length, IfOk, OnOk, OnErr, IfSome, IfNone, MatchOption};
ghost use Rattle.std.specs.List.{list_any};
ghost use Rattle.cell_values.specs.Addresses.{same_addr};
ghost use Rattle.cell_values.specs.Order.{addresses, entry_at};
ghost use Rattle.workbook_core.specs.Books.{IsNextCell, IsLastCell, IsExtent, IsLastRow, IsLastColumn, IsEmptySheet};
ghost use Rattle.workbook_core.specs.Held.{cells_in, turned, same_turned, AreOnSheets, SetsHeld};
ghost use Rattle.workbook_core.specs.declared.cells.ColumnFirst.{ColumnFirst};

use crate::Content;
use cell_values::{Addr, LAST_COLUMN, LAST_ROW};
use std::alloc::{AllocError, Global};
use std::collections::{BTreeMap, BTreeSet};
use std::marker::Model;
use std::ops::Bound;

/// An address, ordered by sheet, then column, then row.
#[derive(Clone, Copy, Debug, PartialEq, Eq, PartialOrd, Ord)]
pub(crate) struct ColumnFirst {
    pub(crate) sheet: u8,
    pub(crate) col: u16,
    pub(crate) row: u32,
}

fn turned(at: Addr) -> ColumnFirst
    ensures { result ≡ turned at }
{
    ColumnFirst {
        sheet: at.sheet,
        col: at.col,
        row: at.row,
    }
}

/// The cells in order of address. Contracts see the list of the addresses with what their cells hold.
#[derive(Drop)]
pub(crate) struct CellMap {
    by_row: BTreeMap<Addr, Content>,
    by_column: BTreeSet<ColumnFirst>,
}

impl Model for CellMap {
    ghost use Rattle.std.specs.Prelude.{List};
    ghost use Rattle.cell_values.specs.declared.address.Addr.{Addr};
    ghost use Rattle.workbook_core.specs.declared.Content.{Content};

    ghost Value = { List (Addr × Content) };

    ghost use Rattle.workbook_core.specs.Held.{AreIndexed};

    ghost view = { λ m. m.by_row.entries };

    ghost invariant = { λ m. AreIndexed m.by_row.entries m.by_column.keys };
}

impl CellMap {
    /// No cells.
    pub(crate) fn new(alloc: Global) -> CellMap
        ensures { result ≡ [] }
    {
        CellMap {
            by_row: BTreeMap::new(alloc),
            by_column: BTreeSet::new(alloc),
        }
    }

    /// What a cell holds.
    pub(crate) fn get(&self, at: Addr) -> Option<Content>
        ensures { result ≡ entry_at self.now at }
    {
        self.by_row.get(&at).copied()
    }

    /// How many cells there are.
    pub(crate) fn len(&self) -> usize
        ensures { result ≡ length self.now }
    {
        self.by_row.len()
    }

    /// Puts a content into a cell. Only an empty cell takes memory.
    pub(crate) fn set(&mut self, at: Addr, content: Content) -> Result<(), AllocError>
        ensures ok { OnOk result (SetsHeld at (Some content) self.old self.new) }
        ensures len { OnOk result (length self.new ≡ length self.old + (if is_some (entry_at self.old at) then 0 else 1)) }
        ensures err { OnErr result (self.new ≡ self.old) }
        ensures empty { OnErr result (entry_at self.old at ≡ None) }
    {
        self.by_column.insert(turned(at))?;
        match self.by_row.insert(at, content) {
            Ok(_) => Ok(()),
            Err(failed) => {
                self.by_column.remove(&turned(at));
                Err(failed.into())
            }
        }
    }

    /// Clears a cell.
    pub(crate) fn remove(&mut self, at: Addr)
        ensures removed { SetsHeld at None self.old self.new }
        ensures len { length self.new ≤ length self.old }
    {
        self.by_row.remove(&at);
        self.by_column.remove(&turned(at));
    }

    /// The first cell behind an address, or of all.
    pub(crate) fn next(&self, after: Option<Addr>) -> Option<Addr>
        ensures some { IfSome result (IsNextCell (cells_in [] self.now) after) }
        ensures none { IfNone result (IsLastCell (cells_in [] self.now) after) }
    {
        match after {
            Some(at) => self.next_after(at),
            None => self.first(),
        }
    }

    /// The first cell behind an address.
    fn next_after(&self, at: Addr) -> Option<Addr>
        ensures some { IfSome result (IsNextCell (cells_in [] self.now) (Some at)) }
        ensures none { IfNone result (IsLastCell (cells_in [] self.now) (Some at)) }
    {
        let behind = (Bound::Excluded(at), Bound::Unbounded);
        match self.by_row.range(behind).next() {
            Some((next, _)) => Some(*next),
            None => None,
        }
    }

    /// The first cell.
    fn first(&self) -> Option<Addr>
        ensures some { IfSome result (IsNextCell (cells_in [] self.now) None) }
        ensures none { IfNone result (IsLastCell (cells_in [] self.now) None) }
    {
        match self.by_row.first_key_value() {
            Some((first, _)) => Some(*first),
            None => None,
        }
    }

    /// Lays the cells out anew, in as few nodes as they need.
    pub(crate) fn pack(&mut self, alloc: Global) -> Result<(), AllocError>
        ensures { self.new ≡ self.old }
    {
        let by_row = packed_rows(alloc, &self.by_row)?;
        let by_column = packed_columns(alloc, &self.by_column)?;
        self.by_row = by_row;
        self.by_column = by_column;
        Ok(())
    }

    /// The last row and the last column that hold a cell of a sheet.
    pub(crate) fn extent(&self, sheet: u8) -> Option<(u32, u16)>
        requires { AreOnSheets self.now }
        ensures some { IfSome result (IsExtent (cells_in [] self.now) sheet) }
        ensures none { IfNone result (IsEmptySheet (cells_in [] self.now) sheet) }
    {
        Some((self.last_row(sheet)?, self.last_column(sheet)?))
    }

    /// The last row that holds a cell of a sheet.
    fn last_row(&self, sheet: u8) -> Option<u32>
        requires { AreOnSheets self.now }
        ensures some { IfSome result (IsLastRow (cells_in [] self.now) sheet) }
        ensures none { IfNone result (IsEmptySheet (cells_in [] self.now) sheet) }
    {
        let first = Addr {
            sheet,
            row: 0,
            col: 0,
        };
        let last = Addr {
            sheet,
            row: LAST_ROW,
            col: LAST_COLUMN,
        };
        match self.by_row.range(first..=last).next_back() {
            Some((at, _)) => Some(at.row),
            None => None,
        }
    }

    /// The last column that holds a cell of a sheet.
    fn last_column(&self, sheet: u8) -> Option<u16>
        requires { AreOnSheets self.now }
        ensures some { IfSome result (IsLastColumn (cells_in [] self.now) sheet) }
        ensures none { IfNone result (IsEmptySheet (cells_in [] self.now) sheet) }
    {
        let first = ColumnFirst {
            sheet,
            col: 0,
            row: 0,
        };
        let last = ColumnFirst {
            sheet,
            col: LAST_COLUMN,
            row: LAST_ROW,
        };
        match self.by_column.range(first..=last).next_back() {
            Some(at) => Some(at.col),
            None => None,
        }
    }
}

/// The same cells in nodes that are full.
fn packed_rows(
    alloc: Global,
    cells: &BTreeMap<Addr, Content>,
) -> Result<BTreeMap<Addr, Content>, AllocError>
    ensures { IfOk result (λ m. m.entries ≡ cells.now.entries) }
{
    cells
        .iter()
        .map(|(at, content)| (*at, *content))
        .collect(alloc)
}

/// The same addresses in nodes that are full.
fn packed_columns(
    alloc: Global,
    addresses: &BTreeSet<ColumnFirst>,
) -> Result<BTreeSet<ColumnFirst>, AllocError>
    ensures { IfOk result (λ s. (k : ColumnFirst) → list_any (same_turned k) s.keys ≡ list_any (same_turned k) addresses.now.keys) }
{
    addresses.iter().copied().collect(alloc)
}
