//! The cells of a sheet, from CSV.

ghost use Rattle.std.specs.Prelude.{◌≡◌, ◌≤◌, ◌+◌, ◌-◌, ◌⊎◌, List, [], ◌∷◌, ◌++◌, fold, max, All, Some, None, IfErr, IfOk, OnOk, vec_len};
ghost use Rattle.cell_values.specs.Addresses.{IsOnSheet};
ghost use Rattle.cell_values.specs.Fields.{IsRawOf, raw_of};
ghost use Rattle.cell_values.specs.Interned.{KeepsTexts};
ghost use Rattle.cell_values.specs.Order.{addresses, InOrder};
ghost use Rattle.csv.specs.Records.{fields_of};
ghost use Rattle.sheet_csv.specs.Sheet.{Field, cells_of, fault_of, first_fault, row_fields, sheet_fields, with_field};

use cell_values::{Addr, LAST_COLUMN, LAST_ROW, Raw, Texts};
use csv::{ByteRecord, ReaderBuilder};
use std::alloc::{AllocError, Global};

/// Why a sheet is refused: the row and the column of a field, both from 1. They may lie outside the sheet.
#[derive(Clone, Copy, Debug, PartialEq, Eq)]
pub enum SheetFault {
    /// The field is no UTF-8.
    NotUtf8(usize, usize),
    /// The field is not empty, and lies outside the sheet.
    OutOfSheet(usize, usize),
    /// The field is not empty, and there are as many cells before it as may be.
    TooManyCells(usize, usize),
    OutOfMemory,
}

impl From<AllocError> for SheetFault {
    ghost use Rattle.sheet_csv.specs.declared.reading.SheetFault.{SheetFault};

    ghost from_gives = { λ _ fault. fault ≡ SheetFault.OutOfMemory };

    fn from(_error: AllocError) -> SheetFault {
        SheetFault::OutOfMemory
    }
}

/// Reads the cells of a sheet from CSV without headers, whose records may have any lengths: the k-th record is
/// row k, and its j-th field is column j. A line with nothing in it is no record. At most `room` cells are read.
/// After a fault there may be more texts than before.
pub fn read_sheet(
    alloc: Global,
    bytes: &[u8],
    sheet: u8,
    room: u32,
    texts: &mut Texts,
) -> Result<Vec<(Addr, Raw)>, SheetFault>
    ensures cells { IfOk result (λ cells. (texts.new, cells.items) ≡ cells_of sheet texts.old (sheet_fields bytes.now)) }
    ensures no_fault { OnOk result (first_fault room (sheet_fields bytes.now) ≡ None) }

    // Over bytes in memory the reader of CSV fails only for want of memory. A fault of another kind, which its
    // types can name, would be answered as that.
    ensures fault { IfErr result (λ fault. (fault ≡ SheetFault.OutOfMemory) ⊎ (first_fault room (sheet_fields bytes.now) ≡ Some fault)) }
    ensures kept { KeepsTexts texts.old texts.new }

    // What follows for the cells.
    ensures within { IfOk result (λ cells. vec_len cells ≤ room) }
    ensures on_sheet { IfOk result (λ cells. All (λ cell. IsOnSheet cell.0 × (cell.0.sheet ≡ sheet)) cells.items) }
    ensures in_order { IfOk result (λ cells. InOrder (addresses cells.items)) }
    ensures there { IfOk result (λ cells. All (λ cell. IsRawOf texts.new cell.1) cells.items) }
{
    let reader = ReaderBuilder::new()
        .has_headers(false)
        .flexible(true)
        .from_reader(alloc, bytes);
    let mut cells = Vec::new(alloc);
    for (above, record) in reader.into_byte_records().enumerate() {
        let Ok(record) = record else {
            return Err(SheetFault::OutOfMemory);
        };
        read_row(alloc, &record, sheet, above + 1, room, texts, &mut cells)?;
    }
    Ok(cells)
}

/// Reads the cells of a row behind those that are there.
fn read_row(
    alloc: Global,
    fields: &ByteRecord,
    sheet: u8,
    row: usize,
    room: u32,
    texts: &mut Texts,
    cells: &mut Vec<(Addr, Raw)>,
) -> Result<(), SheetFault>
    ensures cells { OnOk result ((texts.new, cells.new.items) ≡ fold (with_field sheet) (texts.old, cells.old.items) (row_fields (row, fields_of fields.now))) }
    ensures passed { OnOk result ((rest : List Field) → first_fault (room - vec_len cells.old) (row_fields (row, fields_of fields.now) ++ rest) ≡ first_fault (room - vec_len cells.new) rest) }
    ensures fault { IfErr result (λ fault. (fault ≡ SheetFault.OutOfMemory) ⊎ ((rest : List Field) → first_fault (room - vec_len cells.old) (row_fields (row, fields_of fields.now) ++ rest) ≡ Some fault)) }
    ensures kept { KeepsTexts texts.old texts.new }
    ensures within { OnOk result (vec_len cells.new ≤ max (vec_len cells.old) room) }
    ensures there { All (λ cell. IsRawOf texts.old cell.1) cells.old.items → OnOk result (All (λ cell. IsRawOf texts.new cell.1) cells.new.items) }
{
    for (before, field) in fields.iter().enumerate() {
        let col = before + 1;
        read_field(alloc, field, Place { sheet, row, col }, room, texts, cells)?;
    }
    Ok(())
}

/// Where a field stands. The row and the column count from 1.
#[derive(Clone, Copy)]
struct Place {
    sheet: u8,
    row: usize,
    col: usize,
}

impl Place {
    ghost use Rattle.sheet_csv.specs.Place.{cell_of_place};

    /// The cell there. None outside the sheet.
    fn cell(self) -> Option<Addr>
        ensures { result ≡ cell_of_place self }
    {
        if self.row > LAST_ROW as usize || self.col > usize::from(LAST_COLUMN) {
            return None;
        }
        Some(Addr {
            sheet: self.sheet,
            row: self.row as u32,
            col: self.col as u16,
        })
    }
}

ghost use Rattle.sheet_csv.specs.Place.{field_of_place};

/// Reads a field as the next cell. An empty one is none.
fn read_field(
    alloc: Global,
    field: &[u8],
    place: Place,
    room: u32,
    texts: &mut Texts,
    cells: &mut Vec<(Addr, Raw)>,
) -> Result<(), SheetFault>
    ensures cells { OnOk result ((texts.new, cells.new.items) ≡ with_field place.sheet (texts.old, cells.old.items) (field_of_place place field.now)) }
    ensures passed { OnOk result ((rest : List Field) → first_fault (room - vec_len cells.old) (field_of_place place field.now ∷ rest) ≡ first_fault (room - vec_len cells.new) rest) }
    ensures fault { IfErr result (λ fault. (fault ≡ SheetFault.OutOfMemory) ⊎ (fault_of (room - vec_len cells.old) (field_of_place place field.now) ≡ Some fault)) }
    ensures kept { KeepsTexts texts.old texts.new }
    ensures within { OnOk result (vec_len cells.new ≤ max (vec_len cells.old) room) }
    ensures there { All (λ cell. IsRawOf texts.old cell.1) cells.old.items → OnOk result (All (λ cell. IsRawOf texts.new cell.1) cells.new.items) }
{
    let Ok(text) = str::from_utf8(field) else {
        return Err(SheetFault::NotUtf8(place.row, place.col));
    };
    if text.is_empty() {
        return Ok(());
    }
    let Some(at) = place.cell() else {
        return Err(SheetFault::OutOfSheet(place.row, place.col));
    };
    if cells.len() >= room as usize {
        return Err(SheetFault::TooManyCells(place.row, place.col));
    }
    push_cell(alloc, at, text, texts, cells)?;
    Ok(())
}

/// Reads a text as the next cell.
fn push_cell(
    alloc: Global,
    at: Addr,
    text: &str,
    texts: &mut Texts,
    cells: &mut Vec<(Addr, Raw)>,
) -> Result<(), AllocError>
    ensures texts { OnOk result (texts.new ≡ (raw_of texts.old text.now).0) }
    ensures cells { OnOk result (cells.new.items ≡ cells.old.items ++ (at, (raw_of texts.old text.now).1) ∷ []) }
    ensures count { OnOk result (vec_len cells.new ≡ vec_len cells.old + 1) }
    ensures kept { KeepsTexts texts.old texts.new }
    ensures there { All (λ cell. IsRawOf texts.old cell.1) cells.old.items → OnOk result (All (λ cell. IsRawOf texts.new cell.1) cells.new.items) }
{
    let raw = Raw::read(alloc, text, texts)?;
    cells.push((at, raw))?;
    Ok(())
}
