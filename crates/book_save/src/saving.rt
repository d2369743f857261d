//! Sheets as rows.

ghost use Rattle.std.specs.Prelude.{◌≡◌, ◌<◌, ◌+◌, ◌++◌, [], ◌∷◌, None, All, IfOk, IfErr, OnOk, length, map, string_bytes, vec_len};
ghost use Rattle.demand_spec.specs.Sheets.{last_column, last_row};
ghost use Rattle.workbook_core.specs.Books.{IsWorkbook};
ghost use Rattle.book_save.specs.Rows.{AreUtf8, first_long, first_long_at, places, row_fields, row_places, saved_row, saved_rows, HaveUtf8, IsSaveFault};

use crate::fields::saved_cell;
use crate::{SaveFault, SavedRows};
use cell_values::Addr;
use sheet_csv::write_row;
use std::alloc::{AllocError, Global};
use workbook_core::Workbook;

/// The rows of a sheet, with what its cells hold in place of what they show: a text that would be read as something
/// else stands behind a `'`, and a formula is printed. A sheet with a formula that prints to more than 1,024 bytes,
/// which would not be read again, is refused at the first such cell.
pub fn save_sheet(alloc: Global, book: &Workbook, sheet: u8) -> Result<SavedRows, SaveFault>
    requires { sheet < length book.now.names }
    ensures rows { IfOk result (λ saved. saved ≡ saved_rows book.now.names book.now.book sheet) }
    ensures utf8 { OnOk result (AreUtf8 book.now.names book.now.book sheet) }

    // Which of the two answers comes, want of memory apart: a sheet is refused exactly where it has a formula that
    // is too long.
    ensures short { OnOk result (first_long book.now.names book.now.book sheet ≡ None) }
    ensures fault { IfErr result (IsSaveFault (first_long book.now.names book.now.book sheet)) }
    ensures workbook { IsWorkbook book.now }
{
    tell_cells(book);
    match book.extent(sheet) {
        Some((rows, columns)) => rows_to(alloc, book, sheet, rows, columns),
        None => Ok(no_rows(alloc)),
    }
}

fn no_rows(alloc: Global) -> SavedRows
    ensures { result ≡ [] }
{
    SavedRows::new(Vec::new(alloc))
}

/// What all workbooks keep: a look at a cell tells it.
fn tell_cells(book: &Workbook)
    ensures { IsWorkbook book.now }
{
    let _content = book.content(Addr {
        sheet: 0,
        row: 1,
        col: 1,
    });
}

/// The first rows of a sheet, to the last row and column.
fn rows_to(
    alloc: Global,
    book: &Workbook,
    sheet: u8,
    rows: u32,
    columns: u16,
) -> Result<SavedRows, SaveFault>
    requires rows { rows ≡ last_row sheet book.now.book.cells }
    requires columns { columns ≡ last_column sheet book.now.book.cells }
    requires some { 0 < columns }
    ensures rows { IfOk result (λ saved. saved ≡ saved_rows book.now.names book.now.book sheet) }
    ensures utf8 { OnOk result (All (HaveUtf8 book.now.names book.now.book) (places sheet columns rows)) }
    ensures short { OnOk result (first_long_at book.now.names book.now.book (places sheet columns rows) ≡ None) }
    ensures fault { IfErr result (IsSaveFault (first_long_at book.now.names book.now.book (places sheet columns rows))) }
{
    let mut saved = Vec::new(alloc);
    for above in 0..rows {
        let row = saved_row(alloc, book, sheet, above + 1, columns)?;
        add_row(&mut saved, row)?;
    }
    let all = SavedRows::new(saved);
    Ok(all)
}

fn add_row(rows: &mut Vec<Vec<u8>>, row: Vec<u8>) -> Result<(), AllocError>
    ensures { OnOk result (rows.new.items ≡ rows.old.items ++ row ∷ []) }
{
    rows.push(row)?;
    Ok(())
}

/// A row of a sheet, as it is written.
fn saved_row(
    alloc: Global,
    book: &Workbook,
    sheet: u8,
    row: u32,
    columns: u16,
) -> Result<Vec<u8>, SaveFault>
    requires columns { columns ≡ last_column sheet book.now.book.cells }
    requires some { 0 < columns }
    ensures row { IfOk result (λ text. text.items ≡ saved_row book.now.names book.now.book sheet row) }
    ensures utf8 { OnOk result (All (HaveUtf8 book.now.names book.now.book) (row_places sheet columns row)) }
    ensures short { OnOk result (first_long_at book.now.names book.now.book (row_places sheet columns row) ≡ None) }
    ensures fault { IfErr result (IsSaveFault (first_long_at book.now.names book.now.book (row_places sheet columns row))) }
{
    let fields = row_fields(alloc, book, sheet, row, columns)?;
    Ok(write_row(alloc, &fields)?)
}

/// The fields of a row's first cells.
fn row_fields(
    alloc: Global,
    book: &Workbook,
    sheet: u8,
    row: u32,
    columns: u16,
) -> Result<Vec<String>, SaveFault>
    ensures fields { IfOk result (λ fields. map string_bytes fields.items ≡ row_fields book.now.names book.now.book sheet columns row) }
    ensures count { IfOk result (λ fields. vec_len fields ≡ columns) }
    ensures short { OnOk result (first_long_at book.now.names book.now.book (row_places sheet columns row) ≡ None) }
    ensures fault { IfErr result (IsSaveFault (first_long_at book.now.names book.now.book (row_places sheet columns row))) }
{
    let mut fields = Vec::new(alloc);
    for before in 0..columns {
        let at = Addr {
            sheet,
            row,
            col: before + 1,
        };
        let field = saved_cell(alloc, book, at)?;
        add_field(&mut fields, field)?;
    }
    Ok(fields)
}

fn add_field(fields: &mut Vec<String>, field: String) -> Result<(), AllocError>
    ensures items { OnOk result (fields.new.items ≡ fields.old.items ++ field ∷ []) }
    ensures count { OnOk result (vec_len fields.new ≡ vec_len fields.old + 1) }
{
    fields.push(field)?;
    Ok(())
}
