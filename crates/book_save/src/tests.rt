//! Books saved and read back, and rows worked out by hand from the rules of CSV.
ghost use Rattle.std.specs.Prelude.{◌≡◌, ◌<◌, ◌≤◌, length, IfOk};

use crate::{SaveFault, save_sheet};
use cell_values::{Addr, Area, SheetNames};
use sheet_loading::load_sheets;
use std::alloc::Global;
use std::test::Fail;
use workbook_core::Workbook;

/// The names `a` and `b`.
fn two_names(alloc: Global) -> Result<SheetNames, Fail>
    ensures { IfOk result (λ names. length names ≡ 2) }
{
    let files = vec![in alloc;
        String::from_str(alloc, "a.csv")?,
        String::from_str(alloc, "b.csv")?,
    ]?;
    Ok(SheetNames::new(alloc, &files)?)
}

/// A workbook of the sheets `a`, with these bytes, and `b`, which is empty.
fn loaded(alloc: Global, bytes: &str) -> Result<Workbook, Fail>
    ensures { IfOk result (λ book. length book.names ≡ 2) }
{
    let mut first = Vec::new(alloc);
    first.extend_from_slice(bytes.as_bytes())?;
    let sheets = vec![in alloc; first]?;
    match load_sheets(alloc, two_names(alloc)?, &sheets) {
        Ok(book) => Ok(book),
        Err(_) => Err("refused")?,
    }
}

/// The saved rows of a sheet, one after the other, or the cell whose formula is too long.
fn saved(alloc: Global, book: &Workbook, sheet: u8) -> Result<Result<Vec<u8>, Addr>, Fail>
    requires { sheet < length book.now.names }
{
    let rows = match save_sheet(alloc, book, sheet) {
        Ok(rows) => rows,
        Err(SaveFault::TooLong(at)) => return Ok(Err(at)),
        Err(SaveFault::OutOfMemory) => Err("no memory")?,
    };
    let mut all = Vec::new(alloc);
    for row in rows.rows() {
        all.extend_from_slice(row)?;
    }
    Ok(Ok(all))
}

/// What is saved of a sheet that is loaded from these bytes.
fn saved_again(alloc: Global, bytes: &str) -> Result<Vec<u8>, Fail> {
    let book = loaded(alloc, bytes)?;
    match saved(alloc, &book, 0)? {
        Ok(rows) => Ok(rows),
        Err(_) => Err("too long")?,
    }
}

#[test]
fn saves_what_cells_hold(rt: HostRuntime) -> Result<(), Fail> {
    let alloc = rt.alloc();
    let mut count: u32 = 0;
    for (bytes, want) in [
        (
            "7,=$A$1+A1\n8,=$A$1+A2\n'=x",
            "7,=$A$1+A1\n8,=$A$1+A2\n'=x,\n",
        ),
        ("\"1,5\",'TRUE,'", "\"1,5\",'TRUE,'\n"),
        ("''x,'12,-7,TRUE,true", "''x,'12,-7,TRUE,true\n"),
        (
            "'=1,\"say \"\"hi\"\"\",\"c\nd\"",
            "'=1,\"say \"\"hi\"\"\",\"c\nd\"\n",
        ),
        ("'\u{feff}x,\u{feff}y", "'\u{feff}x,'\u{feff}y\n"),
        ("\"\"\n\"\",\n,1\n,,", ",\n,\n,1\n"),
        ("\"\"\n1", "\"\"\n1\n"),
        ("", ""),
        ("\"=sum( a1 , (2) )\",007", "\"=SUM(A1,2)\",7\n"),
    ] {
        let got = saved_again(alloc, bytes)?;
        assert_eq!(rt; got.as_slice(), want.as_bytes(), "at {bytes}");
        count = count.saturating_add(1);
    }
    assert_eq!(rt; count, 9);
    Ok(())
}

/// `B9` of a sheet whose other cells are empty: a formula of 1,024 bytes that names `A9`.
fn longest(alloc: Global) -> Result<String, Fail> {
    let mut bytes = String::new(alloc);
    for _ in 0..8 {
        bytes.push_str("\"\"\n")?;
    }
    bytes.push_str(",\"=A9=\"\"")?;
    for _ in 0..1018 {
        bytes.push('x')?;
    }
    bytes.push_str("\"\"\"")?;
    Ok(bytes)
}

/// Copies `B9` of the first sheet into a row of a sheet: from row 10 on it has a byte more.
#[tactic(auto, unfolding(cell_values::specs::Areas::height, cell_values::specs::Areas::width))]
fn copy_to(alloc: Global, book: &mut Workbook, sheet: u8, row: u32) -> Result<(), Fail>
    requires sheet { sheet < length book.old.names }
    requires from { 1 ≤ row }
    requires to { row ≤ 99 }
    ensures { book.new.names ≡ book.old.names }
{
    let from = Addr {
        sheet: 0,
        row: 9,
        col: 2,
    };
    let to = Area {
        sheet,
        top: row,
        left: 2,
        bottom: row,
        right: 2,
    };
    book.copy(alloc, from, to)?;
    Ok(())
}

#[test]
fn refuses_a_formula_that_is_too_long(rt: HostRuntime) -> Result<(), Fail> {
    let alloc = rt.alloc();
    let bytes = longest(alloc)?;
    let mut book = loaded(alloc, &bytes)?;
    copy_to(alloc, &mut book, 1, 11)?;
    copy_to(alloc, &mut book, 1, 10)?;
    let first = saved(alloc, &book, 0)?;
    assert!(rt; first.is_ok_and(|rows| rows.len() == 16 + 1030));
    let second = saved(alloc, &book, 1)?;
    assert_eq!(rt;
        second.err(),
        Some(Addr {
            sheet: 1,
            row: 10,
            col: 2,
        })
    );
    Ok(())
}
