//! Sheets with what is loaded of them, and with what they are refused for.
ghost use Rattle.std.specs.Prelude.{◌≡◌, length, IfOk};

use crate::{FieldFault, Loader, SHEET_BYTES, SheetRefusal, SheetsFault, load_sheets};
use cell_values::SheetNames;
use std::alloc::{AllocError, Global};
use std::test::Fail;
use workbook_core::{Content, Workbook};

/// The names `a` and `b`.
fn two_names(alloc: Global) -> Result<SheetNames, Fail>
    ensures { IfOk result (λ names. length names ≡ 2) }
{
    let files = vec![in alloc;
        String::from_str(alloc, "a.csv")?,
        String::from_str(alloc, "b.csv")?,
    ]?;
    Ok(SheetNames::new(alloc, &files)?)
}

/// What the cells hold, in order: of a formula the sheet, row and column of the first cell that it names.
fn cells(alloc: Global, book: &Workbook) -> Result<String, AllocError> {
    let mut all = String::new(alloc);
    let mut after = None;
    for _ in 0..book.count() {
        let Some(at) = book.next_cell(after) else {
            break;
        };
        let held = match book.content(at) {
            None => String::from_str(alloc, "nothing")?,
            Some(Content::Number(n)) => format!(in alloc; "number {n}")?,
            Some(Content::Text(id)) => format!(in alloc; "text {}", id.0)?,
            Some(Content::Bool(b)) => format!(in alloc; "bool {b}")?,
            Some(Content::Formula(id)) => match book.pool().area(id, at, 0) {
                Some(area) => {
                    format!(in alloc; "formula {} {} {}", area.sheet, area.top, area.left)?
                }
                None => String::from_str(alloc, "formula")?,
            },
        };
        let line = format!(in alloc; "{} {} {} {held};", at.sheet, at.row, at.col)?;
        all.push_str(&line)?;
        after = Some(at);
    }
    Ok(all)
}

/// A fault as a line: the sheet, and what is refused.
fn told(alloc: Global, fault: SheetsFault) -> Result<String, AllocError> {
    match fault {
        SheetsFault::OutOfMemory => String::from_str(alloc, "no memory"),
        SheetsFault::Refused { sheet, why } => match why {
            SheetRefusal::TooLong => format!(in alloc; "{sheet} too long"),
            SheetRefusal::Field { row, col, fault } => {
                let kind = match fault {
                    FieldFault::NotUtf8 => "no UTF-8",
                    FieldFault::OutOfSheet => "outside",
                    FieldFault::TooManyCells => "too many",
                };
                format!(in alloc; "{sheet} field {row} {col} {kind}")
            }
            SheetRefusal::Formula { at, place, kind } => {
                let number = kind.number();
                format!(in alloc;
                    "{sheet} formula {} {} {} at {place}: {number}",
                    at.sheet, at.row, at.col
                )
            }
        },
    }
}

/// The cells of two sheets, or why they are refused.
fn loaded(alloc: Global, first: Vec<u8>, second: Vec<u8>) -> Result<String, Fail> {
    let sheets = vec![in alloc; first, second]?;
    match load_sheets(alloc, two_names(alloc)?, &sheets) {
        Ok(book) => Ok(cells(alloc, &book)?),
        Err(fault) => Ok(told(alloc, fault)?),
    }
}

/// Two sheets, and what they give. A double quote stands as `~` here, and the end of a line as `|`.
const SHEETS: &str = "
    => 
    1 ; 2|,TRUE => 0 1 1 number 1;1 1 1 number 2;1 2 2 bool true;
    x,=b!A1,~=IF(A1=~~lit~~,~~x~~,b!B1)~ ; y,x|=a!A1,lit => 0 1 1 text 0;0 1 2 formula 1 1 1;0 1 3 formula 0 1 1;1 1 1 text 2;1 1 2 text 0;1 2 1 formula 0 1 1;1 2 2 text 1;
    ; ~=IF(A2,~~p~~,~~q~~)~,r => 1 1 1 formula 1 2 1;1 1 2 text 0;
    =1+ ; =2+ => 0 formula 0 1 1 at 3: 2
    =b!A1 ; 7|=c!A1,=1+ => 1 formula 1 2 1 at 1: 9
    ; =1,=B1:,=1+ => 1 formula 1 1 2 at 3: 2
    ; ~=IF(~ => 1 formula 1 1 1 at 4: 2
";

/// A sheet of the table as it is read.
fn spelled(alloc: Global, sheet: &str) -> Result<Vec<u8>, AllocError> {
    let mut text = String::new(alloc);
    for c in sheet.trim().chars() {
        match c {
            '~' => text.push('"')?,
            '|' => text.push('\n')?,
            _ => text.push(c)?,
        }
    }
    Vec::from_slice(alloc, text.as_bytes())
}

#[test]
fn loads_and_refuses(rt: HostRuntime) -> Result<(), Fail> {
    let alloc = rt.alloc();
    for line in SHEETS.lines() {
        let Some((sheets, want)) = line.split_once("=> ") else {
            continue;
        };
        let (first, second) = sheets.split_once(';').unwrap_or((sheets, ""));
        let got = loaded(alloc, spelled(alloc, first)?, spelled(alloc, second)?)?;
        assert_eq!(rt; got.as_str(), want, "at {line}");
    }
    Ok(())
}

#[test]
fn refuses_fields_before_formulas(rt: HostRuntime) -> Result<(), Fail> {
    let alloc = rt.alloc();
    let one = Vec::from_slice(alloc, b"1")?;
    let bad = Vec::from_slice(alloc, b"=1+,\xff")?;
    assert_eq!(rt; loaded(alloc, one, bad)?.as_str(), "1 field 1 2 no UTF-8");

    let one = Vec::from_slice(alloc, b"1")?;
    let mut wide = vec![in alloc; b','; 256]?;
    wide.push(b'x')?;
    assert_eq!(rt; loaded(alloc, one, wide)?.as_str(), "1 field 1 257 outside");
    Ok(())
}

#[test]
fn shares_cells_and_bytes(rt: HostRuntime) -> Result<(), Fail> {
    let alloc = rt.alloc();
    let mut many = Vec::new(alloc);
    for number in 1..200_000u32 {
        many.push(b'1')?;
        many.push(if number % 200 == 0 { b'\n' } else { b',' })?;
    }
    let one_more = Vec::from_slice(alloc, b",5\n,6")?;
    let got = loaded(alloc, many, one_more)?;
    assert_eq!(rt; got.as_str(), "1 field 2 2 too many");

    let three = Vec::from_slice(alloc, b"1,2")?;
    let long = vec![in alloc; b'1'; SHEET_BYTES - 2]?;
    assert_eq!(rt; loaded(alloc, three, long)?.as_str(), "1 too long");
    Ok(())
}

#[test]
fn goes_on_behind_a_refusal(rt: HostRuntime) -> Result<(), Fail> {
    let alloc = rt.alloc();
    let mut loader = Loader::new(alloc, two_names(alloc)?);
    assert_eq!(rt; loader.left(), 67_108_864);
    assert_eq!(rt; loader.add(alloc, b"1,=1+").is_err(), true);
    assert_eq!(rt; (loader.sheet(), loader.left()), (0, 67_108_864));
    assert_eq!(rt; loader.add(alloc, b"1,x"), Ok(()));
    assert_eq!(rt; (loader.sheet(), loader.left()), (1, 67_108_861));
    let book = loader.finish(alloc)?;
    let got = cells(alloc, &book)?;
    assert_eq!(rt; got.as_str(), "0 1 1 number 1;0 1 2 text 0;");
    Ok(())
}
