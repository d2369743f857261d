//! Sheets with their cells and faults, worked out by hand from the rules of CSV.

use crate::{SheetFault, read_sheet, write_row};
use cell_values::{Addr, Raw, Texts};
use csv::ReaderBuilder;
use std::alloc::Global;
use std::test::Fail;

/// What a cell was read as.
fn shown(alloc: Global, raw: &Raw) -> Result<String, Fail> {
    Ok(match raw {
        Raw::Nothing => String::from_str(alloc, "nothing")?,
        Raw::Number(n) => format!(in alloc; "number {n}")?,
        Raw::Text(id) => format!(in alloc; "text {}", id.0)?,
        Raw::Bool(b) => format!(in alloc; "bool {b}")?,
        Raw::Formula(text) => format!(in alloc; "formula {}", text.as_str())?,
    })
}

/// The cells of a sheet, or the fault that it is refused by.
fn cells(alloc: Global, bytes: &[u8], room: u32) -> Result<Result<String, SheetFault>, Fail> {
    let mut texts = Texts::new(alloc);
    let cells = match read_sheet(alloc, bytes, 3, room, &mut texts) {
        Ok(cells) => cells,
        Err(fault) => return Ok(Err(fault)),
    };
    let mut all = String::new(alloc);
    for (Addr { sheet, row, col }, raw) in &cells {
        let raw = shown(alloc, raw)?;
        let line = format!(in alloc; "{sheet} {row} {col} {raw};")?;
        all.push_str(&line)?;
    }
    Ok(Ok(all))
}

#[test]
fn reads_cells(rt: HostRuntime) -> Result<(), Fail> {
    let alloc = rt.alloc();
    for (bytes, room, want) in [
        ("1,\n,2", 2, "3 1 1 number 1;3 2 2 number 2;"),
        ("1,\r\n,2\r\n", 9, "3 1 1 number 1;3 2 2 number 2;"),
        (
            "a,b,a\n\n\nTRUE",
            9,
            "3 1 1 text 0;3 1 2 text 1;3 1 3 text 0;3 2 1 bool true;",
        ),
        (
            "\"=A1+1\",\"\"\n\"\",x",
            9,
            "3 1 1 formula =A1+1;3 2 2 text 0;",
        ),
        ("\u{feff}1", 9, "3 1 1 number 1;"),
        ("", 0, ""),
    ] {
        let got = cells(alloc, bytes.as_bytes(), room)?;
        let got = got.ok().ok_or("refused")?;
        assert_eq!(rt; got.as_str(), want, "at {bytes}");
    }
    Ok(())
}

#[test]
fn refuses_by_the_first_fault(rt: HostRuntime) -> Result<(), Fail> {
    let alloc = rt.alloc();
    for (bytes, room, want) in [
        (b"1,\n,2".as_slice(), 1, SheetFault::TooManyCells(2, 2)),
        (b"1,\xff,2".as_slice(), 1, SheetFault::NotUtf8(1, 2)),
        (b",x,\xff".as_slice(), 0, SheetFault::TooManyCells(1, 2)),
        (b"\xff".as_slice(), 0, SheetFault::NotUtf8(1, 1)),
    ] {
        assert_eq!(rt; cells(alloc, bytes, room)?.err(), Some(want));
    }
    Ok(())
}

#[test]
fn keeps_inside_the_sheet(rt: HostRuntime) -> Result<(), Fail> {
    let alloc = rt.alloc();
    for (lines, commas, last, want) in [
        (0, 255, b'x', None),
        (0, 256, b'x', Some(SheetFault::OutOfSheet(1, 257))),
        (0, 256, b'\xff', Some(SheetFault::NotUtf8(1, 257))),
        (65535, 0, b'x', None),
        (65536, 0, b'x', Some(SheetFault::OutOfSheet(65537, 1))),
    ] {
        let mut bytes = Vec::new(alloc);
        for _ in 0..lines {
            bytes.extend_from_slice(b"\"\"\n")?;
        }
        for _ in 0..commas {
            bytes.push(b',')?;
        }
        bytes.push(last)?;
        let room = if want.is_none() { 1 } else { 0 };
        assert_eq!(rt;
            cells(alloc, &bytes, room)?.err(),
            want,
            "{lines} lines and {commas} commas"
        );
    }
    Ok(())
}

/// The fields that are not empty, as the reader of CSV gives them.
fn records(alloc: Global, bytes: &[u8]) -> Result<String, Fail> {
    let reader = ReaderBuilder::new()
        .has_headers(false)
        .flexible(true)
        .from_reader(alloc, bytes);
    let mut all = String::new(alloc);
    for (above, record) in reader.into_byte_records().enumerate() {
        for (before, field) in record?.iter().enumerate() {
            if let [first, ..] = field {
                let line = format!(in alloc;
                    "3 {} {} text {};",
                    above + 1,
                    before + 1,
                    first.saturating_sub(b'a')
                )?;
                all.push_str(&line)?;
            }
        }
    }
    Ok(all)
}

/// Each text of these inputs has its own first letter, in the order of the alphabet.
#[test]
fn agrees_with_the_reader_of_csv(rt: HostRuntime) -> Result<(), Fail> {
    let alloc = rt.alloc();
    for bytes in [
        "a,\"b",
        "a,b\"x\"y,c",
        "\"a\"x\"y\",b",
        "a\r\nb\rc\nd",
        "a\r\r\n\n\nb\n\r",
        "\u{feff}a,b",
        "a,\"b\r\nx,\"\"y\"\"\",c",
        "a,,\"\",b\n,\n,,c",
        "a\n\"\"\n,,b,",
    ] {
        let want = records(alloc, bytes.as_bytes())?;
        assert_eq!(rt;
            cells(alloc, bytes.as_bytes(), 9)?.ok(),
            Some(want),
            "at {bytes}"
        );
    }
    Ok(())
}

#[test]
fn writes_rows(rt: HostRuntime) -> Result<(), Fail> {
    let alloc = rt.alloc();
    for (fields, want) in [
        (["a", "b,c"].as_slice(), "a,\"b,c\"\n"),
        ([""].as_slice(), "\"\"\n"),
        (["", ""].as_slice(), ",\n"),
        (
            ["say \"hi\"", "1", "x\ny", "\r"].as_slice(),
            "\"say \"\"hi\"\"\",1,\"x\ny\",\"\r\"\n",
        ),
        (["'x y"].as_slice(), "'x y\n"),
    ] {
        let mut texts = Vec::new(alloc);
        for field in fields {
            texts.push(String::from_str(alloc, field)?)?;
        }
        assert!(rt; !texts.is_empty());
        let row = write_row(alloc, &texts)?;
        assert_eq!(rt; row.as_slice(), want.as_bytes(), "at {want}");
    }
    Ok(())
}
