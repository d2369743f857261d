//! A table of lines, with what they ask for.

ghost use Rattle.cell_values.specs.Addresses.{IsOnSheet};
ghost use Rattle.cell_values.specs.Areas.{IsArea};
ghost use Rattle.edit_script.specs.Lines.{IsLineOf};

use crate::{Line, LineFault, Rows, read_line};
use cell_values::{Addr, Area, SheetNames};
use std::alloc::{AllocError, Global};
use std::test::Fail;

/// Lines, each with what it asks for where the sheets are `Sheet1`, `my plan`, `2024` and `a:b`. A space at a line's
/// end, or beside another, is written as `~`, and a CR as `^`. The number of a sheet stands before a cell.
const LINES: &str = "
    =>nothing
    ^=>nothing
    #=>nothing
    # set A1 5=>nothing
    #^=>nothing
    ~=>E1
    ~~~=>E1
    ~recalc=>E1
    ~# note=>E1
    frob=>E1
    frob A1=>E1
    Set A1 5=>E1
    SET A1 5=>E1
    sets A1 5=>E1
    set=>E2
    set~=>E2
    set A1=>set 0 A1 []
    set A1~=>set 0 A1 []
    set A1 5=>set 0 A1 [5]
    set A1 5^=>set 0 A1 [5]
    set A1 5^^=>set 0 A1 [5^]
    set a1 5=>set 0 A1 [5]
    set~~~A1 5=>set 0 A1 [5]
    set A1~~=1=>set 0 A1 [~=1]
    set A1 =1+~~=>set 0 A1 [=1+~~]
    set A1 two words=>set 0 A1 [two~words]
    set B2 'my plan'!A1=>set 0 B2 ['my~plan'!A1]
    set Sheet1!B2 x=>set 0 B2 [x]
    set sheet1!B2 x=>E2
    set 'my plan'!B2 x y=>set 1 B2 [x~y]
    set 'my plan'!B2=>set 1 B2 []
    set 'my plan' !B2 x=>E2
    set 'my plan!B2 x=>E2
    set 'no plan'!B2 x=>E2
    set ''!B2 x=>E2
    set 2024!B2 x=>E2
    set '2024'!B2 x=>set 2 B2 [x]
    set 'a:b'!B2 x=>set 3 B2 [x]
    set A0 5=>E2
    set A65537 5=>E2
    set IW1 5=>E2
    set $A$1 5=>E2
    set 1A 5=>E2
    set A1:B2 5=>E2
    set A1\t5=>E2
    set\tA1 5=>E1
    set A1 =B1\t=>set 0 A1 [=B1\t]
    clear=>E2
    clear~=>E2
    clear A1=>clear 0 A1
    clear A1~~=>clear 0 A1
    clear A1 x=>E2
    clear A1:B2=>E2
    clear 'my plan'!IV65536=>clear 1 IV65536
    clear Sheet1!Sheet1!A1=>E2
    copy=>E2
    copy A1=>E2
    copy A1 B1=>copy 0 A1 0 B1:B1
    copy A1~~B1=>E2
    copy~~A1 B1=>copy 0 A1 0 B1:B1
    copy A1 B1~=>copy 0 A1 0 B1:B1
    copy A1 B1 C1=>E2
    copy A1 B2:A1=>copy 0 A1 0 A1:B2
    copy A1 B1:A2=>copy 0 A1 0 A1:B2
    copy A1 B1:=>E2
    copy A1 :B1=>E2
    copy A1 B1:B2:B3=>E2
    copy A1 'my plan'!B1:B2=>copy 0 A1 1 B1:B2
    copy A1 'my plan'!B1:'my plan'!B2=>E2
    copy A1 Sheet1!B1:B2=>copy 0 A1 0 B1:B2
    copy 'a:b'!A1 'a:b'!B1:B3=>copy 3 A1 3 B1:B3
    copy 'a:b'!A1 'a:b'!B1=>copy 3 A1 3 B1:B1
    copy 'my plan'!A1 B1=>copy 1 A1 0 B1:B1
    copy 'my plan'!A1=>E2
    copy A1 A1:A65536=>copy 0 A1 0 A1:A65536
    copy A1 A1:IV256=>copy 0 A1 0 A1:IV256
    copy A1 A1:IV257=>E2
    copy A1 A1:B32769=>E2
    copy A1 A1:A65537=>E2
    show A1=>show 0 A1
    show ZZ1=>E2
    show IV65536=>show 0 IV65536
    show B2=>show 0 B2
    shw B2=>E1
    show=>E2
    show A1 B1=>E2
    show 'a:b'!C3=>show 3 C3
    show Sheet1!~A1=>E2
    print=>print 0
    print~~=>print 0
    print Sheet1=>print 0
    print my plan=>print 1
    print~~my plan~~=>print 1
    print 2024=>print 2
    print a:b=>print 3
    print 'my plan'=>E2
    print sheet1=>E2
    print Sheet1 x=>E2
    save=>save 0
    save~~=>save 0
    save my plan=>save 1
    save a:b~=>save 3
    save 'my plan'=>E2
    save Sheet1 x=>E2
    Save=>E1
    recalc=>recalc
    recalc~~=>recalc
    recalc^=>recalc
    recalc now=>E2
    recalc~^=>recalc
    recalc^~=>E1
    cycles=>cycles
    cycles A1=>E2
    cycle=>E1
    insert 2 1=>insert 0 2 1
    insert 1 65536=>insert 0 1 65536
    insert 65536 65536 my plan=>insert 1 65536 65536
    insert~~9 10 2024~=>insert 2 9 10
    insert 1 1~~=>insert 0 1 1
    insert=>E2
    insert 1=>E2
    insert 0 1=>E2
    insert 1 0=>E2
    insert 65537 1=>E2
    insert 1 65537=>E2
    insert 01 1=>E2
    insert 1 01=>E2
    insert +1 1=>E2
    insert 1 -1=>E2
    insert 1~~1=>E2
    insert A1 1=>E2
    insert 1 1 no plan=>E2
    insert 1 1 'my plan'=>E2
    insert 1 1~~my plan=>E2
    inserts 1 1=>E1
    delete 1 65536=>delete 0 1 65536
    delete 65536 1 a:b=>delete 3 65536 1
    delete 3 65534=>delete 0 3 65534
    delete 3 65535=>E2
    delete 65536 2=>E2
    delete 2 65536 my plan=>E2
    delete 1 1 1=>E2
    delete 1 1 my plan~=>delete 1 1 1
    delete 00 1=>E2
    Delete 1 1=>E1
    whatif A1 1 3 B1=>whatif 0 A1 1 3 0 B1
    whatif A1 -1 0 B1=>whatif 0 A1 -1 2 0 B1
    whatif A1 7 7 A1~=>whatif 0 A1 7 1 0 A1
    whatif 'my plan'!A1 05 6 'a:b'!C3=>whatif 1 A1 5 2 3 C3
    whatif A1 1 1000 B1=>whatif 0 A1 1 1000 0 B1
    whatif A1 1 1001 B1=>E2
    whatif A1 3 2 B1=>E2
    whatif A1 +1 2 B1=>E2
    whatif A1 1 x B1=>E2
    whatif A1 1 2=>E2
    whatif A1 1 B1=>E2
    whatif A1 1 2 B1 C1=>E2
    whatif A1~~1 2 B1=>E2
    whatif A0 1 2 B1=>E2
    whatif A1 170141183460469231731687303715884105727 170141183460469231731687303715884105727 B1=>whatif 0 A1 170141183460469231731687303715884105727 1 0 B1
    whatif A1 170141183460469231731687303715884105727 170141183460469231731687303715884105728 B1=>E2
    whatif A1 -170141183460469231731687303715884105728 170141183460469231731687303715884105727 B1=>E2
    whatif=>E2
    Whatif A1 1 3 B1=>E1
    é=>E1
    set A1 é=>set 0 A1 [é]
    set 'é'!A1 x=>E2
    print é=>E2
";

/// How many lines the table has.
const COUNT: usize = 168;

fn unspelled(alloc: Global, text: &str) -> Result<String, AllocError> {
    let mut line = String::new(alloc);
    for c in text.chars() {
        match c {
            '~' => line.push(' ')?,
            '^' => line.push('\r')?,
            _ => line.push(c)?,
        }
    }
    Ok(line)
}

fn push_cell(alloc: Global, text: &mut String, at: Addr) -> Result<(), AllocError>
    requires { IsOnSheet at }
{
    let cell = at.cell_text(alloc)?;
    write!(text, " {} {cell}", at.sheet)
}

fn push_area(alloc: Global, text: &mut String, area: Area) -> Result<(), AllocError>
    requires { IsArea area }
{
    let first = Addr {
        sheet: area.sheet,
        row: area.top,
        col: area.left,
    };
    let last = Addr {
        sheet: area.sheet,
        row: area.bottom,
        col: area.right,
    };
    push_cell(alloc, text, first)?;
    let last = last.cell_text(alloc)?;
    write!(text, ":{last}")
}

fn push_rows(text: &mut String, word: &str, rows: Rows) -> Result<(), AllocError> {
    text.push_str(word)?;
    write!(text, " {} {} {}", rows.sheet, rows.row, rows.count)
}

/// What a line asks for, as the table spells it.
fn spell(alloc: Global, sheets: &SheetNames, line: &Line) -> Result<String, AllocError>
    requires { IsLineOf sheets.now line.now }
{
    let mut text = String::new(alloc);
    match line {
        Line::Nothing => text.push_str("nothing")?,
        Line::Set(at, field) => {
            text.push_str("set")?;
            push_cell(alloc, &mut text, *at)?;
            let field = field.as_str();
            write!(text, " [{field}]")?;
        }
        Line::Clear(at) => {
            text.push_str("clear")?;
            push_cell(alloc, &mut text, *at)?;
        }
        Line::Copy(from, to) => {
            text.push_str("copy")?;
            push_cell(alloc, &mut text, *from)?;
            push_area(alloc, &mut text, *to)?;
        }
        Line::Show(at) => {
            text.push_str("show")?;
            push_cell(alloc, &mut text, *at)?;
        }
        Line::Print(sheet) => write!(text, "print {sheet}")?,
        Line::Save(sheet) => write!(text, "save {sheet}")?,
        Line::Recalc => text.push_str("recalc")?,
        Line::Cycles => text.push_str("cycles")?,
        Line::Insert(rows) => push_rows(&mut text, "insert", *rows)?,
        Line::Delete(rows) => push_rows(&mut text, "delete", *rows)?,
        Line::WhatIf(at, low, count, target) => {
            text.push_str("whatif")?;
            push_cell(alloc, &mut text, *at)?;
            write!(text, " {low} {count}")?;
            push_cell(alloc, &mut text, *target)?;
        }
    }
    Ok(text)
}

fn spell_fault(fault: LineFault) -> &'static str {
    match fault {
        LineFault::UnknownCommand => "E1",
        LineFault::BadReference => "E2",
        LineFault::NotUtf8 => "E5",
        LineFault::OutOfMemory => "no memory",
    }
}

fn read_as(alloc: Global, sheets: &SheetNames, line: &[u8]) -> Result<String, AllocError> {
    match read_line(alloc, line, sheets) {
        Ok(line) => spell(alloc, sheets, &line),
        Err(fault) => String::from_str(alloc, spell_fault(fault)),
    }
}

fn some_sheets(alloc: Global) -> Result<SheetNames, Fail> {
    let names = vec![in alloc;
        String::from_str(alloc, "Sheet1.csv")?,
        String::from_str(alloc, "x/my plan.csv")?,
        String::from_str(alloc, "2024")?,
        String::from_str(alloc, "a:b")?,
    ]?;
    Ok(SheetNames::new(alloc, &names)?)
}

#[test]
fn reads_lines(rt: HostRuntime) -> Result<(), Fail> {
    let alloc = rt.alloc();
    let sheets = some_sheets(alloc)?;
    let mut count: usize = 0;
    for row in LINES.lines() {
        let Some((line, want)) = row.trim_start_matches(' ').rsplit_once("=>") else {
            continue;
        };
        let line = unspelled(alloc, line)?;
        let want = unspelled(alloc, want)?;
        let got = read_as(alloc, &sheets, line.as_bytes())?;
        assert_eq!(rt; got.as_str(), want.as_str(), "{row}");
        count = count.saturating_add(1);
    }
    assert_eq!(rt; count, COUNT);
    for line in [b"\xFF".as_slice(), b"# \xFF", b"frob \xFF", b"recalc \xC3"] {
        assert_eq!(rt; read_as(alloc, &sheets, line)?.as_str(), "E5");
    }
    Ok(())
}
