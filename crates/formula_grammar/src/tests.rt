//! Formulas with what they are printed as, and with the place and number of their fault.
ghost use Rattle.std.specs.Prelude.{◌≡◌, true, IfOk, string_bytes};
ghost use Rattle.cell_values.specs.Addresses.{IsOnSheet};
ghost use Rattle.formula_tokens.specs.Words.{begins_with};

use crate::{FormulaFault, print_formula, read_formula};
use cell_values::{Addr, SheetNames, Texts};
use formula_trees::shift::shift;
use std::alloc::{AllocError, Global};
use std::process::Abort;
use std::test::Fail;

/// The formula's cell: C3 of the first sheet.
const HERE: Addr = Addr {
    sheet: 0,
    row: 3,
    col: 3,
};

/// The cell that it is copied to: D1.
const THERE: Addr = Addr {
    sheet: 0,
    row: 1,
    col: 4,
};

/// Formulas with the place and the number of their first fault.
const FAULTY: &str = "
    = => 1 2
    =1.5 => 2 1
    =FOO(1) => 1 3
    =SUM() => 5 5
    =NOT(1,2) => 6 5
    =A1:A2 => 3 2
    =A65537 => 1 10
    =SUM(A1 => 7 2
    =1+ => 3 2
    =1+* => 3 2
    =1 2 => 3 2
    =(1 => 3 2
    =(1)) => 4 2
    =() => 2 2
    =) => 1 2
    =, => 1 2
    =1,2 => 2 2
    =*1 => 1 2
    =1++ => 4 2
    =-- => 3 2
    =1==2 => 3 2
    =1<>=2 => 4 2
    =1=<2 => 3 2
    =\"a => 1 1
    =\"a\"\"b => 1 1
    =1+\"a => 3 1
    ='abc' => 1 1
    ='abc => 1 1
    =#REF => 1 1
    =#ref! => 1 1
    =1;2 => 2 1
    =A1! => 1 9
    =1? => 2 1
    =& => 1 2
    =&1 => 1 2
    =1& => 3 2
    =1&&2 => 3 2
    =1&*2 => 3 2
    =1&=2 => 3 2
    =A1:A2&1 => 3 2
    =SUM(A1:A2&1) => 10 2
    =1&FOO => 3 3
    =é => 1 1
    =(1.5 => 3 1
    =FOO => 1 3
    =total+1 => 1 3
    =1 FOO => 3 2
    =A1B => 1 3
    =$A => 1 3
    =A$ => 1 3
    =$ => 1 3
    =_x => 1 3
    =TRUE(1) => 1 3
    =A1(1) => 1 3
    =FOO (1) => 1 3
    =SUM => 1 3
    =SUM+1 => 1 3
    =170141183460469231731687303715884105728 => 1 4
    =1 170141183460469231731687303715884105728 => 3 2
    =-170141183460469231731687303715884105728 => 2 4
    =MATCH(1,A1:A2,1) => 15 2
    =MATCH(1,A1:A2,170141183460469231731687303715884105728) => 15 2
    =IF(1) => 5 5
    =IF(1,2,3,4) => 9 5
    =IF(1,2,3,) => 9 5
    =IF(1,) => 6 2
    =MOD(1) => 6 5
    =MOD(1,2,3) => 8 5
    =ABS() => 5 5
    =LEFT() => 6 5
    =LEFT(1,2,3) => 9 5
    =LEFT(A1:A2) => 8 2
    =RIGHT() => 7 5
    =RIGHT(1,2,3) => 10 5
    =MID(1,2) => 8 5
    =MID(1,2,3,4) => 10 5
    =LEN() => 5 5
    =LEN(1,2) => 6 5
    =LEN => 1 3
    =LEFTS(1) => 1 3
    =INDEX(A1,1) => 11 5
    =INDEX(1,1,1) => 7 2
    =INDEX((A1),1,1) => 7 2
    =INDEX(A1+1,1,1) => 9 2
    =VLOOKUP(1,A1:B2) => 16 5
    =VLOOKUP(1,2,3) => 11 2
    =VLOOKUP(1,A1:B2,1,TRUE) => 19 2
    =IF(A1:A2,1,2) => 6 2
    =SUM(A1:) => 8 2
    =SUM(A1:1) => 8 2
    =SUM(A1:A2:A3) => 10 2
    =SUM(A1:A2+1) => 10 2
    =SUM((A1:A2)) => 8 2
    =SUM(A1:Sheet1!A2) => 8 2
    =SUM(A1:B65536) => 8 8
    =SUM(A1:A65537) => 8 8
    =SUM(A1:IW1) => 8 10
    =SUM(A65537:A1) => 5 10
    =SUM(A0:A1) => 5 10
    =IW1 => 1 10
    =A0 => 1 10
    =ZZZZZZZZZZZZ1 => 1 10
    =A99999999999999999999 => 1 10
    =Sheet1 !A1 => 1 10
    =Data !A1 => 1 3
    =Plan!A1 => 1 9
    =sheet1!A1 => 1 9
    =''!A1 => 1 9
    =Plan!FOO => 1 9
    =Sheet1!FOO => 8 3
    =Sheet1!SUM(1) => 8 2
    =Sheet1!TRUE => 8 2
    =Sheet1! A1 => 9 2
    =Sheet1!1 => 8 2
    =Sheet1! => 8 2
    =Sheet1!Sheet1!A1 => 8 2
    =Sheet1!A65537 => 8 10
    =1 Plan!A1 => 3 2
    =FOO(1.5) => 1 3
    =SUM(FOO(1),1.5) => 5 3
    =SUM(1.5,FOO(1)) => 6 1
    =IF(1,FOO,3,4) => 6 3
";

/// Formulas, and how they are printed.
const PRINTED: &str = "
    =-(a1+$B$2)*2 => =-(A1+$B$2)*2
    = 1 + 2 => =1+2
    =((1)) => =1
    =1-(2-3) => =1-(2-3)
    =(1-2)-3 => =1-2-3
    =1-2-3 => =1-2-3
    =(1+2)*3 => =(1+2)*3
    =1+(2*3) => =1+2*3
    =6/(2*3) => =6/(2*3)
    =-(-1) => =--1
    =-(1) => =-1
    =-(1*2) => =-(1*2)
    =(-1)*2 => =-1*2
    =-ABS(1) => =-ABS(1)
    =+-+1 => =+-+1
    =1<2<3 => =1<2<3
    =1<(2<3) => =1<(2<3)
    =(1=2)<>(3>=4) => =1=2<>(3>=4)
    =1<=2>3 => =1<=2>3
    =1&2&3 => =1&2&3
    =1&(2&3) => =1&(2&3)
    =(1&2)&3 => =1&2&3
    =1+2&3-4 => =1+2&3-4
    =(1+2)&(3-4) => =1+2&3-4
    =1+(2&3) => =1+(2&3)
    =(1&2)+3 => =(1&2)+3
    =(1&2)*3 => =(1&2)*3
    =1*2&3/4 => =1*2&3/4
    =1&2=3&4 => =1&2=3&4
    =(1&2)=(3&4) => =1&2=3&4
    =1&(2=3)&4 => =1&(2=3)&4
    =(1<2)&3 => =(1<2)&3
    =-(1&2) => =-(1&2)
    =-1&-2 => =-1&-2
    = a1 & \" \" & b1 => =A1&\" \"&B1
    =007 => =7
    =170141183460469231731687303715884105727 => =170141183460469231731687303715884105727
    =true => =TRUE
    =False => =FALSE
    =\"say \"\"so\"\"\" => =\"say \"\"so\"\"\"
    =\"\" => =\"\"
    =#REF! => =#REF!
    =sum( a1 : b2 ) => =SUM(A1:B2)
    =SUM(B2:A1) => =SUM(B2:A1)
    =SUM($A1:B$2,$C$3) => =SUM($A1:B$2,$C$3)
    =SUM((A1)) => =SUM(A1)
    =Sheet1!A1+'my plan'!$B2 => =Sheet1!A1+'my plan'!$B2
    ='Sheet1'!A1 => =Sheet1!A1
    =SUM('my plan'!A1:iv256) => =SUM('my plan'!A1:IV256)
    =IF(1,2) => =IF(1,2)
    =IF(1,2,3) => =IF(1,2,3)
    =AND(1) => =AND(1)
    =OR(1,2,3) => =OR(1,2,3)
    =NOT(1) => =NOT(1)
    =CHOOSE(1,2) => =CHOOSE(1,2)
    =CHOOSE(1,2,3) => =CHOOSE(1,2,3)
    =IFERROR(1,2) => =IFERROR(1,2)
    =ISERROR(1) => =ISERROR(1)
    =MIN(1,A1:A2) => =MIN(1,A1:A2)
    =MAX(A1) => =MAX(A1)
    =COUNT(1,2) => =COUNT(1,2)
    =ABS(1) => =ABS(1)
    =left(A1) => =LEFT(A1)
    =LEFT(A1,2) => =LEFT(A1,2)
    =Right(\"abc\") => =RIGHT(\"abc\")
    =RIGHT(A1&B1,1+1) => =RIGHT(A1&B1,1+1)
    =MID(A1,2,3) => =MID(A1,2,3)
    =len(A1&B1) => =LEN(A1&B1)
    =MOD(1,2) => =MOD(1,2)
    =QUOTIENT(1,2) => =QUOTIENT(1,2)
    =INDEX(A1:B2,1,2) => =INDEX(A1:B2,1,2)
    =INDEX(#REF!,1,2) => =INDEX(#REF!,1,2)
    =MATCH(1,A1) => =MATCH(1,A1)
    =MATCH(1,A1:A2,00) => =MATCH(1,A1:A2,0)
    =VLOOKUP(1,A1:B2,2) => =VLOOKUP(1,A1:B2,2)
    =VLOOKUP(1,A1:B2,2,false) => =VLOOKUP(1,A1:B2,2,FALSE)
    =HLOOKUP(1,A1:B2,2) => =HLOOKUP(1,A1:B2,2)
    =HLOOKUP(1,A1:B2,2,0) => =HLOOKUP(1,A1:B2,2,0)
    =IF(SUM(A1:A2)>MAX(1,2),IFERROR(1/0,\"x\"),-ABS(-3)) => =IF(SUM(A1:A2)>MAX(1,2),IFERROR(1/0,\"x\"),-ABS(-3))
";

/// Formulas of C3, and the same copied to D1.
const COPIED: &str = "
    =A1 => =#REF!
    =C2+1 => =#REF!+1
    =C4 => =D2
    =$A$1+C4 => =$A$1+D2
    =C$2&LEFT($A$1,C5) => =D$2&LEFT($A$1,D3)
    =C$2 => =D$2
    =$C4 => =$C2
    =SUM(A3:C3) => =SUM(B1:D1)
    =SUM(A1:C3) => =SUM(#REF!)
    =SUM($C$1:C65536) => =SUM(#REF!)
    =IF(-C4>1,'my plan'!C5,\"x\") => =IF(-D2>1,'my plan'!D3,\"x\")
";

fn sheets(alloc: Global) -> Result<SheetNames, AllocError> {
    let mut files = Vec::new(alloc);
    files.push(String::from_str(alloc, "Sheet1")?)?;
    files.push(String::from_str(alloc, "my plan")?)?;
    match SheetNames::new(alloc, &files) {
        Ok(names) => Ok(names),
        Err(_) => Err(AllocError),
    }
}

/// A formula of a table, which begins with `=`.
fn formula(alloc: Global, line: &str) -> Result<String, AllocError>
    ensures { IfOk result (λ text. begins_with 61 (string_bytes text) ≡ true) }
{
    let mut text = String::from_str(alloc, "=")?;
    text.push_str(line.strip_prefix('=').unwrap_or(line))?;
    Ok(text)
}

fn expect_fault(
    rt: &impl Abort,
    alloc: Global,
    text: &str,
    place: u32,
    number: u8,
) -> Result<(), AllocError> {
    let names = sheets(alloc)?;
    let mut texts = Texts::new(alloc);
    match read_formula(alloc, &formula(alloc, text)?, HERE, &names, &mut texts) {
        Ok(_) => assert!(rt; false, "{text} is read"),
        Err(FormulaFault::Bad { place: at, kind }) => {
            assert_eq!(rt; (at, kind.number()), (place, number), "at {text}");
        }
        Err(FormulaFault::OutOfMemory) => assert!(rt; false, "no memory at {text}"),
    }
    Ok(())
}

fn expect_printed(
    rt: &impl Abort,
    alloc: Global,
    text: &str,
    want: &str,
) -> Result<(), AllocError> {
    let names = sheets(alloc)?;
    let mut texts = Texts::new(alloc);
    match read_formula(alloc, &formula(alloc, text)?, HERE, &names, &mut texts) {
        Ok(tree) => {
            let printed = print_formula(alloc, &tree, HERE, &names, &texts)?;
            assert_eq!(rt; printed.as_str(), want, "at {text}");
        }
        Err(_) => assert!(rt; false, "{text} is refused"),
    }
    Ok(())
}

#[test]
fn tells_the_first_fault(rt: HostRuntime) -> Result<(), Fail> {
    let mut ran: usize = 0;
    for line in FAULTY.lines() {
        if let Some((text, fault)) = line.trim_start().rsplit_once(" => ") {
            if let Some((place, number)) = fault.split_once(' ') {
                let place = place.parse().unwrap_or(u32::MAX);
                expect_fault(&rt, rt.alloc(), text, place, number.parse().unwrap_or(0))?;
                ran = ran.saturating_add(1);
            }
        }
    }
    assert_eq!(rt; ran, 122);
    Ok(())
}

#[test]
fn prints_what_is_read(rt: HostRuntime) -> Result<(), Fail> {
    let mut ran: usize = 0;
    for line in PRINTED.lines() {
        if let Some((text, want)) = line.trim_start().split_once(" => ") {
            expect_printed(&rt, rt.alloc(), text, want)?;
            expect_printed(&rt, rt.alloc(), want, want)?;
            ran = ran.saturating_add(1);
        }
    }
    assert_eq!(rt; ran, 79);
    Ok(())
}

fn expect_copied(
    rt: &impl Abort,
    alloc: Global,
    from: Addr,
    text: &str,
    to: Addr,
    want: &str,
) -> Result<(), AllocError>
    requires from { IsOnSheet from }
    requires to { IsOnSheet to }
{
    let names = sheets(alloc)?;
    let mut texts = Texts::new(alloc);
    match read_formula(alloc, &formula(alloc, text)?, from, &names, &mut texts) {
        Ok(tree) => {
            let copy = shift(alloc, &tree, from, to)?;
            let wanted = read_formula(alloc, &formula(alloc, want)?, to, &names, &mut texts);
            assert_eq!(rt; wanted.ok(), Some(copy), "at {text}");
        }
        Err(_) => assert!(rt; false, "{text} is refused"),
    }
    Ok(())
}

#[test]
fn copies_keep_offsets_and_absolute_parts(rt: HostRuntime) -> Result<(), Fail> {
    let mut ran: usize = 0;
    for line in COPIED.lines() {
        if let Some((text, want)) = line.trim_start().split_once(" => ") {
            expect_copied(&rt, rt.alloc(), HERE, text, THERE, want)?;
            ran = ran.saturating_add(1);
        }
    }
    assert_eq!(rt; ran, 11);
    let from = Addr {
        sheet: 0,
        row: 2,
        col: 2,
    };
    let to = Addr {
        sheet: 0,
        row: 1,
        col: 3,
    };
    expect_copied(&rt, rt.alloc(), from, "=A1", to, "=#REF!")?;
    Ok(())
}

/// `=`, a part so many times, and an end.
fn repeated(alloc: Global, part: &str, times: usize, end: &str) -> Result<String, AllocError> {
    let mut text = String::from_str(alloc, "=")?;
    for _ in 0..times {
        text.push_str(part)?;
    }
    text.push_str(end)?;
    Ok(text)
}

#[test]
fn keeps_the_limits(rt: HostRuntime) -> Result<(), Fail> {
    let alloc = rt.alloc();
    let closed = repeated(alloc, ")", 32, "")?;
    let deep = repeated(alloc, "(", 32, "1")?;
    let deep = format!(in alloc; "{deep}{}", closed.trim_start_matches('='))?;
    let signs = repeated(alloc, "-", 32, "1")?;
    let many = repeated(alloc, "1+", 255, "-1")?;
    let long = repeated(alloc, " ", 1022, "1")?;
    let names = sheets(alloc)?;
    for text in [deep, signs, many, long] {
        let tree = read_formula(
            alloc,
            &formula(alloc, &text)?,
            HERE,
            &names,
            &mut Texts::new(alloc),
        );
        assert!(rt; tree.is_ok(), "{text} is refused");
    }
    for (part, times, end, place, number) in [
        ("(", 33, "1", 33, 6),
        ("-", 33, "1", 33, 6),
        ("ABS(", 33, "1", 132, 6),
        ("1+", 256, "1", 513, 7),
        ("1+", 255, "--1", 513, 7),
        (" ", 1023, "1", 0, 7),
    ] {
        let text = repeated(alloc, part, times, end)?;
        expect_fault(&rt, alloc, &text, place, number)?;
    }
    Ok(())
}
