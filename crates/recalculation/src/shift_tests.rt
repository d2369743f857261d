//! Small workbooks whose rows are inserted and deleted, against the definition.

ghost use Rattle.std.specs.Prelude.{◌≡◌, ◌<◌, length, OnOk, IfOk};
ghost use Rattle.row_shift.specs.Moves.{IsChange};

use super::*;
use crate::round_tests::shows_as_defined;
use crate::tests::{make, one_sheet};
use cell_values::Addr;
use row_shift::RowChange;
use std::alloc::Global;
use std::marker::Sync;
use std::process::Abort;
use std::test::Fail;
use std::thread::Threads;

/// How many workbooks are made.
const BOOKS: u32 = 200;

/// A number below another, from numbers that look random.
fn roll(dice: &mut u32, sides: u32) -> u32
    requires { 0 < sides }
    ensures { result < sides }
{
    *dice = dice.wrapping_mul(1_664_525).wrapping_add(1_013_904_223);
    (*dice >> 16) % sides
}

/// A field by its number.
fn field(number: u32) -> &'static str {
    match number {
        0 => "5",
        1 => "-2",
        2 => "x",
        3 => "=A1",
        4 => "=A2+B1",
        5 => "=SUM(A1:B3)",
        6 => "=B$2*2",
        7 => "=SUM($A$1:A4)-1",
        8 => "=IF(A1>1,B2,C3)",
        9 => "=COUNT(C5:A2)",
        10 => "=IFERROR(C4,7)",
        11 => "=INDEX(A1:C6,2,1)",
        _ => "",
    }
}

/// Puts a field into one of the first cells.
fn put_any(rt: &impl Abort, calc: &mut Calc, dice: &mut u32) -> Result<(), Fail>
    requires { length calc.old.shared.names ≡ 1 }
    ensures { length calc.new.shared.names ≡ 1 }
{
    let at = Addr {
        sheet: 0,
        row: roll(dice, 6) + 1,
        col: roll(dice, 3) as u16 + 1,
    };
    let raw = calc.read_raw(field(roll(dice, 13)))?;
    if let Err(fault) = calc.edit(&Edit::Put(at, raw)) {
        panic!(rt; "{at:?}: {fault:?}");
    }
    Ok(())
}

/// Some rows near the first ones, to be inserted or deleted.
fn any_rows(dice: &mut u32) -> RowChange
    ensures { IsChange result }
{
    let row = roll(dice, 7) + 1;
    let count = roll(dice, 2) + 1;
    if roll(dice, 2) == 0 {
        RowChange::Insert {
            sheet: 0,
            row,
            count,
        }
    } else {
        RowChange::Delete {
            sheet: 0,
            row,
            count,
        }
    }
}

/// Inserts or deletes rows.
fn shift_any(rt: &impl Abort, calc: &mut Calc, dice: &mut u32)
    requires { length calc.old.shared.names ≡ 1 }
    ensures { length calc.new.shared.names ≡ 1 }
{
    let change = any_rows(dice);
    if let Err(fault) = calc.shift_rows(change) {
        panic!(rt; "{change:?}: {fault:?}");
    }
}

/// A recalculation, an edit, two changes of rows and one more recalculation. Then each formula cell shows what rounds over
/// the whole workbook give.
fn one_turn<R: Abort + Threads + Sync>(
    rt: &R,
    alloc: Global,
    calc: &mut Calc,
    dice: &mut u32,
) -> Result<u32, Fail>
    requires { length calc.old.shared.names ≡ 1 }
    ensures { OnOk result (length calc.new.shared.names ≡ 1) }
{
    calc.recalculate(rt, 2, &NoPace)?;
    put_any(rt, calc, dice)?;
    shift_any(rt, calc, dice);
    shift_any(rt, calc, dice);
    calc.recalculate(rt, 1, &NoPace)?;
    shows_as_defined(rt, alloc, calc)
}

/// A workbook of some cells.
fn some_book(rt: &impl Abort, alloc: Global, dice: &mut u32) -> Result<Calc, Fail>
    ensures { IfOk result (λ calc. length calc.shared.names ≡ 1) }
{
    let mut calc = one_sheet(alloc)?;
    for _ in 0..14 {
        put_any(rt, &mut calc, dice)?;
    }
    Ok(calc)
}

/// Three turns with a workbook. So many formula cells were looked at.
fn one_book<R: Abort + Threads + Sync>(rt: &R, alloc: Global, dice: &mut u32) -> Result<u32, Fail> {
    let mut calc = some_book(rt, alloc, dice)?;
    let first = one_turn(rt, alloc, &mut calc, dice)?;
    let second = one_turn(rt, alloc, &mut calc, dice)?;
    Ok(first.saturating_add(second))
}

#[test]
fn shifted_workbooks_show_what_they_mean(rt: HostRuntime) -> Result<(), Fail> {
    let mut dice: u32 = 1;
    let mut books: u32 = 0;
    let mut cells: u32 = 0;
    for _ in 0..BOOKS {
        let looked = one_book(&rt, rt.alloc(), &mut dice)?;
        cells = cells.saturating_add(looked);
        books = books.saturating_add(1);
    }
    assert_eq!(rt; books, BOOKS);
    assert!(rt; cells > BOOKS);
    Ok(())
}

// After rows are inserted one formula of two has lost nothing and stays; a cell that is pushed out is refused.
#[test]
fn an_untouched_formula_is_not_asked_again(rt: HostRuntime) -> Result<(), Fail> {
    let mut calc = one_sheet(rt.alloc())?;
    make(&mut calc, "set A1 1")?;
    make(&mut calc, "set B1 =A1+1")?;
    make(&mut calc, "set B2 =SUM(A1:A2)")?;
    calc.recalculate(&rt, 1, &NoPace)?;
    let change = RowChange::Insert {
        sheet: 0,
        row: 2,
        count: 1,
    };
    assert!(rt; calc.shift_rows(change).is_ok());
    let summary = calc.recalculate(&rt, 1, &NoPace)?;
    assert_eq!(rt; summary.pending, 1);
    let far = RowChange::Insert {
        sheet: 0,
        row: 3,
        count: 65_534,
    };
    assert_eq!(rt; calc.shift_rows(far), Err(ShiftFault::RowsFull));
    Ok(())
}
