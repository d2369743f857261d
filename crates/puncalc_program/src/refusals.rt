//! Why a run refuses its words, its files or its script, in words.

ghost use Rattle.std.specs.Prelude.{◌≡◌, ◌<◌, length, IfOk, string_bytes};
ghost use Rattle.cell_values.specs.Addresses.{IsOnSheet};
ghost use Rattle.sheet_loading.specs.Faults.{IsInSheet};
ghost use Rattle.puncalc_program.specs.Refusals.{field_fault_name, formula_fault, line_fault, line_refused, name_refused, refusal_line, sheet_refused};

use crate::names::{cell_name, sheet_name};
use cell_values::SheetNames;
use formula_grammar::FaultKind;
use sheet_loading::{FieldFault, SheetRefusal};
use std::alloc::{AllocError, Global};

/// Why a line of a script is refused.
#[derive(Clone, Copy, Debug, PartialEq, Eq)]
pub enum LineRefusal {
    /// E1: its command is none that there is.
    UnknownCommand,
    /// E2: a cell, an area, a sheet's name or a number in it is missing, has another form or lies outside the sheets, or
    /// something stands behind the command's words.
    BadReference,
    /// E3: it puts a formula with a fault: its place, counted in bytes from 0 at the `=`, and the fault.
    BadFormula(u32, FaultKind),
    /// E4: with it the book would have too many cells.
    TooManyCells,
    /// E5: its bytes are no UTF-8.
    NotUtf8,
    /// E7: it inserts rows that would push a cell that is not empty past the last row.
    RowsFull,
    /// E8: it saves a sheet with a formula that prints to more than 1,024 bytes, and would not be read again.
    FormulaTooLong,
}

/// The line that tells what is refused, with its end.
#[tactic(auto, unfolding(crate::specs::Refusals::refusal_line))]
pub(crate) fn refusal_line(alloc: Global, what: &str) -> Result<String, AllocError>
    ensures { IfOk result (λ line. string_bytes line ≡ refusal_line what.now) }
{
    format!(in alloc; "refused {what}\n")
}

/// A sheet's name is refused: the one with this number, counted from 1.
pub(crate) fn name_refused(alloc: Global, number: usize) -> Result<String, AllocError>
    ensures { IfOk result (λ what. string_bytes what ≡ name_refused number) }
{
    format!(in alloc; "sheet {number}: S5")
}

/// A sheet is refused.
pub(crate) fn sheet_refused(
    alloc: Global,
    names: &SheetNames,
    sheet: u8,
    why: SheetRefusal,
) -> Result<String, AllocError>
    requires sheet { sheet < length names.now }
    requires place { IsInSheet sheet why }
    ensures { IfOk result (λ what. string_bytes what ≡ sheet_refused names.now sheet why) }
{
    match why {
        SheetRefusal::TooLong => {
            let name = sheet_name(alloc, names, sheet)?;
            format!(in alloc; "{name}: S4")
        }
        SheetRefusal::Field { row, col, fault } => {
            let mut what = sheet_name(alloc, names, sheet)?;
            write!(what, " row {row} column {col}: ")?;
            what.push_str(field_fault_name(fault))?;
            Ok(what)
        }
        SheetRefusal::Formula { at, place, kind } => {
            let mut what = cell_name(alloc, names, at)?;
            what.push_str(&formula_fault(alloc, place, kind)?)?;
            Ok(what)
        }
    }
}

fn field_fault_name(fault: FieldFault) -> &'static str
    ensures { result.now ≡ field_fault_name fault }
{
    match fault {
        FieldFault::NotUtf8 => "S1",
        FieldFault::OutOfSheet => "S2",
        FieldFault::TooManyCells => "S3",
    }
}

fn formula_fault(alloc: Global, place: u32, kind: FaultKind) -> Result<String, AllocError>
    ensures { IfOk result (λ text. string_bytes text ≡ formula_fault place kind) }
{
    let number = kind.number();
    let mut text = String::from_str(alloc, " at ")?;
    write!(text, "{place}: F{number}")?;
    Ok(text)
}

/// A line is refused: the one with this number, counted from 1.
pub(crate) fn line_refused(
    alloc: Global,
    number: usize,
    why: LineRefusal,
) -> Result<String, AllocError>
    ensures { IfOk result (λ what. string_bytes what ≡ line_refused number why) }
{
    let fault = line_fault(alloc, why)?;
    format!(in alloc; "line {number}{fault}")
}

/// What is wrong with a line.
pub(crate) fn line_fault(alloc: Global, why: LineRefusal) -> Result<String, AllocError>
    ensures { IfOk result (λ text. string_bytes text ≡ line_fault why) }
{
    match why {
        LineRefusal::UnknownCommand => String::from_str(alloc, ": E1"),
        LineRefusal::BadReference => String::from_str(alloc, ": E2"),
        LineRefusal::BadFormula(place, kind) => formula_fault(alloc, place, kind),
        LineRefusal::TooManyCells => String::from_str(alloc, ": E4"),
        LineRefusal::NotUtf8 => String::from_str(alloc, ": E5"),
        LineRefusal::RowsFull => String::from_str(alloc, ": E7"),
        LineRefusal::FormulaTooLong => String::from_str(alloc, ": E8"),
    }
}
