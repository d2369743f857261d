//! The reading of a line.

ghost use Rattle.std.specs.Prelude.{◌≡◌, ◌<◌, length, Ok, IfOk, IfErr, IfSome};
ghost use Rattle.edit_script.specs.Lines.{alone, command_in, copy_in, line_in, line_of, or_bad, set_in, trimmed_command, what_if_in, what_if_of, IsFaultOf, IsLineOf};
ghost use Rattle.edit_script.specs.Numbers.{IsRange};
ghost use Rattle.edit_script.specs.Rows.{if_within, rows_in};
ghost use Rattle.edit_script.specs.Targets.{sheet_in, target_in, IsCellOf};
ghost use Rattle.edit_script.specs.declared.line.Line.{Line};
ghost use Rattle.std.specs.Option.{option_map, option_and_then};

use crate::numbers::read_range;
use crate::pieces::{behind_spaces, split_at_mark, without_cr, without_end_spaces};
use crate::rows::{if_within, read_rows};
use crate::targets::{read_area, read_sheet, read_target, split_target};
use crate::{Line, LineFault};
use cell_values::{Addr, FieldText, Int, SheetNames};
use std::alloc::Global;

/// Reads a line of a script: `set`, `clear`, `copy`, `show`, `print`, `save`, `recalc`, `cycles`, `insert`,
/// `delete`, `whatif`, a comment or an empty line.
///
/// The line is without its LF; one CR at its end is dropped. The bytes have to be UTF-8, comments included; then the
/// command has to be one of these, and then what stands behind it has to be right: the first of these that fails is the
/// fault. Names of sheets are those given.
#[tactic(auto, using(crate::proofs::Marks::utf8_test, crate::proofs::Marks::no_utf8_test), unfolding(crate::specs::Lines::line_of))]
pub fn read_line(alloc: Global, bytes: &[u8], sheets: &SheetNames) -> Result<Line, LineFault>
    ensures ok { IfOk result (λ line. line_of sheets.now bytes.now ≡ Ok line) }
    ensures within { IfOk result (IsLineOf sheets.now) }
    ensures fault { IfErr result (IsFaultOf (line_of sheets.now bytes.now)) }
{
    let _count = sheets.count();
    match str::from_utf8(bytes) {
        Ok(line) => read_text(alloc, without_cr(line), sheets),
        Err(_) => Err(LineFault::NotUtf8),
    }
}

/// Reads a line without its CR.
fn read_text(alloc: Global, line: &str, sheets: &SheetNames) -> Result<Line, LineFault>
    requires { 0 < length sheets.now }
    ensures ok { IfOk result (λ asked. line_in sheets.now line.now ≡ Ok asked) }
    ensures within { IfOk result (IsLineOf sheets.now) }
    ensures fault { IfErr result (IsFaultOf (line_in sheets.now line.now)) }
{
    match line.as_bytes() {
        [] | [b'#', ..] => Ok(Line::Nothing),
        _ => {
            let (command, behind) = split_at_mark(line, ' ');
            read_command(alloc, command, behind_spaces(behind), sheets)
        }
    }
}

/// Reads what stands behind a command.
fn read_command(
    alloc: Global,
    command: &str,
    text: &str,
    sheets: &SheetNames,
) -> Result<Line, LineFault>
    requires { 0 < length sheets.now }
    ensures ok { IfOk result (λ line. command_in sheets.now command.now text.now ≡ Ok line) }
    ensures within { IfOk result (IsLineOf sheets.now) }
    ensures fault { IfErr result (IsFaultOf (command_in sheets.now command.now text.now)) }
{
    match command {
        "set" => read_set(alloc, text, sheets),
        _ => read_trimmed(command, without_end_spaces(text), sheets),
    }
}

/// Reads a cell and its field.
fn read_set(alloc: Global, text: &str, sheets: &SheetNames) -> Result<Line, LineFault>
    requires { 0 < length sheets.now }
    ensures ok { IfOk result (λ line. or_bad (set_in sheets.now text.now) ≡ Ok line) }
    ensures within { IfOk result (IsLineOf sheets.now) }
    ensures fault { IfErr result (IsFaultOf (or_bad (set_in sheets.now text.now))) }
{
    let (cell, field) = split_target(sheets, text);
    match cell {
        Some(at) => Ok(Line::Set(at, FieldText::new(alloc, field)?)),
        None => Err(LineFault::BadReference),
    }
}

/// Reads what stands behind a command other than `set`.
#[tactic(auto, unfolding(crate::specs::Lines::trimmed_command))]
fn read_trimmed(command: &str, text: &str, sheets: &SheetNames) -> Result<Line, LineFault>
    requires { 0 < length sheets.now }
    ensures ok { IfOk result (λ line. trimmed_command sheets.now command.now text.now ≡ Ok line) }
    ensures within { IfOk result (IsLineOf sheets.now) }
    ensures fault { IfErr result (IsFaultOf (trimmed_command sheets.now command.now text.now)) }
{
    match command {
        "clear" => or_bad(read_clear(text, sheets)),
        "copy" => or_bad(read_copy(text, sheets)),
        "show" => or_bad(read_show(text, sheets)),
        "print" => or_bad(read_print(text, sheets)),
        "save" => or_bad(read_save(text, sheets)),
        "recalc" => or_bad(read_alone(Line::Recalc, text)),
        "cycles" => or_bad(read_alone(Line::Cycles, text)),
        "insert" => or_bad(read_insert(text, sheets)),
        "delete" => or_bad(read_delete(text, sheets)),
        "whatif" => or_bad(read_what_if(text, sheets)),
        _ => Err(LineFault::UnknownCommand),
    }
}

/// The line, or the fault of a reference.
fn or_bad(line: Option<Line>) -> Result<Line, LineFault>
    ensures { result ≡ or_bad line }
{
    line.ok_or(LineFault::BadReference)
}

fn read_clear(text: &str, sheets: &SheetNames) -> Option<Line>
    requires { 0 < length sheets.now }
    ensures same { result ≡ option_map Line.Clear (target_in sheets.now text.now) }
    ensures within { IfSome result (IsLineOf sheets.now) }
{
    Some(Line::Clear(read_target(sheets, text)?))
}

fn read_show(text: &str, sheets: &SheetNames) -> Option<Line>
    requires { 0 < length sheets.now }
    ensures same { result ≡ option_map Line.Show (target_in sheets.now text.now) }
    ensures within { IfSome result (IsLineOf sheets.now) }
{
    Some(Line::Show(read_target(sheets, text)?))
}

fn read_print(text: &str, sheets: &SheetNames) -> Option<Line>
    requires { 0 < length sheets.now }
    ensures same { result ≡ option_map Line.Print (sheet_in sheets.now text.now) }
    ensures within { IfSome result (IsLineOf sheets.now) }
{
    Some(Line::Print(read_sheet(sheets, text)?))
}

fn read_save(text: &str, sheets: &SheetNames) -> Option<Line>
    requires { 0 < length sheets.now }
    ensures same { result ≡ option_map Line.Save (sheet_in sheets.now text.now) }
    ensures within { IfSome result (IsLineOf sheets.now) }
{
    Some(Line::Save(read_sheet(sheets, text)?))
}

/// Reads a cell, one space and an area.
fn read_copy(text: &str, sheets: &SheetNames) -> Option<Line>
    requires { 0 < length sheets.now }
    ensures same { result ≡ copy_in sheets.now text.now }
    ensures within { IfSome result (IsLineOf sheets.now) }
{
    let (from, area) = split_target(sheets, text);
    Some(Line::Copy(from?, read_area(sheets, area)?))
}

fn read_insert(text: &str, sheets: &SheetNames) -> Option<Line>
    requires { 0 < length sheets.now }
    ensures same { result ≡ option_map Line.Insert (rows_in sheets.now text.now) }
    ensures within { IfSome result (IsLineOf sheets.now) }
{
    Some(Line::Insert(read_rows(sheets, text)?))
}

fn read_delete(text: &str, sheets: &SheetNames) -> Option<Line>
    requires { 0 < length sheets.now }
    ensures same { result ≡ option_map Line.Delete (option_and_then if_within (rows_in sheets.now text.now)) }
    ensures within { IfSome result (IsLineOf sheets.now) }
{
    let rows = read_rows(sheets, text)?;
    Some(Line::Delete(if_within(sheets, rows)?))
}

/// Reads a cell, two numbers and a cell, with one space between them.
fn read_what_if(text: &str, sheets: &SheetNames) -> Option<Line>
    requires { 0 < length sheets.now }
    ensures same { result ≡ what_if_in sheets.now text.now }
    ensures within { IfSome result (IsLineOf sheets.now) }
{
    let (at, low) = split_target(sheets, text);
    let (low, high) = split_at_mark(low, ' ');
    let (high, target) = split_at_mark(high, ' ');
    what_if(
        sheets,
        at,
        read_range(low, high),
        read_target(sheets, target),
    )
}

/// A table's line, if all its parts are there.
fn what_if(
    sheets: &SheetNames,
    at: Option<Addr>,
    range: Option<(Int, u32)>,
    target: Option<Addr>,
) -> Option<Line>
    requires at { IfSome at (IsCellOf sheets.now) }
    requires range { IfSome range (λ range. IsRange range.0 range.1) }
    requires target { IfSome target (IsCellOf sheets.now) }
    ensures same { result ≡ what_if_of at range target }
    ensures within { IfSome result (IsLineOf sheets.now) }
{
    let _sheets = sheets;
    match (at, range, target) {
        (Some(at), Some((low, count)), Some(target)) => Some(Line::WhatIf(at, low, count, target)),
        _ => None,
    }
}

/// A command with nothing behind it.
fn read_alone(line: Line, text: &str) -> Option<Line>
    ensures { result ≡ alone line text.now }
{
    if text.is_empty() { Some(line) } else { None }
}
