//! The fields of one sheet.

ghost use Rattle.std.specs.Prelude.{◌≡◌, ◌<◌, ◌≤◌, ◌+◌, true, length, vec_len, IfOk, IfErr, OnOk};
ghost use Rattle.std.specs.List.{All};
ghost use Rattle.cell_values.specs.Addresses.{IsOnSheet};
ghost use Rattle.cell_values.specs.Interned.{KeepsTexts};
ghost use Rattle.cell_values.specs.declared.fields.Raw.{Raw};
ghost use Rattle.formula_tokens.specs.Words.{begins_with};
ghost use Rattle.formula_grammar.specs.Reading.{Reading, IsReading};
ghost use Rattle.workbook_core.specs.Edits.{IsField};
ghost use Rattle.sheet_loading.specs.Contents.{fields_read};
ghost use Rattle.sheet_loading.specs.Faults.{IsFaultInSheet, IsLoadFault};
ghost use Rattle.sheet_loading.specs.Sheets.{sheet_read};
ghost use Rattle.sheet_loading.specs.Steps.{IsFieldFault, ReadsField, ReadsFields, ReadsSheet};

use crate::faults::{LoadFault, SheetRefusal};
use cell_values::{Addr, FieldText, Raw, SheetNames, Texts};
use formula_grammar::{FormulaFault, read_formula};
use formula_trees::Tree;
use sheet_csv::read_sheet;
use std::alloc::Global;

/// Reads the fields of a sheet, and then its formulas for their faults.
pub(crate) fn read_fields(
    alloc: Global,
    bytes: &[u8],
    sheet: u8,
    room: u32,
    names: &SheetNames,
    texts: &mut Texts,
) -> Result<Vec<(Addr, Raw)>, LoadFault>
    ensures ok { IfOk result (λ fields. ReadsSheet names.now sheet texts.old texts.new room bytes.now fields.items) }
    ensures within { IfOk result (λ fields. vec_len fields ≤ room) }
    ensures fault { IfErr result (λ fault. (read : Reading) → IsReading names.now read → IsLoadFault fault (sheet_read read names.now sheet texts.old room bytes.now)) }
    ensures place { IfErr result (IsFaultInSheet sheet) }
    ensures kept { KeepsTexts texts.old texts.new }
{
    let fields = read_sheet(alloc, bytes, sheet, room, texts)?;
    check_formulas(alloc, &fields, sheet, names, texts)?;
    Ok(fields)
}

/// Reads the formulas of a sheet's fields in order, up to the first with a fault.
fn check_formulas(
    alloc: Global,
    fields: &[(Addr, Raw)],
    sheet: u8,
    names: &SheetNames,
    texts: &mut Texts,
) -> Result<(), LoadFault>
    requires here { All (λ c. IsOnSheet c.0 × (c.0.sheet ≡ sheet)) fields.now }
    requires fields { All (λ c. IsField c.1) fields.now }
    ensures ok { OnOk result (ReadsFields names.now texts.old texts.new fields.now) }
    ensures fault { IfErr result (λ fault. (read : Reading) → IsReading names.now read → IsLoadFault fault (fields_read read names.now texts.old fields.now)) }
    ensures place { IfErr result (IsFaultInSheet sheet) }
    ensures kept { KeepsTexts texts.old texts.new }
{
    for (at, raw) in fields {
        check_formula(alloc, *at, raw, names, texts)?;
    }
    Ok(())
}

/// Reads the formula of a field, if it has one.
fn check_formula(
    alloc: Global,
    at: Addr,
    raw: &Raw,
    names: &SheetNames,
    texts: &mut Texts,
) -> Result<(), LoadFault>
    requires on_sheet { IsOnSheet at }
    requires field { IsField raw.now }
    ensures ok { OnOk result (ReadsField names.now texts.old texts.new at raw.now) }
    ensures fault { IfErr result (IsFieldFault names.now texts.old at raw.now) }
    ensures place { IfErr result (IsFaultInSheet at.sheet) }
    ensures kept { KeepsTexts texts.old texts.new }
{
    let Raw::Formula(text) = raw else {
        return Ok(());
    };
    read_tree(alloc, text, at, names, texts)?;
    Ok(())
}

/// The tree of a field's formula, or its refusal.
fn read_tree(
    alloc: Global,
    text: &FieldText,
    at: Addr,
    names: &SheetNames,
    texts: &mut Texts,
) -> Result<Tree, LoadFault>
    requires on_sheet { IsOnSheet at }
    requires formula { begins_with 61 text.now ≡ true }
    ensures ok { OnOk result (ReadsField names.now texts.old texts.new at (Raw.Formula text.now)) }
    ensures fault { IfErr result (IsFieldFault names.now texts.old at (Raw.Formula text.now)) }
    ensures place { IfErr result (IsFaultInSheet at.sheet) }
    ensures kept { KeepsTexts texts.old texts.new }
{
    match read_formula(alloc, text.as_str(), at, names, texts) {
        Ok(tree) => Ok(tree),
        Err(FormulaFault::Bad { place, kind }) => {
            Err(LoadFault::Refused(SheetRefusal::Formula { at, place, kind }))
        }
        Err(FormulaFault::OutOfMemory) => Err(LoadFault::OutOfMemory),
    }
}
