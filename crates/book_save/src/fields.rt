//! The field that a cell is saved as.

ghost use Rattle.formula_trees.specs.declared.TheConstants.{MAX_FORMULA_BYTES};
ghost use Rattle.book_save.specs.declared.faults.SaveFault.{SaveFault};
ghost use Rattle.std.specs.Prelude.{◌≡◌, ◌<◌, ◌≤◌, ◌&&◌, [], ◌∷◌, Some, None, IfOk, IfErr, OnOk, not, length, string_bytes};
ghost use Rattle.cell_values.specs.Order.{entry_at};
ghost use Rattle.cell_values.specs.ShownText.{bool_text, int_text};
ghost use Rattle.cell_values.specs.Texts.{text_at, IsTextOf};
ghost use Rattle.demand_spec.specs.Book.{Content as Held};
ghost use Rattle.shared_expressions.specs.Trees.{tree_at};
ghost use Rattle.workbook_core.specs.Books.{IsWorkbook};
ghost use Rattle.book_save.specs.Fields.{begins_with_mark, reads_as_text, saved_cell, saved_text};
ghost use Rattle.book_save.specs.Rows.{first_long_at, IsSaveFault};

use crate::SaveFault;
use cell_values::{Addr, Int, Raw, TextId, Texts};
use formula_grammar::print_formula;
use formula_trees::MAX_FORMULA_BYTES;
use shared_expressions::ExprId;
use std::alloc::{AllocError, Global};
use workbook_core::{Content, Workbook};

/// The byte order mark, which a reader of CSV drops at the start of a sheet.
const BYTE_ORDER_MARK: &str = "\u{feff}";

/// The field of a cell: what it holds, as it is read again.
pub(crate) fn saved_cell(alloc: Global, book: &Workbook, at: Addr) -> Result<String, SaveFault>
    ensures field { IfOk result (λ field. string_bytes field ≡ saved_cell book.now.names book.now.book at) }
    ensures short { OnOk result (first_long_at book.now.names book.now.book (at ∷ []) ≡ None) }
    ensures fault { IfErr result (IsSaveFault (first_long_at book.now.names book.now.book (at ∷ []))) }
{
    match book.content(at) {
        None => Ok(String::new(alloc)),
        Some(Content::Number(number)) => number_field(alloc, number),
        Some(Content::Text(id)) => text_field(alloc, book, id),
        Some(Content::Bool(truth)) => truth_field(alloc, truth),
        Some(Content::Formula(id)) => formula_field(alloc, book, at, id),
    }
}

/// A number in decimal.
fn number_field(alloc: Global, number: Int) -> Result<String, SaveFault>
    ensures field { IfOk result (λ field. string_bytes field ≡ int_text number) }
    ensures err { IfErr result (λ fault. fault ≡ SaveFault.OutOfMemory) }
{
    let field = format!(in alloc; "{number}")?;
    Ok(field)
}

/// `TRUE` or `FALSE`.
fn truth_field(alloc: Global, truth: bool) -> Result<String, SaveFault>
    ensures field { IfOk result (λ field. string_bytes field ≡ bool_text truth) }
    ensures err { IfErr result (λ fault. fault ≡ SaveFault.OutOfMemory) }
{
    let word = match truth {
        true => String::from_str(alloc, "TRUE")?,
        false => String::from_str(alloc, "FALSE")?,
    };
    Ok(word)
}

/// A text of the book, behind a `'` where it needs one.
fn text_field(alloc: Global, book: &Workbook, id: TextId) -> Result<String, SaveFault>
    requires { IsTextOf book.now.book.texts id }
    ensures field { IfOk result (λ field. string_bytes field ≡ saved_text (text_at book.now.book.texts id)) }
    ensures err { IfErr result (λ fault. fault ≡ SaveFault.OutOfMemory) }
{
    let field = saved_text(alloc, book.texts().get(id))?;
    Ok(field)
}

/// The text as it is, or behind a `'` where it would be read as something else.
fn saved_text(alloc: Global, text: &str) -> Result<String, AllocError>
    ensures { IfOk result (λ field. string_bytes field ≡ saved_text text.now) }
{
    let mut field = String::new(alloc);
    if !stands_alone(alloc, text)? {
        field.push('\'')?;
    }
    field.push_str(text)?;
    Ok(field)
}

/// Whether the text as a field is read as itself wherever it stands.
fn stands_alone(alloc: Global, text: &str) -> Result<bool, AllocError>
    ensures { IfOk result (λ alone. alone ≡ (reads_as_text text.now && not (begins_with_mark text.now))) }
{
    let as_itself = reads_as_text(alloc, text)?;
    Ok(as_itself && !begins_with_mark(text))
}

/// Whether the text begins with the byte order mark.
fn begins_with_mark(text: &str) -> bool
    ensures { result ≡ begins_with_mark text.now }
{
    text.as_bytes().starts_with(BYTE_ORDER_MARK.as_bytes())
}

/// Whether a field of these bytes is read as a text, and as this one.
fn reads_as_text(alloc: Global, text: &str) -> Result<bool, AllocError>
    ensures { IfOk result (λ reads. reads ≡ reads_as_text text.now) }
{
    let mut texts = Texts::new(alloc);
    match Raw::read(alloc, text, &mut texts)? {
        Raw::Text(id) => Ok(texts.get(id) == text),
        Raw::Nothing | Raw::Number(_) | Raw::Bool(_) | Raw::Formula(_) => Ok(false),
    }
}

/// The formula of a cell as it is printed there, unless it is too long to be read again.
fn formula_field(alloc: Global, book: &Workbook, at: Addr, id: ExprId) -> Result<String, SaveFault>
    requires workbook { IsWorkbook book.now }
    requires formula { entry_at book.now.book.cells at ≡ Some (Held.Formula (tree_at book.now.pool id)) }
    ensures field { IfOk result (λ field. string_bytes field ≡ saved_cell book.now.names book.now.book at) }
    ensures short { OnOk result (first_long_at book.now.names book.now.book (at ∷ []) ≡ None) }
    ensures fault { IfErr result (IsSaveFault (first_long_at book.now.names book.now.book (at ∷ []))) }
{
    let tree = book.pool().tree(alloc, id)?;
    let text = print_formula(alloc, &tree, at, book.sheets(), book.texts())?;
    unless_long(at, text)
}

/// The text, unless it is too long to be read as a formula.
fn unless_long(at: Addr, text: String) -> Result<String, SaveFault>
    ensures same { IfOk result (λ field. string_bytes field ≡ string_bytes text) }
    ensures short { OnOk result (length (string_bytes text) ≤ MAX_FORMULA_BYTES) }
    ensures fault { IfErr result (λ fault. (fault ≡ SaveFault.TooLong at) × (MAX_FORMULA_BYTES < length (string_bytes text))) }
{
    if text.as_str().len() > MAX_FORMULA_BYTES {
        return Err(SaveFault::TooLong(at));
    }
    Ok(text)
}
