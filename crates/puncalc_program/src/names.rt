//! How sheets and cells are named.

ghost use Rattle.std.specs.Prelude.{◌≡◌, ◌<◌, ◌++◌, ℕ, List, length, IfOk, string_bytes};
ghost use Rattle.cell_values.specs.Addresses.{IsOnSheet};
ghost use Rattle.cell_values.specs.Names.{prefix_text};
ghost use Rattle.puncalc_program.specs.Cells.{cell_name, name_of};

use cell_values::{Addr, SheetNames};
use std::alloc::{AllocError, Global};

/// The name of a sheet.
pub(crate) fn sheet_name(alloc: Global, names: &SheetNames, sheet: u8) -> Result<String, AllocError>
    requires { sheet < length names.now }
    ensures { IfOk result (λ name. string_bytes name ≡ name_of names.now sheet) }
{
    let prefix = names.prefix(alloc, sheet)?;
    String::from_str(alloc, bare_name(&prefix))
}

/// The name in front of a `!`, without its quotes.
fn bare_name(prefix: &str) -> &str
    ensures { (name : List ℕ) → prefix.now ≡ prefix_text name → result.now ≡ name }
{
    match prefix.strip_prefix('\'') {
        Some(quoted) => without_end(quoted, "'!"),
        None => without_end(prefix, "!"),
    }
}

/// The text without this end.
fn without_end<'a>(text: &'a str, end: &str) -> &'a str
    ensures { (front : List ℕ) → text.now ≡ front ++ end.now → result.now ≡ front }
{
    match text.strip_suffix(end) {
        Some(front) => front,
        None => text,
    }
}

/// A cell with its sheet in front, as `plan!B7`.
#[tactic(auto, unfolding(crate::specs::Cells::cell_name))]
pub(crate) fn cell_name(alloc: Global, names: &SheetNames, at: Addr) -> Result<String, AllocError>
    requires on_sheet { IsOnSheet at }
    requires sheet { at.sheet < length names.now }
    ensures { IfOk result (λ name. string_bytes name ≡ cell_name names.now at) }
{
    let mut name = names.prefix(alloc, at.sheet)?;
    let cell = at.cell_text(alloc)?;
    name.push_str(&cell)?;
    Ok(name)
}
