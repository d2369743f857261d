//! The cells, areas and sheets that a line names.

ghost use Rattle.std.specs.Prelude.{◌≡◌, ◌<◌, length, IfSome, option_map};
ghost use Rattle.cell_values.specs.Areas.{IsArea};
ghost use Rattle.edit_script.specs.Pieces.{is_space};
ghost use Rattle.edit_script.specs.Targets.{area_in, behind_bang, behind_target, is_colon, plain_target, quoted, sheet_in, target, target_before, target_in, if_few, IsAreaOf, IsCellOf};

use crate::pieces::split_at_mark;
use cell_values::{Addr, Area, MAX_RANGE_CELLS, SheetNames, is_plain_name};

/// Cuts a text behind a name in single quotes in front: the name, if one stands there, and the rest.
#[tactic(auto, using(crate::proofs::Marks::no_name, crate::proofs::Marks::all_rest))]
fn cut_name(text: &str) -> (Option<&str>, &str)
    ensures name { option_map (λ name. name.now) result.0 ≡ (quoted text.now).0 }
    ensures rest { result.1.now ≡ (quoted text.now).1 }
{
    match text.strip_prefix('\'') {
        Some(text) => {
            let (name, rest) = split_at_mark(text, '\'');
            (Some(name), rest)
        }
        None => (None, text),
    }
}

/// The cell behind a quoted name: at once behind a `!`.
#[tactic(auto, using(crate::proofs::Marks::bang_lacks))]
fn read_behind_bang(sheets: &SheetNames, name: &str, rest: &str) -> Option<Addr>
    ensures same { result ≡ behind_bang sheets.now name.now rest.now }
    ensures within { IfSome result (IsCellOf sheets.now) }
{
    let text = rest.strip_prefix('!')?;
    let sheet = sheets.find(name)?;
    Addr::read(sheet, text)
}

/// The cell with or without a plain name in front and `!`.
#[tactic(auto, using(crate::proofs::Marks::none_marked, crate::proofs::Marks::some_marked))]
fn read_plain(sheets: &SheetNames, text: &str) -> Option<Addr>
    requires { 0 < length sheets.now }
    ensures same { result ≡ plain_target sheets.now text.now }
    ensures within { IfSome result (IsCellOf sheets.now) }
{
    match text.split_once('!') {
        Some((name, text)) if is_plain_name(name) => Addr::read(sheets.find(name)?, text),
        Some(_) => None,
        None => Addr::read(0, text),
    }
}

/// The cell behind a name in quotes, or without one.
fn read_cell(sheets: &SheetNames, name: Option<&str>, text: &str) -> Option<Addr>
    requires { 0 < length sheets.now }
    ensures same { result ≡ target sheets.now (option_map (λ t. t.now) name.entry) text.now }
    ensures within { IfSome result (IsCellOf sheets.now) }
{
    match name {
        Some(name) => read_behind_bang(sheets, name, text),
        None => read_plain(sheets, text),
    }
}

/// The cell that a text names.
pub(crate) fn read_target(sheets: &SheetNames, text: &str) -> Option<Addr>
    requires { 0 < length sheets.now }
    ensures same { result ≡ target_in sheets.now text.now }
    ensures within { IfSome result (IsCellOf sheets.now) }
{
    let (name, rest) = cut_name(text);
    read_cell(sheets, name, rest)
}

/// The cell in front of the first space behind a quoted name, and what stands behind that space.
pub(crate) fn split_target<'a>(sheets: &SheetNames, text: &'a str) -> (Option<Addr>, &'a str)
    requires { 0 < length sheets.now }
    ensures cell { result.0 ≡ target_before is_space sheets.now text.now }
    ensures rest { result.1.now ≡ behind_target is_space text.now }
    ensures within { IfSome result.0 (IsCellOf sheets.now) }
{
    let (name, rest) = cut_name(text);
    let (cell, behind) = split_at_mark(rest, ' ');
    (read_cell(sheets, name, cell), behind)
}

/// A cell, or the rectangle between two cells of one sheet with a colon between them.
#[tactic(auto, using(crate::proofs::Marks::none_marked, crate::proofs::Marks::some_marked))]
pub(crate) fn read_area(sheets: &SheetNames, text: &str) -> Option<Area>
    requires { 0 < length sheets.now }
    ensures same { result ≡ area_in sheets.now text.now }
    ensures within { IfSome result (IsAreaOf sheets.now) }
{
    let (name, rest) = cut_name(text);
    match rest.split_once(':') {
        Some((corner, other)) => {
            let corner = read_cell(sheets, name, corner)?;
            let other = Addr::read(corner.sheet, other)?;
            area_if_few(sheets, Area::between(corner, other))
        }
        None => Some(Area::of(read_cell(sheets, name, rest)?)),
    }
}

/// The area, if it has no more cells than a range may have.
fn area_if_few(sheets: &SheetNames, area: Area) -> Option<Area>
    requires area { IsArea area }
    requires sheet { area.sheet < length sheets.now }
    ensures same { result ≡ if_few area }
    ensures within { IfSome result (IsAreaOf sheets.now) }
{
    if area.size() <= MAX_RANGE_CELLS {
        Some(area)
    } else {
        None
    }
}

/// The sheet with the name, and the first one without a name.
pub(crate) fn read_sheet(sheets: &SheetNames, name: &str) -> Option<u8>
    requires { 0 < length sheets.now }
    ensures same { result ≡ sheet_in sheets.now name.now }
    ensures within { IfSome result (λ sheet. sheet < length sheets.now) }
{
    if name.is_empty() {
        Some(0)
    } else {
        sheets.find(name)
    }
}
