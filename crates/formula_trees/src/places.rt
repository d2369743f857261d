//! Where references, ranges and arguments stand in the sheets.
ghost use Rattle.std.specs.Prelude.{◌≡◌, ◌≤◌, IfSome};
ghost use Rattle.cell_values.specs.Addresses.{IsOnSheet};
ghost use Rattle.cell_values.specs.Areas.{IsArea};
ghost use Rattle.formula_trees.specs.Expr.{expr_of};
ghost use Rattle.formula_trees.specs.Mentions.{HasArea, place_from, place_of};
ghost use Rattle.formula_trees.specs.References.{part_at, up_to, resolve, area_of};

use crate::{Part, Place, Reference, Tree};
use cell_values::{Addr, Area, LAST_COLUMN, LAST_ROW};

/// The cell that a reference names at the formula's cell, None where it lies outside the sheet.
#[tactic(auto, unfolding(crate::specs::References::resolve))]
pub fn resolve(reference: &Reference, at: Addr) -> Option<Addr>
    ensures same { result ≡ resolve at reference.now }
    ensures within { IfSome result IsOnSheet }
{
    let sheet = match reference.sheet {
        Some(s) => s,
        None => at.sheet,
    };
    let row = match up_to(LAST_ROW, at.row, reference.row) {
        Some(r) => r,
        None => return None,
    };
    let col = match up_to(u32::from(LAST_COLUMN), u32::from(at.col), reference.col) {
        Some(c) => c,
        None => return None,
    };
    Some(Addr {
        sheet,
        row,
        col: col as u16,
    })
}

/// The rectangle between two corners at the formula's cell, None where one lies outside the sheet.
/// The sheet is the first one's.
pub fn area_of(first: &Reference, second: &Reference, at: Addr) -> Option<Area>
    ensures same { result ≡ area_of at first.now second.now }
    ensures within { IfSome result IsArea }
{
    match (resolve(first, at), resolve(second, at)) {
        (Some(a), Some(b)) => Some(Area::between(a, b)),
        _ => None,
    }
}

/// Where an argument stands; one that is just a reference counts as the range of that cell.
pub fn place_of(tree: &Tree, at: Addr) -> Place
    ensures same { result ≡ place_of at (expr_of tree.now) }
    ensures within { HasArea result }
{
    match tree {
        Tree::Ref(r) => place_from(area_of(r, r, at)),
        Tree::Range(r, s) => place_from(area_of(r, s, at)),
        Tree::RefError => Place::Bad,
        Tree::Number(_)
        | Tree::Text(_)
        | Tree::Bool(_)
        | Tree::Unary(_, _)
        | Tree::Binary(_, _, _)
        | Tree::Call(_, _) => Place::Nowhere,
    }
}

/// The cells of an area; where there is none, the argument lies outside the sheet.
pub fn place_from(area: Option<Area>) -> Place
    requires { IfSome area IsArea }
    ensures same { result ≡ place_from area }
    ensures within { HasArea result }
{
    match area {
        Some(area) => Place::Cells(area),
        None => Place::Bad,
    }
}

/// The number of a row or column, if it is from 1 to `most`.
fn up_to(most: u32, here: u32, part: Part) -> Option<u32>
    ensures same { result ≡ up_to most (part_at here part) }
    ensures from { IfSome result (λ n. 1 ≤ n) }
    ensures to { IfSome result (λ n. n ≤ most) }
{
    let place = match part {
        Part::At(n) => i64::from(n),
        Part::By(d) => i64::from(here) + i64::from(d),
    };
    if place < 1 || i64::from(most) < place {
        None
    } else {
        Some(place as u32)
    }
}
