//! The cells that arguments name.
ghost use Rattle.std.specs.Prelude.{◌≡◌, ◌<◌, ◌≤◌, ◌+◌, ◌^◌, ◌∷◌, IfSome, length, drop};
ghost use Rattle.cell_values.specs.declared.TheConstants.{LAST_ROW};
ghost use Rattle.cell_values.specs.Areas.{walk, height, width, cell_of, IsArea};
ghost use Rattle.formula_trees.specs.Mentions.{cells_of, place_from, place_of};
ghost use Rattle.shared_expressions.specs.Trees.{tree_at};
ghost use Rattle.formula_eval.specs.Machine.{line_of, target_of, across, FirstCell};
ghost use Rattle.formula_trees.specs.Mentions.{HasArea};

use crate::site::Site;
use cell_values::{Addr, Area};
use formula_trees::{Fun, Place, area_of, place_from};
use shared_expressions::{ExprId, Node};

/// The first cell of an area.
#[tactic(auto, using(cell_values::proofs::Walking::walk_some))]
pub fn first_cell(area: Area) -> Addr
    requires { IsArea area }
    ensures { drop 0 (walk area) ≡ result ∷ drop (0 + 1) (walk area) }
{
    area.nth(0)
}

/// How many columns, or for HLOOKUP rows, a lookup may name.
pub fn across(fun: Fun, area: Area) -> u32
    requires { IsArea area }
    ensures same { result ≡ across fun area }
    ensures few { result ≤ LAST_ROW }
{
    match fun {
        Fun::HLookup => area.rows(),
        _ => area.columns(),
    }
}

/// The cell with a number of the line that a lookup searches.
pub fn line_cell(fun: Fun, area: Area, n: u32) -> Option<Addr>
    requires { IsArea area }
    ensures same { FirstCell (drop n (line_of fun area)) (drop (n + 1) (line_of fun area)) result }
    ensures few { IfSome result (λ a. n < 2 ^ 31) }
{
    match fun {
        Fun::HLookup => {
            if n < area.columns() {
                Some(area.cell(0, n))
            } else {
                None
            }
        }
        _ => {
            if n < area.rows() {
                Some(area.cell(n, 0))
            } else {
                None
            }
        }
    }
}

/// The cell of a lookup's answer, beside the cell with a number of its line.
pub fn target(fun: Fun, area: Area, m: u32, n: u32) -> Addr
    requires area { IsArea area }
    requires line { m < across fun area }
    requires cell { n < length (line_of fun area) }
    ensures { result ≡ target_of fun area m n }
{
    match fun {
        Fun::HLookup => area.cell(m, n),
        _ => area.cell(n, m),
    }
}

impl<'a> Site<'a> {
    /// Where an argument stands.
    pub fn place_at(&self, id: ExprId) -> Place
        ensures same { result ≡ place_of self.now.at (tree_at self.now.pool.now id) }
        ensures within { HasArea result }
    {
        match self.pool.node(id) {
            Node::Ref(r) => place_from(area_of(&r, &r, self.at)),
            Node::Range(r, s) => place_from(area_of(&r, &s, self.at)),
            Node::RefError => Place::Bad,
            _ => Place::Nowhere,
        }
    }

    /// The cell of an argument with a number.
    pub fn next_cell(&self, id: ExprId, n: u32) -> Option<Addr>
        ensures same { FirstCell (drop n (cells_of (place_of self.now.at (tree_at self.now.pool.now id)))) (drop (n + 1) (cells_of (place_of self.now.at (tree_at self.now.pool.now id)))) result }
        ensures few { IfSome result (λ a. n < 2 ^ 31) }
    {
        match self.place_at(id) {
            Place::Cells(area) => {
                if n < area.size() {
                    Some(area.nth(n))
                } else {
                    None
                }
            }
            _ => None,
        }
    }
}
