//! Areas that a formula names.
ghost use Rattle.std.specs.Prelude.{◌≡◌, ◌++◌, option_to_list, IfOk, OnOk, IfSome, All};
ghost use Rattle.cell_values.specs.Areas.{IsArea};
ghost use Rattle.formula_trees.specs.Mentions.{areas};
ghost use Rattle.shared_expressions.specs.Trees.{expr_at};
ghost use Rattle.shared_expressions.specs.Stored.{trees, parts, entry_at, areas_below, IsStore, Picks};

use crate::nodes::Node;
use crate::store::{Store, entry_at, part};
use cell_values::{Addr, Area};
use formula_trees::area_of;
use std::alloc::AllocError;

/// The area with a number among those of a node, counted from 0; or how many areas further it lies
/// behind them.
#[cycle(area)]
pub fn area_from(store: &Store, id: usize, at: Addr, k: u32) -> Result<Area, u32>
    requires { IsStore store.now }
    ensures picked { Picks (areas at (expr_at (trees store.now) id)) k result }
    ensures within { IfOk result IsArea }
{
    match entry_at(&store.entries, id).node {
        Node::Ref(r) => pick(area_of(&r, &r, at), k),
        Node::Range(r, s) => pick(area_of(&r, &s, at), k),
        _ => area_below(store, id, at, k),
    }
}

/// The same among the areas of a node's children.
#[cycle(area)]
fn area_below(store: &Store, id: usize, at: Addr, k: u32) -> Result<Area, u32>
    requires { IsStore store.now }
    ensures picked { Picks (areas_below at (trees store.now) (parts store.now.children.items (entry_at store.now.entries.items id))) k result }
    ensures within { IfOk result IsArea }
{
    let mut left = k;
    for j in 0..entry_at(&store.entries, id).count {
        match area_from(store, part(store, id, j), at, left) {
            Ok(area) => return Ok(area),
            Err(further) => left = further,
        }
    }
    Err(left)
}

/// One area or none, as a list of areas.
fn pick(area: Option<Area>, k: u32) -> Result<Area, u32>
    requires { IfSome area IsArea }
    ensures picked { Picks (option_to_list area) k result }
    ensures within { IfOk result IsArea }
{
    match area {
        Some(area) if k == 0 => Ok(area),
        Some(_) => Err(k - 1),
        None => Err(k),
    }
}

/// Appends the areas of a node, from left to right. After an `Err` some of them stand there.
#[cycle(areas)]
pub fn push_areas(store: &Store, id: usize, at: Addr, out: &mut Vec<Area>) -> Result<(), AllocError>
    requires { IsStore store.now }
    ensures items { OnOk result (out.new.items ≡ out.old.items ++ areas at (expr_at (trees store.now) id)) }
    ensures within { OnOk result (All IsArea out.old.items → All IsArea out.new.items) }
{
    match entry_at(&store.entries, id).node {
        Node::Ref(r) => push_one(area_of(&r, &r, at), out),
        Node::Range(r, s) => push_one(area_of(&r, &s, at), out),
        _ => push_below(store, id, at, out),
    }
}

/// The same for the areas of a node's children.
#[cycle(areas)]
fn push_below(store: &Store, id: usize, at: Addr, out: &mut Vec<Area>) -> Result<(), AllocError>
    requires { IsStore store.now }
    ensures items { OnOk result (out.new.items ≡ out.old.items ++ areas_below at (trees store.now) (parts store.now.children.items (entry_at store.now.entries.items id))) }
    ensures within { OnOk result (All IsArea out.old.items → All IsArea out.new.items) }
{
    for j in 0..entry_at(&store.entries, id).count {
        push_areas(store, part(store, id, j), at, out)?;
    }
    Ok(())
}

/// One area more or none.
fn push_one(area: Option<Area>, out: &mut Vec<Area>) -> Result<(), AllocError>
    requires { IfSome area IsArea }
    ensures items { OnOk result (out.new.items ≡ out.old.items ++ option_to_list area) }
    ensures within { OnOk result (All IsArea out.old.items → All IsArea out.new.items) }
{
    if let Some(area) = area {
        out.push(area)?;
    }
    Ok(())
}
