//! Pools of expressions.
ghost use Rattle.std.specs.Prelude.{◌≡◌, ◌≤◌, ◌+◌, ◌++◌, length, All, IfOk, OnOk, OnErr, IfSome, option_map, [], slice_get};
ghost use Rattle.cell_values.specs.Areas.{IsArea};
ghost use Rattle.formula_trees.specs.Expr.{expr_of};
ghost use Rattle.formula_trees.specs.Mentions.{areas};
ghost use Rattle.formula_trees.specs.Sound.{nodes};
ghost use Rattle.shared_expressions.specs.Trees.{root_of, tree_at, child_of, depth, KeepsTrees, StandsFor, IsThere};

use crate::areas::{area_from, push_areas};
use crate::copies::tree_from;
use crate::nodes::{ExprId, Node};
use crate::store::{Store, entry_at, intern_tree, part};
use cell_values::{Addr, Area};
use formula_trees::Tree;
use std::alloc::{AllocError, Global};
use std::collections::BTreeMap;
use std::marker::Model;

/// Expressions, each kept once. Contracts see the list of their trees, numbered from 0.
#[derive(Drop)]
pub struct Pool {
    store: Store,
}

impl Model for Pool {
    ghost use Rattle.std.specs.Prelude.{List};
    ghost use Rattle.formula_trees.specs.Expr.{Expr};

    ghost Value = { List Expr };

    ghost use Rattle.std.specs.Coded.{coded_list};
    ghost use Rattle.formula_trees.specs.ExprCode.{expr_code};

    ghost coded = { coded_list expr_code };

    ghost use Rattle.shared_expressions.specs.Stored.{trees, IsStore};

    ghost view = { λ p. trees p.store };

    ghost invariant = { λ p. IsStore p.store };
}

impl Pool {
    /// No expressions.
    pub fn new(alloc: Global) -> Pool
        ensures { result ≡ [] }
    {
        Pool {
            store: Store {
                entries: Vec::new(alloc),
                children: Vec::new(alloc),
                index: BTreeMap::new(alloc),
            },
        }
    }

    /// The root of an expression.
    pub fn node(&self, id: ExprId) -> Node
        ensures { result ≡ root_of (tree_at self.now id) }
    {
        entry_at(&self.store.entries, id.0).node
    }

    /// The depth of an expression's tree: a leaf has 1.
    pub fn depth(&self, id: ExprId) -> usize
        ensures { result ≡ depth (tree_at self.now id) }
    {
        entry_at(&self.store.entries, id.0).depth
    }

    /// The id of a tree; equal trees have one id. A tree that is there adds nothing, another one at most
    /// one expression for each node.
    #[tactic(auto, using(crate::proofs::Lookup::count_trees))]
    pub fn intern(&mut self, alloc: Global, tree: &Tree) -> Result<ExprId, AllocError>
        ensures ok { IfOk result (λ id. StandsFor self.new id (expr_of tree.now)) }
        ensures kept { KeepsTrees self.old self.new }
        ensures few { length self.new ≤ length self.old + nodes (expr_of tree.now) }
        ensures there { IsThere self.old (expr_of tree.now) → self.new ≡ self.old }
    {
        let number = intern_tree(alloc, &mut self.store, tree)?;
        Ok(ExprId(number))
    }

    /// An operand or argument of an expression's root, counted from 0 from the left.
    pub fn child(&self, id: ExprId, k: u32) -> Option<ExprId>
        ensures { option_map (tree_at self.now) result ≡ child_of k (tree_at self.now id) }
    {
        let k = k as usize;
        if k < entry_at(&self.store.entries, id.0).count {
            Some(ExprId(part(&self.store, id.0, k)))
        } else {
            None
        }
    }

    /// The tree of an expression.
    pub fn tree(&self, alloc: Global, id: ExprId) -> Result<Tree, AllocError>
        ensures { IfOk result (λ tree. expr_of tree ≡ tree_at self.now id) }
    {
        tree_from(alloc, &self.store, id.0)
    }

    /// The reference or range with a number, counted from 0 from the left, as an area. One that lies
    /// outside the sheet at the cell is not counted.
    pub fn area(&self, id: ExprId, at: Addr, k: u32) -> Option<Area>
        ensures area { result ≡ slice_get (areas at (tree_at self.now id)) k }
        ensures within { IfSome result IsArea }
    {
        area_from(&self.store, id.0, at, k).ok()
    }

    /// Appends all its references and ranges as areas, from left to right. Those that lie outside the
    /// sheet at the cell are left out.
    pub fn areas(&self, id: ExprId, at: Addr, out: &mut Vec<Area>) -> Result<(), AllocError>
        ensures ok { OnOk result (out.new.items ≡ out.old.items ++ areas at (tree_at self.now id)) }
        ensures within { OnOk result (All IsArea (areas at (tree_at self.now id))) }
        ensures err { OnErr result (out.new.items ≡ out.old.items) }
    {
        let mut found = Vec::new(*out.allocator());
        push_areas(&self.store, id.0, at, &mut found)?;
        out.extend_from_slice(&found)
    }
}
