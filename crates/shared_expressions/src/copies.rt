//! Trees made from stored nodes.
ghost use Rattle.std.specs.Prelude.{◌≡◌, ◌<◌, IfOk};
ghost use Rattle.formula_trees.specs.Expr.{expr_of, exprs_of};
ghost use Rattle.shared_expressions.specs.Trees.{expr_at};
ghost use Rattle.shared_expressions.specs.Stored.{leaf, row, parts, entry_at, trees, IsStore};

use crate::nodes::Node;
use crate::store::{Store, entry_at, part};
use formula_trees::{Args, Tree};
use std::alloc::{AllocError, Global};

/// The tree of a node.
#[cycle(tree)]
pub fn tree_from(alloc: Global, store: &Store, id: usize) -> Result<Tree, AllocError>
    requires { IsStore store.now }
    ensures { IfOk result (λ tree. expr_of tree ≡ expr_at (trees store.now) id) }
{
    match entry_at(&store.entries, id).node {
        Node::Unary(sign) => {
            let a = tree_from(alloc, store, part(store, id, 0))?;
            Ok(Tree::Unary(sign, Box::new(alloc, a)?))
        }
        Node::Binary(op) => {
            let a = tree_from(alloc, store, part(store, id, 0))?;
            let b = tree_from(alloc, store, part(store, id, 1))?;
            Ok(Tree::Binary(op, Box::new(alloc, a)?, Box::new(alloc, b)?))
        }
        Node::Call(fun) => Ok(Tree::Call(fun, args_from(alloc, store, id)?)),
        leaf => Ok(leaf_tree(leaf)),
    }
}

/// The tree of a node without children.
fn leaf_tree(node: Node) -> Tree
    ensures { expr_of result ≡ leaf node }
{
    match node {
        Node::Number(n) => Tree::Number(n),
        Node::Text(t) => Tree::Text(t),
        Node::Bool(b) => Tree::Bool(b),
        Node::Ref(r) => Tree::Ref(r),
        Node::Range(r, s) => Tree::Range(r, s),
        _ => Tree::RefError,
    }
}

/// The trees of a node's children as arguments.
#[cycle(tree)]
fn args_from(alloc: Global, store: &Store, id: usize) -> Result<Args, AllocError>
    requires { IsStore store.now }
    ensures { IfOk result (λ args. exprs_of args ≡ row (trees store.now) (parts store.now.children.items (entry_at store.now.entries.items id))) }
{
    let mut args = Args::End;
    let mut k = entry_at(&store.entries, id).count;
    while k > 0 {
        k -= 1;
        let a = tree_from(alloc, store, part(store, id, k))?;
        args = Args::More(Box::new(alloc, a)?, Box::new(alloc, args)?);
    }
    Ok(args)
}
