//! Nodes in a vector, children below parents, each node over its children once.
ghost use Rattle.std.specs.Prelude.{◌≡◌, ◌<◌, ◌≤◌, ◌+◌, ◌^◌, ◌++◌, [], ◌∷◌, suc, IfOk, IfSome, IfNone, MatchOption, length, slice_index_or};
ghost use Rattle.formula_trees.specs.Expr.{expr_of, exprs_of};
ghost use Rattle.formula_trees.specs.Sound.{nodes, nodes_of};
ghost use Rattle.shared_expressions.specs.Trees.{expr_at, KeepsTrees, StandsFor, IsThere};
ghost use Rattle.shared_expressions.specs.Keys.{key_of};
ghost use Rattle.shared_expressions.specs.Stored.{row, seen, parts, entry_at, trees, HasCount, AllBelow, IsStore, Stands, Grows, number_of, deepest, joined, AllThere};

use crate::keys::key_of;
use crate::nodes::Node;
use cell_values::Int;
use formula_trees::{Args, Tree};
use std::alloc::{AllocError, Global};
use std::collections::BTreeMap;

/// A node, where its children stand in the list of children, and the depth of its tree.
#[derive(Clone, Copy, Debug, PartialEq, Eq)]
pub struct Entry {
    pub node: Node,
    pub first: usize,
    pub count: usize,
    pub depth: usize,
}

/// The nodes, the numbers of their children one after the other, and each node's number by its key.
#[derive(Drop)]
pub struct Store {
    pub entries: Vec<Entry>,
    pub children: Vec<usize>,
    pub index: BTreeMap<Vec<Int>, usize>,
}

/// The entry with a number, `#REF!` where there is none.
pub fn entry_at(entries: &[Entry], i: usize) -> Entry
    ensures { result ≡ entry_at entries.now i }
{
    match entries.get(i) {
        Some(entry) => *entry,
        None => Entry {
            node: Node::RefError,
            first: 0,
            count: 0,
            depth: 1,
        },
    }
}

/// The depth of the deepest of some entries.
fn deepest(entries: &[Entry], parts: &[usize]) -> usize
    ensures { result ≡ deepest entries.now parts.now }
{
    let mut most = 0;
    for part in parts {
        most = most.max(entry_at(entries, *part).depth);
    }
    most
}

/// The number of a node's child.
pub fn part(store: &Store, i: usize, k: usize) -> usize
    requires store { IsStore store.now }
    requires there { k < (entry_at store.now.entries.items i).count }
    ensures same { result ≡ slice_index_or (parts store.now.children.items (entry_at store.now.entries.items i)) k 0 }
    ensures below { result < i }
{
    store.children[entry_at(&store.entries, i).first + k]
}

/// The number of a node over these children, a new one where it has none yet.
fn add(alloc: Global, store: &mut Store, node: Node, parts: &[usize]) -> Result<usize, AllocError>
    requires store { IsStore store.old }
    requires count { HasCount node (length parts.now) }
    requires below { AllBelow (length store.old.entries.items) parts.now }
    ensures store { IsStore store.new }
    ensures ok { IfOk result (λ i. Stands store.new i (seen (trees store.old) node parts.now)) }
    ensures grows { Grows store.old store.new }
    ensures few { length store.new.entries.items ≤ length store.old.entries.items + 1 }
    ensures there { IsThere (trees store.old) (seen (trees store.old) node parts.now) → trees store.new ≡ trees store.old }
{
    let key = key_of(alloc, node, parts)?;
    match store.index.get(key.as_slice()) {
        Some(i) => Ok(*i),
        None => add_new(store, node, parts, key),
    }
}

/// The number of a node over these children that has none yet.
fn add_new(
    store: &mut Store,
    node: Node,
    parts: &[usize],
    key: Vec<Int>,
) -> Result<usize, AllocError>
    requires store { IsStore store.old }
    requires count { HasCount node (length parts.now) }
    requires below { AllBelow (length store.old.entries.items) parts.now }
    requires key { key.items ≡ key_of node parts.now }
    requires none { number_of store.old (key_of node parts.now) ≡ None }
    ensures store { IsStore store.new }
    ensures ok { IfOk result (λ i. Stands store.new i (seen (trees store.old) node parts.now)) }
    ensures grows { Grows store.old store.new }
    ensures few { length store.new.entries.items ≤ length store.old.entries.items + 1 }
{
    let number = store.entries.len();
    let entry = Entry {
        node,
        first: store.children.len(),
        count: parts.len(),
        depth: deepest(&store.entries, parts) + 1,
    };
    store.children.extend_from_slice(parts)?;
    store.entries.reserve(1)?;
    store.index.insert(key, number)?;
    store.entries.push_reserved(entry);
    Ok(number)
}

/// The number of a tree.
#[cycle(intern)]
pub fn intern_tree(alloc: Global, store: &mut Store, tree: &Tree) -> Result<usize, AllocError>
    requires { IsStore store.old }
    ensures store { IsStore store.new }
    ensures ok { IfOk result (λ i. Stands store.new i (expr_of tree.now)) }
    ensures grows { Grows store.old store.new }
    ensures few { length store.new.entries.items ≤ length store.old.entries.items + nodes (expr_of tree.now) }
    ensures there { IsThere (trees store.old) (expr_of tree.now) → trees store.new ≡ trees store.old }
{
    match tree {
        Tree::Number(n) => add(alloc, store, Node::Number(*n), &[]),
        Tree::Text(t) => add(alloc, store, Node::Text(*t), &[]),
        Tree::Bool(b) => add(alloc, store, Node::Bool(*b), &[]),
        Tree::Ref(r) => add(alloc, store, Node::Ref(*r), &[]),
        Tree::Range(r, s) => add(alloc, store, Node::Range(*r, *s), &[]),
        Tree::RefError => add(alloc, store, Node::RefError, &[]),
        Tree::Unary(sign, a) => {
            let x = intern_tree(alloc, store, a)?;
            add(alloc, store, Node::Unary(*sign), &[x])
        }
        Tree::Binary(op, a, b) => {
            let x = intern_tree(alloc, store, a)?;
            let y = intern_tree(alloc, store, b)?;
            add(alloc, store, Node::Binary(*op), &[x, y])
        }
        Tree::Call(fun, args) => {
            let mut numbers = Vec::new(alloc);
            intern_args(alloc, store, args, &mut numbers)?;
            add(alloc, store, Node::Call(*fun), &numbers)
        }
    }
}

/// The numbers of arguments, behind those of the ones before.
#[cycle(intern)]
fn intern_args(
    alloc: Global,
    store: &mut Store,
    args: &Args,
    numbers: &mut Vec<usize>,
) -> Result<(), AllocError>
    requires store { IsStore store.old }
    requires below { AllBelow (length store.old.entries.items) numbers.old.items }
    ensures store { IsStore store.new }
    ensures below { AllBelow (length store.new.entries.items) numbers.new.items }
    ensures ok { IfOk result (λ _. row (trees store.new) numbers.new.items ≡ joined (row (trees store.old) numbers.old.items) (exprs_of args.now)) }
    ensures grows { Grows store.old store.new }
    ensures few { length store.new.entries.items ≤ length store.old.entries.items + nodes_of (exprs_of args.now) }
    ensures there { AllThere (trees store.old) (exprs_of args.now) → trees store.new ≡ trees store.old }
{
    match args {
        Args::End => Ok(()),
        Args::More(a, rest) => {
            let x = intern_tree(alloc, store, a)?;
            push_number(store, numbers, x)?;
            intern_args(alloc, store, rest, numbers)
        }
    }
}

/// A number more, of an entry that is there.
fn push_number(store: &Store, numbers: &mut Vec<usize>, x: usize) -> Result<(), AllocError>
    requires below { AllBelow (length store.now.entries.items) numbers.old.items }
    requires there { x < length store.now.entries.items }
    ensures below { AllBelow (length store.now.entries.items) numbers.new.items }
    ensures ok { IfOk result (λ _. numbers.new.items ≡ numbers.old.items ++ x ∷ []) }
{
    numbers.push(x)?;
    Ok(())
}
