//! Copies of a cell.
ghost use Rattle.std.specs.Map.{keys_of};
ghost use Rattle.std.specs.Prelude.{◌≡◌, ◌<◌, ◌≤◌, true, [], length, Some, IfOk, OnOk, IfErr, IfSome, OnErr};
ghost use Rattle.cell_values.specs.Areas.{walk, IsArea};
ghost use Rattle.cell_values.specs.Order.{InOrder, addresses as cell_addresses};
ghost use Rattle.formula_trees.specs.Expr.{Expr, expr_of, exprs_of};
ghost use Rattle.formula_trees.specs.Mapped.{all_mapped};
ghost use Rattle.formula_trees.specs.Shifted.{shifted, copied_cell, copied_range, kept_area};
ghost use Rattle.formula_trees.specs.Sound.{IsSound};
ghost use Rattle.demand_spec.specs.Book.{Content as BookContent};
ghost use Rattle.demand_spec.specs.Listed.{IsSoundAt};
ghost use Rattle.shared_expressions.specs.Trees.{tree_at, KeepsTrees, IsThere};
ghost use Rattle.workbook_core.specs.Copies.{among, IsCopy, AreCopies, CopiesAreThere, CopiesTo, HasNoRoom, IsPlain};
ghost use Rattle.workbook_core.specs.Held.{content_in, cells_in, IsHeldOf};

use crate::cells::CellMap;
use crate::{Content, EditFault};
use cell_values::{Addr, Area, MAX_BOOK_CELLS, MAX_RANGE_CELLS};
use formula_trees::shift::shift;
use formula_trees::{Args, Tree, area_of, resolve};
use shared_expressions::{ExprId, Pool};
use std::alloc::{AllocError, Global};

/// The addresses of an area, row by row.
pub(crate) fn addresses_of(alloc: Global, area: Area) -> Result<Vec<Addr>, AllocError>
    requires { IsArea area }
    ensures { IfOk result (λ addresses. addresses.items ≡ walk area) }
{
    let mut addresses = Vec::new(alloc);
    for n in 0..area.size() {
        addresses.push(area.nth(n))?;
    }
    Ok(addresses)
}

/// Puts copies of what the cell `from` holds into cells, into all or none.
pub(crate) fn copy_cells(
    alloc: Global,
    cells: &mut CellMap,
    pool: &mut Pool,
    content: Content,
    from: Addr,
    addresses: &[Addr],
) -> Result<(), EditFault>
    requires order { InOrder (cell_addresses cells.old) }
    requires few { length cells.old ≤ MAX_BOOK_CELLS }
    requires id { IsHeldOf pool.old content }
    requires sound { IsSoundAt from (content_in pool.old content) }
    ensures ok { OnOk result (CopiesTo pool.new (content_in pool.old content) addresses.now cells.old cells.new) }
    ensures few { length cells.new ≤ MAX_BOOK_CELLS }
    ensures fault { IfErr result (HasNoRoom cells.old addresses.now) }
    ensures err { OnErr result (cells.new ≡ cells.old) }
    ensures kept_trees { KeepsTrees pool.old pool.new }
    ensures there { CopiesAreThere pool.old (among addresses.now) (Some (content_in pool.old content)) → pool.new ≡ pool.old }
{
    let empty = cells.empty_among(alloc, addresses)?;
    if cells.len() + empty.len() > MAX_BOOK_CELLS as usize {
        return Err(EditFault::TooManyCells);
    }
    let copies = copies_of(alloc, pool, content, from, addresses)?;
    cells.add_all(&empty, content)?;
    cells.replace_all(&copies);
    Ok(())
}

/// What each of these cells holds as a copy.
fn copies_of(
    alloc: Global,
    pool: &mut Pool,
    content: Content,
    from: Addr,
    addresses: &[Addr],
) -> Result<Vec<(Addr, Content)>, AllocError>
    requires id { IsHeldOf pool.old content }
    requires sound { IsSoundAt from (content_in pool.old content) }
    ensures keys { IfOk result (λ copies. keys_of copies.items ≡ addresses.now) }
    ensures copies { IfOk result (λ copies. AreCopies pool.new (content_in pool.old content) copies.items) }
    ensures kept_trees { KeepsTrees pool.old pool.new }
    ensures there { CopiesAreThere pool.old (among addresses.now) (Some (content_in pool.old content)) → pool.new ≡ pool.old }
{
    match content {
        Content::Formula(id) => {
            let tree = pool.tree(alloc, id)?;
            formula_copies(alloc, pool, id, &tree, from, addresses)
        }
        plain => same_copies(alloc, pool, plain, addresses),
    }
}

/// Each of these cells with the formula of the cell `from`, as it is copied there.
fn formula_copies(
    alloc: Global,
    pool: &mut Pool,
    id: ExprId,
    tree: &Tree,
    from: Addr,
    addresses: &[Addr],
) -> Result<Vec<(Addr, Content)>, AllocError>
    requires there { id.0 < length pool.old }
    requires tree { tree_at pool.old id ≡ expr_of tree.now }
    requires sound { IsSound from (expr_of tree.now) }
    ensures keys { IfOk result (λ copies. keys_of copies.items ≡ addresses.now) }
    ensures copies { IfOk result (λ copies. AreCopies pool.new (BookContent.Formula (expr_of tree.now)) copies.items) }
    ensures kept_trees { KeepsTrees pool.old pool.new }
    ensures there { CopiesAreThere pool.old (among addresses.now) (Some (BookContent.Formula (expr_of tree.now))) → pool.new ≡ pool.old }
{
    let mut copies = Vec::new(alloc);
    for at in addresses {
        let copy = copy_of(alloc, pool, id, tree, from, *at)?;
        copies.push((*at, Content::Formula(copy)))?;
    }
    Ok(copies)
}

/// A formula's copy at a cell: the same expression where no reference is lost there.
fn copy_of(
    alloc: Global,
    pool: &mut Pool,
    id: ExprId,
    tree: &Tree,
    from: Addr,
    at: Addr,
) -> Result<ExprId, AllocError>
    requires there { id.0 < length pool.old }
    requires tree { tree_at pool.old id ≡ expr_of tree.now }
    requires sound { IsSound from (expr_of tree.now) }
    ensures copy { IfOk result (λ copy. IsCopy pool.new (BookContent.Formula (expr_of tree.now)) at (Content.Formula copy)) }
    ensures kept_trees { KeepsTrees pool.old pool.new }
    ensures there { IsThere pool.old (shifted at (expr_of tree.now)) → pool.new ≡ pool.old }
{
    if stays(tree, at) {
        return Ok(id);
    }
    let copy = shift(alloc, tree, from, at)?;
    pool.intern(alloc, &copy)
}

/// Whether no reference and no range of a formula is lost at a cell.
#[cycle(stays)]
fn stays(tree: &Tree, at: Addr) -> bool
    ensures { result ≡ true → shifted at (expr_of tree.now) ≡ expr_of tree.now }
{
    match tree {
        Tree::Ref(r) => resolve(r, at).is_some(),
        Tree::Range(r, s) => is_small(area_of(r, s, at)),
        Tree::Unary(_, a) => stays(a, at),
        Tree::Binary(_, a, b) => stays(a, at) && stays(b, at),
        Tree::Call(_, args) => all_stay(args, at),
        Tree::Number(_) | Tree::Text(_) | Tree::Bool(_) | Tree::RefError => true,
    }
}

/// The same for arguments.
#[cycle(stays)]
fn all_stay(args: &Args, at: Addr) -> bool
    ensures { result ≡ true → all_mapped (copied_cell at) (copied_range at) (λ t. t) (exprs_of args.now) ≡ exprs_of args.now }
{
    match args {
        Args::End => true,
        Args::More(a, rest) => stays(a, at) && all_stay(rest, at),
    }
}

/// Whether there is an area that a range may have.
fn is_small(area: Option<Area>) -> bool
    requires { IfSome area IsArea }
    ensures { (range : Expr) → result ≡ true → kept_area range area ≡ range }
{
    match area {
        Some(area) => area.size() <= MAX_RANGE_CELLS,
        None => false,
    }
}

/// Each of these cells with a content that is no formula.
fn same_copies(
    alloc: Global,
    pool: &Pool,
    content: Content,
    addresses: &[Addr],
) -> Result<Vec<(Addr, Content)>, AllocError>
    requires { IsPlain content }
    ensures keys { IfOk result (λ copies. keys_of copies.items ≡ addresses.now) }
    ensures copies { IfOk result (λ copies. AreCopies pool.now (content_in pool.now content) copies.items) }
{
    let mut copies = Vec::new(alloc);
    for at in addresses {
        copies.push((*at, content))?;
    }
    Ok(copies)
}
