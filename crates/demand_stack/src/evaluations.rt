//! The evaluation of one formula, begun or taken up again, and the room that evaluations need.
ghost use Rattle.std.specs.Prelude.{◌≡◌, ◌≤◌, Some, false, List, length, cond, option_map};
ghost use Rattle.cell_values.specs.declared.TheConstants.{MAX_BOOK_CELLS};
ghost use Rattle.formula_trees.specs.Expr.{Expr};
ghost use Rattle.demand_spec.specs.Book.{formula_at, formula_of};
ghost use Rattle.shared_expressions.specs.Trees.{Trees, tree_at};
ghost use Rattle.workbook_core.specs.Held.{content_in};
ghost use Rattle.formula_eval.specs.declared.work.Frame.{Frame};
ghost use Rattle.formula_eval.specs.Stacks.{dropped};
ghost use Rattle.demand_stack.specs.Open.{IsReady, LiesOn, AnswersOn, depth_of, depths};
ghost use Rattle.demand_stack.specs.Open as open_spec;
ghost use Rattle.demand_stack.specs.Recall.{look_in};

use crate::recalled::Recalled;
use cell_values::{Addr, Value};
use formula_eval::{Asked, Frames, abandon, begin, resume};
use shared_expressions::ExprId;
use workbook_core::{BookWith, Content};

/// The expression of a formula cell.
fn expression(content: Option<Content>) -> Option<ExprId>
    ensures { (p : Trees) → option_map (tree_at p) result ≡ formula_of (option_map (content_in p) content) }
{
    match content {
        Some(Content::Formula(id)) => Some(id),
        _ => None,
    }
}

/// Begins the evaluation of a formula cell.
fn begin_cell(
    frames: &mut Frames,
    book: &BookWith<'_>,
    known: &mut Recalled<'_, '_>,
    at: Addr,
) -> Asked
    requires same { known.old.shared ≡ book.now }
    requires formula { (t : Expr) × (formula_at book.now.book at ≡ Some t) }
    requires ready { IsReady book.now at false frames.old }
    ensures answered { AnswersOn book.now.pool book.now.book (look_in known.old) at frames.old.frames result frames.new.frames }
    ensures room { frames.new.room ≡ frames.old.room }
{
    match expression(book.content(at)) {
        Some(id) => begin(frames, book.pool(), book.texts(), id, at, known),
        None => Asked::Val(Value::Blank),
    }
}

/// Asks a cell: begins its evaluation, or goes on with it where it stands open.
pub(crate) fn evaluate(
    frames: &mut Frames,
    book: &BookWith<'_>,
    known: &mut Recalled<'_, '_>,
    at: Addr,
    begun: bool,
) -> Asked
    requires same { known.old.shared ≡ book.now }
    requires formula { (t : Expr) × (formula_at book.now.book at ≡ Some t) }
    requires ready { IsReady book.now at begun frames.old }
    ensures answered { (base : List Frame) → LiesOn book.now.pool book.now.book (look_in known.old) at begun frames.old.frames base → AnswersOn book.now.pool book.now.book (look_in known.old) at base result frames.new.frames }
    ensures room { frames.new.room ≡ frames.old.room }
{
    if begun {
        resume(frames, book.pool(), book.texts(), known)
    } else {
        begin_cell(frames, book, known, at)
    }
}

/// Drops the last open evaluation, where it is one of the cell's.
pub(crate) fn abandon_if(frames: &mut Frames, begun: bool)
    ensures frames { frames.new.frames ≡ cond begun (dropped frames.old.frames) frames.old.frames }
    ensures room { frames.new.room ≡ frames.old.room }
{
    if begun {
        abandon(frames);
    }
}

/// Whether a formula stops at a cell.
pub(crate) fn is_need(answer: Asked) -> bool
    ensures { result ≡ open_spec.is_need answer }
{
    match answer {
        Asked::Val(_) => false,
        Asked::Needs(_) => true,
    }
}

/// The depth of a cell's formula.
fn depth_at(book: &BookWith<'_>, at: Addr) -> usize
    ensures depth { result ≡ depth_of book.now.book at }
    ensures few { result ≤ 512 }
{
    match expression(book.content(at)) {
        Some(id) => book.pool().depth(id),
        None => 1,
    }
}

/// The depths of the formulas of all pending cells.
pub(crate) fn room_for(book: &BookWith<'_>, cells: &[Addr]) -> usize
    requires { length cells.now ≤ MAX_BOOK_CELLS }
    ensures { result ≡ depths book.now.book cells.now }
{
    let mut room = 0;
    for i in 0..cells.len() {
        room += depth_at(book, cells[i]);
    }
    room
}
