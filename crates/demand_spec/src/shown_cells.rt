//! What all formula cells of a book show.
ghost use Rattle.std.specs.Prelude.{◌≡◌, length, option_and_then, IfOk, IsSome};
ghost use Rattle.demand_spec.specs.Book.{finished, formula_at, is_at, need, period, shown};
ghost use Rattle.demand_spec.specs.Listed.{all_shown, AreCellsOf, AreShownOf};
ghost use Rattle.demand_spec.specs.Stage.{book_of, known_of, book_with};

use crate::all_rounds::finish;
use crate::book::is_same;
use crate::context::Stage;
use crate::{Asked, Cell, PlainBook};
use cell_values::{Addr, Shown, Texts};
use std::alloc::{AllocError, Global};

/// The cell that a formula cell still needs, over the finished values.
#[tactic(auto, unfolding(crate::specs::Book::need))]
fn need_of(stage: &Stage, at: Addr) -> Option<Addr>
    requires { known_of stage.now ≡ finished (book_of stage.now) }
    ensures { result ≡ need (book_of stage.now) at }
{
    match stage.ask_cell(at) {
        Some(Asked::Needs(x)) => Some(x),
        Some(Asked::Val(_)) | None => None,
    }
}

/// One step along the needs.
fn step_on(stage: &Stage, here: Option<Addr>) -> Option<Addr>
    requires { known_of stage.now ≡ finished (book_of stage.now) }
    ensures { result ≡ option_and_then (need (book_of stage.now)) here }
{
    match here {
        Some(x) => need_of(stage, x),
        None => None,
    }
}

fn is_back(at: Addr, here: Option<Addr>) -> bool
    ensures { result ≡ is_at at here }
{
    match here {
        Some(x) => is_same(at, x),
        None => false,
    }
}

/// After how many steps, from 1 to `most`, the needs first lead from a cell back to it.
fn steps_back(stage: &Stage, at: Addr, most: u32) -> Option<u32>
    requires { known_of stage.now ≡ finished (book_of stage.now) }
    ensures { result ≡ period (book_of stage.now) most at }
{
    let mut here = Some(at);
    for step in 0..most {
        here = step_on(stage, here);
        if is_back(at, here) {
            return Some(step + 1);
        }
    }
    None
}

/// What a formula cell shows.
fn shown_of(stage: &Stage, at: Addr, cells: u32) -> Shown
    requires finished { known_of stage.now ≡ finished (book_of stage.now) }
    requires cells { cells ≡ length stage.now.cells }
    requires formula { IsSome (formula_at (book_of stage.now) at) }
    ensures { result ≡ shown (book_of stage.now) at }
{
    match stage.known(at) {
        Some(v) => Shown::Val(v),
        None => match steps_back(stage, at, cells) {
            Some(length) => Shown::Cycle(length),
            None => Shown::ToCycle,
        },
    }
}

/// All formula cells in order, with what they show: the values that rounds over the whole book give,
/// and for each cell without a value how long the loop is that its needs make, if it is on one.
#[tactic(auto, unfolding(crate::specs::Book::formulas))]
pub fn slow_shown(
    alloc: Global,
    book: &PlainBook,
    texts: &Texts,
) -> Result<Vec<(Addr, Shown)>, AllocError>
    requires { AreCellsOf texts.now book.now }
    ensures same { IfOk result (λ v. v.items ≡ all_shown (book_with book.now texts.now)) }
    ensures texts { IfOk result (λ v. AreShownOf texts.now v.items) }
{
    let known = finish(alloc, book, texts)?;
    let stage = Stage::over(book, texts, &known);
    let cells = book.cells();
    let mut out = Vec::new(alloc);
    for (address, cell) in cells {
        if let Cell::Formula(_) = cell {
            out.push((*address, shown_of(&stage, *address, cells.len() as u32)))?;
        }
    }
    Ok(out)
}
