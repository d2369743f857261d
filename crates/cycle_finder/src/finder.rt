//! A search for the loops of a book.
ghost use Rattle.std.specs.Prelude.{◌≡◌, ◌++◌, ◌∷◌, [], ◌||◌, None, Some, Option, IfOk, OnOk};
ghost use Rattle.cell_values.specs.declared.address.Addr.{Addr};
ghost use Rattle.cell_values.specs.Order.{InOrder, addresses};
ghost use Rattle.demand_spec.specs.Book.{Book};
ghost use Rattle.workbook_core.specs.Books.{next_in};
ghost use Rattle.cycle_finder.specs.Loops.{loops, HoldShown};
ghost use Rattle.cycle_finder.specs.Search.{IsFound, has};

use crate::walker::Walker;
use cell_values::Addr;
use demand_spec::Results;
use std::alloc::{AllocError, Global};
use std::collections::BTreeSet;
use std::marker::Model;
use workbook_core::Workbook;

/// A loop of first unfinished demands: each cell still needs the next one, and the last needs the first, which has
/// the least address. Contracts see the list of the cells.
#[derive(Debug, Drop)]
pub struct Loop {
    pub(crate) cells: Vec<Addr>,
}

impl Model for Loop {
    ghost use Rattle.std.specs.Prelude.{List};
    ghost use Rattle.cell_values.specs.declared.address.Addr.{Addr};

    ghost Value = { List Addr };

    ghost view = { λ l. l.cells.items };
}

impl Loop {
    /// The cells in the order of the demands.
    pub fn cells(&self) -> &[Addr]
        ensures { result.now ≡ self.now }
    {
        &self.cells
    }
}

/// The loops found so far, and the cells on them.
#[derive(Drop)]
struct Found {
    loops: Vec<Loop>,
    seen: BTreeSet<Addr>,
}

impl Found {
    /// No loop found.
    fn new(alloc: Global) -> Found
        ensures { (b : Book) → IsFound b None result.loops.items result.seen.keys }
    {
        Found {
            loops: Vec::new(alloc),
            seen: BTreeSet::new(alloc),
        }
    }

    /// Whether a cell is on a loop that was found.
    fn has_seen(&self, cell: Addr) -> bool
        ensures { result ≡ has cell self.now.seen.keys }
    {
        self.seen.contains(&cell)
    }

    /// One loop more.
    fn add(&mut self, cells: Loop) -> Result<(), AllocError>
        ensures loops { OnOk result (self.new.loops.items ≡ self.old.loops.items ++ cells ∷ []) }
        ensures seen { OnOk result ((c : Addr) → has c self.new.seen.keys ≡ (has c cells || has c self.old.seen.keys)) }
    {
        for cell in cells.cells() {
            self.seen.insert(*cell)?;
        }
        self.loops.push(cells)?;
        Ok(())
    }

    /// Goes on to the next cell: a loop that it is the first to be met of is found.
    fn visit<'a>(
        &mut self,
        alloc: Global,
        walker: &mut Walker<'a>,
        cell: Addr,
    ) -> Result<(), AllocError>
        ensures found { OnOk result ((after : Option Addr) → next_in walker.old.cells after ≡ Some cell → IsFound walker.old after self.old.loops.items self.old.seen.keys → IsFound walker.old (Some cell) self.new.loops.items self.new.seen.keys) }
        ensures book { walker.new ≡ walker.old }
        ensures order { InOrder (addresses walker.old.cells) }
    {
        if let Some(length) = walker.loop_length(cell) {
            if !self.has_seen(cell) {
                let cells = walker.trail(alloc, cell, length)?;
                self.add(cells)?;
            }
        }
        Ok(())
    }
}

/// The loops of first unfinished demands of a book, each once, in the order of their first cells. The results are
/// those of a recalculation: what each formula cell shows. Each cell on a loop is evaluated once, and no other.
pub fn cycles(alloc: Global, book: &Workbook, results: &Results) -> Result<Vec<Loop>, AllocError>
    requires { HoldShown book.now.book results.now.entries }
    ensures { IfOk result (λ found. found.items ≡ loops book.now.book) }
{
    let mut walker = Walker::new(alloc, book, results)?;
    let mut found = Found::new(alloc);
    let mut last = None;
    while let Some(cell) = book.next_cell(last) {
        found.visit(alloc, &mut walker, cell)?;
        last = Some(cell);
    }
    Ok(found.loops)
}
