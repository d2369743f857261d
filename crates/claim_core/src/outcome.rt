//! What a closed round leaves.

ghost use Rattle.std.specs.Prelude.{◌≡◌, ◌<◌, ◌≤◌, length, slice_get, Some};
ghost use Rattle.cell_values.specs.declared.TheConstants.{MAX_BOOK_CELLS};
ghost use Rattle.claim_core.specs.Rule.{address, setup_of};

use crate::view::View;
use atomic_table::Seat;
use cell_values::Addr;
use cell_words::CellWord;
use std::marker::Model;

/// A closed round: what it was over, and its words at the close. It cannot be cloned, and only
/// `Round::close` makes one.
#[derive(Drop)]
pub struct Outcome {
    words: Vec<CellWord>,
    cells: Vec<Addr>,
    workers: u8,
    // For proofs alone: what the round was over.
    stub: Seat<(), View>,
}

impl Model for Outcome {
    ghost use Rattle.std.specs.Prelude.{◌≡◌, ◌≤◌, length};
    ghost use Rattle.cell_values.specs.declared.TheConstants.{MAX_BOOK_CELLS};
    ghost use Rattle.claim_core.specs.Passes.{OutcomeSeen};
    ghost use Rattle.claim_core.specs.Rule.{setup_of};

    ghost Value = { OutcomeSeen };

    ghost use Rattle.claim_core.specs.BookCode.{book_code};
    ghost use Rattle.std.specs.Coded.{codes};

    ghost coded = { Prim.hlevel (codes, book_code) };

    ghost view = { λ o. record { setup = setup_of o.stub.me.0; words = o.words.items } };

    ghost invariant = { λ o. (o.cells.items ≡ o.stub.me.0.cells) × (o.workers ≡ o.stub.me.0.workers) × (length o.words.items ≡ length o.stub.me.0.cells) × (length o.words.items ≤ MAX_BOOK_CELLS) };
}

impl Outcome {
    pub(crate) fn of(
        words: Vec<CellWord>,
        cells: Vec<Addr>,
        workers: u8,
        stub: Seat<(), View>,
    ) -> Outcome
        requires cells { cells.items ≡ stub.me.0.cells }
        requires workers { workers ≡ stub.me.0.workers }
        requires words { (length words.items ≡ length stub.me.0.cells) × (length words.items ≤ MAX_BOOK_CELLS) }
        ensures { (result.setup ≡ setup_of stub.me.0) × (result.words ≡ words.items) }
    {
        Outcome {
            words,
            cells,
            workers,
            stub,
        }
    }

    /// How many cells the round was over.
    pub fn len(&self) -> u32
        ensures cells { result ≡ length self.now.setup.cells }
        ensures words { result ≡ length self.now.words }
    {
        self.cells.len() as u32
    }

    /// How many workers the round had.
    pub fn workers(&self) -> u8
        ensures { result ≡ self.now.setup.workers }
    {
        self.workers
    }

    /// The address of a cell, by its number.
    pub fn cell(&self, i: u32) -> Addr
        requires { i < length self.now.setup.cells }
        ensures { result ≡ address self.now.setup.cells i }
    {
        self.cells[i as usize]
    }

    /// The word of a cell at the close.
    pub fn word(&self, i: u32) -> CellWord
        requires { i < length self.now.setup.cells }
        ensures { slice_get self.now.words i ≡ Some result }
    {
        self.words[i as usize]
    }
}
