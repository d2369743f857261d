//! What a pass knows. No value of these types is made.

use crate::event::Event;
use cell_values::Addr;
use cell_words::CellWord;
use std::collections::LinkedList;
use std::marker::Model;

/// A book, for proofs alone.
pub struct PassBook {
    nothing: bool,
}

impl Model for PassBook {
    ghost use Rattle.std.specs.Prelude.{[]};
    ghost use Rattle.demand_spec.specs.Book.{Book};
    ghost use Rattle.claim_core.specs.BookCode.{book_code};

    ghost Value = { Book };

    ghost coded = { book_code };

    ghost view = { λ _. record { cells = []; texts = [] } };
}

/// An event, and the number of the worker that made it.
pub struct Made {
    pub by: u8,
    pub event: Event,
}

/// A value word that was written, and its number in the record.
pub struct StoredWord {
    pub k: u32,
    pub word: u64,
}

/// A record that a pass holds, with the words that it wrote there, the last value word first.
pub struct Held {
    pub rec: u32,
    pub tag: Option<u64>,
    pub values: LinkedList<StoredWord>,
}

/// The words of a round, read: how many records are taken, each cell's word, each record's tag word,
/// and the value words of the records, record by record.
pub struct RoundWords {
    pub counter: u64,
    pub cells: LinkedList<CellWord>,
    pub tags: LinkedList<u64>,
    pub values: LinkedList<u64>,
}

/// What a pass knows: the book, the cells and the number of workers of the round, and beside them the
/// workers' numbers that it has, the events in their order, and the records that it holds.
/// A pass steps only with a part of the turn. Where it has all parts,
/// `words` are the words of the round.
pub struct View {
    pub book: PassBook,
    pub cells: LinkedList<Addr>,
    pub workers: u8,
    pub numbers: LinkedList<u8>,
    pub events: LinkedList<Made>,
    pub held: LinkedList<Held>,
    pub parts: u8,
    pub words: RoundWords,
}
