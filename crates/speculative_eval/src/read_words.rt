//! The value words of a record, as a worker reads them one by one.

ghost use Rattle.std.specs.Prelude.{◌≡◌, ◌<◌, [], ◌∷◌, ◌++◌, length};
ghost use Rattle.cell_words.specs.declared.TheConstants.{WORDS};
ghost use Rattle.cell_words.specs.Records.{filled, shown_read};

use cell_values::Shown;
use cell_words::{WORDS, read_record};
use std::marker::Model;

/// The first value words of a record, as many as were read.
#[derive(Drop)]
pub(crate) struct ReadWords {
    words: [u64; WORDS as usize],
    count: u32,
}

impl Model for ReadWords {
    ghost use Rattle.std.specs.Prelude.{◌≡◌, ◌≤◌, ℕ, List, take};
    ghost use Rattle.cell_words.specs.declared.TheConstants.{WORDS};
    ghost use Rattle.cell_words.specs.Records.{filled};

    ghost Value = { List ℕ };

    ghost view = { λ r. take r.count r.words };

    ghost invariant = { λ r. (r.count ≤ WORDS) × (r.words ≡ filled (take r.count r.words)) };
}

impl ReadWords {
    /// None yet.
    pub(crate) fn new() -> ReadWords
        ensures { result ≡ [] }
    {
        ReadWords {
            words: [0; WORDS as usize],
            count: 0,
        }
    }

    /// How many were read.
    pub(crate) fn len(&self) -> u32
        ensures { result ≡ length self.now }
    {
        self.count
    }

    /// One more.
    pub(crate) fn push(&mut self, word: u64)
        requires { length self.old < WORDS }
        ensures { self.new ≡ self.old ++ word ∷ [] }
    {
        self.words[self.count as usize] = word;
        self.count += 1;
    }

    /// Forgets them.
    pub(crate) fn clear(&mut self)
        ensures { self.new ≡ [] }
    {
        self.words = [0; WORDS as usize];
        self.count = 0;
    }

    /// What the record shows, if these are all of its words.
    pub(crate) fn shown(&self, tag: u64) -> Option<Shown>
        ensures { result ≡ shown_read tag (filled self.now) }
    {
        read_record(tag, &self.words)
    }
}
