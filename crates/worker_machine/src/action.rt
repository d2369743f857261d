//! What a worker does next.

use cell_values::Shown;

/// One atomic step of the round, before it is made. `k` is the number of a record's value word, from 0.
#[derive(Clone, Copy, Debug, PartialEq, Eq)]
pub enum Action {
    Look { cell: u32 },
    Claim { cell: u32 },
    TakeRecord,
    StoreValue { rec: u32, k: u32, word: u64 },
    StoreTag { rec: u32, word: u64 },
    Publish { cell: u32, rec: u32, claimer: u8 },
    LoadTag { rec: u32 },
    LoadValue { rec: u32, k: u32 },
}

/// What changes without a step of the round.
#[derive(Clone, Copy, Debug, PartialEq, Eq)]
pub enum Change {
    /// The top cell is taken off the stack.
    Take,
    /// This is the result of the top cell.
    Learn(Shown),
    /// The cells from this one up to the top are a cycle.
    Close { cell: u32 },
}

/// What the state calls for.
#[derive(Clone, Copy, Debug, PartialEq, Eq)]
pub enum Next {
    Alter(Change),
    Do(Action),
    /// The stack is empty.
    Rest,
}
