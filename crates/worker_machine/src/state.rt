//! What a worker notes.

/// A cell of the stack, by its number, and the claimer whose word is to be replaced, if one is.
#[derive(Clone, Copy, Debug, PartialEq, Eq)]
pub struct Entry {
    pub cell: u32,
    pub owed: Option<u8>,
}

/// The record that is held: how many value words of the top cell's result were stored in it, from the
/// first on, and whether its tag word was.
#[derive(Clone, Copy, Debug, PartialEq, Eq)]
pub struct Store {
    pub rec: u32,
    pub stored: u32,
    pub tagged: bool,
}

/// What a worker is in the middle of. Beside `ReadingValue` stand the value words read so far.
#[derive(Clone, Copy, Debug, PartialEq, Eq)]
pub enum Doing {
    Free,
    Claiming { cell: u32 },
    ReadingTag { cell: u32, rec: u32 },
    ReadingValue { cell: u32, rec: u32, tag: u64 },
}
