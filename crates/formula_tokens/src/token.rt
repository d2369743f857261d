//! The tokens of formulas.

use cell_values::{Int, TextId};
use formula_trees::{Fun, Op};

/// A column or a row as a reference writes it, counted from 1.
#[derive(Clone, Copy, Debug, PartialEq, Eq)]
pub struct Coordinate {
    /// One that is above the greatest `u32` counts as that.
    pub number: u32,
    /// A `$` stands before it.
    pub absolute: bool,
}

/// A cell as a reference writes it. It may lie outside the sheet.
#[derive(Clone, Copy, Debug, PartialEq, Eq)]
pub struct Corner {
    pub col: Coordinate,
    pub row: Coordinate,
}

/// A word that stands where a reference may stand.
#[derive(Clone, Copy, Debug, PartialEq, Eq)]
pub enum Word {
    Cell(Corner),
    /// No reference, and no other word of the language.
    Unknown,
}

/// A token that is an operand by itself.
#[derive(Clone, Copy, Debug, PartialEq, Eq)]
pub enum Literal {
    Number(Int),
    /// A number above the greatest value.
    HugeNumber,
    Text(TextId),
    Truth(bool),
    /// `#REF!`.
    RefError,
}

/// A token of a formula.
#[derive(Clone, Copy, Debug, PartialEq, Eq)]
pub enum Token {
    Literal(Literal),
    Reference(Word),
    /// A reference at once behind a sheet prefix.
    SheetReference(Word),
    /// A sheet's name and `!`; None where no sheet has the name.
    Prefix(Option<u8>),
    /// A function's name; None where no function has it.
    Function(Option<Fun>),
    LeftParen,
    RightParen,
    Comma,
    Colon,
    /// An operator; `+` and `-` are signs too.
    Operator(Op),
    /// A word at once behind a sheet prefix that can be no reference there.
    Misplaced,
    /// A character that begins no token.
    BadCharacter,
    /// The end of the text.
    End,
}

/// A token and the place of its first byte, counted from 0 at the `=`.
#[derive(Clone, Copy, Debug, PartialEq, Eq)]
pub struct Spot {
    pub token: Token,
    pub place: u32,
}
