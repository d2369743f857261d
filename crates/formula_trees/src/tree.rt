//! The trees of formulas.

use cell_values::{Int, TextId};

/// A column or a row of a reference.
#[derive(Clone, Copy, Debug, PartialEq, Eq)]
pub enum Part {
    /// Absolute, from 1.
    At(u32),
    /// An offset from the formula's cell.
    By(i32),
}

/// A reference to a cell; no sheet means the formula's own.
#[derive(Clone, Copy, Debug, PartialEq, Eq)]
pub struct Reference {
    pub sheet: Option<u8>,
    pub col: Part,
    pub row: Part,
}

#[derive(Clone, Copy, Debug, PartialEq, Eq)]
pub enum Sign {
    Minus,
    Plus,
}

#[derive(Clone, Copy, Debug, PartialEq, Eq)]
pub enum Op {
    Add,
    Sub,
    Mul,
    Div,
    /// One text behind the other.
    Join,
    Eq,
    Ne,
    Lt,
    Le,
    Gt,
    Ge,
}

/// A function.
#[derive(Clone, Copy, Debug, PartialEq, Eq)]
pub enum Fun {
    If,
    And,
    Or,
    Not,
    Choose,
    IfError,
    IsError,
    Sum,
    Min,
    Max,
    Count,
    Abs,
    Mod,
    Quotient,
    Index,
    Match,
    VLookup,
    HLookup,
    Left,
    Right,
    Mid,
    Len,
}

/// A formula as a tree. Parentheses make no node.
#[cycle(tree)]
#[derive(Debug, Drop, PartialEq, Eq)]
pub enum Tree {
    Number(Int),
    Text(TextId),
    Bool(bool),
    Ref(Reference),
    /// Two corners as written, with the same sheet.
    Range(Reference, Reference),
    /// `#REF!`.
    RefError,
    Unary(Sign, Box<Tree>),
    Binary(Op, Box<Tree>, Box<Tree>),
    Call(Fun, Args),
}

/// The arguments of a call, from left to right.
#[cycle(tree)]
#[derive(Debug, Drop, PartialEq, Eq)]
pub enum Args {
    End,
    More(Box<Tree>, Box<Args>),
}
