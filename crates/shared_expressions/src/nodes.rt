//! Expressions by number, and their roots.

use cell_values::{Int, TextId};
use formula_trees::{Fun, Op, Reference, Sign};

/// The number of an expression in its pool. Contracts see it as its tree.
#[derive(Clone, Copy, Debug, PartialEq, Eq)]
pub struct ExprId(pub usize);

/// The root of an expression.
#[derive(Clone, Copy, Debug, PartialEq, Eq)]
pub enum Node {
    Number(Int),
    Text(TextId),
    Bool(bool),
    Ref(Reference),
    /// Two corners as written, with the same sheet.
    Range(Reference, Reference),
    /// `#REF!`.
    RefError,
    Unary(Sign),
    Binary(Op),
    Call(Fun),
}
