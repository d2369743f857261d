//! The levels of operators: one of a higher level binds tighter.

ghost use Rattle.std.specs.Prelude.{◌≡◌, ◌≤◌};
ghost use Rattle.formula_trees.specs.Sound.{op_level, level_of};
ghost use Rattle.formula_trees.specs.Expr.{expr_of};

use crate::{Op, Tree};

/// The level of a comparison.
pub const COMPARISON_LEVEL: u8 = 1;

/// The level of texts joined by `&`.
pub const JOIN_LEVEL: u8 = 2;

/// The level of a sum or a difference.
pub const SUM_LEVEL: u8 = 3;

/// The level of a product or a quotient.
pub const TERM_LEVEL: u8 = 4;

/// The level of a sign.
pub const SIGN_LEVEL: u8 = 5;

/// The level of what needs no parentheses: a literal, a reference or a call.
pub const OPERAND_LEVEL: u8 = 6;

/// The level of an operator.
pub fn op_level(op: Op) -> u8
    ensures level { result ≡ op_level op }
    ensures low { result ≤ TERM_LEVEL }
{
    match op {
        Op::Add | Op::Sub => SUM_LEVEL,
        Op::Mul | Op::Div => TERM_LEVEL,
        Op::Join => JOIN_LEVEL,
        Op::Eq | Op::Ne | Op::Lt | Op::Le | Op::Gt | Op::Ge => COMPARISON_LEVEL,
    }
}

/// The level of a tree's root.
pub fn level_of(tree: &Tree) -> u8
    ensures { result ≡ level_of (expr_of tree.now) }
{
    match tree {
        Tree::Binary(op, _, _) => op_level(*op),
        Tree::Unary(_, _) => SIGN_LEVEL,
        Tree::Number(_)
        | Tree::Text(_)
        | Tree::Bool(_)
        | Tree::Ref(_)
        | Tree::Range(_, _)
        | Tree::RefError
        | Tree::Call(_, _) => OPERAND_LEVEL,
    }
}
