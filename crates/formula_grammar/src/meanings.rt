//! What tokens mean.

ghost use Rattle.std.specs.Prelude.{◌≡◌, ◌≢◌, ◌≤◌, ◌<◌, IfSome, IfNone, nat_lt};
ghost use Rattle.cell_values.specs.Addresses.{IsOnSheet};
ghost use Rattle.formula_trees.specs.Sound.{op_level};
ghost use Rattle.formula_trees.specs.Expr.{expr_of};
ghost use Rattle.formula_grammar.specs.Fault.{corner_fault};
ghost use Rattle.formula_grammar.specs.Rest.{token_level, sign_token};
ghost use Rattle.formula_grammar.specs.Syntax.{cells_between, length_between, literal_meaning, part, reference_at};

use cell_values::{Addr, LAST_ROW, MAX_RANGE_CELLS};
use formula_tokens::{Coordinate, Literal, Token, Word};
use formula_trees::levels::op_level;
use formula_trees::{Op, Part, Reference, Sign, Tree};

/// The operator of a level that a token is.
pub fn operator_at(token: Token, level: u8) -> Option<Op>
    requires { 0 < level }
    ensures some { IfSome result (λ op. (token ≡ Token.Operator op) × (op_level op ≡ level)) }
    ensures none { IfNone result (token_level token ≢ level) }
{
    let Token::Operator(op) = token else {
        return None;
    };
    if op_level(op) == level {
        Some(op)
    } else {
        None
    }
}

/// The sign that a token is where an operand has to come.
pub fn sign_at(token: Token) -> Option<Sign>
    ensures { result ≡ sign_token token }
{
    match token {
        Token::Operator(Op::Add) => Some(Sign::Plus),
        Token::Operator(Op::Sub) => Some(Sign::Minus),
        _ => None,
    }
}

/// The tree of a literal. A number that is too large has none; it is never asked for.
pub fn literal_tree(literal: Literal) -> Tree
    ensures { expr_of result ≡ literal_meaning literal }
{
    match literal {
        Literal::Number(n) => Tree::Number(n),
        Literal::Text(text) => Tree::Text(text),
        Literal::Truth(b) => Tree::Bool(b),
        Literal::HugeNumber | Literal::RefError => Tree::RefError,
    }
}

/// Whether the range between two corners has too many cells.
pub fn is_too_large(first: Word, second: Word) -> bool
    ensures { result ≡ nat_lt MAX_RANGE_CELLS (cells_between first second) }
{
    let (Word::Cell(a), Word::Cell(b)) = (first, second) else {
        return false;
    };
    let rows = length_between(a.row.number, b.row.number);
    let cols = length_between(a.col.number, b.col.number);
    rows.saturating_mul(cols) > u64::from(MAX_RANGE_CELLS)
}

/// How many numbers there are from one to the other.
fn length_between(a: u32, b: u32) -> u64
    ensures { result ≡ length_between a b }
{
    u64::from(a.max(b)) - u64::from(a.min(b)) + 1
}

/// The reference that a word is, on a sheet or on the formula's own.
pub fn reference_at(at: Addr, sheet: Option<u8>, word: Word) -> Reference
    requires inside { corner_fault word ≡ None }
    requires on_sheet { IsOnSheet at }
    ensures { result ≡ reference_at at sheet word }
{
    match word {
        Word::Cell(corner) => Reference {
            sheet,
            col: part(u32::from(at.col), corner.col),
            row: part(at.row, corner.row),
        },
        Word::Unknown => Reference {
            sheet,
            col: Part::At(0),
            row: Part::At(0),
        },
    }
}

/// A column or a row, as it is written in the formula of a cell.
fn part(own: u32, coordinate: Coordinate) -> Part
    requires own { own ≤ LAST_ROW }
    requires written { coordinate.number ≤ LAST_ROW }
    ensures { result ≡ part own coordinate }
{
    if coordinate.absolute {
        Part::At(coordinate.number)
    } else {
        Part::By(coordinate.number as i32 - own as i32)
    }
}
