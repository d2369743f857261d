//! What operators give at two values, and signs at one.
ghost use Rattle.std.specs.Prelude.{◌≡◌, if◌then◌else◌};
ghost use Rattle.cell_values.specs.Values.{IsValueOf, is_error};
ghost use Rattle.computed_text.specs.Computed.{joined};
ghost use Rattle.demand_spec.specs.Formula.{op_of, operator_value, sign_of, sign_value};

use builtin_functions::{Op2, Sign2, binary, unary};
use cell_values::{Texts, Value};
use computed_text::join;
use formula_trees::{Op, Sign};

/// What a two-sided operator gives: at an error that error, the left one before the right one.
pub fn operator_value(op: Op, a: Value, b: Value, texts: &Texts) -> Value
    requires left { IsValueOf texts.now a }
    requires right { IsValueOf texts.now b }
    ensures { result ≡ operator_value texts.now op a b }
{
    match op_of(op) {
        Some(op) => binary(op, a, b, texts),
        None => joined(a, b, texts),
    }
}

/// One text behind the other: at an error that error, the left one before the right one.
fn joined(a: Value, b: Value, texts: &Texts) -> Value
    requires left { IsValueOf texts.now a }
    requires right { IsValueOf texts.now b }
    ensures { result ≡ if is_error a then a else if is_error b then b else joined texts.now a b }
{
    if a.is_error() {
        a
    } else if b.is_error() {
        b
    } else {
        join(a, b, texts)
    }
}

/// What a sign gives: at an error that error.
pub fn sign_value(sign: Sign, a: Value) -> Value
    ensures { result ≡ sign_value sign a }
{
    unary(sign_of(sign), a)
}

/// The operator in the table of operators, none for `&`.
fn op_of(op: Op) -> Option<Op2>
    ensures { result ≡ op_of op }
{
    match op {
        Op::Add => Some(Op2::Add),
        Op::Sub => Some(Op2::Sub),
        Op::Mul => Some(Op2::Mul),
        Op::Div => Some(Op2::Div),
        Op::Eq => Some(Op2::Eq),
        Op::Ne => Some(Op2::Ne),
        Op::Lt => Some(Op2::Lt),
        Op::Le => Some(Op2::Le),
        Op::Gt => Some(Op2::Gt),
        Op::Ge => Some(Op2::Ge),
        Op::Join => None,
    }
}

/// The sign in the table of signs.
fn sign_of(sign: Sign) -> Sign2
    ensures { result ≡ sign_of sign }
{
    match sign {
        Sign::Minus => Sign2::Minus,
        Sign::Plus => Sign2::Plus,
    }
}
