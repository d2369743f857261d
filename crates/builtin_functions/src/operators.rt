//! Operators and comparisons.
//!
//! An operator takes any two values: an error is the answer, the left one before the right one.
//! Arithmetic takes a Number as it is and Blank as 0; the exact result that does not fit an `Int` is
//! `#NUM!`. Comparisons order values of one kind, Blank beside each of them.

ghost use Rattle.std.specs.Prelude.{◌≡◌, IsFalse};
ghost use Rattle.cell_values.specs.Values.{IsValueOf, is_error};
ghost use Rattle.builtin_functions.specs.Tables as spec;

use crate::arithmetic::{difference, modulo, negative, product, quotient, size, sum};
use crate::comparisons::{equals, order, truth};
use cell_values::{Code, Int, Texts, Value};

/// A two-sided operator, or a function of two numbers.
#[derive(Clone, Copy, Debug, PartialEq, Eq)]
pub enum Op2 {
    Add,
    Sub,
    Mul,
    Div,
    Eq,
    Ne,
    Lt,
    Le,
    Gt,
    Ge,
    Mod,
    Quotient,
}

/// An operator or a function of one number.
#[derive(Clone, Copy, Debug, PartialEq, Eq)]
pub enum Sign2 {
    Minus,
    Plus,
    Abs,
}

/// The operator's value at two values.
pub fn binary(op: Op2, a: Value, b: Value, texts: &Texts) -> Value
    requires left { IsValueOf texts.now a }
    requires right { IsValueOf texts.now b }
    ensures { result ≡ spec.binary_value texts.now op a b }
{
    if a.is_error() {
        a
    } else if b.is_error() {
        b
    } else {
        table(op, a, b, texts)
    }
}

/// The sign's value, or the absolute value, at a value.
pub fn unary(sign: Sign2, a: Value) -> Value
    ensures { result ≡ spec.unary_value sign a }
{
    match a.as_number() {
        Some(x) => signed(sign, x),
        None if a.is_error() => a,
        None => Value::Error(Code::Value),
    }
}

/// Whether two values are equal, as `=` answers.
pub fn same(a: Value, b: Value, texts: &Texts) -> bool
    requires left { IsValueOf texts.now a }
    requires right { IsValueOf texts.now b }
    requires left_value { IsFalse (is_error a) }
    requires right_value { IsFalse (is_error b) }
    ensures { result ≡ spec.same texts.now a b }
{
    equals(order(a, b, texts))
}

/// What a condition takes a value as, or the error that ends it.
pub fn condition(v: Value) -> Result<bool, Code>
    ensures { result ≡ spec.condition v }
{
    match v {
        Value::Bool(b) => Ok(b),
        Value::Number(n) => Ok(n != 0),
        Value::Blank => Ok(false),
        Value::Text(_) | Value::Short(_) => Err(Code::Value),
        Value::Error(code) => Err(code),
    }
}

// The operator at two values of which none is an error.
fn table(op: Op2, a: Value, b: Value, texts: &Texts) -> Value
    requires left { IsValueOf texts.now a }
    requires right { IsValueOf texts.now b }
    ensures { result ≡ spec.table texts.now op a b }
{
    match (op, a.as_number(), b.as_number()) {
        (Op2::Eq, _, _) => Value::Bool(equals(order(a, b, texts))),
        (Op2::Ne, _, _) => Value::Bool(!equals(order(a, b, texts))),
        (Op2::Lt, _, _) => truth(order(a, b, texts).map(|o| o.is_lt())),
        (Op2::Le, _, _) => truth(order(a, b, texts).map(|o| o.is_le())),
        (Op2::Gt, _, _) => truth(order(a, b, texts).map(|o| o.is_gt())),
        (Op2::Ge, _, _) => truth(order(a, b, texts).map(|o| o.is_ge())),
        (Op2::Add, Some(x), Some(y)) => sum(x, y),
        (Op2::Sub, Some(x), Some(y)) => difference(x, y),
        (Op2::Mul, Some(x), Some(y)) => product(x, y),
        (Op2::Div | Op2::Quotient, Some(x), Some(y)) => quotient(x, y),
        (Op2::Mod, Some(x), Some(y)) => modulo(x, y),
        (Op2::Add | Op2::Sub | Op2::Mul | Op2::Div | Op2::Quotient | Op2::Mod, _, _) => {
            Value::Error(Code::Value)
        }
    }
}

// The sign at a number.
fn signed(sign: Sign2, x: Int) -> Value
    ensures { result ≡ spec.sign_table sign (Value.Number x) }
{
    match sign {
        Sign2::Minus => negative(x),
        Sign2::Plus => Value::Number(x),
        Sign2::Abs => size(x),
    }
}
