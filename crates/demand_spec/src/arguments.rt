//! What a call gives from what its arguments give.
//!
//! The arguments have been asked; a rule says which of the answers count, from left to right, and a need
//! or an error that it comes to ends the formula.
ghost use Rattle.std.specs.Prelude.{◌≡◌};
ghost use Rattle.cell_values.specs.Values.{IsValueOf};
ghost use Rattle.demand_spec.specs.Asks.{condition_or_end, if_error};
ghost use Rattle.demand_spec.specs.Formula.{from_one};
ghost use Rattle.demand_spec.specs.Given.{IsAnswerOf, count_or_one, index_or_end, if_then, not_of, is_error_of, sign_of_one, operator_of_two, one_given, two_given};

use crate::Asked;
use crate::operators::{operator_value, sign_value};
use crate::outcomes::{any_value, no_error, number, truth};
use builtin_functions::{Op2, Sign2, binary, unary};
use cell_values::{Int, Texts, Value};
use computed_text::{left, length, right};
use formula_trees::{Op, Place, Sign};

/// An argument: what it gives as an expression, and where it stands in the sheet.
#[derive(Clone, Copy)]
pub(crate) struct Argument {
    pub(crate) value: Asked,
    pub(crate) place: Place,
}

/// The first three arguments of a call.
#[derive(Clone, Copy)]
pub(crate) enum Given {
    Zero,
    One(Argument),
    Two(Argument, Argument),
    Three(Argument, Argument, Argument),
    /// Four or more.
    Four(Argument, Argument, Argument),
}

/// A function of one value.
#[derive(Clone, Copy)]
pub(crate) enum OfOne {
    Abs,
    Len,
}

/// A function of two values.
#[derive(Clone, Copy)]
pub(crate) enum OfTwo {
    /// MOD or QUOTIENT, by the table of operators.
    Table(Op2),
    Left,
    Right,
}

impl OfOne {
    /// What it gives at a value.
    pub(crate) fn at(self, x: Value, texts: &Texts) -> Value
        requires { IsValueOf texts.now x }
        ensures { result ≡ one_given texts.now self x }
    {
        match self {
            OfOne::Abs => unary(Sign2::Abs, x),
            OfOne::Len => length(x, texts),
        }
    }
}

impl OfTwo {
    /// What it gives at two values.
    pub(crate) fn at(self, x: Value, y: Value, texts: &Texts) -> Value
        requires first { IsValueOf texts.now x }
        requires second { IsValueOf texts.now y }
        ensures { result ≡ two_given texts.now self x y }
    {
        match self {
            OfTwo::Table(op) => binary(op, x, y, texts),
            OfTwo::Left => left(x, y, texts),
            OfTwo::Right => right(x, y, texts),
        }
    }
}

/// LEFT and RIGHT: 1 stands for a count that is not given.
pub(crate) fn count_or_one(given: Given) -> Given
    ensures { result ≡ count_or_one given }
{
    match given {
        Given::One(text) => Given::Two(
            text,
            Argument {
                value: Asked::Val(Value::Number(1)),
                place: Place::Nowhere,
            },
        ),
        Given::Zero | Given::Two(_, _) | Given::Three(_, _, _) | Given::Four(_, _, _) => given,
    }
}

/// IF: the condition, and then one of the others.
pub(crate) fn if_then(condition: Asked, first: Asked, other: Asked) -> Asked
    ensures { result ≡ if_then condition first other }
{
    match condition_of(condition) {
        Ok(true) => first,
        Ok(false) => other,
        Err(ended) => ended,
    }
}

/// NOT.
pub(crate) fn not_of(a: Asked) -> Asked
    ensures { result ≡ not_of a }
{
    match condition_of(a) {
        Ok(holds) => Asked::Val(Value::Bool(!holds)),
        Err(ended) => ended,
    }
}

/// IFERROR: the second where the first gives an error. A need is no error.
pub(crate) fn if_error_of(a: Asked, b: Asked) -> Asked
    ensures { result ≡ if_error a b }
{
    match a {
        Asked::Val(value) => { if value.is_error() { b } else { a } }
        Asked::Needs(_) => a,
    }
}

/// ISERROR.
pub(crate) fn is_error_of(a: Asked) -> Asked
    ensures { result ≡ is_error_of a }
{
    match a {
        Asked::Val(value) => Asked::Val(Value::Bool(value.is_error())),
        Asked::Needs(at) => Asked::Needs(at),
    }
}

/// A sign.
pub(crate) fn sign_of_one(sign: Sign, a: Asked) -> Asked
    ensures { result ≡ sign_of_one sign a }
{
    match no_error(a) {
        Ok(x) => Asked::Val(sign_value(sign, x)),
        Err(ended) => ended,
    }
}

/// A two-sided operator: the left operand, and then the right one.
#[tactic(auto, using(crate::proofs::Rules::value_is_of))]
pub(crate) fn operator_of_two(op: Op, a: Asked, b: Asked, texts: &Texts) -> Asked
    requires left { IsAnswerOf texts.now a }
    requires right { IsAnswerOf texts.now b }
    ensures { result ≡ operator_of_two texts.now op a b }
{
    match (no_error(a), no_error(b)) {
        (Ok(x), Ok(y)) => Asked::Val(operator_value(op, x, y, texts)),
        (Ok(_), Err(ended)) => ended,
        (Err(ended), _) => ended,
    }
}

/// CHOOSE's index, from 1 on and counted from 0.
pub(crate) fn index_of(a: Asked) -> Result<Option<u128>, Asked>
    ensures { result ≡ index_or_end a }
{
    let n = number(no_error(a)?)?;
    Ok(from_one(n))
}

/// A number from 1 on, counted from 0.
fn from_one(n: Int) -> Option<u128>
    ensures { result ≡ from_one n }
{
    if n < 1 { None } else { Some((n - 1) as u128) }
}

fn condition_of(a: Asked) -> Result<bool, Asked>
    ensures { result ≡ condition_or_end a }
{
    truth(any_value(a)?)
}
