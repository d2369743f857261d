//! The functions' arguments.

ghost use Rattle.std.specs.Prelude.{◌≡◌};
ghost use Rattle.formula_trees.specs.Functions.{takes, signature_of, kind_of, enough, takes_more};

use crate::Fun;

/// What an argument may be.
#[derive(Clone, Copy, Debug, PartialEq, Eq)]
pub enum Kind {
    /// An expression.
    Plain,
    /// A reference, a range or `#REF!`.
    Place,
    /// A range or an expression.
    Many,
    /// A number of value 0, or FALSE.
    Exact,
}

/// Which arguments a function takes.
#[derive(Clone, Copy, Debug, PartialEq, Eq)]
pub struct Signature {
    /// The kind of the first argument.
    pub first: Kind,
    pub second: Kind,
    pub third: Kind,
    /// The kind of all arguments behind the third.
    pub others: Kind,
    /// The least number of arguments.
    pub least: usize,
    /// The greatest number of arguments, None where any number may stand.
    pub most: Option<usize>,
}

/// The kinds of the first, the second, the third and all other arguments, and how many there are.
fn takes(
    first: Kind,
    second: Kind,
    third: Kind,
    others: Kind,
    least: usize,
    most: Option<usize>,
) -> Signature
    ensures { result ≡ takes first second third others least most }
{
    Signature {
        first,
        second,
        third,
        others,
        least,
        most,
    }
}

/// Which arguments a function takes: the table of the functions.
pub fn signature_of(function: Fun) -> Signature
    ensures { result ≡ signature_of function }
{
    use Kind::{Exact, Many, Place, Plain};
    match function {
        Fun::If => takes(Plain, Plain, Plain, Plain, 2, Some(3)),
        Fun::And => takes(Plain, Plain, Plain, Plain, 1, None),
        Fun::Or => takes(Plain, Plain, Plain, Plain, 1, None),
        Fun::Not => takes(Plain, Plain, Plain, Plain, 1, Some(1)),
        Fun::Choose => takes(Plain, Plain, Plain, Plain, 2, None),
        Fun::IfError => takes(Plain, Plain, Plain, Plain, 2, Some(2)),
        Fun::IsError => takes(Plain, Plain, Plain, Plain, 1, Some(1)),
        Fun::Sum => takes(Many, Many, Many, Many, 1, None),
        Fun::Min => takes(Many, Many, Many, Many, 1, None),
        Fun::Max => takes(Many, Many, Many, Many, 1, None),
        Fun::Count => takes(Many, Many, Many, Many, 1, None),
        Fun::Abs => takes(Plain, Plain, Plain, Plain, 1, Some(1)),
        Fun::Mod => takes(Plain, Plain, Plain, Plain, 2, Some(2)),
        Fun::Quotient => takes(Plain, Plain, Plain, Plain, 2, Some(2)),
        Fun::Index => takes(Place, Plain, Plain, Plain, 3, Some(3)),
        Fun::Match => takes(Plain, Place, Exact, Plain, 2, Some(3)),
        Fun::VLookup => takes(Plain, Place, Plain, Exact, 3, Some(4)),
        Fun::HLookup => takes(Plain, Place, Plain, Exact, 3, Some(4)),
        Fun::Left => takes(Plain, Plain, Plain, Plain, 1, Some(2)),
        Fun::Right => takes(Plain, Plain, Plain, Plain, 1, Some(2)),
        Fun::Mid => takes(Plain, Plain, Plain, Plain, 3, Some(3)),
        Fun::Len => takes(Plain, Plain, Plain, Plain, 1, Some(1)),
    }
}

/// The kind of the argument with a number, from 0.
pub fn kind_of(function: Fun, index: usize) -> Kind
    ensures { result ≡ kind_of function index }
{
    let signature = signature_of(function);
    match index {
        0 => signature.first,
        1 => signature.second,
        2 => signature.third,
        _ => signature.others,
    }
}

/// Whether so many arguments are enough.
pub fn are_enough(function: Fun, count: usize) -> bool
    ensures { result ≡ enough function count }
{
    signature_of(function).least <= count
}

/// Whether one more argument may stand behind so many.
pub fn may_go_on(function: Fun, count: usize) -> bool
    ensures { result ≡ takes_more function count }
{
    match signature_of(function).most {
        Some(most) => count < most,
        None => true,
    }
}
