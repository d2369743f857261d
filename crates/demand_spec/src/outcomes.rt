//! What ends a formula.
ghost use Rattle.std.specs.Prelude.{◌≡◌, ◌<◌, IfOk, IsFalse};
ghost use Rattle.cell_values.specs.Areas.{IsArea};
ghost use Rattle.cell_values.specs.declared.values.Value.TheVariants.{Error};
ghost use Rattle.formula_trees.specs.Mentions.{HasArea};
ghost use Rattle.demand_spec.specs.declared.Asked.TheVariants.{Val};
ghost use Rattle.demand_spec.specs.Asks.{any_value, value_or_end, number_or_end, cells_or_end, up_to_or_end, found_or_end, or_fails, answer_of};
ghost use Rattle.builtin_functions.specs.Tables.{condition as condition_of};
ghost use Rattle.cell_values.specs.Values.{as_number, is_error};
ghost use Rattle.builtin_functions.specs.Folds.{taken};

use crate::Asked;
use builtin_functions::operators::condition;
use builtin_functions::{Fold, FoldKind, Go};
use cell_values::{Area, Code, Int, Value};
use formula_trees::Place;

/// The formula gives an error.
pub(crate) fn fails(code: Code) -> Asked
    ensures { result ≡ Val (Error code) }
{
    Asked::Val(Value::Error(code))
}

/// What the formula gives: what was found, or what it has ended with.
pub(crate) fn answer(found: Result<Value, Asked>) -> Asked
    ensures { result ≡ answer_of found }
{
    match found {
        Ok(value) => Asked::Val(value),
        Err(ended) => ended,
    }
}

/// A value; a need ends the formula.
pub(crate) fn any_value(asked: Asked) -> Result<Value, Asked>
    ensures { result ≡ any_value asked }
{
    match asked {
        Asked::Val(value) => Ok(value),
        Asked::Needs(_) => Err(asked),
    }
}

/// A value that is no error; an error or a need ends the formula.
pub(crate) fn no_error(asked: Asked) -> Result<Value, Asked>
    ensures same { result ≡ value_or_end asked }
    ensures value { IfOk result (λ v. IsFalse (is_error v)) }
{
    match asked {
        Asked::Val(value) => {
            if value.is_error() {
                Err(asked)
            } else {
                Ok(value)
            }
        }
        Asked::Needs(_) => Err(asked),
    }
}

/// A value as a condition; a Text or an error ends the formula.
pub(crate) fn truth(value: Value) -> Result<bool, Asked>
    ensures { result ≡ or_fails (condition_of value) }
{
    match condition(value) {
        Ok(holds) => Ok(holds),
        Err(code) => Err(fails(code)),
    }
}

/// The number of a value, Blank as 0; `#VALUE!` where it has none.
pub(crate) fn number(value: Value) -> Result<Int, Asked>
    ensures { result ≡ number_or_end (as_number value) }
{
    match value.as_number() {
        Some(n) => Ok(n),
        None => Err(fails(Code::Value)),
    }
}

/// A place that was found; `#N/A` where none was.
pub(crate) fn found(place: Option<u32>) -> Result<u32, Asked>
    ensures { result ≡ found_or_end place }
{
    match place {
        Some(n) => Ok(n),
        None => Err(fails(Code::Na)),
    }
}

/// A value on in a fold.
pub(crate) fn take(
    kind: FoldKind,
    total: Option<Int>,
    in_range: bool,
    value: Value,
) -> Result<Option<Int>, Asked>
    ensures { result ≡ or_fails (taken kind total in_range value) }
{
    let mut fold = Fold { kind, total };
    match fold.take(value, in_range) {
        Go::More => Ok(fold.total),
        Go::Stop(code) => Err(fails(code)),
    }
}

/// The cells of an argument, `#REF!` where it names none.
pub(crate) fn cells(place: Place) -> Result<Area, Asked>
    requires { HasArea place }
    ensures same { result ≡ cells_or_end place }
    ensures within { IfOk result IsArea }
{
    match place {
        Place::Cells(area) => Ok(area),
        Place::Nowhere | Place::Bad => Err(fails(Code::Ref)),
    }
}

/// A number from 1 to `most`, counted from 0; `#REF!` for another.
pub(crate) fn up_to_most(most: u32, n: Int) -> Result<u32, Asked>
    ensures same { result ≡ up_to_or_end most n }
    ensures within { IfOk result (λ k. k < most) }
{
    if n < 1 || Int::from(most) < n {
        Err(fails(Code::Ref))
    } else {
        Ok((n - 1) as u32)
    }
}
