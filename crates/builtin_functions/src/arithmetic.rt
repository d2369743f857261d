//! Arithmetic on numbers: the exact result, or the error that stands for it.

ghost use Rattle.std.specs.Prelude.{◌≡◌, pos, ◌+ℤ◌, ◌-ℤ◌, ◌*ℤ◌, unsigned_abs};
ghost use Rattle.builtin_functions.specs.Tables as spec;

use cell_values::{Code, Int, Value};

pub(crate) fn sum(x: Int, y: Int) -> Value
    ensures { result ≡ spec.number (x +ℤ y) }
{
    exact(x.checked_add(y))
}

pub(crate) fn difference(x: Int, y: Int) -> Value
    ensures { result ≡ spec.number (x -ℤ y) }
{
    exact(x.checked_sub(y))
}

pub(crate) fn product(x: Int, y: Int) -> Value
    ensures { result ≡ spec.number (x *ℤ y) }
{
    exact(x.checked_mul(y))
}

pub(crate) fn negative(x: Int) -> Value
    ensures { result ≡ spec.number (pos 0 -ℤ x) }
{
    exact(x.checked_neg())
}

// The absolute value.
pub(crate) fn size(x: Int) -> Value
    ensures { result ≡ spec.number (pos (unsigned_abs x)) }
{
    exact(x.checked_abs())
}

// The quotient, truncated towards zero.
pub(crate) fn quotient(x: Int, y: Int) -> Value
    ensures { result ≡ spec.quotient x y }
{
    if y == 0 {
        Value::Error(Code::Div)
    } else {
        exact(x.checked_div(y))
    }
}

// The remainder with the divisor's sign.
pub(crate) fn modulo(x: Int, y: Int) -> Value
    ensures { result ≡ spec.modulo x y }
{
    if y == 0 {
        return Value::Error(Code::Div);
    }
    let remainder = x.wrapping_rem(y);
    if remainder != 0 && (remainder < 0) != (y < 0) {
        Value::Number(remainder + y)
    } else {
        Value::Number(remainder)
    }
}

// A result, `#NUM!` where there is none that fits.
fn exact(fitting: Option<Int>) -> Value
    ensures { result ≡ spec.or_num fitting }
{
    match fitting {
        Some(n) => Value::Number(n),
        None => Value::Error(Code::Num),
    }
}
