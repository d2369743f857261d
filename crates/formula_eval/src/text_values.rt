//! The functions of texts at any value: at an error that error.
ghost use Rattle.std.specs.Prelude.{◌≡◌};
ghost use Rattle.cell_values.specs.declared.values.Value.{Value};
ghost use Rattle.cell_values.specs.Values.{IsValueOf};
ghost use Rattle.computed_text.specs.Computed.{left_of, right_of, mid_of, length_of};
ghost use Rattle.formula_eval.specs.Machine.{error_or};

use cell_values::{Int, Texts, Value};
use computed_text::{left, length, mid, right};

/// LEFT of a text, with a count.
pub fn left_or_error(text: Value, count: Value, texts: &Texts) -> Value
    requires text { IsValueOf texts.now text }
    requires count { IsValueOf texts.now count }
    ensures value { result ≡ error_or (left_of texts.now text) count }
    ensures known { IsValueOf texts.now result }
{
    if count.is_error() {
        count
    } else {
        left(text, count, texts)
    }
}

/// RIGHT of a text, with a count.
pub fn right_or_error(text: Value, count: Value, texts: &Texts) -> Value
    requires text { IsValueOf texts.now text }
    requires count { IsValueOf texts.now count }
    ensures value { result ≡ error_or (right_of texts.now text) count }
    ensures known { IsValueOf texts.now result }
{
    if count.is_error() {
        count
    } else {
        right(text, count, texts)
    }
}

/// MID of a text from a number on, with a count.
pub fn mid_or_error(text: Value, start: Int, count: Value, texts: &Texts) -> Value
    requires text { IsValueOf texts.now text }
    requires count { IsValueOf texts.now count }
    ensures value { result ≡ error_or (mid_of texts.now text (Value.Number start)) count }
    ensures known { IsValueOf texts.now result }
{
    if count.is_error() {
        count
    } else {
        mid(text, Value::Number(start), count, texts)
    }
}

/// LEN of a text.
pub fn length_or_error(text: Value, texts: &Texts) -> Value
    requires { IsValueOf texts.now text }
    ensures value { result ≡ error_or (length_of texts.now) text }
    ensures known { IsValueOf texts.now result }
{
    if text.is_error() {
        text
    } else {
        length(text, texts)
    }
}
