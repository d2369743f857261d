//! The order of values.

ghost use Rattle.std.specs.Prelude.{◌≡◌, [], unwrap_or};
ghost use Rattle.builtin_functions.specs.Tables as spec;
ghost use Rattle.cell_values.specs.Values.{text_of, IsValueOf};

use cell_values::{Code, Texts, Value};
use std::cmp::Ordering;

// The order of two values of one kind; Blank stands for 0, the empty text or FALSE.
#[tactic(auto, unfolding(crate::specs::Tables::order))]
pub(crate) fn order(a: Value, b: Value, texts: &Texts) -> Option<Ordering>
    requires left { IsValueOf texts.now a }
    requires right { IsValueOf texts.now b }
    ensures { result ≡ spec.order texts.now a b }
{
    match (a, b) {
        (Value::Number(x), Value::Number(y)) => Some(x.cmp(&y)),
        (Value::Number(x), Value::Blank) => Some(x.cmp(&0)),
        (Value::Blank, Value::Number(y)) => Some(0.cmp(&y)),
        (Value::Text(_) | Value::Short(_), Value::Text(_) | Value::Short(_)) => {
            Some(text(&a, texts).cmp(text(&b, texts)))
        }
        (Value::Text(_) | Value::Short(_), Value::Blank) => Some(text(&a, texts).cmp("")),
        (Value::Blank, Value::Text(_) | Value::Short(_)) => Some("".cmp(text(&b, texts))),
        (Value::Bool(x), Value::Bool(y)) => Some(x.cmp(&y)),
        (Value::Bool(x), Value::Blank) => Some(x.cmp(&false)),
        (Value::Blank, Value::Bool(y)) => Some(false.cmp(&y)),
        (Value::Blank, Value::Blank) => Some(Ordering::Equal),
        (Value::Number(_), Value::Text(_) | Value::Short(_) | Value::Bool(_) | Value::Error(_))
        | (Value::Text(_) | Value::Short(_), Value::Number(_) | Value::Bool(_) | Value::Error(_))
        | (Value::Bool(_), Value::Number(_) | Value::Text(_) | Value::Short(_) | Value::Error(_))
        | (Value::Blank, Value::Error(_))
        | (Value::Error(_), Value::Number(_) | Value::Text(_) | Value::Short(_))
        | (Value::Error(_), Value::Bool(_) | Value::Blank | Value::Error(_)) => None,
    }
}

// The text that a value is, of either kind.
fn text<'a>(v: &'a Value, texts: &'a Texts) -> &'a str
    requires { IsValueOf texts.now v.now }
    ensures { result.now ≡ unwrap_or (text_of texts.now v.now) [] }
{
    v.as_text(texts).unwrap_or("")
}

// Whether two values of this order are equal.
pub(crate) fn equals(order: Option<Ordering>) -> bool
    ensures { result ≡ spec.equals order }
{
    order.is_some_and(|o| o.is_eq())
}

// What a comparison found, `#VALUE!` where the two have no order.
pub(crate) fn truth(holds: Option<bool>) -> Value
    ensures { result ≡ spec.or_wrong_kind holds }
{
    match holds {
        Some(b) => Value::Bool(b),
        None => Value::Error(Code::Value),
    }
}
