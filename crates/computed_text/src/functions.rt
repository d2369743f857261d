//! The operator and the functions, as formulas have them.

ghost use Rattle.std.specs.Prelude.{◌≡◌, ℕ, List, IfSome};
ghost use Rattle.cell_values.specs.Texts.{Texts};
ghost use Rattle.cell_values.specs.ShortTexts.{short_of, IsShort};
ghost use Rattle.cell_values.specs.ShownText.{value_text};
ghost use Rattle.cell_values.specs.Values.{IsValueOf};
ghost use Rattle.computed_text.specs.Computed as spec;

use crate::parts::{char_count, joined, part};
use cell_values::{Code, Int, ShortText, Texts, Value};
use itoa::Buffer;

/// `a & b`: the text of the first value followed by that of the second one, `#VALUE!` where this takes
/// more than 48 bytes. Callers end with an error before they come here.
pub fn join(a: Value, b: Value, texts: &Texts) -> Value
    requires left { IsValueOf texts.now a }
    requires right { IsValueOf texts.now b }
    ensures value { result ≡ spec.joined texts.now a b }
    ensures known { IsValueOf texts.now result }
{
    let (mut first, mut second) = (Buffer::new(), Buffer::new());
    let front = text_of(&a, texts, &mut first);
    let back = text_of(&b, texts, &mut second);
    short_or_fail(joined(front, back))
}

/// LEFT: the first `n` characters of the text of `t`, or all. An `n` that is negative, a Text or a Bool is
/// `#VALUE!`, as is a result of more than 48 bytes.
pub fn left(t: Value, n: Value, texts: &Texts) -> Value
    requires { IsValueOf texts.now t }
    ensures value { result ≡ spec.left_of texts.now t n }
    ensures known { IsValueOf texts.now result }
{
    match count_of(n) {
        None => Value::Error(Code::Value),
        Some(count) => {
            let mut digits = Buffer::new();
            short_or_fail(part(text_of(&t, texts, &mut digits), 0, count))
        }
    }
}

/// RIGHT: the last `n` characters, or all, with the same errors.
pub fn right(t: Value, n: Value, texts: &Texts) -> Value
    requires { IsValueOf texts.now t }
    ensures value { result ≡ spec.right_of texts.now t n }
    ensures known { IsValueOf texts.now result }
{
    match count_of(n) {
        None => Value::Error(Code::Value),
        Some(count) => {
            let mut digits = Buffer::new();
            let text = text_of(&t, texts, &mut digits);
            let all = char_count(text) as u128;
            short_or_fail(part(text, all.saturating_sub(count), count))
        }
    }
}

/// MID: at most `n` characters from the `s`-th on, counted from 1, and the empty text past the end. An `s`
/// below 1 is `#VALUE!` too.
pub fn mid(t: Value, s: Value, n: Value, texts: &Texts) -> Value
    requires { IsValueOf texts.now t }
    ensures value { result ≡ spec.mid_of texts.now t s n }
    ensures known { IsValueOf texts.now result }
{
    match (start_of(s), count_of(n)) {
        (Some(start), Some(count)) => {
            let mut digits = Buffer::new();
            short_or_fail(part(text_of(&t, texts, &mut digits), start, count))
        }
        (None, _) | (_, None) => Value::Error(Code::Value),
    }
}

/// LEN: the number of characters of the text.
pub fn length(t: Value, texts: &Texts) -> Value
    requires { IsValueOf texts.now t }
    ensures value { result ≡ spec.length_of texts.now t }
    ensures known { IsValueOf texts.now result }
{
    let mut digits = Buffer::new();
    Value::Number(char_count(text_of(&t, texts, &mut digits)) as Int)
}

// The text that a cell with this value shows. A number's digits stand in the buffer.
fn text_of<'a>(value: &'a Value, texts: &'a Texts, digits: &'a mut Buffer) -> &'a str
    requires { IsValueOf texts.now value.now }
    ensures { result.now ≡ value_text texts.now value.now }
{
    match value {
        Value::Number(number) => digits.format(*number),
        Value::Text(id) => texts.get(*id),
        Value::Short(text) => text.as_str(),
        Value::Bool(true) => "TRUE",
        Value::Bool(false) => "FALSE",
        Value::Blank => "",
        Value::Error(code) => code.text(),
    }
}

// How many characters a value asks for.
fn count_of(v: Value) -> Option<u128>
    ensures { result ≡ spec.count_of v }
{
    u128::try_from(v.as_number()?).ok()
}

// The character, counted from 0, that a value names, counting from 1.
fn start_of(v: Value) -> Option<u128>
    ensures { result ≡ spec.start_of v }
{
    count_of(v)?.checked_sub(1)
}

// The text, `#VALUE!` where there is none.
fn short_or_fail(text: Option<ShortText>) -> Value
    ensures value { (bytes : List ℕ) → text ≡ short_of bytes → result ≡ spec.short_or_fail bytes }
    ensures known { (ts : Texts) → IfSome text IsShort → IsValueOf ts result }
{
    match text {
        Some(text) => Value::Short(text),
        None => Value::Error(Code::Value),
    }
}
