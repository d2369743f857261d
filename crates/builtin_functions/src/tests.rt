//! The tables, row by row, with answers worked out by hand.

ghost use Rattle.cell_values.specs.Texts.{Texts};
ghost use Rattle.std.specs.Prelude.{IsFalse};
ghost use Rattle.cell_values.specs.Values.{IsValueOf, is_error};

use crate::{Fold, FoldKind, Go, Op2, Sign2, binary, condition, same, unary};
use cell_values::{Code, INT_MAX, INT_MIN, ShortText, TextId, Texts, Value};
use std::alloc::{AllocError, Global};
use std::process::Abort;
use std::test::Fail;

const L: Value = Value::Number(INT_MIN);

const L1: Value = Value::Number(INT_MIN + 1);

const W: Value = Value::Number(-2);

const M: Value = Value::Number(-1);

const Z: Value = Value::Number(0);

const P: Value = Value::Number(1);

const G1: Value = Value::Number(INT_MAX - 1);

const G: Value = Value::Number(INT_MAX);

const B: Value = Value::Blank;

const S: Value = Value::Text(TextId(0));

const F: Value = Value::Bool(false);

const T: Value = Value::Bool(true);

const D: Value = Value::Error(Code::Div);

const V: Value = Value::Error(Code::Value);

const N: Value = Value::Error(Code::Num);

const E: Value = Value::Error(Code::Ref);

// The value that a letter of a grid stands for: `S` is this text.
fn value(letter: u8, text: Value) -> Value
    ensures { (ts : Texts) → IsValueOf ts text → IsValueOf ts result }
{
    match letter {
        b'L' => L,
        b'l' => L1,
        b'W' => W,
        b'M' => M,
        b'Z' => Z,
        b'P' => P,
        b'g' => G1,
        b'G' => G,
        b'B' => B,
        b'S' => text,
        b'F' => F,
        b'T' => T,
        b'D' => D,
        b'V' => V,
        b'N' => N,
        _ => E,
    }
}

// The operands of a grid: left ones for its rows, right ones for its columns.
const OPERANDS: &[u8; 8] = b"LGMZBSTE";

// Whether the answers are those of the grid, where the rows' text is `left` and the columns' text `right`.
fn has_answers(rt: &impl Abort, op: Op2, grid: &[u8; 71], texts: &Texts, left: Value, right: Value)
    requires left { IsValueOf texts.now left }
    requires right { IsValueOf texts.now right }
{
    for i in 0..8 {
        for j in 0..8 {
            let (a, b) = (value(OPERANDS[i], left), value(OPERANDS[j], right));
            let want = value(grid[i * 9 + j], left);
            assert_eq!(rt; binary(op, a, b, texts), want, "{op:?} at {a:?} and {b:?}");
        }
    }
}

#[test]
fn operators_answer_by_their_tables(rt: HostRuntime) -> Result<(), Fail> {
    let mut texts = Texts::new(rt.alloc());
    let text = Value::Text(texts.intern("a")?);
    let short = Value::Short(ShortText::of(b"a").expect(&rt, "one byte"));
    let grids = [
        (
            Op2::Add,
            b"NMNLLVVE MNgGGVVE NgWMMVVE LGMZZVVE LGMZZVVE VVVVVVVE VVVVVVVE EEEEEEEE",
        ),
        (
            Op2::Sub,
            b"ZNlLLVVE NZNGGVVE GLZMMVVE NlPZZVVE NlPZZVVE VVVVVVVE VVVVVVVE EEEEEEEE",
        ),
        (
            Op2::Mul,
            b"NNNZZVVE NNlZZVVE NlPZZVVE ZZZZZVVE ZZZZZVVE VVVVVVVE VVVVVVVE EEEEEEEE",
        ),
        (
            Op2::Div,
            b"PMNDDVVE ZPlDDVVE ZZPDDVVE ZZZDDVVE ZZZDDVVE VVVVVVVE VVVVVVVE EEEEEEEE",
        ),
        (
            Op2::Quotient,
            b"PMNDDVVE ZPlDDVVE ZZPDDVVE ZZZDDVVE ZZZDDVVE VVVVVVVE VVVVVVVE EEEEEEEE",
        ),
        (
            Op2::Mod,
            b"ZgZDDVVE MZZDDVVE MgZDDVVE ZZZDDVVE ZZZDDVVE VVVVVVVE VVVVVVVE EEEEEEEE",
        ),
        (
            Op2::Eq,
            b"TFFFFFFE FTFFFFFE FFTFFFFE FFFTTFFE FFFTTFFE FFFFFTFE FFFFFFTE EEEEEEEE",
        ),
        (
            Op2::Ne,
            b"FTTTTTTE TFTTTTTE TTFTTTTE TTTFFTTE TTTFFTTE TTTTTFTE TTTTTTFE EEEEEEEE",
        ),
        (
            Op2::Lt,
            b"FTTTTVVE FFFFFVVE FTFTTVVE FTFFFVVE FTFFFTTE VVVVFFVE VVVVFVFE EEEEEEEE",
        ),
        (
            Op2::Le,
            b"TTTTTVVE FTFFFVVE FTTTTVVE FTFTTVVE FTFTTTTE VVVVFTVE VVVVFVTE EEEEEEEE",
        ),
        (
            Op2::Gt,
            b"FFFFFVVE TFTTTVVE TFFFFVVE TFTFFVVE TFTFFFFE VVVVTFVE VVVVTVFE EEEEEEEE",
        ),
        (
            Op2::Ge,
            b"TFFFFVVE TTTTTVVE TFTFFVVE TFTTTVVE TFTTTFFE VVVVTTVE VVVVTVTE EEEEEEEE",
        ),
    ];
    for (op, grid) in grids {
        has_answers(&rt, op, grid, &texts, text, text);
        has_answers(&rt, op, grid, &texts, text, short);
        has_answers(&rt, op, grid, &texts, short, text);
        has_answers(&rt, op, grid, &texts, short, short);
    }
    Ok(())
}

#[test]
fn results_beyond_64_bits_are_exact(rt: HostRuntime) {
    let texts = Texts::new(rt.alloc());
    let greatest_of_64 = 9_223_372_036_854_775_807;
    let rows = [
        (Op2::Add, greatest_of_64, 1, 9_223_372_036_854_775_808),
        (Op2::Sub, -greatest_of_64, 2, -9_223_372_036_854_775_809),
        (
            Op2::Mul,
            greatest_of_64,
            greatest_of_64,
            85_070_591_730_234_615_847_396_907_784_232_501_249,
        ),
        (Op2::Mod, INT_MIN, greatest_of_64, 9_223_372_036_854_775_805),
        (
            Op2::Quotient,
            INT_MIN,
            greatest_of_64,
            -18_446_744_073_709_551_618,
        ),
    ];
    for (op, x, y, want) in rows {
        let answer = binary(op, Value::Number(x), Value::Number(y), &texts);
        assert_eq!(rt; answer, Value::Number(want), "{op:?} at {x} and {y}");
    }
}

#[test]
fn signs_and_conditions_answer_by_their_tables(rt: HostRuntime) {
    let rows = [
        (L, N, L, N, Ok(true)),
        (G, L1, G, G, Ok(true)),
        (M, P, M, P, Ok(true)),
        (Z, Z, Z, Z, Ok(false)),
        (B, Z, Z, Z, Ok(false)),
        (S, V, V, V, Err(Code::Value)),
        (T, V, V, V, Ok(true)),
        (F, V, V, V, Ok(false)),
        (E, E, E, E, Err(Code::Ref)),
    ];
    for (v, minus, plus, size, truth) in rows {
        assert_eq!(rt; unary(Sign2::Minus, v), minus, "- at {v:?}");
        assert_eq!(rt; unary(Sign2::Plus, v), plus, "+ at {v:?}");
        assert_eq!(rt; unary(Sign2::Abs, v), size, "ABS at {v:?}");
        assert_eq!(rt; condition(v), truth, "a condition at {v:?}");
    }
    let short = Value::Short(ShortText::of(b"7").expect(&rt, "one byte"));
    assert_eq!(rt; unary(Sign2::Minus, short), V);
    assert_eq!(rt; condition(short), Err(Code::Value));
}

// Whether the first value is below, equal to and above the second one.
fn compared(a: Value, b: Value, texts: &Texts) -> (Value, Value, Value)
    requires left { IsValueOf texts.now a }
    requires right { IsValueOf texts.now b }
    requires left_value { IsFalse (is_error a) }
    requires right_value { IsFalse (is_error b) }
{
    (
        binary(Op2::Lt, a, b, texts),
        Value::Bool(same(a, b, texts)),
        binary(Op2::Gt, a, b, texts),
    )
}

// The same of two texts, if it is the same of whichever kind each is.
fn comparisons(
    alloc: Global,
    x: &str,
    y: &str,
) -> Result<Option<(Value, Value, Value)>, AllocError> {
    let mut texts = Texts::new(alloc);
    let a = Value::Text(texts.intern(x)?);
    let b = Value::Text(texts.intern(y)?);
    let found = compared(a, b, &texts);
    match (ShortText::of(x.as_bytes()), ShortText::of(y.as_bytes())) {
        (Some(s), Some(t)) => {
            let alike = compared(Value::Short(s), b, &texts) == found
                && compared(a, Value::Short(t), &texts) == found
                && compared(Value::Short(s), Value::Short(t), &texts) == found;
            Ok(if alike { Some(found) } else { None })
        }
        _ => Ok(None),
    }
}

#[test]
fn texts_are_ordered_by_bytes(rt: HostRuntime) -> Result<(), Fail> {
    let rows = [
        ("a", "b", (T, F, F)),
        ("a", "ab", (T, F, F)),
        ("b", "ab", (F, F, T)),
        ("B", "a", (T, F, F)),
        ("z", "é", (T, F, F)),
        ("", "a", (T, F, F)),
        ("ab", "ab", (F, T, F)),
    ];
    for (x, y, want) in rows {
        let found = comparisons(rt.alloc(), x, y)?;
        assert_eq!(rt; found, Some(want), "{x:?} and {y:?}");
    }
    let mut texts = Texts::new(rt.alloc());
    let empty = Value::Text(texts.intern("")?);
    assert!(rt; same(B, empty, &texts));
    let short = ShortText::of(b"").expect(&rt, "no byte");
    assert!(rt; same(Value::Short(short), B, &texts));
    assert!(rt; same(F, B, &texts));
    assert_eq!(rt; binary(Op2::Add, D, E, &texts), D);
    assert_eq!(rt; binary(Op2::Eq, E, D, &texts), E);
    Ok(())
}

#[test]
fn folds_answer_by_their_table(rt: HostRuntime) {
    let none: &[(Value, bool)] = &[];
    let mixed: &[(Value, bool)] = &[
        (P, true),
        (B, false),
        (S, true),
        (T, true),
        (M, false),
        (B, true),
        (G, true),
    ];
    let negative: &[(Value, bool)] = &[(M, true), (W, true)];
    let beyond: &[(Value, bool)] = &[(G, true), (P, false), (M, false)];
    let text: &[(Value, bool)] = &[(P, false), (S, false), (E, true)];
    let error: &[(Value, bool)] = &[(P, false), (T, true), (E, true), (D, true)];
    let rows = [
        (none, Z, Z, Z, Z),
        (mixed, G, M, G, Value::Number(3)),
        (negative, Value::Number(-3), W, M, Value::Number(2)),
        (beyond, N, M, G, Value::Number(3)),
        (text, V, V, V, E),
        (error, E, E, E, E),
    ];
    for (values, sum, least, greatest, count) in rows {
        assert_eq!(rt; Fold::over(FoldKind::Sum, values), sum, "SUM of {values:?}");
        assert_eq!(rt;
            Fold::over(FoldKind::Min, values),
            least,
            "MIN of {values:?}"
        );
        assert_eq!(rt;
            Fold::over(FoldKind::Max, values),
            greatest,
            "MAX of {values:?}"
        );
        assert_eq!(rt;
            Fold::over(FoldKind::Count, values),
            count,
            "COUNT of {values:?}"
        );
    }
    let mut fold = Fold::new(FoldKind::Sum);
    assert_eq!(rt; fold.take(G, false), Go::More);
    assert_eq!(rt; fold.take(P, true), Go::Stop(Code::Num));
    let short = Value::Short(ShortText::of(b"7").expect(&rt, "one byte"));
    assert_eq!(rt; fold.take(short, true), Go::More);
    assert_eq!(rt; fold.take(short, false), Go::Stop(Code::Value));
    assert_eq!(rt; fold.end(), G);
}
