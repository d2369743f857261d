//! Results as they are told and read back.

use crate::ResultList;
use cell_values::{Code, INT_MIN, ShortText, Shown, TextId, Texts, Value};
use std::process::Abort;
use std::test::Fail;

/// A short text.
fn short(rt: &impl Abort, text: &str) -> Shown {
    Shown::Val(Value::Short(ShortText::of(text.as_bytes()).expect(rt, "a short text")))
}

/// A result of each kind.
fn sample(rt: &impl Abort, id: TextId, kind: usize) -> Shown {
    match kind {
        0 => Shown::Val(Value::Number(INT_MIN)),
        1 => short(rt, "ab"),
        2 => Shown::Val(Value::Text(id)),
        3 => Shown::Val(Value::Bool(true)),
        4 => Shown::Val(Value::Blank),
        5 => short(rt, "a text of forty-eight bytes, that is the longest"),
        6 => Shown::Val(Value::Error(Code::Na)),
        7 => Shown::Cycle(200_000),
        _ => Shown::ToCycle,
    }
}

/// Tells the result of a cell that is not known.
fn tell(rt: &impl Abort, list: &mut ResultList, i: usize, shown: Shown) {
    if i >= list.len() {
        panic!(rt; "no cell {i}");
    }
    if list.is_known(i) {
        panic!(rt; "cell {i} is known");
    }
    list.learn(i, shown);
}

/// Tells a result of each kind, the last cell first, and reads them all.
fn tell_all(rt: &impl Abort, list: &mut ResultList, id: TextId) {
    for kind in 0..9 {
        tell(rt, list, 8 - kind, sample(rt, id, kind));
    }
    for kind in 0..9 {
        assert_eq!(rt;
            list.get(8 - kind),
            Some(sample(rt, id, kind)),
            "kind {kind}"
        );
    }
}

#[test]
fn told_and_read(rt: HostRuntime) -> Result<(), Fail> {
    let alloc = rt.alloc();
    let mut texts = Texts::new(alloc);
    let id = texts.intern("a text")?;
    let mut list = ResultList::new(alloc, 9)?;
    tell_all(&rt, &mut list, id);
    list.forget_all();
    assert_eq!(&rt; list.get(7), None);
    tell_all(&rt, &mut list, id);
    assert_eq!(&rt; list.get(9), None);
    Ok(())
}

#[test]
fn on_a_cycle(rt: HostRuntime) -> Result<(), Fail> {
    let alloc = rt.alloc();
    let mut list = ResultList::new(alloc, 2)?;
    if list.len() < 2 {
        panic!(&rt; "two cells");
    }
    tell(&rt, &mut list, 0, short(&rt, "a"));
    if list.len() < 2 {
        panic!(&rt; "two cells");
    }
    list.mark_cycle(0, 3);
    assert_eq!(&rt; list.get(0), Some(Shown::Cycle(3)));
    assert_eq!(&rt; list.get(1), None);
    Ok(())
}
