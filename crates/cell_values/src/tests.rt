//! What the contracts leave open: that calls succeed with ample memory, and rows worked out by hand.

use crate::{Addr, Area, FieldText, INT_MIN, Raw, SheetNames, ShortText, Shown, Texts, Value};
use std::test::Fail;

#[test]
fn reads_and_writes_cells(rt: HostRuntime) -> Result<(), Fail> {
    let rows = [
        ("A0", None),
        ("A1", Some((1, 1))),
        ("A01", Some((1, 1))),
        ("iv65536", Some((65_536, 256))),
        ("IW1", None),
        ("A65537", None),
        ("1A", None),
        ("A", None),
        ("", None),
        ("AAAAAAAAAAAAAAAAAAAA1", None),
        ("A00000000000000000000000001", Some((1, 1))),
    ];
    for (text, place) in rows {
        let read = Addr::read(3, text);
        assert_eq!(rt; read.map(|addr| (addr.row, addr.col)), place, "{text}");
        assert!(rt; read.is_none_or(|addr| addr.sheet == 3), "{text}");
    }
    let last = Addr {
        sheet: 0,
        row: 65_536,
        col: 256,
    };
    assert_eq!(rt; last.cell_text(rt.alloc())?.as_str(), "IV65536");
    Ok(())
}

#[test]
fn reads_fields_and_shows_values(rt: HostRuntime) -> Result<(), Fail> {
    let alloc = rt.alloc();
    let mut texts = Texts::new(alloc);
    assert_eq!(rt; texts.intern("x")?.0, 0);
    assert_eq!(rt; texts.intern("x")?.0, 0);
    assert_eq!(rt; texts.count(), 1);
    let number = Shown::Val(Value::Number(-3)).show_text(alloc, &texts)?;
    assert_eq!(rt; number.as_str(), "-3");
    assert_eq!(rt;
        Shown::Cycle(12).show_text(alloc, &texts)?.as_str(),
        "#CYCLE(12)!"
    );
    assert_eq!(rt; FieldText::new(alloc, "=1")?.as_str(), "=1");
    let Raw::Text(quoted) = Raw::read(alloc, "'7", &mut texts)? else {
        assert!(rt; false, "a quote makes a text");
        return Ok(());
    };
    assert_eq!(rt; texts.get(quoted), "7");
    assert!(rt; matches!(Raw::read(alloc, "-0", &mut texts)?, Raw::Number(0)));
    assert!(rt; matches!(Raw::read(alloc, "1.5", &mut texts)?, Raw::Text(id) if id.0 == 2));
    let least = Raw::read(
        alloc,
        "-170141183460469231731687303715884105728",
        &mut texts,
    )?;
    assert!(rt; matches!(least, Raw::Number(INT_MIN)));
    let above = Raw::read(alloc, "170141183460469231731687303715884105728", &mut texts)?;
    assert!(rt; matches!(above, Raw::Text(id) if id.0 == 3));
    Ok(())
}

#[test]
fn names_sheets(rt: HostRuntime) -> Result<(), Fail> {
    let alloc = rt.alloc();
    let files = vec![in alloc; String::from_str(alloc, "b/my plan.csv")?]?;
    let names = SheetNames::new(alloc, &files)?;
    assert_eq!(rt; names.find("my plan"), Some(0));
    assert_eq!(rt; names.find("b"), None);
    assert_eq!(rt; names.prefix(alloc, 0)?.as_str(), "'my plan'!");
    Ok(())
}

#[test]
fn walks_areas(rt: HostRuntime) -> Result<(), Fail> {
    let corner = |row, col| Addr { sheet: 0, row, col };
    let area = Area::between(corner(5, 2), corner(3, 4));
    assert_eq!(rt; (area.rows(), area.columns(), area.size()), (3, 3, 9));
    assert_eq!(rt; area.cell(0, 2), corner(3, 4));
    assert_eq!(rt; area.nth(5), corner(4, 4));
    assert!(rt; area.holds(corner(5, 4)) && !area.holds(corner(6, 4)));
    assert_eq!(rt; Area::of(corner(5, 2)).size(), 1);
    Ok(())
}

// Whether these bytes make a short text, and the text is then this one.
fn makes(bytes: &[u8], text: Option<&str>) -> bool {
    match (ShortText::of(bytes), text) {
        (Some(short), Some(text)) => short.as_str() == text && short.len() as usize == text.len(),
        (None, None) => true,
        _ => false,
    }
}

#[test]
fn makes_short_texts(rt: HostRuntime) {
    let most = "ééééééééééééééééééééééé12";
    let over = "ééééééééééééééééééééééé123";
    assert!(rt; makes(b"", Some("")));
    assert!(rt; makes(most.as_bytes(), Some(most)));
    assert!(rt; makes(over.as_bytes(), None));
    assert!(rt; makes(&over.as_bytes()[..47], Some("ééééééééééééééééééééééé1")));
    assert!(rt; makes(&over.as_bytes()[..45], None));
    assert!(rt; makes(b"\xff", None));
}

#[test]
fn reads_padded_texts(rt: HostRuntime) {
    let text = ShortText::of(b"ab").expect(&rt, "two bytes");
    let mut bytes = [0; 48];
    bytes[0] = b'a';
    bytes[1] = b'b';
    assert!(rt; text.padded() == &bytes);
    assert!(rt; ShortText::from_padded(2, &bytes) == Some(text));
    assert!(rt; ShortText::from_padded(1, &bytes).is_none());
    assert!(rt; ShortText::from_padded(3, &bytes) == ShortText::of(b"ab\0"));
    assert!(rt; ShortText::from_padded(49, &bytes).is_none());
    bytes[47] = 1;
    assert!(rt; ShortText::from_padded(2, &bytes).is_none());
}

#[test]
fn shows_short_texts(rt: HostRuntime) -> Result<(), Fail> {
    let alloc = rt.alloc();
    let texts = Texts::new(alloc);
    let value = Value::Short(ShortText::of("hé".as_bytes()).expect(&rt, "three bytes"));
    assert_eq!(rt; value.show_text(alloc, &texts)?.as_str(), "hé");
    assert!(rt; value.as_text(&texts) == Some("hé"));
    assert!(rt; Value::Blank.as_text(&texts).is_none());
    assert!(rt; value.as_number().is_none() && !value.is_error());
    Ok(())
}
