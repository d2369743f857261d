//! Texts worked out by hand from the definitions, with one to four bytes a character.

ghost use Rattle.cell_values.specs.Texts.{Texts};
ghost use Rattle.cell_values.specs.Values.{IsValueOf};

use crate::{join, left, length, mid, right};
use cell_values::{ShortText, Texts, Value};
use std::alloc::{AllocError, Global};
use std::process::Abort;
use std::test::Fail;

// A function, its text, two arguments, and what it shows: at 47, 48 and 49 bytes, cut where a character
// begins and where a count of bytes would cut inside of one.
const TABLE: &str = "
    LEFT|héllo|2||hé
    LEFT|héllo|0||
    LEFT|héllo|5||héllo
    LEFT|héllo|9||héllo
    LEFT|héllo|-1||#VALUE!
    LEFT||3||
    LEFT|aé€𝄞|1||a
    LEFT|aé€𝄞|2||aé
    LEFT|aé€𝄞|3||aé€
    LEFT|aé€𝄞|4||aé€𝄞
    LEFT|aé€𝄞aé€𝄞aé€𝄞aé€𝄞é€aa|99||aé€𝄞aé€𝄞aé€𝄞aé€𝄞é€aa
    LEFT|aé€𝄞aé€𝄞aé€𝄞aé€𝄞𝄞𝄞|99||aé€𝄞aé€𝄞aé€𝄞aé€𝄞𝄞𝄞
    LEFT|aé€𝄞aé€𝄞aé€𝄞aé€𝄞𝄞€é|99||#VALUE!
    LEFT|aé€𝄞aé€𝄞aé€𝄞aé€𝄞𝄞€é|17||aé€𝄞aé€𝄞aé€𝄞aé€𝄞𝄞
    LEFT|aé€𝄞aé€𝄞aé€𝄞aé€𝄞𝄞€é|18||aé€𝄞aé€𝄞aé€𝄞aé€𝄞𝄞€
    LEFT|ééééééééééééééééééééééééa|24||éééééééééééééééééééééééé
    LEFT|ééééééééééééééééééééééééa|25||#VALUE!
    LEFT|aaaaaaaaaaaaaaaaaaaaaaaaaaaaaaaaaaaaaaaaaaaaaaaaa|48||aaaaaaaaaaaaaaaaaaaaaaaaaaaaaaaaaaaaaaaaaaaaaaaa
    LEFT|aaaaaaaaaaaaaaaaaaaaaaaaaaaaaaaaaaaaaaaaaaaaaaaaé|49||#VALUE!
    LEFT|𝄞𝄞𝄞𝄞𝄞𝄞𝄞𝄞𝄞𝄞𝄞𝄞€|12||𝄞𝄞𝄞𝄞𝄞𝄞𝄞𝄞𝄞𝄞𝄞𝄞
    RIGHT|héllo|2||lo
    RIGHT|héllo|4||éllo
    RIGHT|héllo|0||
    RIGHT|héllo|9||héllo
    RIGHT|héllo|-3||#VALUE!
    RIGHT|aé€𝄞|1||𝄞
    RIGHT|aé€𝄞|3||é€𝄞
    RIGHT|aé€𝄞aé€𝄞aé€𝄞aé€𝄞𝄞𝄞|18||aé€𝄞aé€𝄞aé€𝄞aé€𝄞𝄞𝄞
    RIGHT|aé€𝄞aé€𝄞aé€𝄞aé€𝄞𝄞€é|18||é€𝄞aé€𝄞aé€𝄞aé€𝄞𝄞€é
    RIGHT|aé€𝄞aé€𝄞aé€𝄞aé€𝄞𝄞€é|19||#VALUE!
    RIGHT|a€€€€€€€€€€€€€€€€|16||€€€€€€€€€€€€€€€€
    RIGHT|a€€€€€€€€€€€€€€€€|17||#VALUE!
    RIGHT|éaaaaaaaaaaaaaaaaaaaaaaaaaaaaaaaaaaaaaaaaaaaaaaaa|48||aaaaaaaaaaaaaaaaaaaaaaaaaaaaaaaaaaaaaaaaaaaaaaaa
    MID|héllo|1|2|hé
    MID|héllo|2|1|é
    MID|héllo|2|3|éll
    MID|héllo|5|9|o
    MID|héllo|6|1|
    MID|héllo|60|1|
    MID|héllo|0|1|#VALUE!
    MID|héllo|-1|2|#VALUE!
    MID|héllo|2|-1|#VALUE!
    MID|héllo|3|0|
    MID|aé€𝄞|4|1|𝄞
    MID|aéééééééééééééééééééééééé|2|24|éééééééééééééééééééééééé
    MID|aééééééééééééééééééééééééa|2|25|#VALUE!
    MID|aé€𝄞aé€𝄞aé€𝄞aé€𝄞𝄞€é|2|99|é€𝄞aé€𝄞aé€𝄞aé€𝄞𝄞€é
    MID|aé€𝄞aé€𝄞aé€𝄞aé€𝄞𝄞€éa|2|99|#VALUE!
    JOIN|héllo|aé€𝄞||hélloaé€𝄞
    JOIN||héllo||héllo
    JOIN|héllo|||héllo
    JOIN|aaaaaaaaaaaaaaaaaaaaaaaaaaaaaaaaaaaaaaaaaaaaaaa|b||aaaaaaaaaaaaaaaaaaaaaaaaaaaaaaaaaaaaaaaaaaaaaaab
    JOIN|aaaaaaaaaaaaaaaaaaaaaaaaaaaaaaaaaaaaaaaaaaaaaaa|é||#VALUE!
    JOIN|aaaaaaaaaaaaaaaaaaaaaaaaaaaaaaaaaaaaaaaaaaaaaaaa|||aaaaaaaaaaaaaaaaaaaaaaaaaaaaaaaaaaaaaaaaaaaaaaaa
    JOIN|aaaaaaaaaaaaaaaaaaaaaaaaaaaaaaaaaaaaaaaaaaaaaaaa|b||#VALUE!
    JOIN|éééééééééééééééééééééééé|||éééééééééééééééééééééééé
    JOIN|aé€𝄞aé€𝄞aé€𝄞aé€𝄞é€aa|a||aé€𝄞aé€𝄞aé€𝄞aé€𝄞é€aaa
    LEN|héllo|||5
    LEN|aé€𝄞aé€𝄞aé€𝄞aé€𝄞𝄞𝄞|||18
    LEN|aé€𝄞aé€𝄞aé€𝄞aé€𝄞𝄞€é|||19
";

// The argument that a field writes: a text for `JOIN`, else a number.
fn argument(function: &str, field: &str) -> Value
    ensures { (ts : Texts) → IsValueOf ts result }
{
    match ShortText::of(field.as_bytes()) {
        Some(text) if function == "JOIN" => Value::Short(text),
        _ => Value::Number(field.parse().unwrap_or(0)),
    }
}

// What the function gives.
fn answer(function: &str, text: Value, first: Value, second: Value, texts: &Texts) -> Value
    requires text { IsValueOf texts.now text }
    requires first { IsValueOf texts.now first }
    ensures { IsValueOf texts.now result }
{
    match function {
        "JOIN" => join(text, first, texts),
        "LEFT" => left(text, first, texts),
        "RIGHT" => right(text, first, texts),
        "MID" => mid(text, first, second, texts),
        _ => length(text, texts),
    }
}

// Whether the value shows this.
fn shows(alloc: Global, value: Value, texts: &Texts, want: &str) -> Result<bool, AllocError>
    requires { IsValueOf texts.now value }
{
    Ok(value.show_text(alloc, texts)?.as_str() == want)
}

// Whether a row of the table holds, for a text of the book and for a short text.
fn holds(alloc: Global, function: &str, text: &str, rest: &str) -> Result<bool, AllocError> {
    let Some((first, rest)) = rest.split_once('|') else {
        return Ok(false);
    };
    let Some((second, want)) = rest.split_once('|') else {
        return Ok(false);
    };
    let mut texts = Texts::new(alloc);
    let book = Value::Text(texts.intern(text)?);
    let (first, second) = (argument(function, first), argument(function, second));
    let short = match ShortText::of(text.as_bytes()) {
        Some(short) => Value::Short(short),
        None => book,
    };
    Ok(
        shows(
            alloc,
            answer(function, book, first, second, &texts),
            &texts,
            want,
        )? && shows(
            alloc,
            answer(function, short, first, second, &texts),
            &texts,
            want,
        )?,
    )
}

#[test]
fn texts_of_the_table(rt: HostRuntime) -> Result<(), Fail> {
    let mut rows: usize = 0;
    for line in TABLE.lines() {
        if let Some((function, rest)) = line.trim_start().split_once('|') {
            if let Some((text, rest)) = rest.split_once('|') {
                assert!(rt; holds(rt.alloc(), function, text, rest)?, "{line}");
                rows = rows.saturating_add(1);
            }
        }
    }
    assert_eq!(rt; rows, 60);
    Ok(())
}

// The same of values that are no texts, an empty field for Blank.
const PLAIN: &str = "
    JOIN|-170141183460469231731687303715884105728|TRUE||-170141183460469231731687303715884105728TRUE
    JOIN||1||1
    LEFT|1234|2||12
    LEFT|FALSE|3||FAL
    LEFT|FALSE|||
    LEFT|FALSE|TRUE||#VALUE!
    RIGHT|-12|170141183460469231731687303715884105727||-12
    RIGHT|-12|-170141183460469231731687303715884105728||#VALUE!
    MID|-12|2|170141183460469231731687303715884105727|12
    MID|-12|170141183460469231731687303715884105727|170141183460469231731687303715884105727|
    MID|-12||1|#VALUE!
    MID|-12|1||
    LEN|-12|||3
    LEN||||0
    LEN|FALSE|||5
";

// The value that a field writes: a truth value, Blank or a number.
fn plain(field: &str) -> Value
    ensures { (ts : Texts) → IsValueOf ts result }
{
    match field {
        "TRUE" => Value::Bool(true),
        "FALSE" => Value::Bool(false),
        "" => Value::Blank,
        _ => Value::Number(field.parse().unwrap_or(0)),
    }
}

// Whether a row of that table holds.
fn holds_plain(alloc: Global, function: &str, value: &str, rest: &str) -> Result<bool, AllocError> {
    let Some((first, rest)) = rest.split_once('|') else {
        return Ok(false);
    };
    let Some((second, want)) = rest.split_once('|') else {
        return Ok(false);
    };
    let texts = Texts::new(alloc);
    let given = answer(function, plain(value), plain(first), plain(second), &texts);
    shows(alloc, given, &texts, want)
}

#[test]
fn texts_of_other_values(rt: HostRuntime) -> Result<(), Fail> {
    let mut rows: usize = 0;
    for line in PLAIN.lines() {
        if let Some((function, rest)) = line.trim_start().split_once('|') {
            if let Some((value, rest)) = rest.split_once('|') {
                assert!(rt; holds_plain(rt.alloc(), function, value, rest)?, "{line}");
                rows = rows.saturating_add(1);
            }
        }
    }
    assert_eq!(rt; rows, 15);
    Ok(())
}
