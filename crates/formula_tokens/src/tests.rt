//! Texts with their tokens and places, worked out by hand from the grammar.

use crate::{Coordinate, Corner, Literal, Spot, Token, Word, function_name, read_tokens};
use cell_values::{SheetNames, Texts};
use formula_trees::{MAX_FORMULA_BYTES, Op};
use std::alloc::{AllocError, Global};
use std::test::Fail;

fn write_coordinate(alloc: Global, coordinate: Coordinate) -> Result<String, AllocError> {
    if coordinate.absolute {
        format!(in alloc; "${}", coordinate.number)
    } else {
        format!(in alloc; "{}", coordinate.number)
    }
}

/// The column and the row in brackets, or `?`.
fn write_word(alloc: Global, word: Word) -> Result<String, AllocError> {
    match word {
        Word::Cell(Corner { col, row }) => {
            let col = write_coordinate(alloc, col)?;
            let row = write_coordinate(alloc, row)?;
            format!(in alloc; "[{col},{row}]")
        }
        Word::Unknown => String::from_str(alloc, "?"),
    }
}

fn write_literal(alloc: Global, literal: Literal) -> Result<String, AllocError> {
    match literal {
        Literal::Number(number) => format!(in alloc; "{number}"),
        Literal::HugeNumber => String::from_str(alloc, "huge"),
        Literal::Text(text) => format!(in alloc; "text{}", text.0),
        Literal::Truth(true) => String::from_str(alloc, "TRUE"),
        Literal::Truth(false) => String::from_str(alloc, "FALSE"),
        Literal::RefError => String::from_str(alloc, "#REF!"),
    }
}

fn sign(op: Op) -> &'static str {
    match op {
        Op::Add => "+",
        Op::Sub => "-",
        Op::Mul => "*",
        Op::Div => "/",
        Op::Join => "&",
        Op::Eq => "=",
        Op::Ne => "<>",
        Op::Lt => "<",
        Op::Le => "<=",
        Op::Gt => ">",
        Op::Ge => ">=",
    }
}

fn write_token(alloc: Global, token: Token) -> Result<String, AllocError> {
    match token {
        Token::Literal(literal) => write_literal(alloc, literal),
        Token::Reference(word) => write_word(alloc, word),
        Token::SheetReference(word) => {
            let word = write_word(alloc, word)?;
            format!(in alloc; "!{word}")
        }
        Token::Prefix(Some(sheet)) => format!(in alloc; "sheet{sheet}"),
        Token::Prefix(None) => String::from_str(alloc, "sheet?"),
        Token::Function(Some(fun)) => String::from_str(alloc, function_name(fun)),
        Token::Function(None) => String::from_str(alloc, "function?"),
        Token::LeftParen => String::from_str(alloc, "("),
        Token::RightParen => String::from_str(alloc, ")"),
        Token::Comma => String::from_str(alloc, ","),
        Token::Colon => String::from_str(alloc, ":"),
        Token::Operator(op) => String::from_str(alloc, sign(op)),
        Token::Misplaced => String::from_str(alloc, "misplaced"),
        Token::BadCharacter => String::from_str(alloc, "bad"),
        Token::End => String::from_str(alloc, "end"),
    }
}

/// Each token behind its place and a colon.
fn write_spots(alloc: Global, spots: &[Spot]) -> Result<String, AllocError> {
    let mut text = String::new(alloc);
    for spot in spots {
        if !text.is_empty() {
            text.push(' ')?;
        }
        let token = write_token(alloc, spot.token)?;
        let spot = format!(in alloc; "{}:{token}", spot.place)?;
        text.push_str(spot.as_str())?;
    }
    Ok(text)
}

#[test]
fn reads_tokens(rt: HostRuntime) -> Result<(), Fail> {
    let alloc = rt.alloc();
    let files = vec![in alloc;
        String::from_str(alloc, "Sheet1.csv")?,
        String::from_str(alloc, "my plan")?,
    ]?;
    let sheets = SheetNames::new(alloc, &files)?;
    let rows = [
        ("", ""),
        ("=", ""),
        (
            "=007+170141183460469231731687303715884105728",
            "1:7 4:+ 5:huge",
        ),
        ("=9223372036854775808", "1:9223372036854775808"),
        (
            "=170141183460469231731687303715884105727",
            "1:170141183460469231731687303715884105727",
        ),
        (
            "=A1 $B2 c$3 $IV$65536",
            "1:[1,1] 4:[$2,2] 8:[3,$3] 12:[$256,$65536]",
        ),
        (
            "=A4294967296,zzzzzzzz1",
            "1:[1,4294967295] 12:, 13:[4294967295,1]",
        ),
        ("=A1B", "1:?"),
        (
            "=$,_x,A,$A$,A$$1,A1$",
            "1:? 2:, 3:? 5:, 6:? 7:, 8:? 11:, 12:? 16:, 17:?",
        ),
        ("=1A", "1:1 2:?"),
        ("=Sheet1!A1", "1:sheet0 8:![1,1]"),
        ("='my plan'!$A$1", "1:sheet1 11:![$1,$1]"),
        ("=''!A1", "1:sheet? 4:![1,1]"),
        ("='abc'", "1:bad"),
        ("='abc", "1:bad"),
        ("=Sheet1!FOO", "1:sheet0 8:!?"),
        ("=Sheet1!SUM(", "1:sheet0 8:misplaced 11:("),
        ("=Sheet1!A1(", "1:sheet0 8:misplaced 10:("),
        ("=Sheet1!TRUE", "1:sheet0 8:misplaced"),
        ("=Sheet1! A1", "1:sheet0 9:[1,1]"),
        ("=Sheet1!Sheet1!A1", "1:sheet0 8:sheet0 15:![1,1]"),
        ("=TRUE!A1", "1:sheet? 6:![1,1]"),
        ("=$A!B1", "1:? 3:bad"),
        ("=True falsE", "1:TRUE 6:FALSE"),
        ("=TRUE(", "1:function? 5:("),
        ("=sum (1)", "1:SUM 5:( 6:1 7:)"),
        ("=SUM", "1:?"),
        ("=A1(", "1:function? 3:("),
        (
            "=IF(And(oR(not(CHOOSE(iferror(",
            "1:IF 3:( 4:AND 7:( 8:OR 10:( 11:NOT 14:( 15:CHOOSE 21:( 22:IFERROR 29:(",
        ),
        (
            "=ISERROR(SUM(min(MAX(COUNT(Abs(",
            "1:ISERROR 8:( 9:SUM 12:( 13:MIN 16:( 17:MAX 20:( 21:COUNT 26:( 27:ABS 30:(",
        ),
        (
            "=MOD(QUOTIENT(INDEX(match(VLookup(HLOOKUP(",
            "1:MOD 4:( 5:QUOTIENT 13:( 14:INDEX 19:( 20:MATCH 25:( 26:VLOOKUP 33:( 34:HLOOKUP 41:(",
        ),
        (
            "=LEFT(Right(mid(Len(",
            "1:LEFT 5:( 6:RIGHT 11:( 12:MID 15:( 16:LEN 19:(",
        ),
        ("=A1&&\"b\"&=", "1:[1,1] 3:& 4:& 5:text0 8:& 9:="),
        ("=\"a\"\"b\",\"\",A1", "1:text0 7:, 8:text1 10:, 11:[1,1]"),
        ("=\"a\"+\"a\"", "1:text0 4:+ 5:text0"),
        ("=\"\"\"\"", "1:text0"),
        ("=\"abc", "1:bad"),
        ("=1+\"abc\"\"", "1:1 2:+ 3:bad"),
        ("=#REF!+#REF", "1:#REF! 6:+ 7:bad"),
        ("=<><=>=< =>", "1:<> 3:<= 5:>= 7:< 9:= 10:>"),
        ("=()*-/:", "1:( 2:) 3:* 4:- 5:/ 6::"),
        ("=1.5", "1:1 2:bad"),
        ("= \t\r\n1", "5:1"),
        ("=1\u{e9}2", "1:1 2:bad"),
        ("\u{e9}", "1:bad"),
    ];
    for (text, tokens) in rows {
        assert!(rt; text.len() <= MAX_FORMULA_BYTES);
        let mut texts = Texts::new(alloc);
        let spots = read_tokens(alloc, text, &sheets, &mut texts)?;
        assert_eq!(rt; write_spots(alloc, &spots)?.as_str(), tokens, "{text}");
    }
    Ok(())
}

#[test]
fn interns_literals(rt: HostRuntime) -> Result<(), Fail> {
    let alloc = rt.alloc();
    let files = vec![in alloc; String::from_str(alloc, "Sheet1")?]?;
    let sheets = SheetNames::new(alloc, &files)?;
    let rows = [
        ("=\"a\"\"b\"", "a\"b"),
        ("=\"\"", ""),
        ("=\"\"\"\"", "\""),
        ("=\"\u{e9}\"\"\"", "\u{e9}\""),
        ("=\" A1 \"", " A1 "),
    ];
    for (text, literal) in rows {
        let mut texts = Texts::new(alloc);
        texts.intern("first")?;
        read_tokens(alloc, text, &sheets, &mut texts)?;
        assert_eq!(rt; texts.intern("next")?.0, 2, "{text}");
        assert_eq!(rt; texts.intern(literal)?.0, 1, "{text}");
    }
    Ok(())
}
