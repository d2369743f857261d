//! Small books and formulas, with what they show and give worked out by hand.
ghost use Rattle.std.specs.Prelude.{◌≡◌, ◌≤◌, IfOk, IsTrue};
ghost use Rattle.cell_values.specs.Addresses.{IsBefore, IsOnSheet};
ghost use Rattle.cell_values.specs.Texts.{Texts as Bytes, IsTextOf};
ghost use Rattle.demand_spec.specs.Given.{IsAnswerOf};
ghost use Rattle.demand_spec.specs.Listed.{content_of, contents, IsSoundAt, IsContentOf, AreCellsOf, IsFormulaOf, AreArgumentsOf};
ghost use Rattle.cell_values.specs.Order.{IsAfterAll, addresses};
ghost use Rattle.formula_trees.specs.Expr.{expr_of, exprs_of, Binary, Call, End, More};
ghost use Rattle.formula_trees.specs.Sound.{IsSound};

use crate::all_rounds::finish;
use crate::context::Stage;
use crate::{Asked, Cell, PlainBook, slow_shown};
use cell_values::{Addr, Code, Int, LAST_COLUMN, Shown, TextId, Texts, Value};
use formula_trees::{Args, Fun, Op, Part, Reference, Sign, Tree};
use std::alloc::{AllocError, Global};
use std::process::Abort;
use std::test::Fail;

fn place(row: u32, col: u16) -> Addr
    ensures { result ≡ record { sheet = 0; row = row; col = col } }
{
    Addr { sheet: 0, row, col }
}

fn reference(row: u32, col: u16) -> Reference
    ensures { result ≡ record { sheet = None; col = Part.At col; row = Part.At row } }
{
    Reference {
        sheet: None,
        col: Part::At(u32::from(col)),
        row: Part::At(row),
    }
}

fn is_before(a: Addr, b: Addr) -> bool
    ensures { IsTrue result → IsBefore a b }
{
    a.sheet == b.sheet && (a.row < b.row || (a.row == b.row && a.col < b.col))
}

// Whether the address lies after all cells.
fn is_last(cells: &[(Addr, Cell)], at: Addr) -> bool
    ensures { IsTrue result → IsAfterAll at (addresses (contents cells.now)) }
{
    for (address, _) in cells {
        if !is_before(*address, at) {
            return false;
        }
    }
    true
}

// Appends a cell.
#[tactic(auto, using(crate::proofs::Small::cells_push))]
fn put(rt: &impl Abort, book: &mut PlainBook, texts: &Texts, at: Addr, cell: Cell)
    requires on_sheet { IsOnSheet at }
    requires sound { IsSoundAt at (content_of cell) }
    requires text { IsContentOf texts.now (content_of cell) }
    requires texts { AreCellsOf texts.now book.old }
    ensures { AreCellsOf texts.now book.new }
{
    assert!(rt; !book.is_full() && is_last(book.cells(), at));
    book.push(at, cell).expect(rt, "memory");
}

// Appends a cell that is a reference to a cell.
#[tactic(auto, using(crate::proofs::Small::reference_sound))]
fn put_reference(rt: &impl Abort, book: &mut PlainBook, texts: &Texts, at: Addr, to: Addr)
    requires on_sheet { IsOnSheet at }
    requires target { IsOnSheet to }
    requires texts { AreCellsOf texts.now book.old }
    ensures { AreCellsOf texts.now book.new }
{
    put(
        rt,
        book,
        texts,
        at,
        Cell::Formula(Tree::Ref(reference(to.row, to.col))),
    );
}

// The book whose cells of the first row refer to these columns of it; 0 stands for the number 7.
fn book_of(rt: &impl Abort, alloc: Global, texts: &Texts, columns: &[u16]) -> PlainBook
    ensures { AreCellsOf texts.now result }
{
    let mut book = PlainBook::new(alloc);
    let mut col = 0;
    for &to in columns {
        assert!(rt; col < LAST_COLUMN && to <= LAST_COLUMN);
        col += 1;
        if to == 0 {
            put(rt, &mut book, texts, place(1, col), Cell::Number(7));
        } else {
            put_reference(rt, &mut book, texts, place(1, col), place(1, to));
        }
    }
    book
}

// A loop's length by its last digit.
fn letter(shown: Shown) -> u8 {
    match shown {
        Shown::Val(Value::Number(7)) => b'v',
        Shown::Val(Value::Blank) => b'-',
        Shown::Val(_) => b'?',
        Shown::Cycle(length) => b'0' + (length % 10) as u8,
        Shown::ToCycle => b'T',
    }
}

#[test]
fn loops_and_what_leads_into_them(rt: HostRuntime) -> Result<(), Fail> {
    // the columns that the cells A1, B1, .. refer to, 0 for the number 7, and what the formula cells show
    let rows: [(&[u16], &[u8]); 8] = [
        (&[2, 3, 2], b"T22"),
        (&[1], b"1"),
        (&[2, 1], b"22"),
        (&[2, 3, 4, 5, 1], b"55555"),
        (&[2, 3, 4, 0], b"vvv"),
        (&[2, 9], b"--"),
        (&[2, 3, 4, 5, 3, 1], b"TT333T"),
        (&[2, 1, 4, 0, 6, 5, 5], b"22v22T"),
    ];
    let texts = Texts::new(rt.alloc());
    for (columns, want) in rows {
        let book = book_of(&rt, rt.alloc(), &texts, columns);
        let shown = slow_shown(rt.alloc(), &book, &texts)?;
        assert_eq!(rt; shown.len(), want.len());
        for i in 0..want.len() {
            let (_, shows) = shown[i];
            assert_eq!(rt; letter(shows), want[i], "at {columns:?}");
        }
    }
    Ok(())
}

// The cells of column A from row 1 on, each of which refers to the next one, and the last one to the first.
fn ring(rt: &impl Abort, alloc: Global, texts: &Texts, count: u32) -> PlainBook
    ensures { AreCellsOf texts.now result }
{
    let mut book = PlainBook::new(alloc);
    for above in 0..count {
        assert!(rt; above < 65_000);
        let next = if above + 1 == count { 1 } else { above + 2 };
        put_reference(rt, &mut book, texts, place(above + 1, 1), place(next, 1));
    }
    book
}

#[test]
fn cells_of_a_loop_show_how_many_they_are(rt: HostRuntime) -> Result<(), Fail> {
    let texts = Texts::new(rt.alloc());
    for count in [1, 2, 1000] {
        let book = ring(&rt, rt.alloc(), &texts, count);
        let mut marks = 0;
        for &(_, shows) in &slow_shown(rt.alloc(), &book, &texts)? {
            assert_eq!(rt; shows, Shown::Cycle(count));
            marks = u32::saturating_add(marks, 1);
        }
        assert_eq!(rt; marks, count);
    }
    Ok(())
}

fn operation(rt: &impl Abort, alloc: Global, op: Op, a: Tree, b: Tree) -> Tree
    ensures { expr_of result ≡ Binary op (expr_of a) (expr_of b) }
{
    let a = Box::new(alloc, a).expect(rt, "memory");
    let b = Box::new(alloc, b).expect(rt, "memory");
    Tree::Binary(op, a, b)
}

fn if_error(rt: &impl Abort, alloc: Global, a: Tree, b: Tree) -> Tree
    ensures { expr_of result ≡ Call Fun.IfError (More (expr_of a) (More (expr_of b) End)) }
{
    let b = Box::new(alloc, b).expect(rt, "memory");
    let end = Box::new(alloc, Args::End).expect(rt, "memory");
    let rest = Box::new(alloc, Args::More(b, end)).expect(rt, "memory");
    let a = Box::new(alloc, a).expect(rt, "memory");
    Tree::Call(Fun::IfError, Args::More(a, rest))
}

// What A1 with the formula and B1 with `=B1` show.
fn beside_a_loop(
    rt: &impl Abort,
    alloc: Global,
    formula: Tree,
) -> Result<(Shown, Shown), AllocError>
    requires sound { IsSound (record { sheet = 0; row = 1; col = 1 }) (expr_of formula) }
    requires text { (ts : Bytes) → IsFormulaOf ts (expr_of formula) }
{
    let texts = Texts::new(alloc);
    let mut book = PlainBook::new(alloc);
    put(rt, &mut book, &texts, place(1, 1), Cell::Formula(formula));
    put_reference(rt, &mut book, &texts, place(1, 2), place(1, 2));
    let shown = slow_shown(alloc, &book, &texts)?;
    assert!(rt; shown.len() == 2);
    let (first, second) = (shown[0], shown[1]);
    Ok((first.1, second.1))
}

#[test]
fn formulas_lead_into_a_loop_by_their_first_need(rt: HostRuntime) -> Result<(), Fail> {
    let alloc = rt.alloc();
    let zero_first = operation(
        &rt,
        alloc,
        Op::Add,
        operation(&rt, alloc, Op::Div, Tree::Number(1), Tree::Number(0)),
        Tree::Ref(reference(1, 2)),
    );
    assert_eq!(rt;
        beside_a_loop(&rt, alloc, zero_first)?,
        (Shown::Val(Value::Error(Code::Div)), Shown::Cycle(1))
    );
    let loop_first = operation(
        &rt,
        alloc,
        Op::Add,
        Tree::Ref(reference(1, 2)),
        operation(&rt, alloc, Op::Div, Tree::Number(1), Tree::Number(0)),
    );
    assert_eq!(rt;
        beside_a_loop(&rt, alloc, loop_first)?,
        (Shown::ToCycle, Shown::Cycle(1))
    );
    let unless = if_error(&rt, alloc, Tree::Ref(reference(1, 2)), Tree::Number(5));
    assert_eq!(rt;
        beside_a_loop(&rt, alloc, unless)?,
        (Shown::ToCycle, Shown::Cycle(1))
    );
    Ok(())
}

// A formula without texts. Its parts stand before it: a digit is a number, `a` to `g` are the cells A1 to
// G1, `h` to `k` are A2, B2, A3 and B3, `#` is `#REF!`, and `:` makes a range of two cells. `-` is the
// sign, `&` joins texts. A capital is a function, with a point before it for each of its arguments.
fn formula(rt: &impl Abort, alloc: Global, spelling: &[u8]) -> Tree {
    let mut parts: Vec<Tree> = Vec::new(alloc);
    let mut count = 0_u32;
    for &sign in spelling {
        let tree = match sign {
            b'0'..=b'9' => Tree::Number(Int::from(sign - b'0')),
            b'a'..=b'g' => Tree::Ref(reference(1, u16::from(sign - b'a') + 1)),
            b'h' | b'i' => Tree::Ref(reference(2, u16::from(sign - b'h') + 1)),
            b'j' | b'k' => Tree::Ref(reference(3, u16::from(sign - b'j') + 1)),
            b'#' => Tree::RefError,
            b':' => range(rt, &mut parts),
            b'-' => Tree::Unary(Sign::Minus, part(rt, alloc, &mut parts)),
            b'+' => operator(rt, alloc, Op::Add, &mut parts),
            b'/' => operator(rt, alloc, Op::Div, &mut parts),
            b'=' => operator(rt, alloc, Op::Eq, &mut parts),
            b'<' => operator(rt, alloc, Op::Lt, &mut parts),
            b'&' => operator(rt, alloc, Op::Join, &mut parts),
            b'.' => {
                count = count.saturating_add(1);
                continue;
            }
            _ => call(rt, alloc, function(sign), count, &mut parts),
        };
        if sign.is_ascii_uppercase() {
            count = 0;
        }
        parts.push(tree).expect(rt, "memory");
    }
    parts.pop().expect(rt, "a formula")
}

// The last part.
fn part(rt: &impl Abort, alloc: Global, parts: &mut Vec<Tree>) -> Box<Tree> {
    let last = parts.pop().expect(rt, "a part");
    Box::new(alloc, last).expect(rt, "memory")
}

fn range(rt: &impl Abort, parts: &mut Vec<Tree>) -> Tree {
    match (parts.pop(), parts.pop()) {
        (Some(Tree::Ref(second)), Some(Tree::Ref(first))) => Tree::Range(first, second),
        _ => {
            assert!(rt; false, "two cells");
            Tree::RefError
        }
    }
}

fn operator(rt: &impl Abort, alloc: Global, op: Op, parts: &mut Vec<Tree>) -> Tree {
    let right = part(rt, alloc, parts);
    let left = part(rt, alloc, parts);
    Tree::Binary(op, left, right)
}

fn call(rt: &impl Abort, alloc: Global, fun: Fun, count: u32, parts: &mut Vec<Tree>) -> Tree {
    let mut args = Args::End;
    for _ in 0..count {
        let last = part(rt, alloc, parts);
        args = Args::More(last, Box::new(alloc, args).expect(rt, "memory"));
    }
    Tree::Call(fun, args)
}

fn function(sign: u8) -> Fun {
    match sign {
        b'I' => Fun::If,
        b'A' => Fun::And,
        b'O' => Fun::Or,
        b'N' => Fun::Not,
        b'C' => Fun::Choose,
        b'E' => Fun::IfError,
        b'R' => Fun::IsError,
        b'S' => Fun::Sum,
        b'L' => Fun::Min,
        b'G' => Fun::Max,
        b'K' => Fun::Count,
        b'B' => Fun::Abs,
        b'M' => Fun::Mod,
        b'Q' => Fun::Quotient,
        b'X' => Fun::Index,
        b'F' => Fun::Match,
        b'V' => Fun::VLookup,
        b'P' => Fun::Left,
        b'T' => Fun::Right,
        b'D' => Fun::Mid,
        b'Z' => Fun::Len,
        _ => Fun::HLookup,
    }
}

#[cycle(texts)]
fn has_no_text(tree: &Tree) -> bool
    ensures { (ts : Bytes) → IsTrue result → IsFormulaOf ts (expr_of tree.now) }
{
    match tree {
        Tree::Text(_) => false,
        Tree::Unary(_, a) => has_no_text(a),
        Tree::Binary(_, a, b) => has_no_text(a) && has_no_text(b),
        Tree::Call(_, args) => have_no_text(args),
        _ => true,
    }
}

#[cycle(texts)]
fn have_no_text(args: &Args) -> bool
    ensures { (ts : Bytes) → IsTrue result → AreArgumentsOf ts (exprs_of args.now) }
{
    match args {
        Args::End => true,
        Args::More(a, rest) => has_no_text(a) && have_no_text(rest),
    }
}

// A1 is 2, B1 TRUE, C1 `=#REF!`, D1 `=D1`, E1 a text, F1 3, G1 empty; A2 5, B2 9; A3 `=A3`, B3 1.
fn sample(rt: &impl Abort, alloc: Global, texts: &Texts, text: TextId) -> PlainBook
    requires { IsTextOf texts.now text }
    ensures { AreCellsOf texts.now result }
{
    let mut book = PlainBook::new(alloc);
    put(rt, &mut book, texts, place(1, 1), Cell::Number(2));
    put(rt, &mut book, texts, place(1, 2), Cell::Bool(true));
    put(
        rt,
        &mut book,
        texts,
        place(1, 3),
        Cell::Formula(Tree::RefError),
    );
    put_reference(rt, &mut book, texts, place(1, 4), place(1, 4));
    put(rt, &mut book, texts, place(1, 5), Cell::Text(text));
    put(rt, &mut book, texts, place(1, 6), Cell::Number(3));
    put(rt, &mut book, texts, place(2, 1), Cell::Number(5));
    put(rt, &mut book, texts, place(2, 2), Cell::Number(9));
    put_reference(rt, &mut book, texts, place(3, 1), place(3, 1));
    put(rt, &mut book, texts, place(3, 2), Cell::Number(1));
    book
}

const VALUE: Asked = Asked::Val(Value::Error(Code::Value));

const REF: Asked = Asked::Val(Value::Error(Code::Ref));

const DIV: Asked = Asked::Val(Value::Error(Code::Div));

const NA: Asked = Asked::Val(Value::Error(Code::Na));

const TRUE: Asked = Asked::Val(Value::Bool(true));

const FALSE: Asked = Asked::Val(Value::Bool(false));

const NEED: Asked = Asked::Needs(Addr {
    sheet: 0,
    row: 1,
    col: 4,
});

const NEED3: Asked = Asked::Needs(Addr {
    sheet: 0,
    row: 3,
    col: 1,
});

// Formulas over the sample book, with what they give where `=D1` and `=A3` have no value.
const ROWS: &[(&[u8], Asked); 85] = &[
    // IF(B1,A1,D1): the branch that is not taken needs nothing
    (b"bad...I", Asked::Val(Value::Number(2))),
    // IF(G1,D1,7)
    (b"gd7...I", Asked::Val(Value::Number(7))),
    // IF(E1,1,2)
    (b"e12...I", VALUE),
    // IF(D1,1,2)
    (b"d12...I", NEED),
    // IF(C1,D1,D1)
    (b"cdd...I", REF),
    // IF(G1,1)
    (b"g1..I", FALSE),
    // AND(G1,D1)
    (b"gd..A", FALSE),
    // AND(B1,D1)
    (b"bd..A", NEED),
    // AND(B1,E1)
    (b"be..A", VALUE),
    // AND(C1,D1)
    (b"cd..A", REF),
    // AND(A1,B1)
    (b"ab..A", TRUE),
    // OR(B1,D1)
    (b"bd..O", TRUE),
    // OR(G1,E1)
    (b"ge..O", VALUE),
    // OR(D1,B1)
    (b"db..O", NEED),
    // OR(G1,0)
    (b"g0..O", FALSE),
    // NOT(G1)
    (b"g.N", TRUE),
    // NOT(A1)
    (b"a.N", FALSE),
    // NOT(E1)
    (b"e.N", VALUE),
    // NOT(D1)
    (b"d.N", NEED),
    // CHOOSE(A1,D1,8)
    (b"ad8...C", Asked::Val(Value::Number(8))),
    // CHOOSE(1,D1,8)
    (b"1d8...C", NEED),
    // CHOOSE(G1,8)
    (b"g8..C", VALUE),
    // CHOOSE(B1,8)
    (b"b8..C", VALUE),
    // CHOOSE(F1,1,2)
    (b"f12...C", VALUE),
    // CHOOSE(C1,8)
    (b"c8..C", REF),
    // IFERROR(C1,5)
    (b"c5..E", Asked::Val(Value::Number(5))),
    // IFERROR(D1,5): a need is no error
    (b"d5..E", NEED),
    // IFERROR(A1,D1)
    (b"ad..E", Asked::Val(Value::Number(2))),
    // IFERROR(C1,D1)
    (b"cd..E", NEED),
    // ISERROR(C1)
    (b"c.R", TRUE),
    // ISERROR(E1)
    (b"e.R", FALSE),
    // ISERROR(D1)
    (b"d.R", NEED),
    // SUM(E1): a reference alone is a range
    (b"e.S", Asked::Val(Value::Number(0))),
    // SUM(IF(B1,E1))
    (b"be..I.S", VALUE),
    // SUM(A1:B2): TRUE is passed over
    (b"ai:.S", Asked::Val(Value::Number(16))),
    // SUM(A1,D1)
    (b"ad..S", NEED),
    // SUM(C1,D1)
    (b"cd..S", REF),
    // SUM(D1,C1)
    (b"dc..S", NEED),
    // SUM(#REF!,D1)
    (b"#d..S", REF),
    // SUM(G1,IF(B1,G1))
    (b"gbg..I..S", Asked::Val(Value::Number(0))),
    // MIN(A1:B2)
    (b"ai:.L", Asked::Val(Value::Number(2))),
    // MIN(G1)
    (b"g.L", Asked::Val(Value::Number(0))),
    // MAX(A1:B2)
    (b"ai:.G", Asked::Val(Value::Number(9))),
    // COUNT(A1:B2)
    (b"ai:.K", Asked::Val(Value::Number(3))),
    // COUNT(IF(B1,E1),7)
    (b"be..I7..K", Asked::Val(Value::Number(1))),
    // COUNT(C1)
    (b"c.K", REF),
    // ABS(-A1)
    (b"a-.B", Asked::Val(Value::Number(2))),
    // ABS(E1)
    (b"e.B", VALUE),
    // MOD(A2,A1)
    (b"ha..M", Asked::Val(Value::Number(1))),
    // MOD(-A2,F1)
    (b"h-f..M", Asked::Val(Value::Number(1))),
    // MOD(A1,G1)
    (b"ag..M", DIV),
    // MOD(E1,D1): a text on the left does not stop the right
    (b"ed..M", NEED),
    // QUOTIENT(-A2,A1)
    (b"h-a..Q", Asked::Val(Value::Number(-2))),
    // QUOTIENT(C1,D1)
    (b"cd..Q", REF),
    // INDEX(A1:B2,2,2)
    (b"ai:22...X", Asked::Val(Value::Number(9))),
    // INDEX(A1:B2,3,1)
    (b"ai:31...X", REF),
    // INDEX(A1:B2,G1,1)
    (b"ai:g1...X", REF),
    // INDEX(A1:B2,B1,1)
    (b"ai:b1...X", VALUE),
    // INDEX(A1:D1,1,4)
    (b"ad:14...X", NEED),
    // INDEX(#REF!,B1,1): the kinds come before the range
    (b"#b1...X", VALUE),
    // INDEX(#REF!,1,D1)
    (b"#1d...X", NEED),
    // INDEX(#REF!,1,1)
    (b"#11...X", REF),
    // MATCH(5,A1:A3): it stops before A3
    (b"5aj:..F", Asked::Val(Value::Number(2))),
    // MATCH(9,A1:A3)
    (b"9aj:..F", NEED3),
    // MATCH(3,E1:G1)
    (b"3eg:..F", Asked::Val(Value::Number(2))),
    // MATCH(3,C1:F1): the error is passed over
    (b"3cf:..F", NEED),
    // MATCH(0,G1:G1): a Blank is passed over
    (b"0gg:..F", NA),
    // MATCH(E1,A1:F2)
    (b"eaf:..F", NEED),
    // MATCH(C1,D1)
    (b"cd..F", REF),
    // MATCH(2,A1,0)
    (b"2a0...F", Asked::Val(Value::Number(1))),
    // VLOOKUP(5,A1:B3,2)
    (b"5ak:2...V", Asked::Val(Value::Number(9))),
    // VLOOKUP(2,A1:B3,2)
    (b"2ak:2...V", TRUE),
    // VLOOKUP(5,A1:B3,3)
    (b"5ak:3...V", REF),
    // VLOOKUP(7,A1:B2,1)
    (b"7ai:1...V", NA),
    // VLOOKUP(D1,#REF!,C1)
    (b"d#c...V", NEED),
    // VLOOKUP(1,A1:B3,E1)
    (b"1ak:e...V", VALUE),
    // HLOOKUP(B1,A1:B2,2)
    (b"bai:2...W", Asked::Val(Value::Number(9))),
    // HLOOKUP(3,A1:F1,1)
    (b"3af:1...W", NEED),
    // HLOOKUP(2,A1:B2,3)
    (b"2ai:3...W", REF),
    // 1/0+D1: an error before a need
    (b"10/d+", DIV),
    // D1+1/0: a need before an error
    (b"d10/+", NEED),
    // A1=E1
    (b"ae=", FALSE),
    // A1<E1
    (b"ae<", VALUE),
    // -E1
    (b"e-", VALUE),
    // A1+G1
    (b"ag+", Asked::Val(Value::Number(2))),
];

// The rows, asked over a book.
fn ask_rows(
    rt: &impl Abort,
    alloc: Global,
    book: &PlainBook,
    texts: &Texts,
) -> Result<(), AllocError>
    requires { AreCellsOf texts.now book.now }
{
    let known = finish(alloc, book, texts)?;
    let stage = Stage::over(book, texts, &known);
    for (spelling, want) in ROWS {
        let tree = formula(rt, alloc, spelling);
        assert!(rt; has_no_text(&tree));
        assert_eq!(rt; stage.ask(&tree, place(9, 9)), *want, "at {spelling:?}");
    }
    Ok(())
}

#[test]
fn formulas_ask_from_left_to_right(rt: HostRuntime) -> Result<(), Fail> {
    let mut texts = Texts::new(rt.alloc());
    let text = texts.intern("x")?;
    let book = sample(&rt, rt.alloc(), &texts, text);
    ask_rows(&rt, rt.alloc(), &book, &texts)?;
    Ok(())
}

// Formulas over the sample book with a text in E1, and the text of what they give; `needs` stands for a cell
// without a value.
const TEXT_ROWS: &[(&str, &[u8], &str); 45] = &[
    // E1&1
    ("ab", b"e1&", "ab1"),
    // LEFT(E1,2)&LEN(E1)
    ("héllo", b"e2..Pe.Z&", "hé5"),
    // E1&9: 49 bytes are too many, and 48 are not
    (
        "xxxxxxxxxxxxxxxxxxxxxxxxxxxxxxxxxxxxxxxxxxxxxxxx",
        b"e9&",
        "#VALUE!",
    ),
    (
        "xxxxxxxxxxxxxxxxxxxxxxxxxxxxxxxxxxxxxxxxxxxxxxx",
        b"e9&",
        "xxxxxxxxxxxxxxxxxxxxxxxxxxxxxxxxxxxxxxxxxxxxxxx9",
    ),
    // MID(E1,4,2)=G1: the empty text equals Blank
    ("abc", b"e42...Dg=", "TRUE"),
    // E1&B1, G1&G1, -A2&A1
    ("ab", b"eb&", "abTRUE"),
    ("ab", b"gg&", ""),
    ("ab", b"h-a&", "-52"),
    // C1&D1, D1&C1: what is wrong on the left comes first
    ("ab", b"cd&", "#REF!"),
    ("ab", b"dc&", "needs"),
    // C1&1/0, 1/0&C1, A1&C1
    ("ab", b"c10/&", "#REF!"),
    ("ab", b"10/c&", "#DIV/0!"),
    ("ab", b"ac&", "#REF!"),
    // LEFT(E1), RIGHT(E1): one character
    ("héllo", b"e.P", "h"),
    ("héllo", b"e.T", "o"),
    // RIGHT(E1,2), LEFT(E1,9), RIGHT(E1,9)
    ("héllo", b"e2..T", "lo"),
    ("héllo", b"e9..P", "héllo"),
    ("héllo", b"e9..T", "héllo"),
    // LEFT(E1,G1), LEFT(E1,B1), LEFT(E1,-A1), LEFT(E1,E1)
    ("héllo", b"eg..P", ""),
    ("héllo", b"eb..P", "#VALUE!"),
    ("héllo", b"ea-..P", "#VALUE!"),
    ("héllo", b"ee..P", "#VALUE!"),
    // MID(E1,2,2), MID(E1,6,2), MID(E1,0,2), MID(E1,G1,2), MID(E1,1,-A1)
    ("héllo", b"e22...D", "él"),
    ("héllo", b"e62...D", ""),
    ("héllo", b"e02...D", "#VALUE!"),
    ("héllo", b"eg2...D", "#VALUE!"),
    ("héllo", b"e1a-...D", "#VALUE!"),
    // MID(E1,B1,D1), LEFT(C1,D1), RIGHT(D1,C1), MID(E1,2,C1): arguments before their kinds, left to right
    ("ab", b"ebd...D", "needs"),
    ("ab", b"cd..P", "#REF!"),
    ("ab", b"dc..T", "needs"),
    ("ab", b"e2c...D", "#REF!"),
    // LEN(E1), LEN(B1), LEN(G1), LEN(-A2), LEN(C1), LEN(D1)
    ("héllo", b"e.Z", "5"),
    ("ab", b"b.Z", "4"),
    ("ab", b"g.Z", "0"),
    ("ab", b"h-.Z", "2"),
    ("ab", b"c.Z", "#REF!"),
    ("ab", b"d.Z", "needs"),
    // IFERROR(E1&9,7)
    (
        "xxxxxxxxxxxxxxxxxxxxxxxxxxxxxxxxxxxxxxxxxxxxxxxx",
        b"e9&7..E",
        "7",
    ),
    // SUM(E1&1), COUNT(E1&1), IF(E1&1,1,2), (E1&1)+1: a text as any other
    ("1", b"e1&.S", "#VALUE!"),
    ("1", b"e1&.K", "0"),
    ("1", b"e1&12...I", "#VALUE!"),
    ("1", b"e1&1+", "#VALUE!"),
    // LEFT(E1,9)=E1, MATCH(LEFT(E1,9),E1:F1), E1&1<E1&2: texts compare by their bytes
    ("ab", b"e9..Pe=", "TRUE"),
    ("ab", b"e9..Pef:..F", "1"),
    ("ab", b"e1&e2&<", "TRUE"),
];

// What a formula gives over a book.
fn ask_one(alloc: Global, book: &PlainBook, texts: &Texts, tree: &Tree) -> Result<Asked, AllocError>
    requires cells { AreCellsOf texts.now book.now }
    requires formula { IsFormulaOf texts.now (expr_of tree.now) }
    ensures { IfOk result (IsAnswerOf texts.now) }
{
    let known = finish(alloc, book, texts)?;
    let stage = Stage::over(book, texts, &known);
    Ok(stage.ask(tree, place(9, 9)))
}

// Whether this is the text of what was asked.
fn shows(alloc: Global, texts: &Texts, asked: Asked, want: &str) -> Result<bool, AllocError>
    requires { IsAnswerOf texts.now asked }
{
    match asked {
        Asked::Val(value) => {
            let text = value.show_text(alloc, texts)?;
            Ok(text.as_str() == want)
        }
        Asked::Needs(_) => Ok(want == "needs"),
    }
}

// Whether the formula gives the wanted text, where E1 has this text.
fn gives(
    rt: &impl Abort,
    alloc: Global,
    text: &str,
    spelling: &[u8],
    want: &str,
) -> Result<bool, AllocError> {
    let mut texts = Texts::new(alloc);
    let in_cell = texts.intern(text)?;
    let book = sample(rt, alloc, &texts, in_cell);
    let tree = formula(rt, alloc, spelling);
    assert!(rt; has_no_text(&tree));
    let asked = ask_one(alloc, &book, &texts, &tree)?;
    shows(alloc, &texts, asked, want)
}

#[test]
fn formulas_compute_texts(rt: HostRuntime) -> Result<(), Fail> {
    let mut count = 0;
    for (text, spelling, want) in TEXT_ROWS {
        let holds = gives(&rt, rt.alloc(), text, spelling, want)?;
        assert!(rt; holds, "{spelling:?} with {text} gives {want}");
        count = u32::saturating_add(count, 1);
    }
    assert_eq!(rt; count, 45);
    Ok(())
}
