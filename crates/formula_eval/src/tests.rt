//! Formulas of every kind over a small book, told the cells that they need one at a time.
ghost use Rattle.std.specs.Prelude.{◌≡◌, ◌+◌, ◌≤◌, ◌++◌, ◌∷◌, [], true, length, option_map, option_copied, string_bytes, IfOk};
ghost use Rattle.cell_values.specs.Addresses.{IsOnSheet, same_addr};
ghost use Rattle.cell_values.specs.Order.{entry_at};
ghost use Rattle.cell_values.specs.Texts.{Texts as Bytes, IsTextOf};
ghost use Rattle.cell_values.specs.Values.{IsValueOf};
ghost use Rattle.cell_values.specs.declared.interned.TextId.{TextId};
ghost use Rattle.demand_spec.specs.Listed.{content_of, contents, IsContentOf, IsFormulaOf};
ghost use Rattle.demand_spec.specs.declared.Asked.TheVariants.{Needs};
ghost use Rattle.formula_tokens.specs.Words.{begins_with};
ghost use Rattle.formula_trees.specs.Sound.{IsSound};
ghost use Rattle.shared_expressions.specs.Trees.{tree_at, depth};
ghost use Rattle.formula_eval.specs.Evaluations.{found_as, MeansValue};
ghost use Rattle.formula_eval.specs.Client.{book_of, look_on, Goes};

use crate::{Asked, Frames, Known, Look, ask, begin, resume};
use cell_values::{Addr, Code, SheetNames, ShortText, TextId, Texts, Value};
use demand_spec::Cell;
use formula_grammar::read_formula;
use formula_trees::Tree;
use shared_expressions::{ExprId, Pool};
use std::alloc::{AllocError, Global};
use std::marker::Model;
use std::process::Abort;
use std::test::Fail;

/// A book that is told the values of its formula cells.
#[derive(Drop)]
struct Sheet<'a> {
    cells: Vec<(Addr, Cell)>,
    texts: &'a Texts,
    told: Vec<(Addr, Value)>,
    looks: u64,
}

impl<'a> Model for Sheet<'a> {
    ghost use Rattle.formula_eval.specs.Client.{Sight};

    ghost Value = { Sight };

    ghost use Rattle.std.specs.Coded.{codes};
    ghost use Rattle.formula_trees.specs.ExprCode.{expr_code};

    ghost coded = { Prim.hlevel (codes, expr_code) };

    ghost use Rattle.formula_eval.specs.Client.{IsSight};
    ghost use Rattle.demand_spec.specs.Listed.{contents};

    ghost view = { λ s. record { cells = contents s.cells.items; texts = s.texts.now; told = s.told.items; looks = s.looks } };

    ghost invariant = { λ s. IsSight (record { cells = contents s.cells.items; texts = s.texts.now; told = s.told.items; looks = s.looks }) };
}

impl<'a> Sheet<'a> {
    /// A book without cells.
    fn new(alloc: Global, texts: &'a Texts) -> Sheet<'a>
        ensures { result ≡ record { cells = []; texts = texts.now; told = []; looks = 0 } }
    {
        Sheet {
            cells: Vec::new(alloc),
            texts,
            told: Vec::new(alloc),
            looks: 0,
        }
    }

    /// A cell more.
    #[tactic(auto, using(demand_spec::proofs::Ordered::contents_push, demand_spec::proofs::Small::cells_push))]
    fn put(&mut self, rt: &impl Abort, at: Addr, cell: Cell)
        requires { IsContentOf self.old.texts (content_of cell) }
        ensures { self.new ≡ record { cells = self.old.cells ++ (at, content_of cell) ∷ []; texts = self.old.texts; told = self.old.told; looks = self.old.looks } }
    {
        self.cells.push((at, cell)).expect(rt, "memory");
    }

    /// The value of a formula cell.
    #[tactic(auto, using(crate::proofs::Client::told_push))]
    fn tell(&mut self, rt: &impl Abort, at: Addr, value: Value)
        requires { IsValueOf self.old.texts value }
        ensures { self.new ≡ record { cells = self.old.cells; texts = self.old.texts; told = self.old.told ++ (at, value) ∷ []; looks = self.old.looks } }
    {
        self.told.push((at, value)).expect(rt, "memory");
    }

    /// What is known of a cell.
    #[tactic(auto, using(crate::proofs::Client::seen_text))]
    fn known(&self, at: Addr) -> Look
        ensures found { found_as result at ≡ look_on self.now at }
        ensures texts { MeansValue self.now.texts result }
    {
        let _ = &self.texts;
        self.seen(at)
    }

    /// The same, kind by kind.
    #[tactic(auto, unfolding(demand_spec::specs::Book::formula_at, demand_spec::specs::Book::own))]
    fn seen(&self, at: Addr) -> Look
        ensures { found_as result at ≡ look_on self.now at }
    {
        match find(&self.cells, at) {
            None => Look::Val(Value::Blank),
            Some(Cell::Number(n)) => Look::Val(Value::Number(*n)),
            Some(Cell::Text(t)) => Look::Val(Value::Text(*t)),
            Some(Cell::Bool(b)) => Look::Val(Value::Bool(*b)),
            Some(Cell::Formula(_)) => match told_of(&self.told, at) {
                Some(v) => Look::Val(v),
                None => Look::Missing,
            },
        }
    }

    fn looks(&self) -> u64 {
        self.looks
    }
}

impl<'a> Known for Sheet<'a> {
    ghost use Rattle.cell_values.specs.Order.{entry_at};
    ghost use Rattle.formula_eval.specs.Client.{book_of};

    ghost book = { λ s. book_of s };

    ghost values = { λ s. entry_at s.told };

    ghost looks = { λ s. s.looks };

    fn look(&mut self, at: Addr) -> Look {
        self.looks = self.looks.saturating_add(1);
        self.known(at)
    }
}

fn is_same(a: Addr, b: Addr) -> bool
    ensures { result ≡ same_addr a b }
{
    a.sheet == b.sheet && a.row == b.row && a.col == b.col
}

fn find(cells: &[(Addr, Cell)], at: Addr) -> Option<&Cell>
    ensures { option_map content_of (option_copied result) ≡ entry_at (contents cells.now) at }
{
    match cells {
        [] => None,
        [(address, cell), rest @ ..] => {
            if is_same(at, *address) {
                Some(cell)
            } else {
                find(rest, at)
            }
        }
    }
}

fn told_of(told: &[(Addr, Value)], at: Addr) -> Option<Value>
    ensures { result ≡ entry_at told.now at }
{
    match told {
        [] => None,
        [(address, value), rest @ ..] => {
            if is_same(at, *address) {
                Some(*value)
            } else {
                told_of(rest, at)
            }
        }
    }
}

/// The cell of the formula that is tried.
const HERE: Addr = Addr {
    sheet: 0,
    row: 3,
    col: 1,
};

/// What the formula cells A1 to F1, H1 and A2 to E2 show.
fn value_of(rt: &impl Abort, at: Addr, text: TextId) -> Value
    ensures { (ts : Bytes) → IsTextOf ts text → IsValueOf ts result }
{
    match (at.row, at.col) {
        (1, 1) => Value::Number(2),
        (1, 2) => Value::Bool(true),
        (1, 3) => Value::Error(Code::Ref),
        (1, 4) => Value::Bool(false),
        (1, 5) => Value::Text(text),
        (1, 6) => Value::Number(3),
        (1, 8) => short_value(rt, "héllo"),
        (2, 1) => Value::Number(5),
        (2, 2) => Value::Number(9),
        (2, 3) => Value::Number(1),
        (2, 4) => Value::Number(-1),
        (2, 5) => Value::Number(4),
        _ => panic!(rt; "no formula at {at:?}"),
    }
}

/// A text in a value itself.
fn short_value(rt: &impl Abort, text: &str) -> Value
    ensures { (ts : Bytes) → IsValueOf ts result }
{
    match ShortText::of(text.as_bytes()) {
        Some(text) => Value::Short(text),
        None => panic!(rt; "{text} is too long"),
    }
}

/// A book whose cells A1 to F1, H1 and A2 to E2 have formulas of which nothing is told. F2 holds the number 7.
fn untold_sheet<'a>(rt: &impl Abort, alloc: Global, texts: &'a Texts) -> Sheet<'a>
    ensures { result.texts ≡ texts.now }
{
    let mut sheet = Sheet::new(alloc, texts);
    for place in 0..11_u16 {
        let at = Addr {
            sheet: 0,
            row: 1 + u32::from(place / 6),
            col: 1 + place % 6,
        };
        sheet.put(rt, at, Cell::Formula(Tree::Number(0)));
    }
    let at = Addr {
        sheet: 0,
        row: 2,
        col: 6,
    };
    sheet.put(rt, at, Cell::Number(7));
    let at = Addr {
        sheet: 0,
        row: 1,
        col: 8,
    };
    sheet.put(rt, at, Cell::Formula(Tree::Number(0)));
    sheet
}

/// The name of the one sheet.
fn names(alloc: Global) -> Result<SheetNames, AllocError> {
    let mut files = Vec::new(alloc);
    files.push(String::from_str(alloc, "Sheet1")?)?;
    match SheetNames::new(alloc, &files) {
        Ok(names) => Ok(names),
        Err(_) => Err(AllocError),
    }
}

/// A formula of the table, which begins with `=`.
fn formula(alloc: Global, line: &str) -> Result<String, AllocError>
    ensures { IfOk result (λ text. begins_with 61 (string_bytes text) ≡ true) }
{
    let mut text = String::from_str(alloc, "=")?;
    text.push_str(line.strip_prefix('=').unwrap_or(line))?;
    Ok(text)
}

/// A formula of a cell, as an expression of the pool.
#[tactic(auto, using(crate::proofs::Client::texts_kept))]
fn intern_formula(
    rt: &impl Abort,
    alloc: Global,
    pool: &mut Pool,
    texts: &mut Texts,
    line: &str,
    at: Addr,
) -> ExprId
    requires { IsOnSheet at }
    ensures sound { IsSound at (tree_at pool.new result) }
    ensures meant { IsFormulaOf texts.new (tree_at pool.new result) }
    ensures kept { (t : TextId) → IsTextOf texts.old t → IsTextOf texts.new t }
{
    let text = formula(alloc, line).expect(rt, "memory");
    let names = names(alloc).expect(rt, "memory");
    match read_formula(alloc, &text, at, &names, texts) {
        Ok(tree) => pool.intern(alloc, &tree).expect(rt, "memory"),
        Err(fault) => panic!(rt; "{line}: {fault:?}"),
    }
}

/// The cell that is needed is told, and the evaluation goes on.
fn go_on<'a>(
    rt: &impl Abort,
    frames: &mut Frames,
    pool: &Pool,
    texts: &Texts,
    sheet: &mut Sheet<'a>,
    id: ExprId,
    at: Addr,
    need: Addr,
    value: Value,
) -> Asked
    requires goes { Goes pool.now texts.now sheet.old id at (Needs need) frames.old.frames }
    requires room { depth (tree_at pool.now id) ≤ frames.old.room }
    requires texts { sheet.old.texts ≡ texts.now }
    requires value { IsValueOf texts.now value }
    ensures goes { Goes pool.now texts.now sheet.new id at result frames.new.frames }
    ensures room { frames.new.room ≡ frames.old.room }
    ensures texts { sheet.new.texts ≡ texts.now }
{
    sheet.tell(rt, need, value);
    resume(frames, pool, texts, sheet)
}

/// An expression from the start to its value, told these cells.
fn evaluate<'a>(
    rt: &impl Abort,
    frames: &mut Frames,
    pool: &Pool,
    texts: &Texts,
    sheet: &mut Sheet<'a>,
    id: ExprId,
    at: Addr,
    text: TextId,
    needs: &str,
) -> Asked
    requires empty { frames.old.frames ≡ [] }
    requires room { depth (tree_at pool.now id) ≤ frames.old.room }
    requires sound { IsSound at (tree_at pool.now id) }
    requires meant { IsFormulaOf texts.now (tree_at pool.now id) }
    requires text { IsTextOf texts.now text }
    requires texts { sheet.old.texts ≡ texts.now }
    ensures goes { Goes pool.now texts.now sheet.new id at result frames.new.frames }
    ensures room { frames.new.room ≡ frames.old.room }
    ensures texts { sheet.new.texts ≡ texts.now }
{
    let mut answer = begin(frames, pool, texts, id, at, sheet);
    for word in needs.split(' ') {
        let Asked::Needs(need) = answer else {
            panic!(rt; "{answer:?} before {word}")
        };
        assert_eq!(rt; Addr::read(0, word), Some(need));
        let value = value_of(rt, need, text);
        answer = go_on(rt, frames, pool, texts, sheet, id, at, need, value);
    }
    answer
}

/// The text of a value.
fn show_value(
    rt: &impl Abort,
    alloc: Global,
    texts: &Texts,
    text: TextId,
    value: Value,
) -> Result<String, AllocError>
    requires { IsTextOf texts.now text }
{
    match value {
        Value::Text(t) => {
            assert!(rt; t == text);
            Value::Text(text).show_text(alloc, texts)
        }
        Value::Short(t) => match ShortText::from_padded(u64::from(t.len()), t.padded()) {
            Some(t) => Value::Short(t).show_text(alloc, texts),
            None => panic!(rt; "{t:?} is no text"),
        },
        Value::Number(_) | Value::Bool(_) | Value::Blank | Value::Error(_) => {
            value.show_text(alloc, texts)
        }
    }
}

/// A formula needs these cells in turn, and then has this value. Each is looked at once, and once more where
/// the evaluation goes on.
fn try_formula(
    rt: &impl Abort,
    alloc: Global,
    line: &str,
    needs: &str,
    want: &str,
) -> Result<(), AllocError> {
    let mut texts = Texts::new(alloc);
    let text = texts.intern("x")?;
    let mut pool = Pool::new(alloc);
    let id = intern_formula(rt, alloc, &mut pool, &mut texts, line, HERE);
    let mut sheet = untold_sheet(rt, alloc, &texts);
    let mut frames = Frames::new(alloc, pool.depth(id))?;

    let lacking = ask(&mut frames, &pool, &texts, id, HERE, &mut sheet);
    let (first, _) = needs.split_once(' ').unwrap_or((needs, ""));
    assert_eq!(rt;
        Addr::read(0, first).map(Asked::Needs),
        Some(lacking),
        "at {line}"
    );
    let before = sheet.looks();
    let answer = evaluate(
        rt,
        &mut frames,
        &pool,
        &texts,
        &mut sheet,
        id,
        HERE,
        text,
        needs,
    );
    let Asked::Val(value) = answer else {
        panic!(rt; "{answer:?} at {line}")
    };
    assert_eq!(rt;
        show_value(rt, alloc, &texts, text, value)?.as_str(),
        want,
        "at {line}"
    );
    let halfway = sheet.looks();
    let again = ask(&mut frames, &pool, &texts, id, HERE, &mut sheet);
    assert_eq!(rt; again, answer);
    let in_parts = halfway.saturating_sub(before);
    let at_once = sheet.looks().saturating_sub(halfway);
    let needed = needs.split(' ').count() as u64;
    assert_eq!(rt; in_parts, at_once.saturating_add(needed), "at {line}");
    Ok(())
}

/// Formulas over A1 2, B1 TRUE, C1 `#REF!`, D1 FALSE, E1 x, F1 3, H1 the computed text héllo, A2 5, B2 9, C2 1,
/// D2 -1, E2 4 and F2 7, which is no formula; with the cells that they need in turn, and their values.
const FORMULAS: &str = "
    =-A1 needs A1 gives -2
    =+A1 needs A1 gives 2
    =A2+A1 needs A2 A1 gives 7
    =A2-A1 needs A2 A1 gives 3
    =A2*A1 needs A2 A1 gives 10
    =A2/A1 needs A2 A1 gives 2
    =A2=A1 needs A2 A1 gives FALSE
    =A2<>A1 needs A2 A1 gives TRUE
    =A2<A1 needs A2 A1 gives FALSE
    =A2<=A1 needs A2 A1 gives FALSE
    =A2>A1 needs A2 A1 gives TRUE
    =A2>=A1 needs A2 A1 gives TRUE
    =C1+A2 needs C1 gives #REF!
    =E1*A2 needs E1 A2 gives #VALUE!
    =A1+A1 needs A1 gives 4
    =E1 needs E1 gives x
    =IF(B1,A1,F1) needs B1 A1 gives 2
    =IF(D1,A1,F1) needs D1 F1 gives 3
    =IF(D1,A1) needs D1 gives FALSE
    =IF(C1,A1,F1) needs C1 gives #REF!
    =IF(E1,A1,F1) needs E1 gives #VALUE!
    =IF(B1,\"x\",A1) needs B1 gives x
    =AND(B1,D1,A1) needs B1 D1 gives FALSE
    =AND(B1,A1,C2) needs B1 A1 C2 gives TRUE
    =AND(B1,C1,D1) needs B1 C1 gives #REF!
    =OR(D1,B1,A1) needs D1 B1 gives TRUE
    =OR(D1,G1,A2-A1) needs D1 A2 A1 gives TRUE
    =NOT(A1) needs A1 gives FALSE
    =CHOOSE(A1,F1,A2) needs A1 A2 gives 5
    =CHOOSE(C2,A1,F1) needs C2 A1 gives 2
    =CHOOSE(F1,A1,A2) needs F1 gives #VALUE!
    =IFERROR(C1,A1) needs C1 A1 gives 2
    =IFERROR(A1,C1) needs A1 gives 2
    =ISERROR(C1) needs C1 gives TRUE
    =SUM(A1:B2) needs A1 B1 A2 B2 gives 16
    =SUM(A1+F1,A1:B2,F2) needs A1 F1 B1 A2 B2 gives 28
    =SUM(B1:C2) needs B1 C1 gives #REF!
    =SUM(A1,E1,A2) needs A1 E1 A2 gives 7
    =MIN(D2:E2,A1) needs D2 E2 A1 gives -1
    =MAX(D2:E2,A1) needs D2 E2 A1 gives 4
    =COUNT(A1:E2) needs A1 B1 C1 gives #REF!
    =COUNT(D1:E2,A1+A1) needs D1 E1 D2 E2 A1 gives 3
    =ABS(D2) needs D2 gives 1
    =MOD(A2,A1) needs A2 A1 gives 1
    =QUOTIENT(E1,A1) needs E1 A1 gives #VALUE!
    =INDEX(A1:B2,A1,C2) needs A1 C2 A2 gives 5
    =INDEX(A1:B2,F1,C2) needs F1 C2 gives #REF!
    =MATCH(A2,A1:B2) needs A2 A1 B1 gives 3
    =MATCH(9,A1:B2) needs A1 B1 A2 B2 gives 4
    =MATCH(8,C1:G1) needs C1 D1 E1 F1 gives #N/A
    =VLOOKUP(A2,A1:B2,A1) needs A2 A1 B2 gives 9
    =VLOOKUP(A2,A1:B2,C2,FALSE) needs A2 C2 A1 gives 5
    =VLOOKUP(A2,A1:B2,F1) needs A2 F1 gives #REF!
    =HLOOKUP(B1,A1:B2,A1) needs B1 A1 B2 gives 9
    =HLOOKUP(8,A1:B2,C2) needs C2 A1 B1 gives #N/A
    =IF(B1,SUM(A1:B2,1+F1),C1) needs B1 A1 A2 B2 F1 gives 20
    =IFERROR(1/D1,A1) needs D1 A1 gives 2
    =NOT(AND(B1,OR(D1,A1=2))) needs B1 D1 A1 gives FALSE
    =A1&E1 needs A1 E1 gives 2x
    =E1&C1 needs E1 C1 gives #REF!
    =C1&E1 needs C1 gives #REF!
    =H1&H1 needs H1 gives héllohéllo
    =A1+F1&A2 needs A1 F1 A2 gives 55
    =B1&G1&D2 needs B1 D2 gives TRUE-1
    =LEN(H1&H1&H1&H1&H1&H1&H1&H1) needs H1 gives 40
    =H1&H1&H1&H1&H1&H1&H1&H1&H1 needs H1 gives #VALUE!
    =LEFT(H1,A1) needs H1 A1 gives hé
    =LEFT(H1) needs H1 gives h
    =LEFT(H1,G1)=\"\" needs H1 gives TRUE
    =LEFT(H1,D2) needs H1 D2 gives #VALUE!
    =LEFT(H1,B1) needs H1 B1 gives #VALUE!
    =LEFT(C1,D2) needs C1 gives #REF!
    =LEFT(H1,C1) needs H1 C1 gives #REF!
    =RIGHT(H1,F1) needs H1 F1 gives llo
    =RIGHT(H1) needs H1 gives o
    =RIGHT(H1,B2) needs H1 B2 gives héllo
    =RIGHT(C1) needs C1 gives #REF!
    =MID(H1,A1,F1) needs H1 A1 F1 gives éll
    =MID(H1,E2,B2) needs H1 E2 B2 gives lo
    =MID(H1,B2,C2)=\"\" needs H1 B2 C2 gives TRUE
    =MID(H1,B1,C1) needs H1 B1 C1 gives #REF!
    =MID(H1,E1,F1) needs H1 E1 F1 gives #VALUE!
    =MID(H1,G1,F1) needs H1 F1 gives #VALUE!
    =MID(H1,C1,F1) needs H1 C1 gives #REF!
    =MID(A2*B2,C2,C2) needs A2 B2 C2 gives 4
    =LEN(H1) needs H1 gives 5
    =LEN(B1) needs B1 gives 4
    =LEN(C1) needs C1 gives #REF!
    =LEFT(E1&H1,A1)=\"xh\" needs E1 H1 A1 gives TRUE
    =IF(LEN(H1)=A2,H1,A1) needs H1 A2 gives héllo
    =SUM(H1,A1) needs H1 A1 gives 2
    =MATCH(H1,D1:H1) needs H1 D1 E1 F1 gives 5
    =IFERROR(LEFT(E1&H1,D2),A1) needs E1 H1 D2 A1 gives 2
";

#[test]
fn formulas_go_on_where_they_stopped(rt: HostRuntime) -> Result<(), Fail> {
    let mut ran: usize = 0;
    for line in FORMULAS.lines() {
        let Some((formula, needs)) = line.trim_start().split_once(" needs ") else {
            continue;
        };
        let Some((needs, want)) = needs.split_once(" gives ") else {
            continue;
        };
        try_formula(&rt, rt.alloc(), formula, needs, want)?;
        ran = ran.saturating_add(1);
    }
    assert_eq!(rt; ran, 93);
    Ok(())
}
