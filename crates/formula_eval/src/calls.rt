//! Calls, one value at a time.
ghost use Rattle.std.specs.Prelude.{◌≡◌, ◌<◌, IfSome, Some, length, true};
ghost use Rattle.cell_values.specs.Areas.{IsArea};
ghost use Rattle.cell_values.specs.Values.{IsValueOf, as_number};
ghost use Rattle.builtin_functions.specs.Folds.{taken};
ghost use Rattle.demand_spec.specs.Formula.{is_found};
ghost use Rattle.shared_expressions.specs.Trees.{root_of, tree_at, child_of};
ghost use Rattle.formula_trees.specs.declared.place.Place.TheVariants.{Cells};
ghost use Rattle.formula_trees.specs.Mentions.{HasArea};
ghost use Rattle.formula_eval.specs.declared.work.Work.TheVariants.{Third};
ghost use Rattle.formula_eval.specs.Machine.{first_number, second_number, turn_of, fold_of, place_named, is_lookup, fun_of, index_below, across, second_default, start_number, Holds, IsOperand, range_of, Starts, TurnGoesOn, FoldGoesOn, CellsGoOn, SearchGoesOn, LookupGoesOn, Waits, WaitsOr, Instead};

use crate::cells::{first_cell, line_cell};
use crate::frames::Frames;
use crate::site::{Call, Site};
use crate::work::{Frame, Step, Work};
use builtin_functions::operators::same;
use builtin_functions::{Fold, FoldKind, Go};
use cell_values::{Area, Code, Int, Texts, Value};
use formula_trees::{Fun, Place};
use shared_expressions::{ExprId, Node};

/// Which argument a call demands first.
fn first_number(fun: Fun) -> u32
    ensures { result ≡ first_number fun }
{
    match fun {
        Fun::Index => 1,
        _ => 0,
    }
}

/// Which argument a call of several values demands second.
pub fn second_number(fun: Fun) -> u32
    ensures { result ≡ second_number fun }
{
    match fun {
        Fun::Mod | Fun::Quotient | Fun::Left | Fun::Right | Fun::Mid => 1,
        Fun::If
        | Fun::And
        | Fun::Or
        | Fun::Not
        | Fun::Choose
        | Fun::IfError
        | Fun::IsError
        | Fun::Sum
        | Fun::Min
        | Fun::Max
        | Fun::Count
        | Fun::Abs
        | Fun::Index
        | Fun::Match
        | Fun::VLookup
        | Fun::HLookup
        | Fun::Len => 2,
    }
}

/// The second value of a call where no argument gives one: LEFT and RIGHT take one character.
pub fn second_default(fun: Fun) -> Value
    ensures { result ≡ second_default fun }
{
    match fun {
        Fun::Left | Fun::Right => Value::Number(1),
        Fun::Mid
        | Fun::Len
        | Fun::Mod
        | Fun::Quotient
        | Fun::If
        | Fun::And
        | Fun::Or
        | Fun::Not
        | Fun::Choose
        | Fun::IfError
        | Fun::IsError
        | Fun::Sum
        | Fun::Min
        | Fun::Max
        | Fun::Count
        | Fun::Abs
        | Fun::Index
        | Fun::Match
        | Fun::VLookup
        | Fun::HLookup => Value::Error(Code::Value),
    }
}

/// What MID waits for with its text and its start: of the start only the number counts.
pub fn third_work(text: Value, start: Value) -> Work
    ensures { result ≡ Third text (start_number (as_number start)) }
{
    match start.as_number() {
        Some(n) => Work::Third(text, n),
        None => Work::Third(text, 0),
    }
}

/// The condition with which AND or OR goes on.
pub fn turn_of(fun: Fun) -> Option<bool>
    ensures { result ≡ turn_of fun }
{
    match fun {
        Fun::And => Some(true),
        Fun::Or => Some(false),
        _ => None,
    }
}

/// The fold that a function is.
pub fn fold_of(fun: Fun) -> Option<FoldKind>
    ensures { result ≡ fold_of fun }
{
    match fun {
        Fun::Sum => Some(FoldKind::Sum),
        Fun::Min => Some(FoldKind::Min),
        Fun::Max => Some(FoldKind::Max),
        Fun::Count => Some(FoldKind::Count),
        _ => None,
    }
}

/// Whether a function searches a column or a row.
pub fn is_lookup(fun: Fun) -> bool
    ensures { result ≡ is_lookup fun }
{
    match fun {
        Fun::VLookup | Fun::HLookup => true,
        _ => false,
    }
}

/// A number from 1 to `most`, counted from 0.
pub fn index_below(most: u32, n: Int) -> Option<u32>
    ensures same { result ≡ index_below most n }
    ensures within { IfSome result (λ m. m < most) }
{
    if n < 1 || Int::from(most) < n {
        None
    } else {
        Some((n - 1) as u32)
    }
}

/// A value on in a fold.
pub fn take(
    kind: FoldKind,
    total: Option<Int>,
    in_range: bool,
    v: Value,
) -> Result<Option<Int>, Code>
    ensures { result ≡ taken kind total in_range v }
{
    let mut fold = Fold { kind, total };
    match fold.take(v, in_range) {
        Go::More => Ok(fold.total),
        Go::Stop(code) => Err(code),
    }
}

/// Whether a cell's value is the one that is searched. An error or Blank is passed over.
pub fn is_found(key: Value, v: Value, texts: &Texts) -> bool
    requires key { IsOperand texts.now key }
    requires value { IsValueOf texts.now v }
    ensures { result ≡ is_found texts.now key v }
{
    match v {
        Value::Error(_) | Value::Blank => false,
        Value::Number(_) | Value::Text(_) | Value::Short(_) | Value::Bool(_) => {
            same(v, key, texts)
        }
    }
}

impl<'a> Site<'a> {
    /// A child is evaluated while its parent waits.
    pub fn wait_for(&self, frames: &mut Frames, id: ExprId, k: u32, work: Work) -> Step
        requires { length frames.old.frames < frames.old.room }
        ensures waits { Waits self.now.pool.now id work (child_of k (tree_at self.now.pool.now id)) frames.old.frames result frames.new.frames }
        ensures room { frames.new.room ≡ frames.old.room }
    {
        match self.pool.child(id, k) {
            Some(child) => {
                frames.push(Frame::At(id, work));
                Step::Eval(child)
            }
            None => Step::Give(Value::Error(Code::Value)),
        }
    }

    /// A child is evaluated while its parent waits. Where there is none, the parent has this value in its place.
    pub fn wait_or(&self, frames: &mut Frames, id: ExprId, k: u32, work: Work, other: Value) -> Step
        requires { length frames.old.frames < frames.old.room }
        ensures waits { WaitsOr self.now.pool.now id work other (child_of k (tree_at self.now.pool.now id)) frames.old.frames result frames.new.frames }
        ensures room { frames.new.room ≡ frames.old.room }
    {
        frames.push(Frame::At(id, work));
        match self.pool.child(id, k) {
            Some(child) => Step::Eval(child),
            None => Step::Give(other),
        }
    }

    /// A child in place of its parent.
    pub fn child_instead(&self, id: ExprId, k: u32, other: Value) -> Step
        ensures { Instead self.now.pool.now (child_of k (tree_at self.now.pool.now id)) other result }
    {
        match self.pool.child(id, k) {
            Some(child) => Step::Eval(child),
            None => Step::Give(other),
        }
    }

    /// Where an argument of a call stands.
    pub fn range(&self, id: ExprId, k: u32) -> Place
        ensures same { result ≡ place_named self.now.at (child_of k (tree_at self.now.pool.now id)) }
        ensures within { HasArea result }
    {
        match self.pool.child(id, k) {
            Some(child) => self.place_at(child),
            None => Place::Nowhere,
        }
    }

    /// A call is begun.
    pub fn start_call(&self, frames: &mut Frames, call: Call) -> Step
        requires holds { Holds frames.old.room (length frames.old.frames) (tree_at self.now.pool.now call.id) }
        requires call { root_of (tree_at self.now.pool.now call.id) ≡ Node.Call call.fun }
        ensures starts { Starts self.now.pool.now self.now.texts.now self.now.at call.id frames.old.frames result frames.new.frames }
        ensures room { frames.new.room ≡ frames.old.room }
    {
        match turn_of(call.fun) {
            Some(going) => self.turn_on(frames, call.id, going, 0),
            None => match fold_of(call.fun) {
                Some(kind) => self.fold_on(frames, call.id, kind, 0, None),
                None => self.wait_for(frames, call.id, first_number(call.fun), Work::First),
            },
        }
    }

    /// AND or OR goes on from an argument.
    pub fn turn_on(&self, frames: &mut Frames, id: ExprId, going: bool, k: u16) -> Step
        requires holds { Holds frames.old.room (length frames.old.frames) (tree_at self.now.pool.now id) }
        requires call { turn_of (fun_of (tree_at self.now.pool.now id)) ≡ Some going }
        ensures goes { TurnGoesOn self.now.pool.now self.now.texts.now self.now.at id going k frames.old.frames result frames.new.frames }
        ensures room { frames.new.room ≡ frames.old.room }
    {
        match self.pool.child(id, u32::from(k)) {
            None => Step::Give(Value::Bool(going)),
            Some(child) => {
                frames.push(Frame::At(id, Work::Turn(k + 1)));
                Step::Eval(child)
            }
        }
    }

    /// A fold goes on from an argument.
    pub fn fold_on(
        &self,
        frames: &mut Frames,
        id: ExprId,
        kind: FoldKind,
        k: u16,
        total: Option<Int>,
    ) -> Step
        requires holds { Holds frames.old.room (length frames.old.frames) (tree_at self.now.pool.now id) }
        requires call { fold_of (fun_of (tree_at self.now.pool.now id)) ≡ Some kind }
        ensures goes { FoldGoesOn self.now.pool.now self.now.texts.now self.now.at id kind k total frames.old.frames result frames.new.frames }
        ensures room { frames.new.room ≡ frames.old.room }
    {
        match self.pool.child(id, u32::from(k)) {
            None => Step::Give(Fold { kind, total }.end()),
            Some(child) => match self.place_at(child) {
                Place::Cells(area) => {
                    frames.push(Frame::At(id, Work::Cell(k, 1, total)));
                    Step::Look(first_cell(area))
                }
                Place::Bad => Step::Give(Value::Error(Code::Ref)),
                Place::Nowhere => {
                    frames.push(Frame::At(id, Work::Argument(k + 1, total)));
                    Step::Eval(child)
                }
            },
        }
    }

    /// A fold goes on from a cell of an argument.
    pub fn cells_on(
        &self,
        frames: &mut Frames,
        id: ExprId,
        kind: FoldKind,
        k: u16,
        n: u32,
        total: Option<Int>,
    ) -> Step
        requires holds { Holds frames.old.room (length frames.old.frames) (tree_at self.now.pool.now id) }
        requires call { fold_of (fun_of (tree_at self.now.pool.now id)) ≡ Some kind }
        ensures goes { CellsGoOn self.now.pool.now self.now.texts.now self.now.at id kind k n total frames.old.frames result frames.new.frames }
        ensures room { frames.new.room ≡ frames.old.room }
    {
        match self.pool.child(id, u32::from(k)) {
            None => Step::Give(Fold { kind, total }.end()),
            Some(child) => match self.next_cell(child, n) {
                Some(a) => {
                    frames.push(Frame::At(id, Work::Cell(k, n + 1, total)));
                    Step::Look(a)
                }
                None => self.fold_on(frames, id, kind, k + 1, total),
            },
        }
    }

    /// MATCH goes on from a cell.
    pub fn search_on(&self, frames: &mut Frames, id: ExprId, key: Value, n: u32) -> Step
        requires holds { Holds frames.old.room (length frames.old.frames) (tree_at self.now.pool.now id) }
        requires call { root_of (tree_at self.now.pool.now id) ≡ Node.Call Fun.Match }
        requires key { IsOperand self.now.texts.now key }
        ensures goes { SearchGoesOn self.now.pool.now self.now.texts.now self.now.at id key n frames.old.frames result frames.new.frames }
        ensures room { frames.new.room ≡ frames.old.room }
    {
        match self.pool.child(id, 1) {
            None => Step::Give(Value::Error(Code::Na)),
            Some(child) => match self.next_cell(child, n) {
                Some(a) => {
                    frames.push(Frame::At(id, Work::Search(n + 1, key)));
                    Step::Look(a)
                }
                None => Step::Give(Value::Error(Code::Na)),
            },
        }
    }

    /// A lookup goes on from a cell of its line.
    pub fn lookup_on(
        &self,
        frames: &mut Frames,
        call: Call,
        area: Area,
        key: Value,
        m: u16,
        n: u32,
    ) -> Step
        requires holds { Holds frames.old.room (length frames.old.frames) (tree_at self.now.pool.now call.id) }
        requires call { root_of (tree_at self.now.pool.now call.id) ≡ Node.Call call.fun }
        requires lookup { is_lookup call.fun ≡ true }
        requires range { range_of self.now.at (tree_at self.now.pool.now call.id) ≡ Cells area }
        requires area { IsArea area }
        requires line { m < across call.fun area }
        requires key { IsOperand self.now.texts.now key }
        ensures goes { LookupGoesOn self.now.pool.now self.now.texts.now self.now.at call.id call.fun area key m n frames.old.frames result frames.new.frames }
        ensures room { frames.new.room ≡ frames.old.room }
    {
        match line_cell(call.fun, area, n) {
            Some(a) => {
                frames.push(Frame::At(call.id, Work::Lookup(m, n, key)));
                Step::Look(a)
            }
            None => Step::Give(Value::Error(Code::Na)),
        }
    }
}
