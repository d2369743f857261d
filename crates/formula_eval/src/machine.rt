//! Evaluations over values that are known: begun, taken up again, dropped.
ghost use Rattle.std.specs.Prelude.{◌≡◌, ◌+◌, ◌≤◌, ℕ, List, length, min};
ghost use Rattle.cell_values.specs.declared.address.Addr.{Addr};
ghost use Rattle.cell_values.specs.Texts.{Texts};
ghost use Rattle.formula_trees.specs.Sound.{IsSound};
ghost use Rattle.cell_values.specs.Values.{IsValueOf};
ghost use Rattle.demand_spec.specs.Book.{look, ask};
ghost use Rattle.demand_spec.specs.Formula.{plan};
ghost use Rattle.demand_spec.specs.Plan.{Plan};
ghost use Rattle.shared_expressions.specs.Trees.{tree_at, depth};
ghost use Rattle.formula_eval.specs.declared.work.Frame.{Frame};
ghost use Rattle.formula_eval.specs.Stacks.{IsShut, dropped};
ghost use Rattle.formula_eval.specs.Machine.{Fits, Holds, IsMeant, WorkFits, Starts, GoesOn};
ghost use Rattle.formula_eval.specs.Evaluations.{found_as, MeansValue, Turns, Comes, Answered, Stands, HasOpen, demanded, rest_of};

use crate::frames::Frames;
use crate::site::{Call, Site};
use crate::work::{Frame, Step, Work};
use cell_values::{Addr, Code, Texts, Value};
use demand_spec::{Asked, operator_value, sign_value};
use formula_trees::resolve;
use shared_expressions::{ExprId, Node, Pool};

/// What is known of a cell.
#[derive(Clone, Copy, Debug, PartialEq, Eq)]
pub enum Look {
    Val(Value),
    Missing,
}

/// Known values of formula cells over a book, with a count of the looks.
pub trait Known {
    ghost use Rattle.demand_spec.specs.Book.{Book, Known as Values};

    ghost book: { Self → Book };

    ghost values: { Self → Values };

    ghost looks: { Self → ℕ };

    /// A cell without a formula has its own value, Blank where it is empty. Missing comes exactly for a
    /// formula cell whose value is not known.
    fn look(&mut self, at: Addr) -> Look
        ensures found { found_as result at ≡ look (book self.old) (values self.old) at }
        ensures texts { MeansValue (book self.old).texts result }
        ensures book { book self.new ≡ book self.old }
        ensures values { values self.new ≡ values self.old }
        ensures looks { looks self.new ≡ min (looks self.old + 1) 18446744073709551615 };
}

impl<'a> Site<'a> {
    /// An expression is begun.
    fn start(&self, frames: &mut Frames, id: ExprId) -> Step
        requires { Holds frames.old.room (length frames.old.frames) (tree_at self.now.pool.now id) }
        ensures starts { Starts self.now.pool.now self.now.texts.now self.now.at id frames.old.frames result frames.new.frames }
        ensures room { frames.new.room ≡ frames.old.room }
    {
        match self.pool.node(id) {
            Node::Number(n) => Step::Give(Value::Number(n)),
            Node::Text(t) => Step::Give(Value::Text(t)),
            Node::Bool(b) => Step::Give(Value::Bool(b)),
            Node::Ref(reference) => match resolve(&reference, self.at) {
                Some(a) => Step::Look(a),
                None => Step::Give(Value::Error(Code::Ref)),
            },
            Node::Range(_, _) => Step::Give(Value::Error(Code::Value)),
            Node::RefError => Step::Give(Value::Error(Code::Ref)),
            Node::Unary(_) => self.wait_for(frames, id, 0, Work::First),
            Node::Binary(_) => self.wait_for(frames, id, 0, Work::First),
            Node::Call(fun) => self.start_call(frames, Call { id, fun }),
        }
    }

    /// A node goes on with a value.
    pub fn go_on(&self, frames: &mut Frames, id: ExprId, work: Work, v: Value) -> Step
        requires holds { Holds frames.old.room (length frames.old.frames) (tree_at self.now.pool.now id) }
        requires work { WorkFits self.now.texts.now self.now.at (tree_at self.now.pool.now id) work }
        requires value { IsValueOf self.now.texts.now v }
        ensures goes { GoesOn self.now.pool.now self.now.texts.now self.now.at id work v frames.old.frames result frames.new.frames }
        ensures room { frames.new.room ≡ frames.old.room }
    {
        match (self.pool.node(id), work) {
            (Node::Unary(sign), Work::First) => Step::Give(sign_value(sign, v)),
            (Node::Binary(_), Work::First) => match v.is_error() {
                true => Step::Give(v),
                false => self.wait_for(frames, id, 1, Work::Second(v)),
            },
            (Node::Binary(op), Work::Second(x)) => Step::Give(operator_value(op, x, v, self.texts)),
            (Node::Call(fun), _) => self.call_on(frames, Call { id, fun }, work, v),
            _ => Step::Give(Value::Error(Code::Value)),
        }
    }

    /// One turn of the machine.
    fn turn<K: Known>(&self, frames: &mut Frames, step: Step, known: &mut K) -> Result<Step, Asked>
        requires fits { Fits self.now.pool.now self.now.texts.now self.now.at frames.old.room step frames.old.frames }
        requires texts { self.now.texts.now ≡ (K.book known.old).texts }
        ensures turns { Turns self.now.pool.now self.now.texts.now self.now.at (look (K.book known.old) (K.values known.old)) step frames.old.frames result frames.new.frames (K.looks known.old) (K.looks known.new) }
        ensures room { frames.new.room ≡ frames.old.room }
        ensures book { K.book known.new ≡ K.book known.old }
        ensures values { K.values known.new ≡ K.values known.old }
    {
        match step {
            Step::Eval(id) => Ok(self.start(frames, id)),
            Step::Give(v) => match frames.pop() {
                None => Err(Asked::Val(v)),
                Some((id, work)) => self.take_value(frames, id, work, v, known),
            },
            Step::Look(a) => match known.look(a) {
                Look::Val(v) => Ok(Step::Give(v)),
                Look::Missing => {
                    frames.push(Frame::Opened(self.at, a));
                    Err(Asked::Needs(a))
                }
            },
        }
    }

    /// The machine, from a step on.
    fn run<K: Known>(&self, frames: &mut Frames, first: Step, known: &mut K) -> Asked
        requires fits { Fits self.now.pool.now self.now.texts.now self.now.at frames.old.room first frames.old.frames }
        requires texts { self.now.texts.now ≡ (K.book known.old).texts }
        ensures comes { Comes self.now.pool.now self.now.texts.now self.now.at (look (K.book known.old) (K.values known.old)) first frames.old.frames result frames.new.frames (K.looks known.old) (K.looks known.new) }
        ensures room { frames.new.room ≡ frames.old.room }
        ensures book { K.book known.new ≡ K.book known.old }
        ensures values { K.values known.new ≡ K.values known.old }
    {
        let mut step = first;
        loop {
            match self.turn(frames, step, known) {
                Ok(next) => step = next,
                Err(answer) => return answer,
            }
        }
    }
}

/// Opens the evaluation of an expression at a cell. Where it needs a cell, it stays open above those that
/// were open before. `Needs(x)` comes exactly where x is the first formula cell that is demanded and whose
/// value is not known.
pub fn begin<K: Known>(
    frames: &mut Frames,
    pool: &Pool,
    texts: &Texts,
    id: ExprId,
    at: Addr,
    known: &mut K,
) -> Asked
    requires shut { IsShut frames.old.frames }
    requires room { length frames.old.frames + depth (tree_at pool.now id) ≤ frames.old.room }
    requires sound { IsSound at (tree_at pool.now id) }
    requires meant { IsMeant texts.now (tree_at pool.now id) }
    requires texts { texts.now ≡ (K.book known.old).texts }
    ensures answer { result ≡ ask (K.book known.old) (K.values known.old) at (tree_at pool.now id) }
    ensures open { Answered pool.now texts.now (look (K.book known.old) (K.values known.old)) (length frames.old.frames + depth (tree_at pool.now id)) at (plan texts.now at (tree_at pool.now id)) frames.old.frames result frames.new.frames }
    ensures looks { K.looks known.new ≤ K.looks known.old + length (demanded (look (K.book known.old) (K.values known.old)) (plan texts.now at (tree_at pool.now id))) }
    ensures room { frames.new.room ≡ frames.old.room }
    ensures book { K.book known.new ≡ K.book known.old }
    ensures values { K.values known.new ≡ K.values known.old }
{
    let site = Site { pool, texts, at };
    site.run(frames, Step::Eval(id), known)
}

/// Goes on with the last open evaluation at the cell that it needs. What was known at its earlier calls is
/// known still.
pub fn resume<K: Known>(frames: &mut Frames, pool: &Pool, texts: &Texts, known: &mut K) -> Asked
    requires open { HasOpen pool.now texts.now frames.old.room frames.old.frames }
    requires texts { texts.now ≡ (K.book known.old).texts }
    ensures open { (limit : ℕ) (at : Addr) (q : Plan) (x : Addr) (base : List Frame) → Stands pool.now texts.now (look (K.book known.old) (K.values known.old)) limit at q x frames.old.frames base → Answered pool.now texts.now (look (K.book known.old) (K.values known.old)) limit at q base result frames.new.frames }
    ensures looks { K.looks known.new ≤ K.looks known.old + length (demanded (look (K.book known.old) (K.values known.old)) (rest_of pool.now texts.now frames.old.frames)) }
    ensures room { frames.new.room ≡ frames.old.room }
    ensures book { K.book known.new ≡ K.book known.old }
    ensures values { K.values known.new ≡ K.values known.old }
{
    match frames.reopen() {
        None => Asked::Val(Value::Blank),
        Some((at, need)) => {
            let site = Site { pool, texts, at };
            site.run(frames, Step::Look(need), known)
        }
    }
}

/// Drops the last open evaluation.
pub fn abandon(frames: &mut Frames)
    ensures dropped { frames.new.frames ≡ dropped frames.old.frames }
    ensures room { frames.new.room ≡ frames.old.room }
{
    let _mark = frames.reopen();
    while let Some(_frame) = frames.pop() {}
}

/// What an expression gives at a cell, over the values that are known. The open evaluations stay.
pub fn ask<K: Known>(
    frames: &mut Frames,
    pool: &Pool,
    texts: &Texts,
    id: ExprId,
    at: Addr,
    known: &mut K,
) -> Asked
    requires shut { IsShut frames.old.frames }
    requires room { length frames.old.frames + depth (tree_at pool.now id) ≤ frames.old.room }
    requires sound { IsSound at (tree_at pool.now id) }
    requires meant { IsMeant texts.now (tree_at pool.now id) }
    requires texts { texts.now ≡ (K.book known.old).texts }
    ensures answer { result ≡ ask (K.book known.old) (K.values known.old) at (tree_at pool.now id) }
    ensures frames { frames.new ≡ frames.old }
    ensures looks { K.looks known.new ≤ K.looks known.old + length (demanded (look (K.book known.old) (K.values known.old)) (plan texts.now at (tree_at pool.now id))) }
    ensures book { K.book known.new ≡ K.book known.old }
    ensures values { K.values known.new ≡ K.values known.old }
{
    let answer = begin(frames, pool, texts, id, at, known);
    if let Asked::Needs(_) = answer {
        abandon(frames);
    }
    answer
}
