//! What calls do with the values that they wait for.
ghost use Rattle.std.specs.Prelude.{◌≡◌, ◌<◌, ◌+◌, Some, List, length, true};
ghost use Rattle.cell_values.specs.Values.{IsValueOf};
ghost use Rattle.shared_expressions.specs.Trees.{root_of, tree_at, child_of};
ghost use Rattle.formula_eval.specs.declared.work.Frame.{Frame};
ghost use Rattle.formula_eval.specs.declared.work.Work.TheVariants.{First, Second, Third, Turn, Argument, Cell, Search, Lookup};
ghost use Rattle.formula_eval.specs.Machine.{place_named, index_in, is_lookup, fun_of, range_of, HasLine, Holds, IsOperand, WorkFits, GoesOn, Does};

use crate::calls::{
    fold_of, index_below, is_found, is_lookup, second_default, second_number, take, third_work,
    turn_of,
};
use crate::cells::{across, target};
use crate::frames::Frames;
use crate::site::{Call, Site};
use crate::text_values::{left_or_error, length_or_error, mid_or_error, right_or_error};
use crate::work::{Step, Work};
use builtin_functions::operators::{binary, condition, unary};
use builtin_functions::{Op2, Sign2};
use cell_values::{Code, Int, Value};
use formula_trees::{Fun, MAX_NODES, Place};
use shared_expressions::{ExprId, Node};

/// A formula has at most `MAX_NODES` nodes, and the call is one, so CHOOSE has at most so many choices.
const MOST_CHOICES: u32 = MAX_NODES as u32 - 1;

impl<'a> Site<'a> {
    /// A call goes on with a value.
    pub fn call_on(&self, frames: &mut Frames, call: Call, work: Work, v: Value) -> Step
        requires holds { Holds frames.old.room (length frames.old.frames) (tree_at self.now.pool.now call.id) }
        requires call { root_of (tree_at self.now.pool.now call.id) ≡ Node.Call call.fun }
        requires work { WorkFits self.now.texts.now self.now.at (tree_at self.now.pool.now call.id) work }
        requires value { IsValueOf self.now.texts.now v }
        ensures goes { GoesOn self.now.pool.now self.now.texts.now self.now.at call.id work v frames.old.frames result frames.new.frames }
        ensures room { frames.new.room ≡ frames.old.room }
    {
        match work {
            Work::First => self.first_on(frames, call, v),
            Work::Second(x) => self.second_on(frames, call, x, v),
            Work::Third(x, start) => self.third_on(call, x, start, v),
            Work::Turn(k) => self.take_turn(frames, call, k, v),
            Work::Argument(k, total) => self.take_argument(frames, call, k, total, v),
            Work::Cell(k, n, total) => self.take_cell(frames, call, k, n, total, v),
            Work::Search(n, key) => self.take_match_cell(frames, call, n, key, v),
            Work::Lookup(m, n, key) => self.take_lookup_cell(frames, call, m, n, key, v),
        }
    }

    /// A call has the first value that it demands.
    fn first_on(&self, frames: &mut Frames, call: Call, v: Value) -> Step
        requires holds { Holds frames.old.room (length frames.old.frames) (tree_at self.now.pool.now call.id) }
        requires call { root_of (tree_at self.now.pool.now call.id) ≡ Node.Call call.fun }
        requires value { IsValueOf self.now.texts.now v }
        ensures goes { GoesOn self.now.pool.now self.now.texts.now self.now.at call.id First v frames.old.frames result frames.new.frames }
        ensures room { frames.new.room ≡ frames.old.room }
    {
        match call.fun {
            Fun::If => match condition(v) {
                Err(e) => Step::Give(Value::Error(e)),
                Ok(true) => self.child_instead(call.id, 1, Value::Error(Code::Value)),
                Ok(false) => self.child_instead(call.id, 2, Value::Bool(false)),
            },
            Fun::Not => match condition(v) {
                Err(e) => Step::Give(Value::Error(e)),
                Ok(b) => Step::Give(Value::Bool(!b)),
            },
            Fun::Choose => self.choose_on(frames, call, v),
            Fun::IfError => match v.is_error() {
                true => self.child_instead(call.id, 1, Value::Error(Code::Value)),
                false => Step::Give(v),
            },
            Fun::IsError => Step::Give(Value::Bool(v.is_error())),
            Fun::Abs => Step::Give(unary(Sign2::Abs, v)),
            Fun::Len => Step::Give(length_or_error(v, self.texts)),
            Fun::Match => match v.is_error() {
                true => Step::Give(v),
                false => self.match_on(frames, call, v),
            },
            _ => match v.is_error() {
                true => Step::Give(v),
                false => self.wait_or(
                    frames,
                    call.id,
                    second_number(call.fun),
                    Work::Second(v),
                    second_default(call.fun),
                ),
            },
        }
    }

    /// CHOOSE has its index.
    fn choose_on(&self, frames: &mut Frames, call: Call, v: Value) -> Step
        requires holds { Holds frames.old.room (length frames.old.frames) (tree_at self.now.pool.now call.id) }
        requires call { root_of (tree_at self.now.pool.now call.id) ≡ Node.Call call.fun }
        requires choose { call.fun ≡ Fun.Choose }
        requires value { IsValueOf self.now.texts.now v }
        ensures goes { GoesOn self.now.pool.now self.now.texts.now self.now.at call.id First v frames.old.frames result frames.new.frames }
        ensures room { frames.new.room ≡ frames.old.room }
    {
        if v.is_error() {
            return Step::Give(v);
        }
        match v.as_number() {
            None => Step::Give(Value::Error(Code::Value)),
            Some(n) => match index_below(MOST_CHOICES, n) {
                None => Step::Give(Value::Error(Code::Value)),
                Some(m) => self.child_instead(call.id, m + 1, Value::Error(Code::Value)),
            },
        }
    }

    /// MATCH has its key.
    fn match_on(&self, frames: &mut Frames, call: Call, v: Value) -> Step
        requires holds { Holds frames.old.room (length frames.old.frames) (tree_at self.now.pool.now call.id) }
        requires call { root_of (tree_at self.now.pool.now call.id) ≡ Node.Call call.fun }
        requires found { call.fun ≡ Fun.Match }
        requires key { IsOperand self.now.texts.now v }
        ensures goes { GoesOn self.now.pool.now self.now.texts.now self.now.at call.id First v frames.old.frames result frames.new.frames }
        ensures room { frames.new.room ≡ frames.old.room }
    {
        match self.range(call.id, 1) {
            Place::Cells(_) => self.search_on(frames, call.id, v, 0),
            _ => Step::Give(Value::Error(Code::Ref)),
        }
    }

    /// A call has the second value that it demands.
    fn second_on(&self, frames: &mut Frames, call: Call, x: Value, v: Value) -> Step
        requires holds { Holds frames.old.room (length frames.old.frames) (tree_at self.now.pool.now call.id) }
        requires call { root_of (tree_at self.now.pool.now call.id) ≡ Node.Call call.fun }
        requires first { IsOperand self.now.texts.now x }
        requires value { IsValueOf self.now.texts.now v }
        ensures goes { GoesOn self.now.pool.now self.now.texts.now self.now.at call.id (Second x) v frames.old.frames result frames.new.frames }
        ensures room { frames.new.room ≡ frames.old.room }
    {
        match call.fun {
            Fun::Mod => Step::Give(binary(Op2::Mod, x, v, self.texts)),
            Fun::Quotient => Step::Give(binary(Op2::Quotient, x, v, self.texts)),
            Fun::Left => Step::Give(left_or_error(x, v, self.texts)),
            Fun::Right => Step::Give(right_or_error(x, v, self.texts)),
            Fun::Mid => self.start_on(frames, call, x, v),
            Fun::Index => match v.is_error() {
                true => Step::Give(v),
                false => self.index_on(call.id, x, v),
            },
            Fun::VLookup | Fun::HLookup => match v.is_error() {
                true => Step::Give(v),
                false => self.line_on(frames, call, x, v),
            },
            _ => Step::Give(Value::Error(Code::Value)),
        }
    }

    /// MID has its text and its start.
    fn start_on(&self, frames: &mut Frames, call: Call, x: Value, v: Value) -> Step
        requires holds { Holds frames.old.room (length frames.old.frames) (tree_at self.now.pool.now call.id) }
        requires call { root_of (tree_at self.now.pool.now call.id) ≡ Node.Call call.fun }
        requires mid { call.fun ≡ Fun.Mid }
        requires first { IsOperand self.now.texts.now x }
        requires value { IsValueOf self.now.texts.now v }
        ensures goes { GoesOn self.now.pool.now self.now.texts.now self.now.at call.id (Second x) v frames.old.frames result frames.new.frames }
        ensures room { frames.new.room ≡ frames.old.room }
    {
        match v.is_error() {
            true => Step::Give(v),
            false => self.wait_or(
                frames,
                call.id,
                2,
                third_work(x, v),
                Value::Error(Code::Value),
            ),
        }
    }

    /// A call has the third value that it demands.
    fn third_on(&self, call: Call, x: Value, start: Int, v: Value) -> Step
        requires call { root_of (tree_at self.now.pool.now call.id) ≡ Node.Call call.fun }
        requires first { IsOperand self.now.texts.now x }
        requires value { IsValueOf self.now.texts.now v }
        ensures { (frames : List Frame) → GoesOn self.now.pool.now self.now.texts.now self.now.at call.id (Third x start) v frames result frames }
    {
        match call.fun {
            Fun::Mid => Step::Give(mid_or_error(x, start, v, self.texts)),
            _ => Step::Give(Value::Error(Code::Value)),
        }
    }

    /// INDEX has its row and its column.
    fn index_on(&self, id: ExprId, row: Value, column: Value) -> Step
        ensures { Does (index_in row column (place_named self.now.at (child_of 0 (tree_at self.now.pool.now id)))) result }
    {
        let (Some(i), Some(j)) = (row.as_number(), column.as_number()) else {
            return Step::Give(Value::Error(Code::Value));
        };
        match self.range(id, 0) {
            Place::Cells(area) => match (
                index_below(area.rows(), i),
                index_below(area.columns(), j),
            ) {
                (Some(m), Some(n)) => Step::Look(area.cell(m, n)),
                _ => Step::Give(Value::Error(Code::Ref)),
            },
            _ => Step::Give(Value::Error(Code::Ref)),
        }
    }

    /// A lookup has its column or row.
    fn line_on(&self, frames: &mut Frames, call: Call, x: Value, v: Value) -> Step
        requires holds { Holds frames.old.room (length frames.old.frames) (tree_at self.now.pool.now call.id) }
        requires call { root_of (tree_at self.now.pool.now call.id) ≡ Node.Call call.fun }
        requires lookup { is_lookup call.fun ≡ true }
        requires key { IsOperand self.now.texts.now x }
        requires line { IsOperand self.now.texts.now v }
        ensures goes { GoesOn self.now.pool.now self.now.texts.now self.now.at call.id (Second x) v frames.old.frames result frames.new.frames }
        ensures room { frames.new.room ≡ frames.old.room }
    {
        let Some(j) = v.as_number() else {
            return Step::Give(Value::Error(Code::Value));
        };
        match self.range(call.id, 1) {
            Place::Cells(area) => match index_below(across(call.fun, area), j) {
                Some(m) => self.lookup_on(frames, call, area, x, m as u16, 0),
                None => Step::Give(Value::Error(Code::Ref)),
            },
            _ => Step::Give(Value::Error(Code::Ref)),
        }
    }

    /// AND or OR has an argument's value.
    fn take_turn(&self, frames: &mut Frames, call: Call, k: u16, v: Value) -> Step
        requires holds { Holds frames.old.room (length frames.old.frames) (tree_at self.now.pool.now call.id) }
        requires call { root_of (tree_at self.now.pool.now call.id) ≡ Node.Call call.fun }
        requires value { IsValueOf self.now.texts.now v }
        ensures goes { GoesOn self.now.pool.now self.now.texts.now self.now.at call.id (Turn k) v frames.old.frames result frames.new.frames }
        ensures room { frames.new.room ≡ frames.old.room }
    {
        match turn_of(call.fun) {
            None => Step::Give(Value::Error(Code::Value)),
            Some(going) => match condition(v) {
                Err(e) => Step::Give(Value::Error(e)),
                Ok(b) => {
                    if b == going {
                        self.turn_on(frames, call.id, going, k)
                    } else {
                        Step::Give(Value::Bool(b))
                    }
                }
            },
        }
    }

    /// A fold has an argument's value.
    fn take_argument(
        &self,
        frames: &mut Frames,
        call: Call,
        k: u16,
        total: Option<Int>,
        v: Value,
    ) -> Step
        requires holds { Holds frames.old.room (length frames.old.frames) (tree_at self.now.pool.now call.id) }
        requires call { root_of (tree_at self.now.pool.now call.id) ≡ Node.Call call.fun }
        requires value { IsValueOf self.now.texts.now v }
        ensures goes { GoesOn self.now.pool.now self.now.texts.now self.now.at call.id (Argument k total) v frames.old.frames result frames.new.frames }
        ensures room { frames.new.room ≡ frames.old.room }
    {
        match fold_of(call.fun) {
            None => Step::Give(Value::Error(Code::Value)),
            Some(kind) => match take(kind, total, false, v) {
                Err(e) => Step::Give(Value::Error(e)),
                Ok(taken) => self.fold_on(frames, call.id, kind, k, taken),
            },
        }
    }

    /// A fold has a cell's value.
    fn take_cell(
        &self,
        frames: &mut Frames,
        call: Call,
        k: u16,
        n: u32,
        total: Option<Int>,
        v: Value,
    ) -> Step
        requires holds { Holds frames.old.room (length frames.old.frames) (tree_at self.now.pool.now call.id) }
        requires call { root_of (tree_at self.now.pool.now call.id) ≡ Node.Call call.fun }
        requires value { IsValueOf self.now.texts.now v }
        ensures goes { GoesOn self.now.pool.now self.now.texts.now self.now.at call.id (Cell k n total) v frames.old.frames result frames.new.frames }
        ensures room { frames.new.room ≡ frames.old.room }
    {
        match fold_of(call.fun) {
            None => Step::Give(Value::Error(Code::Value)),
            Some(kind) => match take(kind, total, true, v) {
                Err(e) => Step::Give(Value::Error(e)),
                Ok(taken) => self.cells_on(frames, call.id, kind, k, n, taken),
            },
        }
    }

    /// MATCH has a cell's value.
    fn take_match_cell(&self, frames: &mut Frames, call: Call, n: u32, key: Value, v: Value) -> Step
        requires holds { Holds frames.old.room (length frames.old.frames) (tree_at self.now.pool.now call.id) }
        requires call { root_of (tree_at self.now.pool.now call.id) ≡ Node.Call call.fun }
        requires key { IsOperand self.now.texts.now key }
        requires value { IsValueOf self.now.texts.now v }
        ensures goes { GoesOn self.now.pool.now self.now.texts.now self.now.at call.id (Search n key) v frames.old.frames result frames.new.frames }
        ensures room { frames.new.room ≡ frames.old.room }
    {
        match call.fun {
            Fun::Match => {
                if is_found(key, v, self.texts) {
                    Step::Give(Value::Number(Int::from(n)))
                } else {
                    self.search_on(frames, call.id, key, n)
                }
            }
            _ => Step::Give(Value::Error(Code::Value)),
        }
    }

    /// A lookup has the value of a cell of its line.
    fn take_lookup_cell(
        &self,
        frames: &mut Frames,
        call: Call,
        m: u16,
        n: u32,
        key: Value,
        v: Value,
    ) -> Step
        requires holds { Holds frames.old.room (length frames.old.frames) (tree_at self.now.pool.now call.id) }
        requires call { root_of (tree_at self.now.pool.now call.id) ≡ Node.Call call.fun }
        requires key { IsOperand self.now.texts.now key }
        requires line { HasLine (fun_of (tree_at self.now.pool.now call.id)) m n (range_of self.now.at (tree_at self.now.pool.now call.id)) }
        requires value { IsValueOf self.now.texts.now v }
        ensures goes { GoesOn self.now.pool.now self.now.texts.now self.now.at call.id (Lookup m n key) v frames.old.frames result frames.new.frames }
        ensures room { frames.new.room ≡ frames.old.room }
    {
        match self.range(call.id, 1) {
            Place::Cells(area) => {
                if is_lookup(call.fun) {
                    if is_found(key, v, self.texts) {
                        Step::Look(target(call.fun, area, u32::from(m), n))
                    } else {
                        self.lookup_on(frames, call, area, key, m, n + 1)
                    }
                } else {
                    Step::Give(Value::Error(Code::Value))
                }
            }
            _ => Step::Give(Value::Error(Code::Value)),
        }
    }
}
