//! Folds and searches over the cells of a range, in place: the same turns, with no frame between two cells.
ghost use Rattle.std.specs.Prelude.{◌≡◌, ◌∷◌};
ghost use Rattle.demand_spec.specs.Book.{look};
ghost use Rattle.shared_expressions.specs.Trees.{root_of, tree_at};
ghost use Rattle.formula_eval.specs.declared.work.Work.TheVariants.{Cell, Search, Lookup};
ghost use Rattle.formula_eval.specs.declared.work.Frame.TheVariants.{At};
ghost use Rattle.formula_eval.specs.declared.work.Step.{Step};
ghost use Rattle.formula_eval.specs.Machine.{Fits, IsFoldWalk, IsSearchWalk, IsLookupWalk, IsWalkOf};
ghost use Rattle.formula_eval.specs.Evaluations.{Turns};

use crate::calls::{fold_of, is_found, is_lookup, take};
use crate::cells::line_cell;
use crate::frames::Frames;
use crate::machine::{Known, Look};
use crate::site::{Call, FoldWalk, LookupWalk, SearchWalk, Site, Walk};
use crate::work::{Frame, Step, Work};
use cell_values::{Int, Value};
use demand_spec::Asked;
use formula_trees::{Fun, Place};
use shared_expressions::{ExprId, Node};

impl<'a> Site<'a> {
    /// A node goes on with a value. A fold or a search goes on as far as the values of its cells are known.
    pub fn take_value<K: Known>(
        &self,
        frames: &mut Frames,
        id: ExprId,
        work: Work,
        v: Value,
        known: &mut K,
    ) -> Result<Step, Asked>
        requires fits { Fits self.now.pool.now self.now.texts.now self.now.at frames.old.room (Step.Give v) (At id work ∷ frames.old.frames) }
        requires texts { self.now.texts.now ≡ (K.book known.old).texts }
        ensures turns { Turns self.now.pool.now self.now.texts.now self.now.at (look (K.book known.old) (K.values known.old)) (Step.Give v) (At id work ∷ frames.old.frames) result frames.new.frames (K.looks known.old) (K.looks known.new) }
        ensures room { frames.new.room ≡ frames.old.room }
        ensures book { K.book known.new ≡ K.book known.old }
        ensures values { K.values known.new ≡ K.values known.old }
    {
        match self.walk_of(id, work) {
            None => Ok(self.go_on(frames, id, work, v)),
            Some(Walk::Fold(on)) => self.walk_fold(frames, on, v, known),
            Some(Walk::Search(on)) => self.walk_search(frames, on, v, known),
            Some(Walk::Lookup(on)) => self.walk_lookup(frames, on, v, known),
        }
    }

    /// The walk that a node is on.
    fn walk_of(&self, id: ExprId, work: Work) -> Option<Walk>
        ensures { IsWalkOf self.now.pool.now self.now.at id work result }
    {
        match work {
            Work::Cell(k, n, total) => self.fold_walk(id, k, n, total),
            Work::Search(n, key) => self.search_walk(id, n, key),
            Work::Lookup(m, n, key) => self.lookup_walk(id, m, n, key),
            Work::First
            | Work::Second(_)
            | Work::Third(_, _)
            | Work::Turn(_)
            | Work::Argument(_, _) => None,
        }
    }

    fn fold_walk(&self, id: ExprId, k: u16, n: u32, total: Option<Int>) -> Option<Walk>
        ensures { IsWalkOf self.now.pool.now self.now.at id (Cell k n total) result }
    {
        let Node::Call(fun) = self.pool.node(id) else {
            return None;
        };
        let (Some(kind), Some(child)) = (fold_of(fun), self.pool.child(id, u32::from(k))) else {
            return None;
        };
        match self.place_at(child) {
            Place::Cells(area) => Some(Walk::Fold(FoldWalk {
                id,
                kind,
                k,
                child,
                area,
                n,
                total,
            })),
            _ => None,
        }
    }

    fn search_walk(&self, id: ExprId, n: u32, key: Value) -> Option<Walk>
        ensures { IsWalkOf self.now.pool.now self.now.at id (Search n key) result }
    {
        let (Node::Call(Fun::Match), Some(child)) = (self.pool.node(id), self.pool.child(id, 1))
        else {
            return None;
        };
        match self.place_at(child) {
            Place::Cells(area) => Some(Walk::Search(SearchWalk {
                id,
                child,
                area,
                n,
                key,
            })),
            _ => None,
        }
    }

    fn lookup_walk(&self, id: ExprId, m: u16, n: u32, key: Value) -> Option<Walk>
        ensures { IsWalkOf self.now.pool.now self.now.at id (Lookup m n key) result }
    {
        let Node::Call(fun) = self.pool.node(id) else {
            return None;
        };
        match self.range(id, 1) {
            Place::Cells(area) => {
                if is_lookup(fun) {
                    let call = Call { id, fun };
                    Some(Walk::Lookup(LookupWalk {
                        call,
                        area,
                        m,
                        n,
                        key,
                    }))
                } else {
                    None
                }
            }
            _ => None,
        }
    }

    /// A fold goes on with a cell's value, and with those of the cells behind it.
    fn walk_fold<K: Known>(
        &self,
        frames: &mut Frames,
        on: FoldWalk,
        first: Value,
        known: &mut K,
    ) -> Result<Step, Asked>
        requires walk { IsFoldWalk self.now.pool.now self.now.at on }
        requires fits { Fits self.now.pool.now self.now.texts.now self.now.at frames.old.room (Step.Give first) (At on.id (Cell on.k on.n on.total) ∷ frames.old.frames) }
        requires texts { self.now.texts.now ≡ (K.book known.old).texts }
        ensures turns { Turns self.now.pool.now self.now.texts.now self.now.at (look (K.book known.old) (K.values known.old)) (Step.Give first) (At on.id (Cell on.k on.n on.total) ∷ frames.old.frames) result frames.new.frames (K.looks known.old) (K.looks known.new) }
        ensures room { frames.new.room ≡ frames.old.room }
        ensures book { K.book known.new ≡ K.book known.old }
        ensures values { K.values known.new ≡ K.values known.old }
    {
        let size = on.area.size();
        let mut n = on.n;
        let mut total = on.total;
        let mut v = first;
        loop {
            match take(on.kind, total, true, v) {
                Err(e) => return Ok(Step::Give(Value::Error(e))),
                Ok(taken) => {
                    if size <= n {
                        return Ok(self.fold_on(frames, on.id, on.kind, on.k + 1, taken));
                    }
                    let a = on.area.nth(n);
                    match known.look(a) {
                        Look::Val(next) => {
                            n = n + 1;
                            total = taken;
                            v = next;
                        }
                        Look::Missing => {
                            frames.push(Frame::At(on.id, Work::Cell(on.k, n + 1, taken)));
                            frames.push(Frame::Opened(self.at, a));
                            return Err(Asked::Needs(a));
                        }
                    }
                }
            }
        }
    }

    /// MATCH goes on with a cell's value, and with those of the cells behind it.
    fn walk_search<K: Known>(
        &self,
        frames: &mut Frames,
        on: SearchWalk,
        first: Value,
        known: &mut K,
    ) -> Result<Step, Asked>
        requires walk { IsSearchWalk self.now.pool.now self.now.at on }
        requires fits { Fits self.now.pool.now self.now.texts.now self.now.at frames.old.room (Step.Give first) (At on.id (Search on.n on.key) ∷ frames.old.frames) }
        requires texts { self.now.texts.now ≡ (K.book known.old).texts }
        ensures turns { Turns self.now.pool.now self.now.texts.now self.now.at (look (K.book known.old) (K.values known.old)) (Step.Give first) (At on.id (Search on.n on.key) ∷ frames.old.frames) result frames.new.frames (K.looks known.old) (K.looks known.new) }
        ensures room { frames.new.room ≡ frames.old.room }
        ensures book { K.book known.new ≡ K.book known.old }
        ensures values { K.values known.new ≡ K.values known.old }
    {
        let size = on.area.size();
        let mut n = on.n;
        let mut v = first;
        loop {
            if size <= n || is_found(on.key, v, self.texts) {
                return Ok(self.go_on(frames, on.id, Work::Search(n, on.key), v));
            }
            let a = on.area.nth(n);
            match known.look(a) {
                Look::Val(next) => {
                    n = n + 1;
                    v = next;
                }
                Look::Missing => {
                    frames.push(Frame::At(on.id, Work::Search(n + 1, on.key)));
                    frames.push(Frame::Opened(self.at, a));
                    return Err(Asked::Needs(a));
                }
            }
        }
    }

    /// A lookup goes on with the value of a cell of its line, and with those of the cells behind it.
    fn walk_lookup<K: Known>(
        &self,
        frames: &mut Frames,
        on: LookupWalk,
        first: Value,
        known: &mut K,
    ) -> Result<Step, Asked>
        requires walk { IsLookupWalk self.now.pool.now self.now.at on }
        requires fits { Fits self.now.pool.now self.now.texts.now self.now.at frames.old.room (Step.Give first) (At on.call.id (Lookup on.m on.n on.key) ∷ frames.old.frames) }
        requires texts { self.now.texts.now ≡ (K.book known.old).texts }
        ensures turns { Turns self.now.pool.now self.now.texts.now self.now.at (look (K.book known.old) (K.values known.old)) (Step.Give first) (At on.call.id (Lookup on.m on.n on.key) ∷ frames.old.frames) result frames.new.frames (K.looks known.old) (K.looks known.new) }
        ensures room { frames.new.room ≡ frames.old.room }
        ensures book { K.book known.new ≡ K.book known.old }
        ensures values { K.values known.new ≡ K.values known.old }
    {
        let mut n = on.n;
        let mut v = first;
        loop {
            match (
                is_found(on.key, v, self.texts),
                line_cell(on.call.fun, on.area, n + 1),
            ) {
                (false, Some(a)) => match known.look(a) {
                    Look::Val(next) => {
                        n = n + 1;
                        v = next;
                    }
                    Look::Missing => {
                        frames.push(Frame::At(on.call.id, Work::Lookup(on.m, n + 1, on.key)));
                        frames.push(Frame::Opened(self.at, a));
                        return Err(Asked::Needs(a));
                    }
                },
                _ => return Ok(self.go_on(frames, on.call.id, Work::Lookup(on.m, n, on.key), v)),
            }
        }
    }
}
