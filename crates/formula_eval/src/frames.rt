//! The frames of open evaluations, in room that is reserved.
ghost use Rattle.std.specs.Prelude.{◌≡◌, ◌<◌, [], ◌∷◌, length, IfOk, IfSome, IfNone};
ghost use Rattle.formula_eval.specs.declared.work.Frame.TheVariants.{At, Opened};
ghost use Rattle.formula_eval.specs.Stacks.{frame_of, IsShut, HasNoMark};

use crate::work::{Frame, Work};
use cell_values::{Addr, Int, Value};
use shared_expressions::ExprId;
use std::alloc::{AllocError, Global};
use std::marker::Model;

/// A frame as it is kept, small fields first.
#[derive(Clone, Copy, Debug, PartialEq, Eq)]
pub enum Kept {
    First(ExprId),
    Second(ExprId, Value),
    Third(ExprId, Int, Value),
    Turn(u16, ExprId),
    Argument(u16, ExprId, Option<Int>),
    Cell(u16, u32, ExprId, Option<Int>),
    Search(u32, ExprId, Value),
    Lookup(u16, u32, ExprId, Value),
    Opened(Addr, Addr),
}

// A level of a formula takes 96 bytes.
const _: () = prove!(size_of::<Kept>() == 96);

/// The frames of the evaluations that are open, in one room.
#[derive(Drop)]
pub struct Frames {
    stack: Vec<Kept>,
}

impl Model for Frames {
    ghost use Rattle.std.specs.Prelude.{map, reverse};
    ghost use Rattle.std.specs.Vec.{vec_capacity};
    ghost use Rattle.formula_eval.specs.Stacks.{Stack, frame_of};

    ghost Value = { Stack };

    ghost view = { λ f. record { room = vec_capacity f.stack; frames = map frame_of (reverse f.stack.items) } };
}

impl Frames {
    /// No frames, and room for as many as are given: for the sum of the depths of the trees that will
    /// be open at once.
    pub fn new(alloc: Global, room: usize) -> Result<Frames, AllocError>
        ensures { IfOk result (λ f. f ≡ record { room = room; frames = [] }) }
    {
        let stack = Vec::with_capacity(alloc, room)?;
        Ok(Frames { stack })
    }

    pub(crate) fn push(&mut self, frame: Frame)
        requires { length self.old.frames < self.old.room }
        ensures room { self.new.room ≡ self.old.room }
        ensures frames { self.new.frames ≡ frame ∷ self.old.frames }
    {
        self.stack.push_reserved(keep(frame));
    }

    /// Takes off what the top of the evaluation at work waits for.
    pub(crate) fn pop(&mut self) -> Option<(ExprId, Work)>
        ensures room { self.new.room ≡ self.old.room }
        ensures some { IfSome result (λ f. self.old.frames ≡ At f.0 f.1 ∷ self.new.frames) }
        ensures none { IfNone result ((self.new.frames ≡ self.old.frames) × IsShut self.old.frames) }
    {
        match self.stack.pop() {
            None => None,
            Some(top) => match frame(top) {
                Frame::At(id, work) => Some((id, work)),
                Frame::Opened(_, _) => {
                    self.stack.push_reserved(top);
                    None
                }
            },
        }
    }

    /// Takes off the mark of the last open evaluation: its cell, and the cell that it needs.
    pub(crate) fn reopen(&mut self) -> Option<(Addr, Addr)>
        ensures room { self.new.room ≡ self.old.room }
        ensures some { IfSome result (λ f. self.old.frames ≡ Opened f.0 f.1 ∷ self.new.frames) }
        ensures none { IfNone result ((self.new.frames ≡ self.old.frames) × HasNoMark self.old.frames) }
    {
        match self.stack.pop() {
            None => None,
            Some(Kept::Opened(at, need)) => Some((at, need)),
            Some(top) => {
                self.stack.push_reserved(top);
                None
            }
        }
    }
}

/// A frame as it is kept.
fn keep(frame: Frame) -> Kept
    ensures { frame_of result ≡ frame }
{
    match frame {
        Frame::At(id, Work::First) => Kept::First(id),
        Frame::At(id, Work::Second(x)) => Kept::Second(id, x),
        Frame::At(id, Work::Third(x, start)) => Kept::Third(id, start, x),
        Frame::At(id, Work::Turn(k)) => Kept::Turn(k, id),
        Frame::At(id, Work::Argument(k, total)) => Kept::Argument(k, id, total),
        Frame::At(id, Work::Cell(k, n, total)) => Kept::Cell(k, n, id, total),
        Frame::At(id, Work::Search(n, key)) => Kept::Search(n, id, key),
        Frame::At(id, Work::Lookup(m, n, key)) => Kept::Lookup(m, n, id, key),
        Frame::Opened(at, need) => Kept::Opened(at, need),
    }
}

/// The frame that is kept so.
fn frame(kept: Kept) -> Frame
    ensures { result ≡ frame_of kept }
{
    match kept {
        Kept::First(id) => Frame::At(id, Work::First),
        Kept::Second(id, x) => Frame::At(id, Work::Second(x)),
        Kept::Third(id, start, x) => Frame::At(id, Work::Third(x, start)),
        Kept::Turn(k, id) => Frame::At(id, Work::Turn(k)),
        Kept::Argument(k, id, total) => Frame::At(id, Work::Argument(k, total)),
        Kept::Cell(k, n, id, total) => Frame::At(id, Work::Cell(k, n, total)),
        Kept::Search(n, id, key) => Frame::At(id, Work::Search(n, key)),
        Kept::Lookup(m, n, id, key) => Frame::At(id, Work::Lookup(m, n, key)),
        Kept::Opened(at, need) => Frame::Opened(at, need),
    }
}
