//! What open nodes wait for.

use cell_values::{Addr, Int, Value};
use shared_expressions::ExprId;

/// What a node waits for, and what it has so far. Arguments and cells are counted from 0.
#[derive(Clone, Copy, Debug, PartialEq, Eq)]
pub enum Work {
    /// The first operand or argument that it demands.
    First,
    /// The second one, beside the value of the first.
    Second(Value),
    /// MID's third value, beside the first one and the number of the second, 0 where it has none.
    Third(Value, Int),
    /// The argument of AND or OR before this one.
    Turn(u16),
    /// The argument of a fold before this one, and the numbers so far in one.
    Argument(u16, Option<Int>),
    /// In this argument of a fold the cell before this one, and the numbers so far in one.
    Cell(u16, u32, Option<Int>),
    /// The cell of MATCH's range before this one, beside the key.
    Search(u32, Value),
    /// This cell of a lookup's first column or row, beside the column or row of its answer and the key.
    Lookup(u16, u32, Value),
}

/// An open node, or the mark of an evaluation that has stopped.
#[derive(Clone, Copy, Debug, PartialEq, Eq)]
pub enum Frame {
    /// A node and what it waits for.
    At(ExprId, Work),
    /// Atop the frames of an evaluation that has stopped: its cell, and the cell that it needs.
    Opened(Addr, Addr),
}

/// What the machine does next.
#[derive(Clone, Copy, Debug, PartialEq, Eq)]
pub enum Step {
    /// An expression is next.
    Eval(ExprId),
    /// A value goes to the top frame.
    Give(Value),
    /// A cell's value goes to the top frame.
    Look(Addr),
}
