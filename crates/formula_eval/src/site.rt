//! Where expressions are evaluated.

use builtin_functions::FoldKind;
use cell_values::{Addr, Area, Int, Texts, Value};
use formula_trees::Fun;
use shared_expressions::{ExprId, Pool};

/// Where an expression is evaluated: its pool, the texts, and the cell of the formula.
#[derive(Clone, Copy)]
pub struct Site<'a> {
    pub pool: &'a Pool,
    pub texts: &'a Texts,
    pub at: Addr,
}

/// A call of the pool: its expression, and the function of its root.
#[derive(Clone, Copy)]
pub struct Call {
    pub id: ExprId,
    pub fun: Fun,
}

/// A fold within a range: the call and its fold, the number of its argument, the argument and its cells, the
/// number of the next cell, and the numbers so far in one.
#[derive(Clone, Copy)]
pub struct FoldWalk {
    pub id: ExprId,
    pub kind: FoldKind,
    pub k: u16,
    pub child: ExprId,
    pub area: Area,
    pub n: u32,
    pub total: Option<Int>,
}

/// MATCH within its range: the call, the argument and its cells, the number of the next cell, and the key.
#[derive(Clone, Copy)]
pub struct SearchWalk {
    pub id: ExprId,
    pub child: ExprId,
    pub area: Area,
    pub n: u32,
    pub key: Value,
}

/// A lookup within its line: the call and its range, the column or row of its answer, the number of the cell whose
/// value comes, and the key.
#[derive(Clone, Copy)]
pub struct LookupWalk {
    pub call: Call,
    pub area: Area,
    pub m: u16,
    pub n: u32,
    pub key: Value,
}

/// A node that goes over cells.
#[derive(Clone, Copy)]
pub enum Walk {
    Fold(FoldWalk),
    Search(SearchWalk),
    Lookup(LookupWalk),
}
