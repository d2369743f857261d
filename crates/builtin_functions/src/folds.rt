//! Accumulators over many values.
//!
//! A fold takes the values of its arguments one after the other. A value of a cell of a range and one
//! of an argument of its own are taken differently: in a range Text and Bool are passed over.

ghost use Rattle.std.specs.Prelude.{◌≡◌, None};
ghost use Rattle.builtin_functions.specs.Folds as spec;

use cell_values::{Code, Int, Value};

/// What a fold makes of the values.
#[derive(Clone, Copy, Debug, PartialEq, Eq)]
pub enum FoldKind {
    Sum,
    Min,
    Max,
    Count,
}

/// A fold on its way: its kind, and the numbers so far in one number, none before the first.
#[derive(Clone, Copy, Debug, PartialEq, Eq)]
pub struct Fold {
    pub kind: FoldKind,
    pub total: Option<Int>,
}

/// Whether the walk goes on after a value.
#[derive(Clone, Copy, Debug, PartialEq, Eq)]
pub enum Go {
    More,
    Stop(Code),
}

impl Fold {
    /// A fold of no values.
    pub fn new(kind: FoldKind) -> Fold
        ensures { result ≡ record { kind = kind; total = None } }
    {
        Fold { kind, total: None }
    }

    /// Takes one more value, from a cell of a range or from an argument of its own. Where the walk
    /// stops the fold is as before.
    pub fn take(&mut self, v: Value, in_range: bool) -> Go
        ensures go { result ≡ spec.goes_on (spec.taken self.old.kind self.old.total in_range v) }
        ensures fold { self.new ≡ spec.fold_after self.old (spec.taken self.old.kind self.old.total in_range v) }
    {
        match v {
            Value::Number(n) => self.take_number(n),
            Value::Error(code) => Go::Stop(code),
            Value::Blank => Go::More,
            Value::Text(_) | Value::Short(_) | Value::Bool(_) => {
                if in_range || self.kind == FoldKind::Count {
                    Go::More
                } else {
                    Go::Stop(Code::Value)
                }
            }
        }
    }

    /// What the fold gives of the values so far: 0 of no number.
    pub fn end(&self) -> Value
        ensures { result ≡ spec.end_value self.now.total }
    {
        Value::Number(self.total.unwrap_or(0))
    }

    /// What a fold gives of a list of values, each from a cell of a range or not: the error that ends
    /// the walk, or what the fold gives after the last one.
    pub fn over(kind: FoldKind, values: &[(Value, bool)]) -> Value
        ensures { result ≡ spec.fold_value kind values.now }
    {
        let mut fold = Fold::new(kind);
        for &(v, in_range) in values {
            if let Go::Stop(code) = fold.take(v, in_range) {
                return Value::Error(code);
            }
        }
        fold.end()
    }

    fn take_number(&mut self, n: Int) -> Go
        ensures go { result ≡ spec.goes_on (spec.counted self.old.kind self.old.total n) }
        ensures fold { self.new ≡ spec.fold_after self.old (spec.counted self.old.kind self.old.total n) }
    {
        let so_far = self.total.unwrap_or(0);
        let total = match self.kind {
            FoldKind::Sum => match so_far.checked_add(n) {
                Some(sum) => sum,
                None => return Go::Stop(Code::Num),
            },
            FoldKind::Min => self.total.map_or(n, |least| least.min(n)),
            FoldKind::Max => self.total.map_or(n, |greatest| greatest.max(n)),
            FoldKind::Count => so_far.checked_add(1).unwrap_or(so_far),
        };
        self.total = Some(total);
        Go::More
    }
}
