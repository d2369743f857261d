//! INDEX, MATCH, VLOOKUP and HLOOKUP, step by step.
ghost use Rattle.std.specs.Prelude.{◌≡◌, IsFalse};
ghost use Rattle.cell_values.specs.Values.{IsValueOf, is_error};
ghost use Rattle.demand_spec.specs.Asks.{answer_of, on_with, value_or_end, index_steps, match_steps, v_lookup_steps, h_lookup_steps};
ghost use Rattle.demand_spec.specs.Given.{IsAnswerOf, lookup_of, match_of};
ghost use Rattle.formula_trees.specs.Mentions.{HasArea};

use crate::Asked;
use crate::context::Stage;
use crate::outcomes::{cells, found, no_error, number, up_to_most};
use cell_values::{Int, Value};
use formula_trees::Place;

impl<'a> Stage<'a> {
    ghost use Rattle.demand_spec.specs.Stage.{look_on};

    /// The value of the cell at a row and a column of a range.
    #[tactic(auto, using(crate::proofs::Asks::answer_any))]
    fn index_in(&self, range: Place, row: Value, col: Value) -> Result<Value, Asked>
        requires { HasArea range }
        ensures { answer_of result ≡ index_steps (look_on self.now) row col range }
    {
        let row = number(row)?;
        let col = number(col)?;
        let area = cells(range)?;
        let i = up_to_most(area.rows(), row)?;
        let j = up_to_most(area.columns(), col)?;
        self.demand(area.cell(i, j))
    }

    /// The number of the first cell of a range that has the key, from 1.
    fn find(&self, key: Value, range: Place) -> Result<Value, Asked>
        requires range { HasArea range }
        requires key { IsValueOf self.now.texts key }
        requires no_error { IsFalse (is_error key) }
        ensures { answer_of result ≡ match_steps (look_on self.now) self.now.texts key range }
    {
        let area = cells(range)?;
        let n = found(self.search_area(key, area)?)?;
        Ok(Value::Number(Int::from(n) + 1))
    }

    /// The value in a column of a range, in the row whose first cell has the key.
    #[tactic(auto, using(crate::proofs::Asks::answer_any))]
    fn look_down(&self, key: Value, range: Place, col: Value) -> Result<Value, Asked>
        requires range { HasArea range }
        requires key { IsValueOf self.now.texts key }
        requires no_error { IsFalse (is_error key) }
        ensures { answer_of result ≡ v_lookup_steps (look_on self.now) self.now.texts key col range }
    {
        let col = number(col)?;
        let area = cells(range)?;
        let j = up_to_most(area.columns(), col)?;
        let i = found(self.search_column(key, area)?)?;
        self.demand(area.cell(i, j))
    }

    /// The value in a row of a range, in the column whose first cell has the key.
    #[tactic(auto, using(crate::proofs::Asks::answer_any))]
    fn look_along(&self, key: Value, range: Place, row: Value) -> Result<Value, Asked>
        requires range { HasArea range }
        requires key { IsValueOf self.now.texts key }
        requires no_error { IsFalse (is_error key) }
        ensures { answer_of result ≡ h_lookup_steps (look_on self.now) self.now.texts key row range }
    {
        let row = number(row)?;
        let area = cells(range)?;
        let i = up_to_most(area.rows(), row)?;
        let j = found(self.search_row(key, area, 0, 0)?)?;
        self.demand(area.cell(i, j))
    }

    /// INDEX: the row, the column, and then the cell that stands there in the range.
    pub(crate) fn index(&self, range: Place, row: Asked, col: Asked) -> Result<Value, Asked>
        requires { HasArea range }
        ensures { answer_of result ≡ on_with (value_or_end row) (λ v. on_with (value_or_end col) (λ w. index_steps (look_on self.now) v w range)) }
    {
        let row = no_error(row)?;
        let col = no_error(col)?;
        self.index_in(range, row, col)
    }

    /// MATCH: the key, and then the cells of the range up to the first that is equal.
    #[tactic(auto, using(crate::proofs::Rules::value_is_of))]
    pub(crate) fn position(&self, key: Asked, range: Place) -> Result<Value, Asked>
        requires key { IsAnswerOf self.now.texts key }
        requires range { HasArea range }
        ensures { answer_of result ≡ match_of self.now key range }
    {
        let key = no_error(key)?;
        self.find(key, range)
    }

    /// VLOOKUP: the key, the column, and then the cells of the first column up to the first that is equal.
    #[tactic(auto, using(crate::proofs::Rules::value_is_of))]
    pub(crate) fn v_lookup(&self, key: Asked, range: Place, col: Asked) -> Result<Value, Asked>
        requires key { IsAnswerOf self.now.texts key }
        requires range { HasArea range }
        ensures { answer_of result ≡ lookup_of (v_lookup_steps (look_on self.now) self.now.texts) key range col }
    {
        let key = no_error(key)?;
        let col = no_error(col)?;
        self.look_down(key, range, col)
    }

    /// HLOOKUP: the same along the first row and down.
    #[tactic(auto, using(crate::proofs::Rules::value_is_of))]
    pub(crate) fn h_lookup(&self, key: Asked, range: Place, row: Asked) -> Result<Value, Asked>
        requires key { IsAnswerOf self.now.texts key }
        requires range { HasArea range }
        ensures { answer_of result ≡ lookup_of (h_lookup_steps (look_on self.now) self.now.texts) key range row }
    {
        let key = no_error(key)?;
        let row = no_error(row)?;
        self.look_along(key, range, row)
    }
}
