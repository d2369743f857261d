//! Folds and searches over the cells of an area.
ghost use Rattle.std.specs.Prelude.{◌≡◌, ◌+◌, ◌<◌, ◌≤◌, ◌^◌, IfOk, IfSome, IsFalse};
ghost use Rattle.cell_values.specs.Values.{IsValueOf, is_error};
ghost use Rattle.cell_values.specs.Areas.{column_of, height, width, row_of, walk, IsArea};
ghost use Rattle.demand_spec.specs.Asks.{fold_looks, fold_part, search_looks};
ghost use Rattle.demand_spec.specs.Formula.{is_found};
ghost use Rattle.formula_trees.specs.Mentions.{HasArea};

use crate::Asked;
use crate::context::Stage;
use crate::outcomes::{any_value, fails, take};
use builtin_functions::FoldKind;
use builtin_functions::operators::same;
use cell_values::{Area, Code, Int, Texts, Value};
use formula_trees::Place;

/// Whether a cell's value is the one that is searched. An error or Blank is passed over.
fn is_found(key: Value, value: Value, texts: &Texts) -> bool
    requires key { IsValueOf texts.now key }
    requires value { IsValueOf texts.now value }
    requires no_error { IsFalse (is_error key) }
    ensures { result ≡ is_found texts.now key value }
{
    match value {
        Value::Error(_) | Value::Blank => false,
        Value::Number(_) | Value::Text(_) | Value::Short(_) | Value::Bool(_) => {
            same(value, key, texts)
        }
    }
}

impl<'a> Stage<'a> {
    ghost use Rattle.demand_spec.specs.Stage.{look_on};

    /// A fold over row `i` of an area.
    #[tactic(auto, using(crate::proofs::Walks::numbers_more, crate::proofs::Walks::numbers_all))]
    pub(crate) fn fold_row(
        &self,
        kind: FoldKind,
        total: Option<Int>,
        area: Area,
        i: u32,
    ) -> Result<Option<Int>, Asked>
        requires area { IsArea area }
        requires row { i < height area }
        ensures { result ≡ fold_looks (look_on self.now) kind total (row_of area i) }
    {
        let mut total = total;
        for j in 0..area.columns() {
            let value = self.demand(area.cell(i, j))?;
            total = take(kind, total, true, value)?;
        }
        Ok(total)
    }

    /// A fold over an area, row by row.
    #[tactic(auto, using(crate::proofs::Areas::area_more, crate::proofs::Areas::area_all))]
    pub(crate) fn fold_area(
        &self,
        kind: FoldKind,
        total: Option<Int>,
        area: Area,
    ) -> Result<Option<Int>, Asked>
        requires { IsArea area }
        ensures { result ≡ fold_looks (look_on self.now) kind total (walk area) }
    {
        let mut total = total;
        for i in 0..area.rows() {
            total = self.fold_row(kind, total, area, i)?;
        }
        Ok(total)
    }

    /// A fold over one argument: the cells of a range or a bare reference, or one value.
    pub(crate) fn fold_part(
        &self,
        kind: FoldKind,
        total: Option<Int>,
        place: Place,
        value: Asked,
    ) -> Result<Option<Int>, Asked>
        requires { HasArea place }
        ensures { result ≡ fold_part (look_on self.now) kind total place value }
    {
        match place {
            Place::Cells(area) => self.fold_area(kind, total, area),
            Place::Bad => Err(fails(Code::Ref)),
            Place::Nowhere => take(kind, total, false, any_value(value)?),
        }
    }

    /// The place in row `i` of an area of the first cell that has the key, the cells being numbered from
    /// `first` on.
    #[tactic(auto, using(crate::proofs::Walks::numbers_more, crate::proofs::Walks::numbers_all))]
    pub(crate) fn search_row(
        &self,
        key: Value,
        area: Area,
        i: u32,
        first: u32,
    ) -> Result<Option<u32>, Asked>
        requires area { IsArea area }
        requires row { i < height area }
        requires first { first ≤ 2 ^ 31 }
        requires key { IsValueOf self.now.texts key }
        requires no_error { IsFalse (is_error key) }
        ensures same { result ≡ search_looks (look_on self.now) self.now.texts key first (row_of area i) }
        ensures within { IfOk result (λ o. IfSome o (λ n. (first ≤ n) × (n < first + width area))) }
    {
        for j in 0..area.columns() {
            let value = self.demand(area.cell(i, j))?;
            if is_found(key, value, self.texts()) {
                return Ok(Some(first + j));
            }
        }
        Ok(None)
    }

    /// The place in an area's walk of the first cell that has the key.
    #[tactic(auto, using(crate::proofs::Areas::search_more, crate::proofs::Areas::search_all))]
    pub(crate) fn search_area(&self, key: Value, area: Area) -> Result<Option<u32>, Asked>
        requires area { IsArea area }
        requires key { IsValueOf self.now.texts key }
        requires no_error { IsFalse (is_error key) }
        ensures same { result ≡ search_looks (look_on self.now) self.now.texts key 0 (walk area) }
    {
        let mut passed = 0;
        for i in 0..area.rows() {
            if let Some(n) = self.search_row(key, area, i, passed)? {
                return Ok(Some(n));
            }
            passed += area.columns();
        }
        Ok(None)
    }

    /// The place in the first column of an area of the first cell that has the key.
    #[tactic(auto, using(crate::proofs::Walks::numbers_more, crate::proofs::Walks::numbers_all), unfolding(cell_values::specs::Areas::width))]
    pub(crate) fn search_column(&self, key: Value, area: Area) -> Result<Option<u32>, Asked>
        requires area { IsArea area }
        requires key { IsValueOf self.now.texts key }
        requires no_error { IsFalse (is_error key) }
        ensures same { result ≡ search_looks (look_on self.now) self.now.texts key 0 (column_of area 0) }
        ensures within { IfOk result (λ o. IfSome o (λ n. n < height area)) }
    {
        for i in 0..area.rows() {
            let value = self.demand(area.cell(i, 0))?;
            if is_found(key, value, self.texts()) {
                return Ok(Some(i));
            }
        }
        Ok(None)
    }
}
