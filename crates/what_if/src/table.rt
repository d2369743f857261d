//! What a table asks for.

ghost use Rattle.std.specs.Prelude.{◌≡◌, ◌<◌, ◌+ℤ◌, pos};
ghost use Rattle.cell_values.specs.Values.{IsShownOf};
ghost use Rattle.demand_spec.specs.Book.{shown};
ghost use Rattle.demand_spec.specs.Laws.{In};
ghost use Rattle.workbook_core.specs.Books.{IsWorkbook};
ghost use Rattle.workbook_core.specs.WithNumber.{shared_with_number, with_number};
ghost use Rattle.what_if.specs.Tables.{IsTable};

use cell_values::{Addr, Int, Shown, Value};
use recalculation::Calc;
use workbook_core::{BookWith, Workbook};

/// A table: what `target` shows where `at` holds each of so many numbers from `low` on. `cells` are the formula cells
/// that depend on `at`, without `at` itself.
#[derive(Drop)]
pub(crate) struct Table<'b> {
    pub(crate) calc: &'b Calc,
    pub(crate) at: Addr,
    pub(crate) low: Int,
    pub(crate) count: u32,
    pub(crate) target: Addr,
    pub(crate) workers: u32,
    pub(crate) cells: &'b [Addr],
}

impl<'b> Table<'b> {
    /// The number of a scenario.
    pub(crate) fn number(&self, scenario: u32) -> Int
        requires table { IsTable self.now }
        requires low { scenario < self.now.count }
        ensures { result ≡ self.now.low +ℤ pos scenario }
    {
        self.low + Int::from(scenario)
    }

    /// The workbook with the number in the cell that is changed.
    pub(crate) fn book_with(&self, number: Int) -> BookWith<'b>
        ensures { result ≡ shared_with_number self.now.calc.now.shared self.now.at number }
    {
        BookWith::with_number(self.calc.book(), self.at, number)
    }

    /// What the target shows with the number, where the target is none of the cells that depend on the changed one.
    pub(crate) fn apart(&self, number: Int) -> Shown
        requires table { IsTable self.now }
        requires apart { In self.now.target self.now.cells.now → ⊥ }
        ensures shown { result ≡ shown (with_number self.now.calc.now.shared.book self.now.at number) self.now.target }
        ensures text { IsShownOf self.now.calc.now.shared.book.texts result }
    {
        tell_cells(self.calc.book());
        if self.target == self.at {
            Shown::Val(Value::Number(number))
        } else {
            self.calc.shown(self.target)
        }
    }
}

/// What all workbooks keep: a look at a cell tells it.
pub(crate) fn tell_cells(book: &Workbook)
    ensures { IsWorkbook book.now }
{
    let _count = book.count();
}
