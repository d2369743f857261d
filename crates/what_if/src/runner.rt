//! A worker of a table.

ghost use Rattle.std.specs.Prelude.{◌≡◌, ◌<◌, IfOk};
ghost use Rattle.cell_values.specs.Values.{IsShownOf};
ghost use Rattle.demand_spec.specs.Book.{shown};
ghost use Rattle.workbook_core.specs.WithNumber.{with_number};
ghost use Rattle.what_if.specs.Tables.{IsTable, IsIdle, IsStackOf, CanRun, HasRun};

use crate::starts::Starts;
use crate::table::{Table, tell_cells};
use cell_values::{Int, Shown};
use demand_stack::DemandStack;
use std::alloc::{AllocError, Global};

/// A worker of a table: its own stack over the cells that depend on the changed one, if there are any, and what it has
/// found of each of its scenarios. All memory is taken by `new`.
#[derive(Drop)]
pub(crate) struct Runner<'b> {
    table: &'b Table<'b>,
    stack: Option<DemandStack<'b>>,
    pub(crate) found: Vec<Shown>,
}

/// A stack over the cells that depend on the changed one.
fn stack_of<'b>(alloc: Global, table: &Table<'b>) -> Result<Option<DemandStack<'b>>, AllocError>
    requires { IsTable table.now }
    ensures { IfOk result (IsStackOf table.now) }
{
    if table.cells.is_empty() {
        return Ok(None);
    }
    tell_cells(table.calc.book());
    let stack = DemandStack::new(
        alloc,
        table.book_with(table.low),
        table.cells,
        table.calc.results(),
        0,
    )?;
    Ok(Some(stack))
}

/// What the target shows with the number, evaluated on a stack.
fn evaluate<'b>(table: &Table<'b>, stack: &mut DemandStack<'b>, number: Int) -> Shown
    requires table { IsTable table.now }
    requires idle { IsIdle table.now stack.old }
    ensures shown { result ≡ shown (with_number table.now.calc.now.shared.book table.now.at number) table.now.target }
    ensures text { IsShownOf table.now.calc.now.shared.book.texts result }
    ensures idle { IsIdle table.now stack.new }
{
    let Some(cell) = stack.number_of(table.target) else {
        return table.apart(number);
    };
    tell_cells(table.calc.book());
    stack.restart(table.book_with(number), table.calc.results());
    stack.evaluate(cell)
}

impl<'b> Runner<'b> {
    /// A worker that has done nothing.
    pub(crate) fn new(alloc: Global, table: &'b Table<'b>) -> Result<Runner<'b>, AllocError>
        requires { IsTable table.now }
        ensures { IfOk result (CanRun table.now) }
    {
        let found = Vec::with_capacity(alloc, table.count as usize)?;
        let stack = stack_of(alloc, table)?;
        Ok(Runner {
            table,
            stack,
            found,
        })
    }

    /// What the target shows with the number.
    fn shown_with(&mut self, table: &Table<'b>, number: Int) -> Shown
        requires table { IsTable table.now }
        requires stack { IsStackOf table.now self.old.stack }
        ensures shown { result ≡ shown (with_number table.now.calc.now.shared.book table.now.at number) table.now.target }
        ensures text { IsShownOf table.now.calc.now.shared.book.texts result }
        ensures stack { IsStackOf table.now self.new.stack }
        ensures same { self.new.found ≡ self.old.found }
    {
        match &mut self.stack {
            None => table.apart(number),
            Some(stack) => evaluate(table, stack, number),
        }
    }

    /// Evaluates the scenarios of the worker with this number: that one, and from each on the one that comes as many
    /// behind it as there are workers.
    pub(crate) fn run<G: Starts>(&mut self, worker: usize, starts: &G)
        requires table { IsTable self.old.table.now }
        requires worker { worker < self.old.table.now.workers }
        requires ready { CanRun self.old.table.now self.old }
        ensures { HasRun self.old.table.now worker self.new }
    {
        let table = self.table;
        let mut scenario = worker as u32;
        while scenario < table.count {
            starts.begin(worker as u8, scenario);
            let shown = self.shown_with(table, table.number(scenario));
            self.found.push_reserved(shown);
            scenario += table.workers;
        }
    }
}
