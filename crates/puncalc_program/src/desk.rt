//! The desk of a run: its book, what is pending, and the last round.

ghost use Rattle.std.specs.Prelude.{◌≡◌, ◌<◌, ◌≤◌, [], None, length, map, string_bytes, vec_len, IfOk, IfSome, OnOk};
ghost use Rattle.std.specs.Option.{option_or};
ghost use Rattle.cell_values.specs.Addresses.{IsOnSheet};
ghost use Rattle.demand_spec.specs.Sheets.{last_column, last_row};
ghost use Rattle.command_words.specs.Sound.{IsTrace, IsWithin};
ghost use Rattle.command_words.specs.declared.TheConstants.{MAX_WORKERS};
ghost use Rattle.parallel_evaluation.specs.Order.{run_order};
ghost use Rattle.workbook_core.specs.Books.{IsWorkbook};
ghost use Rattle.puncalc_program.specs.Cells.{cell_name, cell_shows};
ghost use Rattle.puncalc_program.specs.Desks.{IsDone, KeptIs, setup_kept};
ghost use Rattle.puncalc_program.specs.Script.{opened, recalculated};
ghost use Rattle.puncalc_program.specs.Sheets.{row_texts, sheet_row, sheet_rows};
ghost use Rattle.puncalc_program.specs.Writing.{sunk, Writes};

use crate::stop::Stop;
use crate::writing::put;
use byte_streams::Sink;
use cell_values::{Addr, SheetNames};
use claim_core::Outcome;
use recalculation::{Calc, Pace, Traced};
use sheet_csv::write_row;
use std::alloc::{AllocError, Global};
use std::marker::Model;
use std::thread::Threads;
use workbook_core::Workbook;

/// The workers of each recalculation of a run: how many there are, what starts their threads, and what is told
/// before their steps.
#[derive(Drop)]
pub(crate) struct Workers<'a, R, P> {
    pub(crate) rt: &'a R,
    pub(crate) pace: &'a P,
    pub(crate) count: u8,
}

/// The book of a run with what is pending, and the closed round of the last recalculation that had something to do.
#[derive(Drop)]
pub(crate) struct Desk {
    pub(crate) calc: Calc,
    kept: Option<Outcome>,
    pub(crate) alloc: Global,
}

impl Model for Desk {
    ghost use Rattle.puncalc_program.specs.Desks.{DeskSeen, desk_seen, IsDone};

    ghost Value = { DeskSeen };

    ghost use Rattle.std.specs.Coded.{codes};
    ghost use Rattle.formula_trees.specs.ExprCode.{expr_code};

    ghost coded = { Prim.hlevel (codes, expr_code) };

    ghost view = { λ d. desk_seen d.calc d.kept };

    ghost invariant = { λ d. IsDone d.kept };
}

impl Desk {
    /// A book that was just loaded.
    pub(crate) fn new(alloc: Global, book: Workbook) -> Desk
        ensures names { result.names ≡ book.names }
        ensures standing { result.standing ≡ opened book.book }
    {
        Desk {
            calc: Calc::new(alloc, book),
            kept: None,
            alloc,
        }
    }

    /// The names of the sheets.
    pub(crate) fn names(&self) -> &SheetNames
        ensures { result.now ≡ self.now.names }
    {
        self.calc.book().sheets()
    }

    /// Computes what is pending. Answers how many cells that were.
    pub(crate) fn recalculate<R: Threads + Sync, P: Pace>(
        &mut self,
        workers: &Workers<'_, R, P>,
    ) -> Result<u32, AllocError>
        requires { IsWithin 1 MAX_WORKERS workers.now.count }
        ensures done { OnOk result (self.new.standing ≡ recalculated workers.now.count self.old.standing) }
        ensures count { IfOk result (λ n. n ≡ length self.old.standing.pending) }
        ensures names { self.new.names ≡ self.old.names }
    {
        let summary = self
            .calc
            .recalculate(workers.rt, workers.count, workers.pace)?;
        keep(&mut self.kept, summary.outcome);
        Ok(summary.pending)
    }

    /// The same by workers that step in the given order in this thread, some of which stop. Answers their steps.
    pub(crate) fn recalculate_in_order(
        &mut self,
        workers: u8,
        order: &[u8],
        stopped: &[u8],
    ) -> Result<Vec<Traced>, AllocError>
        requires { IsTrace workers order.now stopped.now }
        ensures done { OnOk result (self.new.standing ≡ recalculated workers self.old.standing) }
        ensures steps { IfOk result (λ steps. steps.items ≡ run_order self.old.standing.book self.old.standing.pending workers order.now stopped.now) }
        ensures names { self.new.names ≡ self.old.names }
    {
        let mut steps = Vec::new(self.alloc);
        let summary = self
            .calc
            .recalculate_in_order(workers, order, stopped, &mut steps)?;
        keep(&mut self.kept, summary.outcome);
        Ok(steps)
    }

    /// The closed round of the last recalculation that had something to do.
    pub(crate) fn into_kept(self) -> Option<Outcome>
        ensures { KeptIs self.standing.last result }
    {
        self.kept
    }
}

/// Keeps a round in place of the one before, if there was one.
fn keep(kept: &mut Option<Outcome>, outcome: Option<Outcome>)
    requires before { IsDone kept.old }
    requires now { IsDone outcome }
    ensures setup { setup_kept kept.new ≡ option_or (setup_kept outcome) (setup_kept kept.old) }
    ensures done { IsDone kept.new }
{
    if let Some(outcome) = outcome {
        *kept = Some(outcome);
    }
}

/// What all workbooks keep: the count of their cells tells it.
pub(crate) fn tell_cells(book: &Workbook)
    ensures { IsWorkbook book.now }
{
    let _count = book.count();
}

impl Desk {
    /// The text that a cell shows.
    pub(crate) fn cell_text(&self, at: Addr) -> Result<String, AllocError>
        requires { self.now.standing.pending ≡ [] }
        ensures { IfOk result (λ text. string_bytes text ≡ cell_shows self.now.standing.book at) }
    {
        let shown = self.calc.shown(at);
        shown.show_text(self.alloc, self.calc.book().texts())
    }

    /// The texts of a row's first cells.
    #[tactic(auto, using(crate::proofs::Written::texts_more))]
    fn row_fields(&self, sheet: u8, row: u32, count: u16) -> Result<Vec<String>, AllocError>
        requires { self.now.standing.pending ≡ [] }
        ensures texts { IfOk result (λ fields. map string_bytes fields.items ≡ row_texts self.now.standing.book sheet row count) }
        ensures count { IfOk result (λ fields. vec_len fields ≡ count) }
    {
        let mut fields = Vec::new(self.alloc);
        for before in 0..count {
            let at = Addr {
                sheet,
                row,
                col: before + 1,
            };
            fields.push(self.cell_text(at)?)?;
        }
        Ok(fields)
    }

    /// A row of a sheet, as it is written.
    #[tactic(auto, unfolding(crate::specs::Sheets::sheet_row))]
    fn sheet_row(&self, sheet: u8, row: u32, columns: u16) -> Result<Vec<u8>, AllocError>
        requires pending { self.now.standing.pending ≡ [] }
        requires columns { columns ≡ last_column sheet self.now.standing.book.cells }
        requires some { 0 < columns }
        ensures { IfOk result (λ text. text.items ≡ sheet_row self.now.standing.book sheet row) }
    {
        let fields = self.row_fields(sheet, row, columns)?;
        write_row(self.alloc, &fields)
    }

    /// Writes the rows of a sheet one after the other.
    pub(crate) fn write_sheet<K: Sink>(&self, sheet: u8, out: &mut K) -> Result<(), Stop>
        requires { self.now.standing.pending ≡ [] }
        ensures { Writes (sheet_rows self.now.standing.book sheet) (sunk K.written K.faults K.calls out.old) (sunk K.written K.faults K.calls out.new) result }
    {
        tell_cells(self.calc.book());
        match self.calc.book().extent(sheet) {
            Some((rows, columns)) => self.write_rows(sheet, rows, columns, out),
            None => Ok(()),
        }
    }

    /// Writes the first rows of a sheet.
    fn write_rows<K: Sink>(
        &self,
        sheet: u8,
        rows: u32,
        columns: u16,
        out: &mut K,
    ) -> Result<(), Stop>
        requires pending { self.now.standing.pending ≡ [] }
        requires rows { rows ≡ last_row sheet self.now.standing.book.cells }
        requires columns { columns ≡ last_column sheet self.now.standing.book.cells }
        requires some { 0 < columns }
        ensures { Writes (sheet_rows self.now.standing.book sheet) (sunk K.written K.faults K.calls out.old) (sunk K.written K.faults K.calls out.new) result }
    {
        for before in 0..rows {
            let text = self.sheet_row(sheet, before + 1, columns)?;
            put(out, &text)?;
        }
        Ok(())
    }
}
