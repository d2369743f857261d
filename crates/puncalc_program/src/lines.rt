//! What the lines of a script do, a method for each kind.

ghost use Rattle.std.specs.Prelude.{◌≡◌, ◌<◌, ◌∷◌, ◌+ℤ◌, pos, ℕ, [], All, length, map, codes, string_bytes, IfOk};
ghost use Rattle.book_save.specs.Rows.{first_long, saved_rows};
ghost use Rattle.command_words.specs.Sound.{IsWithin};
ghost use Rattle.command_words.specs.declared.TheConstants.{MAX_WORKERS};
ghost use Rattle.cell_values.specs.Areas.{numbers_from};
ghost use Rattle.cell_values.specs.ShownText.{int_text, shown_text};
ghost use Rattle.cell_values.specs.Values.{IsShownOf};
ghost use Rattle.cycle_finder.specs.Loops.{loops};
ghost use Rattle.what_if.specs.Scenarios as tables;
ghost use Rattle.what_if.specs.Scenarios.{IsRange};
ghost use Rattle.edit_script.specs.Lines.{IsLineOf};
ghost use Rattle.edit_script.specs.declared.line.Line.{Line};
ghost use Rattle.edit_script.specs.Targets.{IsCellOf};
ghost use Rattle.formula_grammar.specs.Reading.{Reading, IsReading};
ghost use Rattle.recalculation.specs.Edits.{IsEditOf};
ghost use Rattle.row_shift.specs.Moves.{IsChange};
ghost use Rattle.sheet_csv.specs.Row.{row_text};
ghost use Rattle.puncalc_program.specs.Cells.{cell_name, cell_shows};
ghost use Rattle.puncalc_program.specs.Desks.{Changes, Makes, edit_answer, edit_turn, rows_answer, shared_of};
ghost use Rattle.puncalc_program.specs.Script.{Goes, count_line, loop_row, recalculated, rows_turn, saved_unless, scenario_row, table_turn, turn};
ghost use Rattle.puncalc_program.specs.Sheets.{sheet_rows};
ghost use Rattle.puncalc_program.specs.Writing.{sunk, Writes};

use crate::desk::{Desk, Workers, tell_cells};
use crate::names::cell_name;
use crate::refusals::LineRefusal;
use crate::stop::Stop;
use crate::writing::put;
use book_save::{SaveFault, save_sheet};
use byte_streams::Sink;
use cell_values::{Addr, Area, FieldText, Int, Shown, Value};
use cycle_finder::{Loop, cycles, law_loops};
use edit_script::Line;
use recalculation::{Edit, Pace, ShiftFault};
use row_shift::RowChange;
use sheet_csv::write_row;
use std::alloc::{AllocError, Global};
use std::thread::Threads;
use what_if::{NoStarts, scenarios};
use workbook_core::EditFault;

impl Desk {
    /// Does what a line asks for. Answers why it is refused, if it is.
    #[tactic(auto, unfolding(crate::specs::Script::turn))]
    pub(crate) fn run_line<R: Threads + Sync, P: Pace, K: Sink>(
        &mut self,
        workers: &Workers<'_, R, P>,
        line: Line,
        out: &mut K,
    ) -> Result<Option<LineRefusal>, Stop>
        requires workers { IsWithin 1 MAX_WORKERS workers.now.count }
        requires line { IsLineOf self.old.names line }
        ensures makes { (read : Reading) → IsReading self.old.names read →
            Makes (turn read self.old.names workers.now.count line self.old.standing) self.old.standing self.new.standing
            (sunk K.written K.faults K.calls out.old) (sunk K.written K.faults K.calls out.new) result }
        ensures names { self.new.names ≡ self.old.names }
    {
        match line {
            Line::Nothing => Ok(None),
            Line::Set(at, field) => self.set(at, &field),
            Line::Clear(at) => self.change(&Edit::Clear(at)),
            Line::Copy(from, to) => self.change(&Edit::Copy(from, to)),
            Line::Show(at) => self.show(workers, at, out),
            Line::Print(sheet) => self.print(workers, sheet, out),
            Line::Save(sheet) => self.save(sheet, out),
            Line::Recalc => self.recalc(workers, out),
            Line::Cycles => self.list_cycles(workers, out),
            Line::Insert(rows) => self.move_rows(RowChange::Insert {
                sheet: rows.sheet,
                row: rows.row,
                count: rows.count,
            }),
            Line::Delete(rows) => self.move_rows(RowChange::Delete {
                sheet: rows.sheet,
                row: rows.row,
                count: rows.count,
            }),
            Line::WhatIf(at, low, count, target) => {
                self.what_if(workers, at, low, count, target, out)
            }
        }
    }

    /// Puts a field into a cell.
    #[tactic(auto, unfolding(crate::specs::Script::turn))]
    pub(crate) fn set(&mut self, at: Addr, field: &FieldText) -> Result<Option<LineRefusal>, Stop>
        requires { IsCellOf self.old.names at }
        ensures changes { (read : Reading) → IsReading self.old.names read → (workers : ℕ) →
            Changes (turn read self.old.names workers (Line.Set at field.now) self.old.standing) self.old.standing self.new.standing result }
        ensures names { self.new.names ≡ self.old.names }
    {
        let raw = self.calc.read_raw(field.as_str())?;
        self.change(&Edit::Put(at, raw))
    }

    /// Makes an edit.
    fn change(&mut self, edit: &Edit) -> Result<Option<LineRefusal>, Stop>
        requires { IsEditOf (shared_of self.old) edit.now }
        ensures changes { (read : Reading) → IsReading self.old.names read →
            Changes (edit_turn read self.old.names edit.now self.old.standing) self.old.standing self.new.standing result }
        ensures names { self.new.names ≡ self.old.names }
    {
        tell_cells(self.calc.book());
        let made = self.calc.edit(edit);
        tell_cells(self.calc.book());
        edit_answer(made)
    }

    /// Inserts or deletes rows.
    fn move_rows(&mut self, change: RowChange) -> Result<Option<LineRefusal>, Stop>
        requires { IsChange change }
        ensures changes { Changes (rows_turn change self.old.standing) self.old.standing self.new.standing result }
        ensures names { self.new.names ≡ self.old.names }
    {
        rows_answer(self.calc.shift_rows(change))
    }

    /// Writes what a cell shows.
    fn show<R: Threads + Sync, P: Pace, K: Sink>(
        &mut self,
        workers: &Workers<'_, R, P>,
        at: Addr,
        out: &mut K,
    ) -> Result<Option<LineRefusal>, Stop>
        requires workers { IsWithin 1 MAX_WORKERS workers.now.count }
        requires cell { IsCellOf self.old.names at }
        ensures makes { Makes (Goes (recalculated workers.now.count self.old.standing) (row_text (cell_name self.old.names at ∷ cell_shows self.old.standing.book at ∷ []) ∷ [])) self.old.standing self.new.standing
            (sunk K.written K.faults K.calls out.old) (sunk K.written K.faults K.calls out.new) result }
        ensures names { self.new.names ≡ self.old.names }
    {
        self.recalculate(workers)?;
        let row = self.cell_row(at)?;
        put(out, &row)?;
        Ok(None)
    }

    /// A cell's name and what it shows, as a row.
    fn cell_row(&self, at: Addr) -> Result<Vec<u8>, AllocError>
        requires pending { self.now.standing.pending ≡ [] }
        requires cell { IsCellOf self.now.names at }
        ensures { IfOk result (λ row. row.items ≡ row_text (cell_name self.now.names at ∷ cell_shows self.now.standing.book at ∷ [])) }
    {
        let name = cell_name(self.alloc, self.names(), at)?;
        let text = self.cell_text(at)?;
        let fields = vec![in self.alloc; name, text]?;
        write_row(self.alloc, &fields)
    }

    /// Writes a sheet.
    fn print<R: Threads + Sync, P: Pace, K: Sink>(
        &mut self,
        workers: &Workers<'_, R, P>,
        sheet: u8,
        out: &mut K,
    ) -> Result<Option<LineRefusal>, Stop>
        requires { IsWithin 1 MAX_WORKERS workers.now.count }
        ensures makes { Makes (Goes (recalculated workers.now.count self.old.standing) (sheet_rows self.old.standing.book sheet)) self.old.standing self.new.standing
            (sunk K.written K.faults K.calls out.old) (sunk K.written K.faults K.calls out.new) result }
        ensures names { self.new.names ≡ self.old.names }
    {
        self.recalculate(workers)?;
        self.write_sheet(sheet, out)?;
        Ok(None)
    }

    /// Writes a sheet with what its cells hold in place of what they show. Nothing is recalculated.
    fn save<K: Sink>(&self, sheet: u8, out: &mut K) -> Result<Option<LineRefusal>, Stop>
        requires { sheet < length self.now.names }
        ensures { Makes (saved_unless self.now.standing (saved_rows self.now.names self.now.standing.book sheet) (first_long self.now.names self.now.standing.book sheet)) self.now.standing self.now.standing
            (sunk K.written K.faults K.calls out.old) (sunk K.written K.faults K.calls out.new) result }
    {
        match save_sheet(self.alloc, self.calc.book(), sheet) {
            Ok(saved) => {
                put_all(saved.rows(), out)?;
                Ok(None)
            }
            Err(SaveFault::TooLong(_)) => Ok(Some(LineRefusal::FormulaTooLong)),
            Err(SaveFault::OutOfMemory) => Err(Stop::Memory),
        }
    }

    /// Recalculates, and writes how many cells were pending.
    fn recalc<R: Threads + Sync, P: Pace, K: Sink>(
        &mut self,
        workers: &Workers<'_, R, P>,
        out: &mut K,
    ) -> Result<Option<LineRefusal>, Stop>
        requires { IsWithin 1 MAX_WORKERS workers.now.count }
        ensures makes { Makes (Goes (recalculated workers.now.count self.old.standing) (count_line (codes "recalculated") (length self.old.standing.pending) ∷ [])) self.old.standing self.new.standing
            (sunk K.written K.faults K.calls out.old) (sunk K.written K.faults K.calls out.new) result }
        ensures names { self.new.names ≡ self.old.names }
    {
        let count = self.recalculate(workers)?;
        let line = count_line(self.alloc, "recalculated", count as usize)?;
        put(out, line.as_bytes())?;
        Ok(None)
    }

    /// Writes how many loops there are, and the cells of each.
    fn list_cycles<R: Threads + Sync, P: Pace, K: Sink>(
        &mut self,
        workers: &Workers<'_, R, P>,
        out: &mut K,
    ) -> Result<Option<LineRefusal>, Stop>
        requires { IsWithin 1 MAX_WORKERS workers.now.count }
        ensures makes { Makes (Goes (recalculated workers.now.count self.old.standing) (count_line (codes "cycles") (length (loops self.old.standing.book)) ∷ map (loop_row self.old.names) (loops self.old.standing.book))) self.old.standing self.new.standing
            (sunk K.written K.faults K.calls out.old) (sunk K.written K.faults K.calls out.new) result }
        ensures names { self.new.names ≡ self.old.names }
    {
        self.recalculate(workers)?;
        let found = cycles(self.alloc, self.calc.book(), self.calc.results())?;
        let line = count_line(self.alloc, "cycles", found.len())?;
        put(out, line.as_bytes())?;
        self.write_loops(&found, out)?;
        Ok(None)
    }

    /// Writes a table: each of some numbers, and what a cell shows with it in another cell.
    fn what_if<R: Threads + Sync, P: Pace, K: Sink>(
        &mut self,
        workers: &Workers<'_, R, P>,
        at: Addr,
        low: Int,
        count: u32,
        target: Addr,
        out: &mut K,
    ) -> Result<Option<LineRefusal>, Stop>
        requires workers { IsWithin 1 MAX_WORKERS workers.now.count }
        requires range { IsRange low count }
        ensures makes { Makes (table_turn workers.now.count at low count target self.old.standing) self.old.standing self.new.standing
            (sunk K.written K.faults K.calls out.old) (sunk K.written K.faults K.calls out.new) result }
        ensures names { self.new.names ≡ self.old.names }
    {
        if self.calc.book().is_full_for(at) {
            return Ok(Some(LineRefusal::TooManyCells));
        }
        self.recalculate(workers)?;
        let shown = scenarios(
            &self.calc,
            workers.rt,
            self.alloc,
            workers.count,
            at,
            low,
            count,
            target,
            &NoStarts,
        )?;
        self.write_table(at, low, target, &shown, out)?;
        Ok(None)
    }

    /// Writes a row for each number.
    fn write_table<K: Sink>(
        &self,
        at: Addr,
        low: Int,
        target: Addr,
        shown: &[Shown],
        out: &mut K,
    ) -> Result<(), Stop>
        requires range { IsRange low (length shown.now) }
        requires shown { shown.now ≡ tables.scenarios self.now.standing.book at low (length shown.now) target }
        requires texts { All (IsShownOf self.now.standing.book.texts) shown.now }
        ensures { Writes (map (scenario_row self.now.standing.book at low target) (numbers_from 0 (length shown.now))) (sunk K.written K.faults K.calls out.old) (sunk K.written K.faults K.calls out.new) result }
    {
        for k in 0..shown.len() {
            let row = self.scenario_row(at, low, target, shown, k)?;
            put(out, &row)?;
        }
        Ok(())
    }

    /// The row of the number that comes `k` behind the first one.
    fn scenario_row(
        &self,
        at: Addr,
        low: Int,
        target: Addr,
        shown: &[Shown],
        k: usize,
    ) -> Result<Vec<u8>, AllocError>
        requires range { IsRange low (length shown.now) }
        requires shown { shown.now ≡ tables.scenarios self.now.standing.book at low (length shown.now) target }
        requires texts { All (IsShownOf self.now.standing.book.texts) shown.now }
        requires there { k < length shown.now }
        ensures { IfOk result (λ row. row.items ≡ scenario_row self.now.standing.book at low target k) }
    {
        self.number_row(number_behind(low, shown.len(), k), shown[k])
    }

    /// A number and what is shown with it, as a row.
    fn number_row(&self, number: Int, shown: Shown) -> Result<Vec<u8>, AllocError>
        requires { IsShownOf self.now.standing.book.texts shown }
        ensures { IfOk result (λ row. row.items ≡ row_text (int_text number ∷ shown_text self.now.standing.book.texts shown ∷ [])) }
    {
        let number = Shown::Val(Value::Number(number)).show_text(
            self.alloc,
            self.calc.book().texts(),
        )?;
        let text = shown.show_text(self.alloc, self.calc.book().texts())?;
        let fields = vec![in self.alloc; number, text]?;
        write_row(self.alloc, &fields)
    }

    /// Writes the cells of each loop in a row.
    fn write_loops<K: Sink>(&self, found: &[Loop], out: &mut K) -> Result<(), Stop>
        requires { found.now ≡ loops self.now.standing.book }
        ensures { Writes (map (loop_row self.now.names) found.now) (sunk K.written K.faults K.calls out.old) (sunk K.written K.faults K.calls out.new) result }
    {
        law_loops();
        tell_cells(self.calc.book());
        for cells in found {
            let row = self.loop_row(cells)?;
            put(out, &row)?;
        }
        Ok(())
    }

    /// The cells of a loop, as a row.
    fn loop_row(&self, cells: &Loop) -> Result<Vec<u8>, AllocError>
        requires some { 0 < length cells.now }
        requires of_sheets { All (IsCellOf self.now.names) cells.now }
        ensures { IfOk result (λ row. row.items ≡ loop_row self.now.names cells.now) }
    {
        let mut fields = Vec::new(self.alloc);
        let cells = cells.cells();
        for at in cells {
            fields.push(cell_name(self.alloc, self.names(), *at)?)?;
        }
        write_row(self.alloc, &fields)
    }
}

/// Writes rows one after the other.
fn put_all<K: Sink>(rows: &[Vec<u8>], out: &mut K) -> Result<(), Stop>
    ensures { Writes (map (λ row. row.items) rows.now) (sunk K.written K.faults K.calls out.old) (sunk K.written K.faults K.calls out.new) result }
{
    for row in rows {
        put(out, row)?;
    }
    Ok(())
}

/// What an edit came to, as the answer of a line.
fn edit_answer(made: Result<(), EditFault>) -> Result<Option<LineRefusal>, Stop>
    ensures { result ≡ edit_answer made }
{
    match made {
        Ok(()) => Ok(None),
        Err(EditFault::BadFormula { place, kind }) => Ok(Some(LineRefusal::BadFormula(
            place, kind,
        ))),
        Err(EditFault::TooManyCells) => Ok(Some(LineRefusal::TooManyCells)),
        Err(EditFault::OutOfMemory) => Err(Stop::Memory),
    }
}

/// What a change of rows came to, as the answer of a line.
fn rows_answer(made: Result<(), ShiftFault>) -> Result<Option<LineRefusal>, Stop>
    ensures { result ≡ rows_answer made }
{
    match made {
        Ok(()) => Ok(None),
        Err(ShiftFault::RowsFull) => Ok(Some(LineRefusal::RowsFull)),
        Err(ShiftFault::OutOfMemory) => Err(Stop::Memory),
    }
}

/// A word and a count, as a line.
fn count_line(alloc: Global, word: &str, count: usize) -> Result<String, AllocError>
    ensures { IfOk result (λ line. string_bytes line ≡ count_line word.now count) }
{
    let mut line = String::from_str(alloc, word)?;
    write!(line, " {count}\n")?;
    Ok(line)
}

/// The number that comes `k` behind another, of so many.
fn number_behind(low: Int, count: usize, k: usize) -> Int
    requires range { IsRange low count }
    requires there { k < count }
    ensures { result ≡ low +ℤ pos k }
{
    low + k as Int
}
