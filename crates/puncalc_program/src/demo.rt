//! The command `demo`.

ghost use Rattle.std.specs.Prelude.{◌≡◌, ◌<◌, ◌≤◌, ◌⊎◌, [], ◌∷◌, ◌++◌, None, OnOk, IfOk, codes, get_or, map, string_bytes};
ghost use Rattle.command_words.specs.Sound.{IsWithin};
ghost use Rattle.command_words.specs.declared.TheConstants.{MAX_DEMO_CELLS, MAX_WORKERS};
ghost use Rattle.demand_spec.specs.Book.{shown};
ghost use Rattle.edit_script.specs.declared.line.Line.{Line};
ghost use Rattle.formula_grammar.specs.Reading.{Reading, IsReading};
ghost use Rattle.sheet_loading.specs.Sheets.{no_cells};
ghost use Rattle.puncalc_program.specs.Demo.{all_shown, demo_cell, demo_field, demo_fields, demo_on, demo_refused, generated, last_part, running_field, size_line, summary_line, tally_line, with_one};
ghost use Rattle.puncalc_program.specs.Desks.{Changes};
ghost use Rattle.puncalc_program.specs.Output.{AreReadings, Readings, demo_output, the_names};
ghost use Rattle.puncalc_program.specs.Refusals.{line_fault};
ghost use Rattle.puncalc_program.specs.Run.{Answers, StopsFor};
ghost use Rattle.puncalc_program.specs.Script.{Goes, opened, recalculated, turn};
ghost use Rattle.puncalc_program.specs.Writing.{sunk, Writes};

use crate::desk::{Desk, Workers};
use crate::formulas::formula_cells;
use crate::input::one_name;
use crate::refusals::{LineRefusal, line_fault};
use crate::stop::Stop;
use crate::tally::tally_line;
use crate::writing::{put, refuse};
use byte_streams::Sink;
use cell_values::{Addr, FieldText, Shown, Texts};
use claim_core::Outcome;
use formula_grammar::laws::law_one_reading;
use recalculation::Pace;
use std::alloc::{AllocError, Global};
use std::thread::Threads;
use workbook_core::Workbook;

/// Makes a book of so many cells, and writes how large it is. Recalculates it and writes what it shows, and does so once
/// more with 1 in A1.
pub(crate) fn demo<R: Threads + Sync, K: Sink, P: Pace>(
    alloc: Global,
    workers: &Workers<'_, R, P>,
    count: u32,
    out: &mut K,
    kept: &mut Option<Outcome>,
) -> Result<u8, Stop>
    requires workers { IsWithin 1 MAX_WORKERS workers.now.count }
    requires count { IsWithin 1 MAX_DEMO_CELLS count }
    requires kept { kept.old ≡ None }
    ensures answers { (read : Readings) → AreReadings read →
        Answers (demo_output read workers.now.count count) (sunk K.written K.faults K.calls out.old) (sunk K.written K.faults K.calls out.new) kept.new result }
    ensures ended { IfOk result (λ status. (status ≡ 0) ⊎ (status ≡ 4)) }
    ensures causes { StopsFor ⊥ (sunk K.written K.faults K.calls out.old) (sunk K.written K.faults K.calls out.new) result }
{
    law_one_reading();
    let names = one_name(alloc)?;
    let book = Workbook::new(alloc, names, Texts::new(alloc));
    let mut desk = Desk::new(alloc, book);
    match desk.generate(count)? {
        Some(why) => refuse_demo(alloc, why, out),
        None => tell(alloc, workers, desk, out, kept),
    }
}

/// Writes how large the book is, what it shows, and what it shows with 1 in A1.
fn tell<R: Threads + Sync, K: Sink, P: Pace>(
    alloc: Global,
    workers: &Workers<'_, R, P>,
    mut desk: Desk,
    out: &mut K,
    kept: &mut Option<Outcome>,
) -> Result<u8, Stop>
    requires workers { IsWithin 1 MAX_WORKERS workers.now.count }
    requires names { desk.names ≡ the_names }
    ensures answers { (read : Reading) → IsReading the_names read →
        Answers (demo_on read the_names workers.now.count (Goes desk.standing [])) (sunk K.written K.faults K.calls out.old) (sunk K.written K.faults K.calls out.new) kept.new result }
    ensures ended { IfOk result (λ status. (status ≡ 0) ⊎ (status ≡ 4)) }
    ensures causes { StopsFor ⊥ (sunk K.written K.faults K.calls out.old) (sunk K.written K.faults K.calls out.new) result }
{
    desk.write_size(out)?;
    desk.summarize(workers, out)?;
    tell_last(alloc, workers, desk, out, kept)
}

/// Puts 1 into A1, and writes what the book shows then.
fn tell_last<R: Threads + Sync, K: Sink, P: Pace>(
    alloc: Global,
    workers: &Workers<'_, R, P>,
    mut desk: Desk,
    out: &mut K,
    kept: &mut Option<Outcome>,
) -> Result<u8, Stop>
    requires workers { IsWithin 1 MAX_WORKERS workers.now.count }
    requires names { desk.names ≡ the_names }
    ensures answers { (read : Reading) → IsReading the_names read →
        Answers (last_part workers.now.count desk.standing (with_one read the_names desk.standing)) (sunk K.written K.faults K.calls out.old) (sunk K.written K.faults K.calls out.new) kept.new result }
    ensures ended { IfOk result (λ status. (status ≡ 0) ⊎ (status ≡ 4)) }
    ensures causes { StopsFor ⊥ (sunk K.written K.faults K.calls out.old) (sunk K.written K.faults K.calls out.new) result }
{
    law_one_reading();
    if let Some(why) = desk.put_one()? {
        *kept = desk.into_kept();
        return refuse_demo(alloc, why, out);
    }
    desk.summarize(workers, out)?;
    *kept = desk.into_kept();
    Ok(0)
}

/// Writes the line that tells why a field is refused, and answers the status.
fn refuse_demo<K: Sink>(alloc: Global, why: LineRefusal, out: &mut K) -> Result<u8, Stop>
    ensures writes { Writes (demo_refused why None).pieces (sunk K.written K.faults K.calls out.old) (sunk K.written K.faults K.calls out.new) result }
    ensures status { IfOk result (λ status. status ≡ 4) }
{
    let what = field_refused(alloc, why)?;
    refuse(alloc, 4, &what, out)
}

/// Why a field is refused, in words.
fn field_refused(alloc: Global, why: LineRefusal) -> Result<String, AllocError>
    ensures { IfOk result (λ what. string_bytes what ≡ codes "demo" ++ line_fault why) }
{
    let fault = line_fault(alloc, why)?;
    format!(in alloc; "demo{fault}")
}

/// The field of a cell of the generated book, by the cell's number.
fn demo_field(alloc: Global, k: u32) -> Result<String, AllocError>
    requires { k < MAX_DEMO_CELLS }
    ensures { IfOk result (λ field. string_bytes field ≡ demo_field k) }
{
    field_of_row(alloc, k / 8 + 1, k % 8)
}

/// A field of a row of the generated book. The columns are numbered from 0.
fn field_of_row(alloc: Global, row: u32, column: u32) -> Result<String, AllocError>
    requires from { 1 ≤ row }
    requires to { row ≤ MAX_DEMO_CELLS }
    requires column { column < 8 }
    ensures { IfOk result (λ field. string_bytes field ≡ get_or (demo_fields row) column []) }
{
    match column {
        0 => {
            let number = 8 * (row - 1);
            format!(in alloc; "{number}")
        }
        1 => format!(in alloc; "=A{row}+1"),
        2 => format!(in alloc; "=B{row}*2"),
        3 => running_field(alloc, row),
        4 => format!(in alloc; "=IF(MOD(A{row},3)=0,D{row},E{row})"),
        5 => format!(in alloc; "=IFERROR(E{row},0)"),
        6 => format!(in alloc; "=SUM(A{row}:D{row})"),
        _ => format!(in alloc; "=G{row}-F{row}"),
    }
}

/// The field of a row that sums what stands above it in the column of products.
fn running_field(alloc: Global, row: u32) -> Result<String, AllocError>
    requires { 1 ≤ row }
    ensures { IfOk result (λ field. string_bytes field ≡ running_field row) }
{
    if row == 1 {
        String::from_str(alloc, "=C1")
    } else {
        let above = row - 1;
        format!(in alloc; "=D{above}+C{row}")
    }
}

/// The cell with this number in the generated book.
fn demo_cell(k: u32) -> Addr
    ensures { result ≡ demo_cell k }
{
    Addr {
        sheet: 0,
        row: k / 8 + 1,
        col: (k % 8) as u16 + 1,
    }
}

impl Desk {
    /// Puts the first cells of the generated book into a sheet without cells. Answers why a field is refused, if one is.
    fn generate(&mut self, count: u32) -> Result<Option<LineRefusal>, Stop>
        requires count { count ≤ MAX_DEMO_CELLS }
        requires names { self.old.names ≡ the_names }
        requires empty { self.old.standing ≡ opened no_cells }
        ensures made { (read : Reading) → IsReading the_names read → Changes (generated read the_names count) self.old.standing self.new.standing result }
        ensures names { self.new.names ≡ self.old.names }
    {
        for k in 0..count {
            if let Some(why) = self.put_cell(k)? {
                return Ok(Some(why));
            }
        }
        Ok(None)
    }

    /// Puts one cell of the generated book into the sheet. Answers why its field is refused, if it is.
    fn put_cell(&mut self, k: u32) -> Result<Option<LineRefusal>, Stop>
        requires count { k < MAX_DEMO_CELLS }
        requires names { self.old.names ≡ the_names }
        ensures made { (read : Reading) → IsReading the_names read → Changes (turn read the_names 1 (Line.Set (demo_cell k) (demo_field k)) self.old.standing) self.old.standing self.new.standing result }
        ensures names { self.new.names ≡ self.old.names }
    {
        let text = demo_field(self.alloc, k)?;
        let field = FieldText::new(self.alloc, &text)?;
        self.set(demo_cell(k), &field)
    }

    /// Puts 1 into A1. Answers why that is refused, if it is.
    fn put_one(&mut self) -> Result<Option<LineRefusal>, Stop>
        requires { self.old.names ≡ the_names }
        ensures made { (read : Reading) → IsReading the_names read → Changes (with_one read the_names self.old.standing) self.old.standing self.new.standing result }
        ensures names { self.new.names ≡ self.old.names }
    {
        let field = FieldText::new(self.alloc, "1")?;
        self.set(demo_cell(0), &field)
    }

    /// Writes how many cells there are, and how many have formulas.
    fn write_size<K: Sink>(&self, out: &mut K) -> Result<(), Stop>
        ensures { Writes (size_line self.now.standing.book ∷ []) (sunk K.written K.faults K.calls out.old) (sunk K.written K.faults K.calls out.new) result }
    {
        let line = self.size_line()?;
        put(out, line.as_bytes())
    }

    /// The line that tells how many cells there are, and how many have formulas.
    #[tactic(auto, unfolding(crate::specs::Demo::size_line))]
    fn size_line(&self) -> Result<String, AllocError>
        ensures { IfOk result (λ line. string_bytes line ≡ size_line self.now.standing.book) }
    {
        let cells = self.calc.book().count();
        let found = formula_cells(self.alloc, self.calc.book())?;
        let formulas = found.len();
        format!(in self.alloc; "cells {cells} formulas {formulas}\n")
    }

    /// Recalculates, and writes what the formula cells show.
    fn summarize<R: Threads + Sync, K: Sink, P: Pace>(
        &mut self,
        workers: &Workers<'_, R, P>,
        out: &mut K,
    ) -> Result<(), Stop>
        requires { IsWithin 1 MAX_WORKERS workers.now.count }
        ensures writes { Writes (summary_line self.old.standing ∷ []) (sunk K.written K.faults K.calls out.old) (sunk K.written K.faults K.calls out.new) result }
        ensures done { OnOk result (self.new.standing ≡ recalculated workers.now.count self.old.standing) }
        ensures names { self.new.names ≡ self.old.names }
    {
        let pending = self.recalculate(workers)?;
        let line = self.summary(pending)?;
        put(out, line.as_bytes())
    }

    /// The line that tells what the formula cells show, and how many cells were pending.
    fn summary(&self, pending: u32) -> Result<String, AllocError>
        requires { self.now.standing.pending ≡ [] }
        ensures { IfOk result (λ line. string_bytes line ≡ tally_line pending (all_shown self.now.standing.book)) }
    {
        let shows = self.all_shown()?;
        tally_line(self.alloc, pending, &shows)
    }

    /// What the formula cells show, in order of address.
    fn all_shown(&self) -> Result<Vec<Shown>, AllocError>
        requires { self.now.standing.pending ≡ [] }
        ensures { IfOk result (λ shows. shows.items ≡ all_shown self.now.standing.book) }
    {
        let cells = formula_cells(self.alloc, self.calc.book())?;
        self.shown_at(&cells)
    }

    /// What these cells show.
    fn shown_at(&self, cells: &[Addr]) -> Result<Vec<Shown>, AllocError>
        requires { self.now.standing.pending ≡ [] }
        ensures { IfOk result (λ shows. shows.items ≡ map (shown self.now.standing.book) cells.now) }
    {
        let mut shows = Vec::with_capacity(self.alloc, cells.len())?;
        for at in cells {
            shows.push(self.calc.shown(*at))?;
        }
        Ok(shows)
    }
}
