//! The command `trace`.

ghost use Rattle.std.specs.Prelude.{◌≡◌, ◌≤◌, ◌+◌, ◌++◌, ◌∷◌, ◌⊎◌, [], None, All, codes, IfOk, IfSome};
ghost use Rattle.std.specs.Option.{option_map};
ghost use Rattle.byte_streams.specs.Faults.{HasRisen};
ghost use Rattle.cell_values.specs.Addresses.{IsOnSheet};
ghost use Rattle.command_words.specs.Sound.{IsTrace};
ghost use Rattle.sheet_loading.specs.declared.TheConstants.{SHEET_BYTES};
ghost use Rattle.trace_text.specs.TraceText.{trace_lines};
ghost use Rattle.puncalc_program.specs.Output.{AreReadings, Readings, trace_output, traced_output};
ghost use Rattle.puncalc_program.specs.Run.{Answers, StopsFor};
ghost use Rattle.puncalc_program.specs.Sheets.{sheet_rows};
ghost use Rattle.puncalc_program.specs.Writing.{sunk, Writes};

use crate::desk::{Desk, tell_cells};
use crate::formulas::formula_cells;
use crate::input::read_sheet;
use crate::stop::Stop;
use crate::writing::put;
use byte_streams::{Sink, Source};
use cell_values::Addr;
use claim_core::Outcome;
use recalculation::Traced;
use std::alloc::Global;
use trace_text::TraceText;
use workbook_core::Workbook;

/// Reads the input to its end, recalculates its sheet by workers that step in the given order, and writes their steps
/// and the sheet.
pub(crate) fn trace<S: Source, K: Sink>(
    alloc: Global,
    workers: u8,
    order: &[u8],
    stopped: &[u8],
    input: &mut S,
    out: &mut K,
    kept: &mut Option<Outcome>,
) -> Result<u8, Stop>
    requires words { IsTrace workers order.now stopped.now }
    requires kept { kept.old ≡ None }
    ensures answers { IfSome (S.left input.old) (λ bytes. (read : Readings) → AreReadings read →
        Answers (trace_output read workers order.now stopped.now bytes) (sunk K.written K.faults K.calls out.old) (sunk K.written K.faults K.calls out.new) kept.new result) }
    ensures read_whole { IfOk result (λ status. status ≡ 0 → S.left input.new ≡ option_map (λ _. []) (S.left input.old)) }
    ensures ended { IfOk result (λ status. (status ≡ 0) ⊎ (status ≡ 3)) }
    ensures causes { StopsFor (HasRisen (S.faults input.old) (S.faults input.new)) (sunk K.written K.faults K.calls out.old) (sunk K.written K.faults K.calls out.new) result }
    ensures few_reads { S.calls input.new ≤ S.calls input.old + SHEET_BYTES + 1 }
{
    match read_sheet(alloc, input, out)? {
        Some(book) => trace_book(alloc, workers, order, stopped, book, out, kept),
        None => Ok(3),
    }
}

/// Recalculates a book by workers that step in the given order, and writes their steps and the first sheet.
fn trace_book<K: Sink>(
    alloc: Global,
    workers: u8,
    order: &[u8],
    stopped: &[u8],
    book: Workbook,
    out: &mut K,
    kept: &mut Option<Outcome>,
) -> Result<u8, Stop>
    requires { IsTrace workers order.now stopped.now }
    ensures answers { Answers (traced_output workers order.now stopped.now book.book) (sunk K.written K.faults K.calls out.old) (sunk K.written K.faults K.calls out.new) kept.new result }
    ensures ended { IfOk result (λ status. status ≡ 0) }
    ensures causes { StopsFor ⊥ (sunk K.written K.faults K.calls out.old) (sunk K.written K.faults K.calls out.new) result }
{
    tell_cells(&book);
    let cells = formula_cells(alloc, &book)?;
    let mut desk = Desk::new(alloc, book);
    let steps = desk.recalculate_in_order(workers, order, stopped)?;
    write_trace(alloc, &desk, &cells, stopped, &steps, out)?;
    *kept = desk.into_kept();
    Ok(0)
}

/// Writes these steps over the cells of a round, and then the first sheet.
fn write_trace<K: Sink>(
    alloc: Global,
    desk: &Desk,
    cells: &[Addr],
    stopped: &[u8],
    steps: &[Traced],
    out: &mut K,
) -> Result<(), Stop>
    requires cells { All IsOnSheet cells.now }
    requires pending { desk.now.standing.pending ≡ [] }
    ensures { Writes (trace_lines cells.now stopped.now steps.now ++ codes "result\n" ∷ sheet_rows desk.now.standing.book 0) (sunk K.written K.faults K.calls out.old) (sunk K.written K.faults K.calls out.new) result }
{
    write_steps(alloc, cells, stopped, steps, out)?;
    put(out, "result\n".as_bytes())?;
    desk.write_sheet(0, out)
}

/// Writes the lines that tell of these steps over the cells of a round.
fn write_steps<K: Sink>(
    alloc: Global,
    cells: &[Addr],
    stopped: &[u8],
    steps: &[Traced],
    out: &mut K,
) -> Result<(), Stop>
    requires { All IsOnSheet cells.now }
    ensures { Writes (trace_lines cells.now stopped.now steps.now) (sunk K.written K.faults K.calls out.old) (sunk K.written K.faults K.calls out.new) result }
{
    let mut lines = TraceText::new(alloc, cells, stopped, steps)?;
    while let Some(line) = lines.next_line()? {
        put(out, line.as_bytes())?;
    }
    Ok(())
}
