//! The commands of the program.

ghost use Rattle.std.specs.Prelude.{◌≡◌, ◌≢◌, ◌≤◌, ◌+◌, ◌⊎◌, [], List, None, Some, length, map, string_bytes, IfOk, IfSome};
ghost use Rattle.std.specs.Option.{option_map};
ghost use Rattle.byte_streams.specs.Faults.{HasRisen};
ghost use Rattle.byte_streams.specs.Folders.{StoredFile};
ghost use Rattle.command_words.specs.Asking.{edit};
ghost use Rattle.command_words.specs.Sound.{IsWithin};
ghost use Rattle.formula_grammar.specs.Reading.{Reading, IsReading};
ghost use Rattle.command_words.specs.declared.TheConstants.{MAX_FILES, MAX_WORKERS};
ghost use Rattle.sheet_loading.specs.declared.TheConstants.{SHEET_BYTES};
ghost use Rattle.puncalc_program.specs.declared.script.TheConstants.{SCRIPT_BYTES};
ghost use Rattle.puncalc_program.specs.Output.{AreReadings, Readings, edit_output, script_output, show_output, shown_output};
ghost use Rattle.puncalc_program.specs.Run.{Answers, AnswersAll, CouldNotRead, IsFinal, StopsFor};
ghost use Rattle.puncalc_program.specs.Script.{lines_of, opened, script_from};
ghost use Rattle.puncalc_program.specs.Writing.{sunk};

use crate::desk::{Desk, Workers};
use crate::files::{Loaded, load_files};
use crate::input::{read_sheet, refuse_input};
use crate::refusals::name_refused;
use crate::script::SCRIPT_BYTES;
use crate::stop::Stop;
use crate::writing::refuse;
use byte_streams::{Folder, Sink, Source, read_all};
use cell_values::{NameFault, SheetNames};
use claim_core::Outcome;
use recalculation::Pace;
use std::alloc::Global;
use std::thread::Threads;
use workbook_core::Workbook;

/// Reads the input to its end, and shows its sheet.
pub(crate) fn show<R: Threads + Sync, S: Source, K: Sink, P: Pace>(
    alloc: Global,
    workers: &Workers<'_, R, P>,
    input: &mut S,
    out: &mut K,
    kept: &mut Option<Outcome>,
) -> Result<u8, Stop>
    requires workers { IsWithin 1 MAX_WORKERS workers.now.count }
    requires kept { kept.old ≡ None }
    ensures answers { IfSome (S.left input.old) (λ bytes. (read : Readings) → AreReadings read →
        Answers (show_output read workers.now.count bytes) (sunk K.written K.faults K.calls out.old) (sunk K.written K.faults K.calls out.new) kept.new result) }
    ensures read_whole { IfOk result (λ status. status ≡ 0 → S.left input.new ≡ option_map (λ _. []) (S.left input.old)) }
    ensures ended { IfOk result (λ status. (status ≡ 0) ⊎ (status ≡ 3)) }
    ensures causes { StopsFor (HasRisen (S.faults input.old) (S.faults input.new)) (sunk K.written K.faults K.calls out.old) (sunk K.written K.faults K.calls out.new) result }
    ensures few_reads { S.calls input.new ≤ S.calls input.old + SHEET_BYTES + 1 }
{
    match read_sheet(alloc, input, out)? {
        Some(book) => show_book(alloc, workers, book, out, kept),
        None => Ok(3),
    }
}

/// Recalculates a book and writes its first sheet.
fn show_book<R: Threads + Sync, K: Sink, P: Pace>(
    alloc: Global,
    workers: &Workers<'_, R, P>,
    book: Workbook,
    out: &mut K,
    kept: &mut Option<Outcome>,
) -> Result<u8, Stop>
    requires { IsWithin 1 MAX_WORKERS workers.now.count }
    ensures answers { Answers (shown_output workers.now.count book.book) (sunk K.written K.faults K.calls out.old) (sunk K.written K.faults K.calls out.new) kept.new result }
    ensures ended { IfOk result (λ status. status ≡ 0) }
    ensures causes { StopsFor ⊥ (sunk K.written K.faults K.calls out.old) (sunk K.written K.faults K.calls out.new) result }
{
    let mut desk = Desk::new(alloc, book);
    desk.recalculate(workers)?;
    desk.write_sheet(0, out)?;
    *kept = desk.into_kept();
    Ok(0)
}

/// Fetches the files, reads the input to its end, and edits their sheets by the script that it holds.
pub(crate) fn edit<R: Threads + Sync, D: Folder, S: Source, K: Sink, P: Pace>(
    alloc: Global,
    workers: &Workers<'_, R, P>,
    files: &[String],
    folder: &mut D,
    input: &mut S,
    out: &mut K,
    kept: &mut Option<Outcome>,
) -> Result<u8, Stop>
    requires workers { IsWithin 1 MAX_WORKERS workers.now.count }
    requires files { IsWithin 1 MAX_FILES (length files.now) }
    requires kept { kept.old ≡ None }
    ensures answers { (told : List StoredFile) → D.files folder.old ≡ Some told → IfSome (S.left input.old) (λ bytes. (read : Readings) → AreReadings read →
        AnswersAll (edit_output read workers.now.count (map string_bytes files.now) told bytes) (sunk K.written K.faults K.calls out.old) (sunk K.written K.faults K.calls out.new) kept.new result) }
    ensures read_whole { IfOk result (λ status. status ≡ 0 → S.left input.new ≡ option_map (λ _. []) (S.left input.old)) }
    ensures accepted { IfOk result (λ status. status ≢ 2) }
    ensures ended { IfOk result IsFinal }
    ensures same_files { D.files folder.new ≡ D.files folder.old }
    ensures causes { StopsFor (CouldNotRead (Some (edit workers.now.count (map string_bytes files.now))) (S.faults input.old, S.faults input.new) (D.faults folder.old, D.faults folder.new) (D.files folder.old))
        (sunk K.written K.faults K.calls out.old) (sunk K.written K.faults K.calls out.new) result }
    ensures few_reads { S.calls input.new ≤ S.calls input.old + SCRIPT_BYTES + 1 }
{
    let names = match SheetNames::new(alloc, files) {
        Ok(names) => names,
        Err(NameFault::Bad(number)) => return refuse(alloc, 3, &name_refused(alloc, number)?, out),
        Err(NameFault::OutOfMemory) => return Err(Stop::Memory),
    };
    match load_files(alloc, names, files, folder)? {
        Loaded::Whole(book) => run_input(alloc, workers, book, input, out, kept),
        Loaded::Refused(what) => refuse(alloc, 3, &what, out),
    }
}

/// Reads the input to its end, and edits the book by the script that it holds.
fn run_input<R: Threads + Sync, S: Source, K: Sink, P: Pace>(
    alloc: Global,
    workers: &Workers<'_, R, P>,
    book: Workbook,
    input: &mut S,
    out: &mut K,
    kept: &mut Option<Outcome>,
) -> Result<u8, Stop>
    requires workers { IsWithin 1 MAX_WORKERS workers.now.count }
    requires kept { kept.old ≡ None }
    ensures answers { IfSome (S.left input.old) (λ bytes. (read : Reading) → IsReading book.names read →
        Answers (script_output read book.names workers.now.count book.book bytes) (sunk K.written K.faults K.calls out.old) (sunk K.written K.faults K.calls out.new) kept.new result) }
    ensures read_whole { IfOk result (λ status. status ≡ 0 → S.left input.new ≡ option_map (λ _. []) (S.left input.old)) }
    ensures ended { IfOk result (λ status. (status ≡ 0) ⊎ (status ≡ 4)) }
    ensures causes { StopsFor (HasRisen (S.faults input.old) (S.faults input.new)) (sunk K.written K.faults K.calls out.old) (sunk K.written K.faults K.calls out.new) result }
    ensures few_reads { S.calls input.new ≤ S.calls input.old + SCRIPT_BYTES + 1 }
{
    match read_all(alloc, input, SCRIPT_BYTES) {
        Ok(script) => run_script(alloc, workers, book, &script, out, kept),
        Err(fault) => refuse_input(alloc, fault, 4, "script: E6", out),
    }
}

/// Edits a book by a script.
fn run_script<R: Threads + Sync, K: Sink, P: Pace>(
    alloc: Global,
    workers: &Workers<'_, R, P>,
    book: Workbook,
    script: &[u8],
    out: &mut K,
    kept: &mut Option<Outcome>,
) -> Result<u8, Stop>
    requires workers { IsWithin 1 MAX_WORKERS workers.now.count }
    requires few { length script.now ≤ SCRIPT_BYTES }
    ensures answers { (read : Reading) → IsReading book.names read →
        Answers (script_from read book.names workers.now.count 1 (opened book.book) (lines_of script.now)) (sunk K.written K.faults K.calls out.old) (sunk K.written K.faults K.calls out.new) kept.new result }
    ensures ended { IfOk result (λ status. (status ≡ 0) ⊎ (status ≡ 4)) }
    ensures causes { StopsFor ⊥ (sunk K.written K.faults K.calls out.old) (sunk K.written K.faults K.calls out.new) result }
{
    let mut desk = Desk::new(alloc, book);
    let status = desk.run_script(workers, script, out)?;
    *kept = desk.into_kept();
    Ok(status)
}
