//! The sheet of the input.

ghost use Rattle.std.specs.Prelude.{◌≡◌, ◌≤◌, ◌+◌, [], IfOk, IfSome};
ghost use Rattle.std.specs.Option.{option_map};
ghost use Rattle.byte_streams.specs.Faults.{HasRisen};
ghost use Rattle.sheet_loading.specs.declared.TheConstants.{SHEET_BYTES};
ghost use Rattle.puncalc_program.specs.Output.{AreReadings, Readings, only_sheet, the_names};
ghost use Rattle.puncalc_program.specs.Run.{ReadsSheet, StopsFor};
ghost use Rattle.puncalc_program.specs.Refusals.{refusal_line};
ghost use Rattle.puncalc_program.specs.Writing.{sunk, Unread};

use crate::files::{Loaded, load_sheet};
use crate::stop::Stop;
use crate::writing::refuse;
use byte_streams::{ReadFault, Sink, Source, read_all};
use cell_values::SheetNames;
use sheet_loading::SHEET_BYTES;
use std::alloc::{AllocError, Global};
use workbook_core::Workbook;

/// Reads the input to its end, as a workbook of one sheet. None where the sheet is refused: then the line that tells why
/// is written.
pub(crate) fn read_sheet<S: Source, K: Sink>(
    alloc: Global,
    input: &mut S,
    out: &mut K,
) -> Result<Option<Workbook>, Stop>
    ensures sheet { IfSome (S.left input.old) (λ bytes. (read : Readings) → AreReadings read →
        ReadsSheet (only_sheet read bytes) (sunk K.written K.faults K.calls out.old) (sunk K.written K.faults K.calls out.new) result) }
    ensures read_whole { IfOk result (λ book. IfSome book (λ _. S.left input.new ≡ option_map (λ _. []) (S.left input.old))) }
    ensures unwritten { IfOk result (λ book. IfSome book (λ _. sunk K.written K.faults K.calls out.new ≡ sunk K.written K.faults K.calls out.old)) }
    ensures causes { StopsFor (HasRisen (S.faults input.old) (S.faults input.new)) (sunk K.written K.faults K.calls out.old) (sunk K.written K.faults K.calls out.new) result }
    ensures few_reads { S.calls input.new ≤ S.calls input.old + SHEET_BYTES + 1 }
{
    match read_all(alloc, input, SHEET_BYTES) {
        Ok(bytes) => load_bytes(alloc, &bytes, out),
        Err(fault) => {
            refuse_input(alloc, fault, 3, "Sheet1: S4", out)?;
            Ok(None)
        }
    }
}

/// The same of the input's bytes.
fn load_bytes<K: Sink>(alloc: Global, bytes: &[u8], out: &mut K) -> Result<Option<Workbook>, Stop>
    ensures sheet { (read : Readings) → AreReadings read →
        ReadsSheet (only_sheet read bytes.now) (sunk K.written K.faults K.calls out.old) (sunk K.written K.faults K.calls out.new) result }
    ensures unwritten { IfOk result (λ book. IfSome book (λ _. sunk K.written K.faults K.calls out.new ≡ sunk K.written K.faults K.calls out.old)) }
    ensures causes { StopsFor ⊥ (sunk K.written K.faults K.calls out.old) (sunk K.written K.faults K.calls out.new) result }
{
    let names = one_name(alloc)?;
    match load_sheet(alloc, names, bytes)? {
        Loaded::Whole(book) => Ok(Some(book)),
        Loaded::Refused(what) => {
            refuse(alloc, 3, &what, out)?;
            Ok(None)
        }
    }
}

/// Ends a run whose input could not be read to its end: with this refusal and status, where it has too many bytes.
pub(crate) fn refuse_input<K: Sink>(
    alloc: Global,
    fault: ReadFault,
    status: u8,
    what: &str,
    out: &mut K,
) -> Result<u8, Stop>
    ensures { Unread status (refusal_line what.now) (sunk K.written K.faults K.calls out.old) (sunk K.written K.faults K.calls out.new) fault result }
{
    match fault {
        ReadFault::TooLong => refuse(alloc, status, what, out),
        ReadFault::Failed => Err(Stop::Read),
        ReadFault::OutOfMemory => Err(Stop::Memory),
    }
}

/// The names of the sheets, where the words name no files: there is one.
pub(crate) fn one_name(alloc: Global) -> Result<SheetNames, AllocError>
    ensures { IfOk result (λ names. names ≡ the_names) }
{
    let name = String::from_str(alloc, "Sheet1")?;
    let files = vec![in alloc; name]?;
    match SheetNames::new(alloc, &files) {
        Ok(names) => Ok(names),
        Err(_) => Err(AllocError),
    }
}
